//! Limits of the work for one question, with all the questions that are begun for it.

use harvest::MOST_CHOSEN;

/// The most aliases that are followed.
pub const MOST_ALIASES: usize = 16;

/// The most queries that are sent.
pub const MOST_SENDS: usize = 64;

/// The most questions for addresses of servers that are begun. Without it, two zones whose servers lie in each other would begin
/// one for each server at each depth.
pub const MOST_BEGUN: usize = 64;

/// The number of servers without an address, of one list of servers, for whose addresses other servers are asked: the first ones
/// of the list. Those behind them are looked up in the cache alone. Without it, one referral would turn a question into a query
/// for each name in it, all sent to whatever servers those names lie in.
pub const MOST_TARGETS: usize = 5;

/// The most questions for addresses of servers that are open inside one another.
pub const MOST_DEPTH: usize = 8;

/// The number of steps for which a task that has begun has room. Most questions that one exchange answers need no more.
pub const FIRST_STEPS: usize = 8;

/// The most finds of one response that are handed to the book: as many as a harvest chooses. That is more than a chain of as many
/// aliases as are followed has. The answer, the aliases and the referral are taken from the whole response.
pub const MOST_FINDS: usize = MOST_CHOSEN;
