//! The resolution of a question (RFC 1034, section 5.3.3), as a state machine: it takes an input, and returns what it wants next.
//! It owns no socket, clock, lock or book.
#![tactic(auto)]

// In reading order.

// Limits of the work for one question.
mod limits;
// The answer to a question.
mod answer;
// The inputs of a task, and its wants.
mod want;
// The reply to a lookup, narrowed to what is valid for it.
mod lookup_reply;
// Endings of a question.
mod finishing;
// The name whose servers are asked about a question.
mod served;
// The aliases so far, and the question to which they lead.
mod path;
// The first lookup, of the question itself.
mod first_lookup;
// Aliases inside a response.
mod following;
// Lists of addresses joined, each address once.
mod joining;
// Servers that are asked in turn, and the questions for their addresses.
mod search;
// The innermost question of a search.
mod innermost;
// Queries to send.
mod sending;
// The addresses in a set.
mod addresses;
// The servers that a book names.
mod listing;
// Lookups for servers without an address.
mod seeking;
// The answer, denial or referral of a response, acted on.
mod concluding;
// The finds of a response, handed to the book one by one.
mod admitting;
// The outcome of a query.
mod outcome;
// The phases of a task, and the step from one to the next.
mod phase;
// The task.
mod task;

// Consequences of the definitions.
mod laws;

pub use answer::{Answer, AnswerSet, Soa};
pub use first_lookup::{first_look, settled};
pub use laws::{admission_law, due_law, limits_law, resolved_law, servfail_law};
pub use limits::{
    FIRST_STEPS, MOST_ALIASES, MOST_BEGUN, MOST_DEPTH, MOST_FINDS, MOST_SENDS, MOST_TARGETS,
};
pub use path::Path;
pub use phase::{Phase, Stage};
pub use search::{Hunt, Nested, Search};
pub use task::{State, Task};
pub use want::{Allowance, AskFault, Input, Step, Want};
