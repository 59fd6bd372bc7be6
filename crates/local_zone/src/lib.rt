//! Local zones and local data: answers that the operator sets in a table.
#![tactic(auto)]

// In the order in which to read them.

// The types of zones.
mod zone_type;
// A record. Its tag spares most comparisons of its owner with a name, and its mask those with a name above it.
mod mask;
mod record;
mod sought;
mod tag;
// A zone, with its name in the list of zones.
mod zone;
// The zone that covers a name.
mod closest;
mod zones;
// The records in order with an index by owner. `passes` takes many out, or puts them back, in one walk. `in_place` does so with
// few of a long list, which costs less. A `group` is the records of one owner, by TYPE in `sets` if there are several. `groups` looks
// one up in the index, and moves those of some owners out of it, or back. `counts_below` says of a name how many records lie strictly
// below it. `join` makes one index of two, with their counts.
mod counts_below;
mod group;
mod groups;
mod in_place;
mod join;
mod passes;
mod record_list;
mod removed;
mod sets;
mod taken;
// The number of records that lie in zones strictly below each name.
mod zoned;
// The changes of the list of zones.
mod zone_list;
// The changes of the list of records, each with its way back.
mod added;
mod records;
// Laws: the number of records below a name says which names exist; records that are taken out come back in their places.
mod counts;
mod gaps;
// Reasons to refuse a change.
mod reason;
// The answer to a question.
mod answer;
mod local_answer;
mod shared_answer;
// The same on the other side of a change, without going there. An `other_set` is the records of an owner and TYPE there.
mod answer_over;
mod other_counts;
mod other_set;
mod other_side;
mod own_records;
// The two lists together.
mod table;
// The way back of a change.
mod saved;
// Faults of a change.
mod fault;

pub use closest::closest_law;
pub use counts::counts_law;
pub use fault::TableFault;
pub use gaps::gaps_law;
pub use local_answer::{Local, LocalSet, ShownRecord};
pub use record::LocalRecord;
pub use saved::SavedTables;
pub use shared_answer::{SeenRecord, share_seen};
pub use table::{MOST_RECORDS, MOST_ZONES, ZoneTable, limits_law};
pub use zone::Zone;
pub use zone_type::{ZoneType, read_zone_type};
