//! Stubs: zones that the operator points at name servers of their own.
#![tactic(auto)]

// In the order in which to read them.

// A stub.
mod stub;
// The stub that covers a name.
mod closest;
// Reasons to refuse a stub.
mod reason;
// The list.
mod table;
// The way back of a change.
mod saved;
// Faults of a change.
mod fault;

pub use closest::closest_law;
pub use fault::StubFault;
pub use saved::SavedStubs;
pub use stub::{MOST_ADDRS, Stub};
pub use table::{MOST_STUBS, StubTable, limits_law};
