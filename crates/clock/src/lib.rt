//! Clocks, deadlines, and the flag by which workers stop.
#![tactic(auto)]

// In the order in which to read them.

// The trait of clocks.
mod ticks;
// The time since a moment, by the system's monotonic clock.
mod monotonic;
// Deadlines, and the times that sockets wait and rest.
mod deadline;
// Timeouts of a connection's calls.
mod timeouts;
// The flag by which workers stop.
mod stop_flag;

pub use deadline::{Deadline, PATIENCE_SECONDS, REST_SECONDS, begin_wait, glance, is_wait_over};
pub use monotonic::{Elapsing, MonotonicClock};
pub use stop_flag::{StopFlag, put_off};
pub use ticks::Clock;
pub use timeouts::Timeouts;
