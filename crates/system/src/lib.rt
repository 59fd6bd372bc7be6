//! What the service needs of the C library and of devices: options of sockets and descriptors, polled files, addresses, and what is
//! said of a call that failed.
#![tactic(auto)]

// In the order in which to read them.

// The fault of a device.
mod device;
// A datagram that came in.
mod came;
// Errors of calls that never wait.
mod call_errors;
// Errors that mean no file descriptors are left.
mod descriptors;
// Lines of the log that more than one place writes.
mod log_lines;
// The place of a name server: its address and port as std has them.
mod place;
// A range of IP addresses.
mod range;
// An address as the C library takes it.
mod c_address;
// Options of sockets and descriptors that std lacks.
mod options;
// Files whose octets come when another program writes them.
mod polled_file;

pub use call_errors::{MOST_CALLS, would_wait};
pub use came::Came;
pub use descriptors::lacks_descriptors;
pub use device::DeviceFault;
pub use log_lines::{DEVICE_FAULT, WORKER_ENDED, cause_of};
pub use options::{
    bind_beside, descriptor_limit, limit_accept, set_backlog, takes_octets, widen_receive_buffer,
};
pub use place::place_of;
pub use polled_file::PolledFile;
pub use range::AddressRange;
