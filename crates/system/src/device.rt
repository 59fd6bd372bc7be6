//! The fault of a device.

use thiserror::Error;

/// The cause for which an exchange, a port or a listener returned nothing.
#[derive(Clone, Copy, Debug, PartialEq, Eq, Error)]
pub enum DeviceFault {
    /// The device failed, or a response did not come in time.
    #[error("the device failed")]
    Device,
    /// No memory was left.
    #[error("out of memory")]
    NoMemory,
}
