//! Faults of a call.

use dns_name::{NameFault, NoMemory};
use dns_text::TextFault;
use dns_wire::{EncodeFault, WireFault};
use thiserror::Error;

/// The fault that a call returns, or the fault of its line.
#[derive(Debug, Drop, Error)]
pub enum CallFault {
    #[error("{0:?}")]
    Name(#[from] NameFault),
    #[error("{0:?}")]
    Text(#[from] TextFault),
    #[error("{0:?}")]
    Wire(#[from] WireFault),
    #[error("{0:?}")]
    Encode(#[from] EncodeFault),
    #[error("NoMemory")]
    NoMemory(#[from(alloc)] NoMemory),
    /// No call has this word and number of arguments, or an argument is not of the kind that the call takes.
    #[error("NoCall")]
    NoCall,
}
