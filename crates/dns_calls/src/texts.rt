//! Calls that read text and write it again.

use crate::fault::CallFault;
use dns_text::{
    push_data, read_addr, read_data, read_record, read_type, write_addr, write_record, write_type,
};
use std::alloc::Global;

/// The text of the record that a text stands for.
pub fn record_text(alloc: Global, text: &[u8]) -> Result<Vec<u8>, CallFault> {
    Ok(write_record(alloc, &read_record(alloc, text)?)?)
}

/// The text of the data that a text stands for, of a type that a word names.
pub fn data_text(alloc: Global, word: &[u8], text: &[u8]) -> Result<Vec<u8>, CallFault> {
    let data = read_data(alloc, read_type(word)?, text)?;
    let mut told = Vec::new(alloc);
    push_data(&data, &mut told)?;
    Ok(told)
}

/// The number of the type that a word names, and its text.
pub fn type_text(alloc: Global, word: &[u8]) -> Result<Vec<u8>, CallFault> {
    let kind = read_type(word)?;
    let mut told = format!(in alloc; "{kind} ")?.into_bytes();
    told.extend_from_slice(&write_type(alloc, kind)?)?;
    Ok(told)
}

/// The text of the address of a server that a text stands for.
pub fn addr_text(alloc: Global, text: &[u8]) -> Result<Vec<u8>, CallFault> {
    Ok(write_addr(alloc, &read_addr(text)?)?)
}
