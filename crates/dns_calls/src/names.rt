//! Calls for names.

use crate::fault::CallFault;
use dns_name::{Name, NoMemory};
use std::alloc::Global;

/// Octets as hexadecimal digits.
pub fn digits(alloc: Global, octets: &[u8]) -> Result<Vec<u8>, NoMemory> {
    Ok(hex::encode(alloc, octets)?.into_bytes())
}

/// The text of the name that a text stands for.
pub fn name_text(alloc: Global, text: &[u8]) -> Result<Vec<u8>, CallFault> {
    Ok(Name::from_text(alloc, text)?.to_text(alloc)?)
}

fn lent(alloc: Global, labels: &[Vec<u8>]) -> Result<Vec<&[u8]>, NoMemory> {
    let mut parts = Vec::new(alloc);
    for label in labels {
        parts.push(label.as_slice())?;
    }
    Ok(parts)
}

/// The text of the name of these labels.
pub fn name_of_labels(alloc: Global, labels: &[Vec<u8>]) -> Result<Vec<u8>, CallFault> {
    let parts = lent(alloc, labels)?;
    Ok(Name::from_labels(alloc, parts.as_slice())?.to_text(alloc)?)
}

/// Each label of a name behind a blank, as hexadecimal digits.
pub fn labels_of(alloc: Global, text: &[u8]) -> Result<Vec<u8>, CallFault> {
    let name = Name::from_text(alloc, text)?;
    let mut told = Vec::from_slice(alloc, b"labels")?;
    for label in name.labels() {
        told.push(b' ')?;
        told.extend_from_slice(&digits(alloc, label)?)?;
    }
    Ok(told)
}

/// The number of octets of a name in a message.
pub fn length_of(alloc: Global, text: &[u8]) -> Result<Vec<u8>, CallFault> {
    let len = Name::from_text(alloc, text)?.wire_len();
    Ok(format!(in alloc; "{len}")?.into_bytes())
}

/// The octets of a name in a message, without the zero that ends it.
pub fn spelling_of(alloc: Global, text: &[u8]) -> Result<Vec<u8>, CallFault> {
    let mut octets = Vec::new(alloc);
    Name::from_text(alloc, text)?.push_spelled(&mut octets)?;
    Ok(digits(alloc, &octets)?)
}

/// The text of a name without its leftmost label, or `none` of the root.
pub fn parent_of(alloc: Global, text: &[u8]) -> Result<Vec<u8>, CallFault> {
    match Name::from_text(alloc, text)?.parent(alloc)? {
        Some(parent) => Ok(parent.to_text(alloc)?),
        None => Ok(Vec::from_slice(alloc, b"none")?),
    }
}

/// The order of two names.
pub fn order_of(alloc: Global, text: &[u8], other: &[u8]) -> Result<Vec<u8>, CallFault> {
    let order = Name::from_text(alloc, text)?.cmp(&Name::from_text(alloc, other)?);
    Ok(format!(in alloc; "{order:?}")?.into_bytes())
}

/// Whether a name is at or below a zone.
pub fn is_below(alloc: Global, text: &[u8], zone: &[u8]) -> Result<Vec<u8>, CallFault> {
    let stands_below = Name::from_text(alloc, text)?.at_or_below(&Name::from_text(alloc, zone)?);
    Ok(format!(in alloc; "{stands_below}")?.into_bytes())
}
