//! Names as octets, as a query has them, one after another in one block.

use dns_name::Name;
use std::alloc::{AllocError, Global};

/// The labels of many names, each preceded by its length, and without the zero octet that ends a name.
#[derive(Drop)]
pub struct Spelled {
    octets: Vec<u8>,
    ends: Vec<usize>,
}

impl Spelled {
    /// No names.
    pub fn new(alloc: Global) -> Spelled {
        Spelled {
            octets: Vec::new(alloc),
            ends: Vec::new(alloc),
        }
    }

    /// Adds a name.
    pub fn push(&mut self, name: &Name) -> Result<(), AllocError> {
        name.push_spelled(&mut self.octets)?;
        self.ends.push(self.octets.len())?;
        Ok(())
    }

    /// Adds the name of a text that has no escapes, and no dot at its end.
    pub fn push_text(&mut self, text: &[u8]) -> Result<(), AllocError> {
        let mut label = self.octets.len();
        self.octets.push(0)?;
        for octet in text {
            if *octet == b'.' {
                label = self.octets.len();
                self.octets.push(0)?;
            } else {
                self.octets.push(*octet)?;
                self.lengthen(label);
            }
        }
        self.ends.push(self.octets.len())?;
        Ok(())
    }

    /// Adds one to the length of the label that begins at a place.
    fn lengthen(&mut self, label: usize) {
        if let Some(length) = self.octets.get_mut(label) {
            *length = length.wrapping_add(1);
        }
    }

    /// The number of names.
    pub fn len(&self) -> usize {
        self.ends.len()
    }

    /// The octets of a name by its number. The root's if there is none.
    pub fn get(&self, number: usize) -> &[u8] {
        let start = match number.checked_sub(1) {
            Some(before) => self.ends.get(before).copied().unwrap_or(0),
            None => 0,
        };
        let end = self.ends.get(number).copied().unwrap_or(start);
        self.octets.get(start..end).unwrap_or(b"")
    }
}
