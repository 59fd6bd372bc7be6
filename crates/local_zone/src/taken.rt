//! A record that was taken out of the list.

use crate::record::LocalRecord;

/// A record, and its gap: how many records that stayed are between it and the one taken before.
#[derive(Drop)]
pub(crate) struct Taken {
    pub(crate) gap: usize,
    pub(crate) item: LocalRecord,
}
