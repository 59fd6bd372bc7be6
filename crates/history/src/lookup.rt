//! The reply to a lookup, with a share of the data.

ghost use Rattle.std.specs.Prelude.{◌≡◌, IfOk};
ghost use Rattle.history.specs.Reply.{look_seen, passes_on, seen_by, seen_first};
ghost use Rattle.local_zone.specs.Answer.{local_now, local_of};

use crate::event::{Look, Seen};
use crate::source::CellSource;
use dns_name::NoMemory;
use dns_text::{Items, Question, Shared};
use local_zone::{Local, LocalRecord, LocalSet, SeenRecord, Zone, ZoneTable};
use std::alloc::Global;
use stub_table::{Stub, StubTable};

/// The reply to a lookup of a question: the answer of the table, or the cell if the table has none.
pub fn question_sight<'a, C: CellSource>(
    cells: &'a C,
    table: &'a ZoneTable,
    question: &'a Question,
    moment: u64,
) -> Look<'a>
    ensures { look_seen result ≡ seen_first (local_of table.now question.now) (seen_by (C.shows_at cells.now moment question.now)) }
{
    let answer = table.answer(question);
    if passes(&answer) {
        cell_sight(cells, question, moment)
    } else {
        Look::Local(answer)
    }
}

/// Whether local zones leave a question to the cache.
fn passes(answer: &Local<LocalSet, &LocalRecord>) -> bool
    ensures { result ≡ passes_on (local_now answer.now) }
{
    match answer {
        Local::Data(_) => false,
        Local::NoData(_) => false,
        Local::NoName(_) => false,
        Local::Refuse => false,
        Local::Drop => false,
        Local::Pass => true,
    }
}

/// What the cell of a question lends.
fn cell_sight<'a, C: CellSource>(cells: &'a C, question: &Question, moment: u64) -> Look<'a>
    ensures { look_seen result ≡ seen_by (C.shows_at cells.now moment question.now) }
{
    match cells.shows(&question.owner, question.kind, moment) {
        Some(shown) => {
            if shown.rank.level() < 2 {
                Look::Unknown
            } else {
                Look::Held(shown)
            }
        }
        None => Look::Unknown,
    }
}

/// The reply to a lookup of a question, if local zones have this answer for it: that, or the cell if they have none.
pub fn sight_beside<C: CellSource>(
    alloc: Global,
    cells: &C,
    answer: Local<Items<SeenRecord>, LocalRecord>,
    question: &Question,
    moment: u64,
) -> Result<Seen, NoMemory>
    ensures { IfOk result (λ seen. seen ≡ seen_first answer (seen_by (C.shows_at cells.now moment question.now))) }
{
    match answer {
        Local::Pass => cell_sight(cells, question, moment).to_seen(alloc),
        answer => Ok(Seen::Local(answer)),
    }
}

/// A share of each zone.
pub fn share_zones(alloc: Global, zones: &[Shared<Zone>]) -> Result<Vec<Shared<Zone>>, NoMemory>
    ensures { IfOk result (λ v. v.items ≡ zones.now) }
{
    let mut shared = Vec::new(alloc);
    for zone in zones {
        shared.push(zone.share()?)?;
    }
    Ok(shared)
}

/// A share of each record.
pub fn share_records(alloc: Global, records: &[LocalRecord]) -> Result<Vec<LocalRecord>, NoMemory>
    ensures { IfOk result (λ v. v.items ≡ records.now) }
{
    let mut shared = Vec::new(alloc);
    for record in records {
        shared.push(record.share()?)?;
    }
    Ok(shared)
}

/// A share of each stub.
pub fn share_stubs(alloc: Global, stubs: &[Shared<Stub>]) -> Result<Vec<Shared<Stub>>, NoMemory>
    ensures { IfOk result (λ v. v.items ≡ stubs.now) }
{
    let mut shared = Vec::new(alloc);
    for stub in stubs {
        shared.push(stub.share()?)?;
    }
    Ok(shared)
}
