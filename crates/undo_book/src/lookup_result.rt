//! The result of a lookup, which shares the data.

ghost use Rattle.std.specs.Prelude.{◌≡◌, IfOk};
ghost use Rattle.history.specs.History.{stubs_of, tables_of};
ghost use Rattle.history.specs.Reply.{seen_of};
ghost use Rattle.history.specs.Servers.{servers_of};
ghost use Rattle.undo_book.specs.PlainPast.{past_in};

use crate::listing::{buried_commands, commands};
use crate::oldest::oldest;
use crate::plain_history::PlainPast;
use crate::preview::{answer_after, next_undo};
use dns_name::{Name, NoMemory};
use dns_text::{Items, Shared};
use history::{
    Ask, Seen, Tables, closest_servers, question_sight, share_records, share_stubs, share_zones,
};
use std::alloc::Global;
use stub_table::StubTable;

/// What is seen of what is asked.
pub(crate) fn seen(
    alloc: Global,
    past: &PlainPast,
    tables: &Tables,
    ask: &Ask,
    moment: u64,
) -> Result<Seen, NoMemory>
    requires tabled { tables.now ≡ tables_of (past_in past.now) }
    ensures { IfOk result (λ s. s ≡ seen_of past.now.settings (past_in past.now) ask.now moment) }
{
    match ask {
        Ask::Answer(question) => {
            question_sight(past, &tables.local, question, moment).to_seen(alloc)
        }
        Ask::Zones => Ok(Seen::Zones(Items::new(share_zones(alloc, tables.local.zones())?))),
        Ask::Records => Ok(Seen::Records(Items::new(share_records(
            alloc,
            tables.local.records(),
        )?))),
        Ask::Stubs => Ok(Seen::Stubs(Items::new(share_stubs(alloc, tables.stubs.stubs())?))),
        Ask::Commands => Ok(Seen::Commands(Items::new(commands(alloc, past)?))),
        Ask::Buried => Ok(Seen::Buried(Items::new(buried_commands(alloc, past)?))),
        Ask::Servers(name) => seen_servers(alloc, past, &tables.stubs, name, moment),
        Ask::Oldest => Ok(Seen::Oldest(oldest(alloc, past, past.moment.max(moment))?)),
        Ask::After { step, question } => answer_after(alloc, past, *step, question, moment),
        Ask::NextUndo => next_undo(alloc, past),
    }
}

/// The servers that are closest to a name.
fn seen_servers(
    alloc: Global,
    past: &PlainPast,
    stubs: &StubTable,
    name: &Name,
    moment: u64,
) -> Result<Seen, NoMemory>
    requires stubbed { stubs.now ≡ stubs_of (past_in past.now) }
    ensures { IfOk result (λ s. s ≡ Seen.Servers (servers_of past.now.settings (past_in past.now) name.now moment)) }
{
    let found = closest_servers(alloc, &past.settings, past, stubs, name, moment)?;
    Ok(Seen::Servers(Shared::new(alloc, found)?))
}
