//! The servers that the book names for a zone.

ghost use Rattle.std.specs.Prelude.{◌≡◌, MatchOption};
ghost use Rattle.history.specs.declared.event.Reply.TheVariants.{Seen as SeenReply};
ghost use Rattle.history.specs.declared.event.Seen.TheVariants.{Servers as SeenServers};
ghost use Rattle.iterate.specs.declared.want.Input.TheVariants.{Reply as Replied};
ghost use Rattle.iterate.specs.Going.{GoesOnToServers};
ghost use Rattle.iterate.specs.Hunting.{IsUnlisted, IsUnnamed, Names};
ghost use Rattle.iterate.specs.Phase.{drawing};

use crate::finishing::failed;
use crate::path::Path;
use crate::phase::Advance;
use crate::search::{go_on, reach};
use crate::served::served_name;
use crate::want::Input;
use dns_name::{Name, NoMemory};
use dns_text::Shared;
use history::{Reply, Seen, Servers};
use rand_core::Rng;
use std::alloc::Global;

fn servers_in(input: &Input) -> Option<&Shared<Servers>>
    ensures { MatchOption result (IsUnlisted input.now) (λ servers. input.now ≡ Replied (SeenReply (SeenServers servers.now))) }
{
    match input {
        Input::Reply(Reply::Seen(Seen::Servers(servers))) => Some(servers),
        _ => None,
    }
}

/// The servers that a lookup named for a name, if their zone is at or above it.
pub(crate) fn servers_for<'a>(name: &Name, input: &'a Input) -> Option<&'a Shared<Servers>>
    ensures { MatchOption result (IsUnnamed name.now input.now) (λ servers. Names name.now input.now servers.now) }
{
    match servers_in(input) {
        Some(servers) => {
            if name.at_or_below(&servers.get().zone) {
                Some(servers)
            } else {
                None
            }
        }
        None => None,
    }
}

/// Continues with the reply to the lookup of the servers that are asked about the last question.
pub(crate) fn listed<R: Rng>(
    alloc: Global,
    ids: &mut R,
    path: Path,
    moment: u64,
    input: &Input,
) -> Result<Advance, NoMemory>
    ensures { GoesOnToServers path input.now moment (drawing (R.stream ids.old) (R.stream ids.new)) result }
{
    let name = served_name(alloc, &path.last)?;
    match servers_for(&name, input) {
        Some(servers) => {
            let list = servers.share()?;
            let search = reach(alloc, path, list)?;
            go_on(alloc, ids, moment, search)
        }
        None => Ok(failed(alloc)),
    }
}
