//! The name to forget first, by a replay of the cells.

ghost use Rattle.std.specs.Prelude.{◌≡◌, ◌+◌, not, nat_lt, IfOk, OnOk};
ghost use Rattle.history.specs.Journal.{commands_of};
ghost use Rattle.history.specs.OldestFound.{is_sooner, last_end, last_scope_end, oldest_in, oldest_of, sooner_of};
ghost use Rattle.history.specs.SoonestLaws.{AreEndings};
ghost use Rattle.undo_book.specs.Ends.{ends_after, ends_now, found_now, has_scope, pairs_of};
ghost use Rattle.undo_book.specs.PlainPast.{past_in};

use crate::listing::commands;
use crate::log::Logged;
use crate::plain_history::PlainPast;
use crate::scope_replay::scope_end;
use dns_name::{Name, NoMemory};
use history::{Event, Journalled};
use ranked::{Find, Scope};
use std::alloc::Global;

/// The last second in which a find of this name and scope ends, whichever commands of the journal are in force; 0 where none is alive.
#[derive(Drop)]
pub(crate) struct ScopeEnd<'a> {
    pub owner: &'a Name,
    pub scope: Scope,
    pub end: u128,
}

/// The name to forget first at a moment.
pub(crate) fn oldest(alloc: Global, past: &PlainPast, moment: u64) -> Result<Option<Name>, NoMemory>
    ensures { IfOk result (λ name. name ≡ oldest_of (past_in past.now) moment) }
{
    let ends = scope_ends(alloc, past, moment)?;
    match soonest(&ends) {
        Some(name) => Ok(Some(name.clone()?)),
        None => Ok(None),
    }
}

/// The last ends of the finds that may be alive at a moment, of each name and scope once.
fn scope_ends<'a>(
    alloc: Global,
    past: &'a PlainPast,
    moment: u64,
) -> Result<Vec<ScopeEnd<'a>>, NoMemory>
    ensures { IfOk result (λ ends. AreEndings (past_in past.now) moment (pairs_of (ends_now ends.items))) }
{
    let journal = commands(alloc, past)?;
    let mut ends = Vec::new(alloc);
    for logged in &past.log {
        add_end(past, &journal, logged, moment, &mut ends)?;
    }
    Ok(ends)
}

/// Adds the last end of the finds that an entry is one of.
fn add_end<'a>(
    past: &'a PlainPast,
    journal: &[Journalled],
    logged: &'a Logged,
    moment: u64,
    ends: &mut Vec<ScopeEnd<'a>>,
) -> Result<(), NoMemory>
    requires journal { journal.now ≡ commands_of (past_in past.now) }
    ensures { OnOk result (ends_now ends.new.items ≡ ends_after (past_in past.now) moment (ends_now ends.old.items) logged.now) }
{
    match &logged.entry.event {
        Event::Admit { find, .. } => {
            let find = find.find();
            if is_over(find, logged.entry.moment, moment) || has_scope(ends, find) {
                return Ok(());
            }
            let end = last_scope_end(past, journal, &find.owner, find.scope, moment);
            ends.push(ScopeEnd {
                owner: &find.owner,
                scope: find.scope,
                end,
            })?;
            Ok(())
        }
        _ => Ok(()),
    }
}

/// Whether a find that was admitted at one moment is dead at another.
fn is_over(find: &Find, admitted: u64, moment: u64) -> bool
    ensures { result ≡ not (nat_lt moment (admitted + find.now.ttl)) }
{
    u128::from(admitted) + u128::from(find.ttl) <= u128::from(moment)
}

/// Whether the last end of a find's name and scope is known.
fn has_scope(ends: &[ScopeEnd<'_>], find: &Find) -> bool
    ensures { result ≡ has_scope (ends_now ends.now) find.now.owner find.now.scope }
{
    for known in ends {
        if *known.owner == find.owner && known.scope == find.scope {
            return true;
        }
    }
    false
}

/// The last of the ends that a cell has with none of the commands of the journal in force, and with each of them alone.
fn last_scope_end(
    past: &PlainPast,
    journal: &[Journalled],
    owner: &Name,
    scope: Scope,
    moment: u64,
) -> u128
    requires journal { journal.now ≡ commands_of (past_in past.now) }
    ensures { result ≡ last_scope_end (past_in past.now) moment owner.now scope }
{
    let mut end = scope_end(past, journal, None, owner, scope, moment);
    for command in journal {
        end = end.max(scope_end(past, journal, Some(command.ticket), owner, scope, moment));
    }
    end
}

/// The name whose last end comes first.
fn soonest<'a>(ends: &[ScopeEnd<'a>]) -> Option<&'a Name>
    ensures { found_now result ≡ oldest_in (pairs_of (ends_now ends.now)) }
{
    let mut found = None;
    for end in ends {
        found = sooner_of(ends, found, end.owner);
    }
    found
}

/// The sooner of the name found so far and another, if that has an end.
fn sooner_of<'a>(ends: &[ScopeEnd<'_>], found: Option<&'a Name>, name: &'a Name) -> Option<&'a Name>
    ensures { found_now result ≡ sooner_of (pairs_of (ends_now ends.now)) (found_now found.entry) name.now }
{
    if last_end(ends, name) == 0 {
        return found;
    }
    match found {
        None => Some(name),
        Some(first) => {
            if is_sooner(ends, first, name) {
                found
            } else {
                Some(name)
            }
        }
    }
}

/// Whether the last end of a name comes before that of another, or is the same and the name is not after the other.
fn is_sooner(ends: &[ScopeEnd<'_>], name: &Name, other: &Name) -> bool
    ensures { result ≡ is_sooner (pairs_of (ends_now ends.now)) name.now other.now }
{
    let end = last_end(ends, name);
    let later = last_end(ends, other);
    end < later || end == later && name.cmp(other).is_le()
}

/// The last end of a name; 0 where it has none.
fn last_end(ends: &[ScopeEnd<'_>], name: &Name) -> u128
    ensures { result ≡ last_end (pairs_of (ends_now ends.now)) name.now }
{
    let mut last = 0;
    for end in ends {
        if end.owner == name {
            last = last.max(end.end);
        }
    }
    last
}
