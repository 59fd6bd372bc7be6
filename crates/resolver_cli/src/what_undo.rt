//! The reply to `what_undo` on the control socket: the command that an undo would take back, and of a flush how much it hides.

use crate::worker::Lent;
use command_text::answer_text;
use history::{Ask, Desk, DeskFault, Event, Reply, Seen};
use shared_book::CallLedger;
use std::alloc::{AllocError, Global};
use std::rt::Clock;
use std::sync::Wait;
use std::thread;
use std::time::Duration;
use streams::Text;

/// The most names that are visited.
const MOST_NAMES: u64 = 100_000;

/// The time between two turns, in microseconds. Whoever waits for the lock gets it then.
const BETWEEN_TURNS: u64 = 50;

/// A count over several turns.
#[derive(Clone, Copy, Drop)]
struct Count {
    names: u64,
    turns: u64,
    is_whole: bool,
}

/// Of how many names the flush of a ticket hides a cell. Between two turns names come and go, so the count is of no single moment.
fn count_hidden<L: CallLedger, R: Wait + Clock>(
    rt: &R,
    lent: &Lent<'_, L>,
    ticket: u64,
    moment: u64,
) -> Count {
    let mut count = Count {
        names: 0,
        turns: 0,
        is_whole: false,
    };
    let mut visited: u64 = 0;
    let mut from = 0;
    for _ in 0..MOST_NAMES {
        let found = lent.book.hidden_some(rt, ticket, from, moment);
        count.names = count.names.saturating_add(found.names);
        count.turns = count.turns.saturating_add(1);
        visited = visited.saturating_add(found.visited);
        let Some(next) = found.next else {
            count.is_whole = true;
            return count;
        };
        if visited >= MOST_NAMES {
            return count;
        }
        from = next;
        thread::sleep(rt, Duration::from_micros(BETWEEN_TURNS));
    }
    count
}

/// The line of a count.
fn count_line(alloc: Global, count: &Count) -> Result<String, AllocError> {
    let Count {
        names,
        turns,
        is_whole,
    } = *count;
    if is_whole {
        format!(in alloc; "hides {names} names, counted over {turns} turns\n")
    } else {
        format!(in alloc; "hides at least {names} names, counted over {turns} turns\n")
    }
}

/// The ticket of the command, if it is a flush that would be undone next.
fn flush_in(answer: &Result<Reply, DeskFault>) -> Option<u64> {
    match answer {
        Ok(Reply::Seen(Seen::Command(held))) => match held.command.table() {
            None => Some(held.ticket),
            Some(_) => None,
        },
        _ => None,
    }
}

/// The lines of the reply. If there is no memory for the second, it is left out.
pub(crate) fn what_undo<D: Desk, L: CallLedger, R: Wait + Clock>(
    rt: &R,
    alloc: Global,
    lent: &Lent<'_, L>,
    desk: &mut D,
    moment: u64,
) -> Text {
    let ask = Ask::NextUndo;
    let answer = desk.call(Event::Look { moment, ask });
    let first = answer_text(alloc, &answer);
    let Some(ticket) = flush_in(&answer) else {
        return first;
    };
    let second = count_line(alloc, &count_hidden(rt, lent, ticket, moment));
    match both(alloc, &first, second) {
        Ok(text) => text,
        Err(_) => first,
    }
}

/// Two lines.
fn both(
    alloc: Global,
    first: &Text,
    second: Result<String, AllocError>,
) -> Result<Text, AllocError> {
    let mut out = Vec::from_slice(alloc, first.as_slice())?;
    out.extend_from_slice(second?.as_bytes())?;
    Ok(Text::Made(out))
}
