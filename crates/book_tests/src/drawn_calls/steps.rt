//! One caller's calls of a book that lies under no lock. A call that finds no memory is made once more.
ghost use Rattle.shared_book.specs.Fresh.{CanShare, IsKnownAs};

use crate::drawn_calls::draws::shared_event;
use crate::drawn_calls::texts::{Shows, text_of};
use crate::stop::Stop;
use dns_text::Shared;
use history::{Book, Event, Reply, StepFault};
use rand_core::SeedableRng;
use rand_pcg::Pcg32;
use shared_book::{Blank, CallLedger, Kept, Pass};
use std::alloc::Global;

/// How many drawn calls are made, and how many of them a window can have.
const CALLS: u32 = 80;

pub const RECORDED: u64 = 60;

/// How many of four calls a window can have that moves on.
pub const MOVING: u64 = 2;

/// Events of every kind, also among those that the window has at the end. Of these an undo and a redo succeed, with a ticket and without.
pub fn drawn_events(alloc: Global) -> Result<Vec<Shared<Event>>, Stop> {
    let mut rng = Pcg32::seed_from_u64(4507);
    let mut events = Vec::new(alloc);
    for _ in 0..CALLS {
        let Ok(event) = shared_event(&mut rng, alloc, 0) else {
            return Err(Stop);
        };
        if events.push(event).is_err() {
            return Err(Stop);
        }
    }
    Ok(events)
}

/// Prints the numbers after a call, and what the call gave.
fn show<B: Book, L: CallLedger, R: Print>(
    rt: &R,
    alloc: Global,
    kept: &Kept<B, L>,
    pass: &Pass<L>,
    told: &Result<Reply, StepFault>,
) -> Result<(), Stop> {
    let text = match told {
        Ok(reply) => text_of(alloc, Shows::Reply(reply))?,
        Err(fault) => text_of(alloc, Shows::Fault(fault))?,
    };
    let shown = println!(rt;
        "{} entries, {} calls, {} cells, seen {}, made {}: {text}",
        kept.window().len(),
        kept.total(),
        kept.book().stored(),
        pass.seen(),
        pass.made()
    );
    match shown {
        Ok(()) => Ok(()),
        Err(_) => Err(Stop),
    }
}

/// Makes a call and shows it. Whether it found no memory.
fn step<B: Book, L: CallLedger, R: Print>(
    rt: &R,
    alloc: Global,
    kept: &mut Kept<B, L>,
    pass: &mut Pass<L>,
    event: &Shared<Event>,
) -> Result<bool, Stop> {
    let Ok(event) = event.share() else {
        return Err(Stop);
    };
    let told = kept.step(pass, event);
    let shown = show(rt, alloc, kept, pass, &told);
    let found_none = matches!(&told, Err(StepFault::NoMemory));
    drop(told);
    shown?;
    Ok(found_none)
}

/// Makes the calls, and shows the window, which can have so many of them.
pub fn steps<B: Book, L: CallLedger, R: Print>(
    rt: &R,
    alloc: Global,
    blank: Blank,
    book: B,
    opening: B,
    limit: u64,
    events: Vec<Shared<Event>>,
) -> Result<(), Stop>
    requires known { IsKnownAs L.name L.parts L.limit L.settings blank limit (B.settings book) }
    requires books { CanShare B.stands_for B.settings book opening }
{
    let made = Kept::<B, L>::new(alloc, blank, book, opening, limit);
    let Ok((mut kept, mut pass)) = made else {
        return Err(Stop);
    };
    for event in events.iter() {
        if step(rt, alloc, &mut kept, &mut pass, event)? {
            step(rt, alloc, &mut kept, &mut pass, event)?;
        }
    }
    for entry in kept.window() {
        let text = text_of(alloc, Shows::Entry(entry))?;
        if rt.println(format_args!("{text}")).is_err() {
            return Err(Stop);
        }
    }
    Ok(())
}
