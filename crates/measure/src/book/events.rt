//! What a book is asked.

use crate::books::address;
use dns_name::Name;
use dns_text::types::A;
use dns_text::{Question, Shared};
use history::{Ask, Event, Reply, Seen};
use std::alloc::Global;

/// One address of `www.example.to.`, of the highest rank.
pub fn admission(alloc: Global) -> anyhow::Result<Shared<Event>> {
    let find = address(alloc)?;
    Ok(Shared::new(alloc, Event::Admit { moment: 0, find })?)
}

/// A look at it.
pub fn look(alloc: Global) -> anyhow::Result<Shared<Event>> {
    let owner = Name::from_text(alloc, b"www.example.to")?;
    let ask = Ask::Answer(Question { owner, kind: A });
    Ok(Shared::new(alloc, Event::Look { moment: 0, ask })?)
}

/// 1 where a find is seen.
pub fn seen_in(reply: &Reply) -> u32 {
    match reply {
        Reply::Seen(Seen::Held(_)) => 1,
        _ => 0,
    }
}
