//! A desk that keeps nothing.

use history::{Ask, Book, Desk, DeskFault, Event, Reply, StepFault};

/// A desk that looks at a book and keeps nothing, so that each query finds the same.
#[derive(Drop)]
pub struct StillDesk<B: Book> {
    pub book: B,
}

/// What a book shows.
fn seen<B: Book>(book: &B, ask: &Ask) -> Result<Reply, DeskFault> {
    match book.seen(ask, 0) {
        Ok(seen) => Ok(Reply::Seen(seen)),
        Err(_) => Err(DeskFault::Step(StepFault::NoMemory)),
    }
}

impl<B: Book> Desk for StillDesk<B> {
    ghost calls = { λ _ _ _ _. Unit {0} };

    fn call(&mut self, event: Event) -> Result<Reply, DeskFault> {
        match event {
            Event::Look { ask, .. } => {
                let reply = seen(&self.book, &ask);
                drop(ask);
                reply
            }
            other => {
                drop(other);
                Ok(Reply::Swept)
            }
        }
    }
}
