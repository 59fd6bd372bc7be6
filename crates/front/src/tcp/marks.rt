//! Notes on connections: how many of their questions wait, and which are to be served.

use dns_text::NoMemory;
use std::alloc::Global;
use std::collections::VecDeque;

/// The most questions of one connection that wait. It is not read any further then, so that no client takes the places of all, and none
/// is owed more replies than these and one more.
pub const MOST_WAITING: u32 = 32;

/// The notes on one connection.
#[derive(Clone, Copy)]
struct Mark {
    /// How many of its questions wait.
    waiting: u32,
    /// Whether it is in the queue.
    queued: bool,
    /// Whether it is not read since too many of its questions wait, or since it has ended and some do.
    stalled: bool,
}

/// The notes of a connection that begins.
const FRESH: Mark = Mark {
    waiting: 0,
    queued: false,
    stalled: false,
};

/// The notes on connections, by their keys, and the queue of those that are to be served. Each is in the queue once at most.
#[derive(Drop)]
pub(crate) struct Marks {
    marks: Vec<Mark>,
    queue: VecDeque<usize>,
}

impl Marks {
    /// Notes on no connection.
    pub fn new(alloc: Global) -> Marks {
        Marks {
            marks: Vec::new(alloc),
            queue: VecDeque::new(alloc),
        }
    }

    /// Begins the notes on a connection.
    pub fn begin(&mut self, key: usize) -> Result<(), NoMemory> {
        let lacking = key.saturating_add(1).saturating_sub(self.marks.len());
        for _ in 0..lacking {
            self.marks.push(FRESH)?;
        }
        // Room for all, so that queueing one takes no memory later.
        self.queue
            .reserve(self.marks.len().saturating_sub(self.queue.len()))?;
        if let Some(mark) = self.marks.get_mut(key) {
            mark.waiting = 0;
            mark.stalled = false;
        }
        Ok(())
    }

    /// How many questions of a connection wait.
    pub fn waiting(&self, key: usize) -> u32 {
        match self.marks.get(key) {
            Some(mark) => mark.waiting,
            None => 0,
        }
    }

    /// Notes that one question more of a connection waits.
    pub fn wait(&mut self, key: usize) {
        if let Some(mark) = self.marks.get_mut(key) {
            mark.waiting = mark.waiting.saturating_add(1);
        }
    }

    /// Notes that one question less of a connection waits. If it was not read for that reason, it is served again.
    pub fn settle(&mut self, key: usize) {
        let Some(mark) = self.marks.get_mut(key) else {
            return;
        };
        mark.waiting = mark.waiting.saturating_sub(1);
        if mark.stalled {
            mark.stalled = false;
            self.queue(key);
        }
    }

    /// Notes that a connection is not read until one question less of it waits.
    pub fn stall(&mut self, key: usize) {
        if let Some(mark) = self.marks.get_mut(key) {
            mark.stalled = true;
        }
    }

    /// Puts a connection into the queue of those that are to be served.
    pub fn queue(&mut self, key: usize) {
        let Some(mark) = self.marks.get_mut(key) else {
            return;
        };
        if !mark.queued && self.queue.push_back(key).is_ok() {
            mark.queued = true;
        }
    }

    /// The number of connections that are in the queue.
    pub fn queued(&self) -> usize {
        self.queue.len()
    }

    /// Takes the next connection out of the queue.
    pub fn next(&mut self) -> Option<usize> {
        let key = self.queue.pop_front()?;
        if let Some(mark) = self.marks.get_mut(key) {
            mark.queued = false;
        }
        Some(key)
    }
}
