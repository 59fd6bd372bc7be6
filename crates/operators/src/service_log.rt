//! The log of a service, on standard error. Whoever logs never waits: a line joins those that wait, and a thread of its own writes them.

use crate::recent_texts::{
    MOST_TEXTS, RecentTexts, TextFate, WHILE_SECONDS, Words, known_by, words_of,
};
use circular_buffer::HeapCircularBuffer;
use jiff::Timestamp;
use log::kv::Source;
use log::span::Spans;
use log::{LevelFilter, Log, Metadata, Record};
use std::alloc::{AllocError, Global};
use std::fmt;
use std::fmt::{Display, Formatter, Write};
use std::rt::Clock;
use std::sync::{Mutex, Wait};
use std::time::{Instant, SystemTime, UNIX_EPOCH};
use system::takes_octets;

/// The most lines that wait to be written.
const MOST_WAITING: usize = 48;

/// The most lines that are written in one go.
const MOST_WRITTEN: usize = 2 * MOST_WAITING;

/// The rounds at the end. Each has room for the lines of `MOST_WAITING` texts.
const MOST_ROUNDS: usize = 1 + MOST_TEXTS / MOST_WAITING;

/// The descriptor of standard error.
const STANDARD_ERROR: i32 = 2;

/// The text if there were too many different lines.
const TOO_MANY: &str = "resolver: too many different lines: others were left out";

/// The time, in whole seconds since 1970, or 0 if the clock cannot be read.
type Time = i64;

/// A line that waits to be written: its text, how often that came without being written, and the time.
#[derive(Drop)]
struct LogLine {
    text: Words,
    more: u64,
    time: Time,
}

impl Display for LogLine {
    fn fmt<W: Write>(&self, f: &mut Formatter<W>) -> fmt::Result {
        f.write_str(self.text.as_str())?;
        if self.more > 0 {
            write!(f, ", {} more in {WHILE_SECONDS} s", self.more)?;
        }
        if self.time == 0 {
            return Ok(());
        }
        match Timestamp::from_second(self.time) {
            Ok(time) => write!(f, ", at {time}"),
            Err(_) => Ok(()),
        }
    }
}

/// What a log keeps: the texts that came lately, and the lines that wait.
#[derive(Drop)]
struct KeptLines {
    recents: RecentTexts,
    lines: HeapCircularBuffer<LogLine, Global>,
    /// How many lines found no room among those that wait.
    lost: u64,
}

impl KeptLines {
    /// No line, with room for all that are kept at once.
    fn new(alloc: Global) -> Result<KeptLines, AllocError> {
        Ok(KeptLines {
            recents: RecentTexts::new(alloc)?,
            lines: HeapCircularBuffer::with_capacity(alloc, MOST_WAITING)?,
            lost: 0,
        })
    }

    /// Has a line wait. It is counted if there is no room.
    fn wait(&mut self, text: Words, more: u64, time: Time) {
        if self
            .lines
            .try_push_back(LogLine { text, more, time })
            .is_err()
        {
            self.lost = self.lost.saturating_add(1).saturating_add(more);
        }
    }

    /// Has the line of a text wait if the text is to be written.
    fn meet(&mut self, text: Words, now: u64, time: Time) {
        if let TextFate::Written { earlier } = self.recents.meet(text.as_str(), now) {
            if earlier > 0 {
                self.wait(words_of(known_by(text.as_str()), ""), earlier, time);
            }
            self.wait(text, 0, time);
        }
    }

    /// Has lines wait that say how often texts came again whose while is over at this second, as far as there is room for them.
    fn settle(&mut self, now: u64, time: Time) {
        for _ in 0..MOST_WAITING {
            if self.lines.is_full() {
                return;
            }
            let Some(recent) = self.recents.take_over(now) else {
                break;
            };
            if recent.more > 0 {
                self.wait(recent.text, recent.more, time);
            }
        }
        let left_out = self.recents.take_left_out(now);
        if left_out > 0 {
            self.wait(words_of(TOO_MANY, ""), left_out, time);
        }
    }

    /// Takes out the line that is to be written next. Once none waits, it is the one that says how many found no room.
    fn next(&mut self, time: Time) -> Option<LogLine> {
        if let Some(line) = self.lines.pop_front() {
            return Some(line);
        }
        let lost = self.lost;
        self.lost = 0;
        if lost == 0 {
            return None;
        }
        let mut text = Words::new();
        let _ = write!(
            text,
            "resolver: standard error took no lines: {lost} found no room"
        );
        Some(LogLine {
            text,
            more: 0,
            time,
        })
    }
}

/// The log of a service.
#[derive(Drop)]
pub struct ServiceLog<'a, R> {
    rt: &'a R,
    start: Instant,
    kept: Mutex<KeptLines>,
}

impl<'a, R: Wait + Clock> ServiceLog<'a, R> {
    /// The log of a service that starts at this instant. All memory is taken here.
    pub fn new(rt: &'a R, alloc: Global, start: Instant) -> Result<ServiceLog<'a, R>, AllocError> {
        Ok(ServiceLog {
            rt,
            start,
            kept: Mutex::new(KeptLines::new(alloc)?),
        })
    }

    /// The seconds since the start.
    fn seconds(&self) -> u64 {
        match self.start.elapsed(self.rt) {
            Ok(passed) => passed.as_secs(),
            Err(_) => 0,
        }
    }

    /// The seconds since 1970, if the clock can be read.
    fn clock(&self) -> Option<i64> {
        let now = SystemTime::now(self.rt).ok()?;
        let passed = now.duration_since(UNIX_EPOCH).ok()?;
        i64::try_from(passed.as_secs()).ok()
    }

    /// The time of a line that comes now.
    fn time(&self) -> Time {
        self.clock().unwrap_or(0)
    }

    /// Takes out the line that is to be written next.
    fn next(&self) -> Option<LogLine> {
        self.kept.lock(self.rt).next(self.time())
    }
}

impl<'a, R: Wait + Clock + Eprint> ServiceLog<'a, R> {
    /// Writes the lines that wait, and how often texts came again, even if their while is not over, as long as standard error takes lines
    /// at once. Then there is room for more.
    pub fn finish(&self) {
        for _ in 0..MOST_ROUNDS {
            self.kept.lock(self.rt).settle(u64::MAX, self.time());
            self.flush();
        }
    }
}

impl<'a, R: Wait + Clock + Eprint> Log for ServiceLog<'a, R> {
    fn enabled(&self, metadata: &Metadata<'_>) -> bool {
        LevelFilter::Info.allows(metadata.level())
    }

    fn log<D: Display, K: Source, S: Spans>(&self, record: &Record<'_, D, K, S>) {
        let mut text = Words::new();
        // What does not fit is cut off.
        let _ = write!(text, "{}", record.args());
        let (now, time) = (self.seconds(), self.time());
        self.kept.lock(self.rt).meet(text, now, time);
    }

    /// Writes the lines that wait, and how often texts came again whose while is over, as long as standard error takes lines at once.
    fn flush(&self) {
        self.kept.lock(self.rt).settle(self.seconds(), self.time());
        for _ in 0..MOST_WRITTEN {
            if !takes_octets(STANDARD_ERROR) {
                return;
            }
            let Some(line) = self.next() else {
                return;
            };
            // If that fails, the line is lost.
            let _ = self.rt.eprintln(line);
        }
    }

    fn target(&self) -> &str {
        ""
    }
}
