//! The texts that a log wrote lately. A text that comes again soon is counted, and not written.

use arrayvec::ArrayString;
use std::alloc::{AllocError, Global};
use std::fmt::Write;

/// For so many seconds after a text was written, it is counted when it comes again.
pub(crate) const WHILE_SECONDS: u64 = 10;

/// The most texts that are counted at once.
pub(crate) const MOST_TEXTS: usize = 128;

/// The most servers, or sets of records, that are named beside one cause at once. Strangers choose them, and may choose very many. So
/// others are counted together, by their cause: a flood of one cause hides no other.
const MOST_NAMED: usize = 8;

/// The most octets of a text. The rest of it is cut off, so that a line is written in one go.
const MOST_OCTETS: usize = 768;

/// What begins the part of a text that differs from one time to the next.
const DETAIL: &str = ", question ";

/// What begins the server in a text. The cause stands before it.
const SERVER: &str = ", server ";

/// What begins the set of records in a text. The cause stands before it.
const SET: &str = ", set ";

/// What stands in place of a server, or of a set, that is not named.
const OTHER_SERVERS: &str = ", other servers";

const OTHER_SETS: &str = ", other sets";

/// The text of a line.
pub(crate) type Words = ArrayString<MOST_OCTETS>;

/// The part of a text by which it is known again.
pub(crate) fn known_by(text: &str) -> &str {
    match text.split_once(DETAIL) {
        Some((known, _)) => known,
        None => text,
    }
}

/// The cause in a text that names a server or a set, and what stands in place of one that is not named.
fn cause_in(text: &str) -> Option<(&str, &'static str)> {
    if let Some((cause, _)) = text.split_once(SERVER) {
        return Some((cause, OTHER_SERVERS));
    }
    let (cause, _) = text.split_once(SET)?;
    Some((cause, OTHER_SETS))
}

/// These words one after the other, cut off where there is no room.
pub(crate) fn words_of(front: &str, back: &str) -> Words {
    let mut words = Words::new();
    let _ = write!(words, "{front}{back}");
    words
}

/// A text that was counted lately.
#[derive(Drop)]
pub(crate) struct Recent {
    /// The part of the text by which it is known again.
    pub text: Words,
    /// The second in which its while began.
    since: u64,
    /// How often it came since, without being written.
    pub more: u64,
}

/// What becomes of a text.
#[derive(Clone, Copy)]
pub(crate) enum TextFate {
    /// It is written, after a line that says how often it came earlier, if it did.
    Written { earlier: u64 },
    /// It is counted.
    Counted,
}

/// The texts that came lately.
#[derive(Drop)]
pub(crate) struct RecentTexts {
    texts: Vec<Recent>,
    /// How many lines were left out because there were too many texts, and since when.
    left_out: u64,
    since: u64,
}

impl RecentTexts {
    /// No text, with room for as many as are counted at once.
    pub fn new(alloc: Global) -> Result<RecentTexts, AllocError> {
        Ok(RecentTexts {
            texts: Vec::with_capacity(alloc, MOST_TEXTS)?,
            left_out: 0,
            since: 0,
        })
    }

    /// Counts a line that is left out.
    fn leave_out(&mut self, now: u64) -> TextFate {
        if self.left_out == 0 {
            self.since = now;
        }
        self.left_out = self.left_out.saturating_add(1);
        TextFate::Counted
    }

    /// How many servers or sets are named beside a cause.
    fn named_beside(&self, cause: &str) -> usize {
        let mut count = 0usize;
        for recent in &self.texts {
            if let Some((front, _)) = cause_in(recent.text.as_str()) {
                if front == cause {
                    count = count.saturating_add(1);
                }
            }
        }
        count
    }

    /// Begins the while of a text that did not come lately, and was not written so often by now. It is left out if there are too many.
    fn begin(&mut self, text: Words, now: u64, more: u64) -> bool {
        if self.texts.len() >= MOST_TEXTS {
            return false;
        }
        let begun = self.texts.push(Recent {
            text,
            since: now,
            more,
        });
        begun.is_ok()
    }

    /// Counts a text that came lately. None if it did not.
    fn meet_again(&mut self, known: &str, now: u64) -> Option<TextFate> {
        for recent in &mut self.texts {
            if recent.text.as_str() == known {
                if now.saturating_sub(recent.since) < WHILE_SECONDS {
                    recent.more = recent.more.saturating_add(1);
                    return Some(TextFate::Counted);
                }
                let earlier = recent.more;
                recent.since = now;
                recent.more = 0;
                return Some(TextFate::Written { earlier });
            }
        }
        None
    }

    /// Counts a text that names one server or set too many beside its cause, with these words in its place.
    fn meet_other(&mut self, cause: &str, others: &str, now: u64) -> TextFate {
        let others = words_of(cause, others);
        for recent in &mut self.texts {
            if recent.text.as_str() == others.as_str() {
                recent.more = recent.more.saturating_add(1);
                return TextFate::Counted;
            }
        }
        if self.begin(others, now, 1) {
            TextFate::Counted
        } else {
            self.leave_out(now)
        }
    }

    /// Counts a line. Only a line that names a server or a set may be left out.
    pub fn meet(&mut self, text: &str, now: u64) -> TextFate {
        let known = known_by(text);
        if let Some(fate) = self.meet_again(known, now) {
            return fate;
        }
        let Some((cause, others)) = cause_in(known) else {
            let _ = self.begin(words_of(known, ""), now, 0);
            return TextFate::Written { earlier: 0 };
        };
        if self.named_beside(cause) >= MOST_NAMED {
            return self.meet_other(cause, others, now);
        }
        if self.begin(words_of(known, ""), now, 0) {
            TextFate::Written { earlier: 0 }
        } else {
            self.leave_out(now)
        }
    }

    /// Takes out a text whose while is over at this second.
    pub fn take_over(&mut self, now: u64) -> Option<Recent> {
        let place = self
            .texts
            .iter()
            .position(|recent| now.saturating_sub(recent.since) >= WHILE_SECONDS)?;
        Some(self.texts.remove(place))
    }

    /// Takes out the number of lines that were left out, if their while is over at this second.
    pub fn take_left_out(&mut self, now: u64) -> u64 {
        if now.saturating_sub(self.since) < WHILE_SECONDS {
            return 0;
        }
        let left_out = self.left_out;
        self.left_out = 0;
        left_out
    }
}
