//! A script over the book that keeps its whole history and replays it. Lines, arguments and replies are those of
//! `resolver script`, whose book keeps none, so that the same scripts run over both.

use crate::stop::Stop;
use command_text::run_script;
use history::{Book, Settings};
use resolver_args::{Mode, read_args};
use std::alloc::{AllocError, Global};
use streams::{CountedReader, CountedWriter};
use undo_book::PlainBook;

fn texts_of(alloc: Global, words: &[String]) -> Result<Vec<&str>, AllocError> {
    let mut texts = Vec::new(alloc);
    for word in words {
        texts.push(word.as_str())?;
    }
    Ok(texts)
}

fn obey<B: Book>(rt: &HostRuntime, book: &mut B) -> Result<(), Stop> {
    let mut reader = CountedReader::new(rt.stdin());
    let mut writer = CountedWriter::new(rt.stdout());
    match run_script(rt.alloc(), book, &mut reader, &mut writer) {
        Ok(()) => Ok(()),
        Err(_) => Err(Stop::Device),
    }
}

fn obey_script(rt: &HostRuntime, settings: Settings) -> Result<(), Stop> {
    let Ok(mut book) = PlainBook::new(rt.alloc(), settings) else {
        return Err(Stop::NoMemory);
    };
    let done = obey(rt, &mut book);
    drop(book);
    done
}

/// Obeys standard input, with the settings that the program's name and its arguments say.
pub fn play_script(rt: &HostRuntime, words: &[String]) -> Result<(), Stop> {
    let texts = texts_of(rt.alloc(), words)?;
    match read_args(rt.alloc(), texts.as_slice()) {
        Ok(Mode::Script(settings)) => obey_script(rt, settings),
        Ok(other) => {
            drop(other);
            Err(Stop::Device)
        }
        Err(fault) => {
            drop(fault);
            Err(Stop::Device)
        }
    }
}
