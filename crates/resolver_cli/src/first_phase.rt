//! The first phase of a service: it obeys the lines of a file, if there is one, and serves nobody yet.

use crate::control_socket::obey_operator;
use crate::operator_lines::Served;
use crate::worker::Lent;
use clock::MonotonicClock;
use log::Log;
use operators::{CliFault, OperatorQueue, obey_fifo, obey_file};
use shared_book::{CallLedger, Pass, Seat};
use std::alloc::Global;
use std::fs;
use std::os::unix::fs::FileTypeExt;
use std::rt::{Clock, Files};
use std::sync::Wait;
use std::thread::Threads;

/// Whether the file with this path is a FIFO or a pipe, which may have no end.
fn is_fifo<F: Files>(files: &F, path: &str) -> bool {
    match fs::metadata(files, path) {
        Ok(metadata) => metadata.file_type().is_fifo(),
        Err(_) => false,
    }
}

/// Obeys the lines of a FIFO, and hands the pass back. None if an operator sent `stop` meanwhile, who got the reply.
fn obey_first_fifo<L: CallLedger, R: Threads + Wait + Clock + Log>(
    rt: &R,
    alloc: Global,
    lent: &Lent<'_, L>,
    path: &str,
    queue: &mut OperatorQueue<'_, R>,
    pass: Pass<L>,
) -> Result<Option<Pass<L>>, CliFault> {
    let mut desk = Seat::thorough(rt, lent.book, pass);
    let clock = MonotonicClock::new(rt, lent.terms.start);
    let obeyed = obey_fifo(rt, alloc, path, &mut desk, clock, queue);
    match (obeyed, queue.take_stopper()) {
        (Ok(()), _) => Ok(Some(desk.into_pass())),
        (Err(fault), None) => Err(fault),
        (Err(_), Some(operator)) => {
            let clock = MonotonicClock::new(rt, lent.terms.start);
            let mut served = Served::new(rt, lent, clock);
            let _ = obey_operator(rt, alloc, &mut served, &mut desk, &operator, queue);
            Ok(None)
        }
    }
}

/// Obeys the lines of the file, if there is one, and hands the pass back. None if an operator sent `stop` while a FIFO was read.
pub(crate) fn obey_first<L: CallLedger, R: Threads + Wait + Clock + Log, F: Files>(
    rt: &R,
    files: &F,
    alloc: Global,
    lent: &Lent<'_, L>,
    commands: &Option<String>,
    queue: &mut OperatorQueue<'_, R>,
    pass: Pass<L>,
) -> Result<Option<Pass<L>>, CliFault> {
    let Some(path) = commands else {
        return Ok(Some(pass));
    };
    let path = path.as_str();
    if is_fifo(files, path) {
        return obey_first_fifo(rt, alloc, lent, path, queue, pass);
    }
    let mut desk = Seat::thorough(rt, lent.book, pass);
    let clock = MonotonicClock::new(rt, lent.terms.start);
    obey_file(files, alloc, path, &mut desk, clock)?;
    Ok(Some(desk.into_pass()))
}
