//! The control socket, which serves one operator at a time.

use crate::operator_lines::{OperatorLines, Served};
use crate::worker::{Lent, ServiceBook};
use clock::{Clock, MonotonicClock, REST_SECONDS};
use history::Desk;
use log::{Log, warn};
use operators::{Operator, OperatorQueue, OperatorTurn, TurnEnd};
use shared_book::{CallLedger, Seat};
use std::alloc::Global;
use std::io::{Read, Write};
use std::sync::Wait;
use std::thread;
use std::time::Duration;
use streams::{CountedReader, CountedWriter, Ended, ScriptFault, run_lines};
use system::{DEVICE_FAULT, cause_of};

/// Obeys lines up to the end of the input, or up to `stop`.
fn obey_input<
    'a,
    'l,
    C: Clock,
    D: Desk,
    L: CallLedger,
    R: Wait + std::rt::Clock,
    I: Read + Drop,
    O: Write + Drop,
>(
    alloc: Global,
    served: &mut Served<'a, 'l, C, L, R>,
    desk: &mut D,
    input: I,
    output: O,
) -> Result<Ended, ScriptFault> {
    let mut reader = CountedReader::new(input);
    let mut writer = CountedWriter::new(output);
    run_lines::<Served<'a, 'l, C, L, R>, D, OperatorLines, CountedReader<I>, CountedWriter<O>>(
        alloc,
        served,
        desk,
        &mut reader,
        &mut writer,
    )
}

/// Obeys an operator's lines for a turn.
pub(crate) fn obey_operator<
    'a,
    'q,
    C: Clock,
    D: Desk,
    L: CallLedger,
    R: Wait + std::rt::Clock + Log,
>(
    rt: &'a R,
    alloc: Global,
    served: &mut Served<'_, '_, C, L, R>,
    desk: &mut D,
    operator: &'a Operator,
    queue: &'a mut OperatorQueue<'q, R>,
) -> TurnEnd {
    let Ok(turn) = OperatorTurn::new(rt, operator, queue) else {
        warn!(rt; "{DEVICE_FAULT}: no operator is served");
        return TurnEnd::Over;
    };
    match obey_input(alloc, served, desk, &turn, &turn) {
        Ok(Ended::EndOfInput) => turn.end(),
        Ok(Ended::Stop) => {
            operator.drain();
            TurnEnd::Stop
        }
        Err(_) => TurnEnd::Over,
    }
}

/// Obeys the operators of a queue, one after another, until one sends `stop`. One whose turn ends between two lines waits for the next.
/// It goes on if accepting fails, for instance because no descriptors are left: nothing but `stop` ends a service in order.
pub(crate) fn obey_operators<L: CallLedger, R: Wait + std::rt::Clock + Log>(
    rt: &R,
    alloc: Global,
    lent: &Lent<'_, L>,
    mut queue: OperatorQueue<'_, R>,
    mut desk: Seat<'_, ServiceBook, L, R>,
) {
    let mut served = Served::new(rt, lent, MonotonicClock::new(rt, lent.terms.start));
    for _ in rt.forever() {
        match queue.next() {
            Ok(operator) => {
                let (served, desk, queue) = (&mut served, &mut desk, &mut queue);
                match obey_operator(rt, alloc, served, desk, &operator, queue) {
                    TurnEnd::Stop => return,
                    TurnEnd::Over => {}
                    TurnEnd::Yields => queue.put_back(operator),
                }
            }
            Err(error) => {
                let cause = cause_of(&error);
                warn!(rt; "{DEVICE_FAULT}: no operator is accepted: {cause}");
                thread::sleep(rt, Duration::from_secs(REST_SECONDS));
            }
        }
    }
}
