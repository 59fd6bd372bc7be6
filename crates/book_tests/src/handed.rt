//! Calls of a shared book whose receipts are kept, and what a caller hands in at the end.

use crate::stop::Stop;
use dns_text::Shared;
use history::{Book, Event, StepFault};
use shared_book::{CallFault, CallLedger, Pass, Receipt, SharedBook};
use std::sync::Wait;

/// What is handed in at the end: a pass, and receipts in the order in which they came.
#[derive(Drop)]
pub struct Handed<L: CallLedger> {
    pub pass: Pass<L>,
    pub receipts: Vec<Receipt>,
}

/// Calls with an event, and keeps the receipt.
pub fn call_one<B: Book, L: CallLedger, R: Wait>(
    rt: &R,
    book: &SharedBook<B, L>,
    pass: &mut Pass<L>,
    event: Shared<Event>,
    receipts: &mut Vec<Receipt>,
) -> Result<(), CallFault> {
    match receipts.reserve(1) {
        Ok(()) => {}
        Err(_) => return Err(CallFault::Step(StepFault::NoMemory)),
    }
    match book.call(rt, pass, event) {
        Ok(receipt) => {
            receipts.push_reserved(receipt);
            Ok(())
        }
        Err(fault) => Err(fault),
    }
}

/// Adds a receipt. What is not added is dropped by a call, since the prover follows any other drop variant by variant.
pub fn keep(receipts: &mut Vec<Receipt>, receipt: Receipt) -> Result<(), Stop> {
    match receipts.push(receipt) {
        Ok(()) => Ok(()),
        Err(refused) => {
            drop(refused);
            Err(Stop)
        }
    }
}

/// The same with more receipts.
pub fn with_receipts<L: CallLedger>(
    handed: Handed<L>,
    more: Vec<Receipt>,
) -> Result<Handed<L>, Stop> {
    let Handed { pass, mut receipts } = handed;
    for receipt in more {
        keep(&mut receipts, receipt)?;
    }
    Ok(Handed { pass, receipts })
}
