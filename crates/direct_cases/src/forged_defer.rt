// Records in Defer that no call has made, and a forged one that is to be prepared: refused, and no buffer is written.
use crate::deferred::{holding_end, sending_end};
use crate::forged::forged;
use crate::opened::{opened_end, refusal_of};
use crate::refused::{give, read, refused, take, unit_calls};
use check::same;
use control::{Deferred, State};
use end::End;

// The calls that are lent nothing: whether they answer this number.
fn prepare_answers(end: End, number: u8) -> bool {
    let turn = refusal_of(end.defer(Deferred::Turn));
    let ending = refusal_of(end.defer(Deferred::End));
    (turn == number) & (ending == number)
}

fn withdraw_answers(end: End, number: u8) -> bool {
    refusal_of(end.withdraw()) == number
}

pub fn refusal_5_forged_prepare() -> bool {
    prepare_answers(forged(), 5) & withdraw_answers(forged(), 5)
}

fn flush_refused(end: End, number: u8) -> bool {
    let mut unit = [0xA5u8; 69];
    let flushed = end.flush(&[0xA5u8; 64], &mut unit);
    refused(flushed, number, &unit)
}

fn confirm_refused(end: End, number: u8) -> bool {
    let mut unit = [0xA5u8; 69];
    let confirmed = end.confirm(&[0xA5u8; 64], &mut unit);
    refused(confirmed, number, &unit)
}

// Flush and confirm, which carry out what is prepared.
fn carrying_refused(end: End, number: u8) -> bool {
    flush_refused(end, number) & confirm_refused(end, number)
}

fn give_refused(end: End) -> bool {
    let mut send = [0xA5u8; 64];
    give(end, 5, &mut send) & same(&send, &[0xA5u8; 64])
}

fn receives_refused(end: End) -> bool {
    let mut inbox = [0xA5u8; 192];
    take(end, 5, &mut inbox) & read(end, 5, &mut inbox) & same(&inbox, &[0xA5u8; 192])
}

fn unit_calls_refused(end: End) -> bool {
    let mut unit = [0xA5u8; 69];
    unit_calls(end, 5, &mut unit) & same(&unit, &[0xA5u8; 69])
}

pub fn every_call_refused(end: End) -> bool {
    prepare_answers(end, 5)
        & withdraw_answers(end, 5)
        & carrying_refused(end, 5)
        & give_refused(end)
        & receives_refused(end)
        & unit_calls_refused(end)
}

// A sending chain is open and no byte is held.
fn chain_of_none(state: State) -> End {
    let mut end = sending_end();
    let control = end.control;
    end.control = control
        .with_state(state)
        .with_due(false)
        .with_outchain(true);
    end
}

pub fn refusal_5_defer_chain_of_none() -> bool {
    every_call_refused(chain_of_none(State::DeferTurn))
        & every_call_refused(chain_of_none(State::DeferEnd))
}

// A bidder in Defer with BB-due.
fn due_at_bidder(state: State) -> End {
    let mut end = opened_end(1);
    let control = end.control;
    end.control = control.with_state(state).with_due(true);
    end
}

pub fn refusal_5_defer_due_at_bidder() -> bool {
    every_call_refused(due_at_bidder(State::DeferTurn))
        & every_call_refused(due_at_bidder(State::DeferEnd))
}

// In Defer with three bytes of a record of five given, where prepare would have been refused with 9.
fn within_record(state: State) -> End {
    let mut send = [0xA5u8; 64];
    let mut end = holding_end(b"\x00\x05A", &mut send);
    let control = end.control;
    end.control = control.with_state(state);
    end
}

// The record is within its section: withdraw is accepted.
fn carrying_refused_9(end: End) -> bool {
    carrying_refused(end, 9) & withdraw_answers(end, 0)
}

pub fn refusal_9_forged_defer() -> bool {
    carrying_refused_9(within_record(State::DeferTurn))
        & carrying_refused_9(within_record(State::DeferEnd))
}
