// The calls of the expedited lines on records that no script comes to: numbers that wrap, a signal unanswered in any state, and a take in
// every state and under every mark, which leaves both as they were.
use crate::forged::forged;
use crate::opened::opened_end;
use crate::refused::{refused, request, take_expedited};
use check::same;
use control::{State, WhatReceived};
use end::{End, Expedited, ExpeditedDone};

// A bidder in this state, with this kept of its expedited lines.
fn in_state(state: State, unanswered: bool, sent: u16, taken: u16) -> End {
    let mut end = opened_end(1);
    let control = end.control;
    end.control = control.with_state(state);
    let kept = Expedited {
        unanswered,
        sent,
        taken,
    };
    end.expedited = kept;
    end
}

// In Receive, under this mark.
fn under_mark(mark: WhatReceived) -> End {
    let mut end = in_state(State::Receive, false, 0, 0);
    let control = end.control;
    end.control = control.with_mark(mark);
    end
}

// The state and the mark are the same.
fn stands_as(before: End, after: End) -> bool {
    let was = before.control;
    let is = after.control;
    (was.state == is.state) & (was.mark == is.mark)
}

// What is kept of the expedited lines is this.
fn keeps(end: End, unanswered: bool, sent: u16, taken: u16) -> bool {
    let kept = end.expedited;
    (kept.unanswered == unanswered) & (kept.sent == sent) & (kept.taken == taken)
}

fn signal_accepted(done: ExpeditedDone, before: End) -> bool {
    let answer = done.answer;
    let inner = answer.answer;
    let after = done.end;
    (inner.refusal == 0) & (inner.unit == 6) & answer.signalled & stands_as(before, after)
}

fn response_accepted(done: ExpeditedDone, before: End) -> bool {
    let answer = done.answer;
    let inner = answer.answer;
    let after = done.end;
    (inner.refusal == 0) & (inner.unit == 0) & !answer.signalled & stands_as(before, after)
}

// The first signal is taken: it is answered and told, and its number is kept.
fn first_signal_taken(end: End) -> bool {
    let mut unit = [0xA5u8; 69];
    let done = end.receive_expedited(b"\x00\x01\x4B\x80\x00\xC9\x00\x01\x00\x00", &mut unit);
    let after = done.end;
    signal_accepted(done, end)
        & keeps(after, false, 0, 1)
        & unit.starts_with(b"\x00\x01\xCB\x80\x00\xC9\xA5")
}

// Seven states and, in Receive, six marks.
pub fn expedited_take_in_each_state() -> bool {
    first_signal_taken(in_state(State::Reset, false, 0, 0))
        & first_signal_taken(in_state(State::Send, false, 0, 0))
        & first_signal_taken(in_state(State::ConfirmOwed, false, 0, 0))
        & first_signal_taken(in_state(State::ConfirmAwaited, false, 0, 0))
        & first_signal_taken(in_state(State::DeferTurn, false, 0, 0))
        & first_signal_taken(in_state(State::DeferEnd, false, 0, 0))
        & first_signal_taken(under_mark(WhatReceived::Nothing))
        & first_signal_taken(under_mark(WhatReceived::Turn))
        & first_signal_taken(under_mark(WhatReceived::End))
        & first_signal_taken(under_mark(WhatReceived::Confirm))
        & first_signal_taken(under_mark(WhatReceived::ConfirmTurn))
        & first_signal_taken(under_mark(WhatReceived::ConfirmEnd))
        & first_signal_taken(under_mark(WhatReceived::Error))
}

// The signal unanswered is answered: no unit is made, and the flag is off.
fn response_taken(state: State) -> bool {
    let end = in_state(state, true, 7, 3);
    let mut unit = [0xA5u8; 69];
    let done = end.receive_expedited(b"\x00\x07\xCB\x80\x00\xC9", &mut unit);
    let after = done.end;
    response_accepted(done, end) & keeps(after, false, 7, 3) & same(&unit, &[0xA5u8; 69])
}

// The record is within its section with the flag on in any state: the conversation can go on before the answer comes.
pub fn signal_unanswered_in_each_state() -> bool {
    response_taken(State::Reset)
        & response_taken(State::Send)
        & response_taken(State::Receive)
        & response_taken(State::ConfirmOwed)
        & response_taken(State::ConfirmAwaited)
        & response_taken(State::DeferTurn)
        & response_taken(State::DeferEnd)
}

// A signal made in Receive: the end after, if it is accepted and is this unit.
fn signal(end: End, made: &[u8]) -> Option<End> {
    let mut unit = [0xA5u8; 69];
    let done = end.request_to_send(&mut unit);
    let answer = done.answer;
    let right = (answer.refusal == 0) & (answer.unit == 10) & unit.starts_with(made);
    right.then_some(done.end)
}

// Its answer is taken.
fn answered(end: End, response: &[u8]) -> Option<End> {
    let mut unit = [0xA5u8; 69];
    let done = end.receive_expedited(response, &mut unit);
    response_accepted(done, end).then_some(done.end)
}

// The last signal made was 65,534: the next two are 65,535 and 0.
fn signals_wrap() -> Option<End> {
    let before = in_state(State::Receive, false, 65534, 0);
    let waiting = signal(before, b"\xFF\xFF\x4B\x80\x00\xC9\x00\x01\x00\x00\xA5")?;
    let ready = answered(waiting, b"\xFF\xFF\xCB\x80\x00\xC9")?;
    signal(ready, b"\x00\x00\x4B\x80\x00\xC9\x00\x01\x00\x00\xA5")
}

// A signal taken: the end after, if it is told and answered by this unit.
fn told(end: End, taken: &[u8], made: &[u8]) -> Option<End> {
    let mut unit = [0xA5u8; 69];
    let done = end.receive_expedited(taken, &mut unit);
    let right = signal_accepted(done, end) & unit.starts_with(made);
    right.then_some(done.end)
}

// So at the end that takes them.
fn takes_wrap() -> Option<End> {
    let before = in_state(State::Send, false, 0, 65534);
    let between = told(
        before,
        b"\xFF\xFF\x4B\x80\x00\xC9\x00\x01\x00\x00",
        b"\xFF\xFF\xCB\x80\x00\xC9\xA5",
    )?;
    told(
        between,
        b"\x00\x00\x4B\x80\x00\xC9\x00\x01\x00\x00",
        b"\x00\x00\xCB\x80\x00\xC9\xA5",
    )
}

pub fn seq_expedited() -> bool {
    signals_wrap().is_some_and(|end| keeps(end, true, 0, 0))
        & takes_wrap().is_some_and(|end| keeps(end, false, 0, 0))
}

fn request_refused(end: End, number: u8) -> bool {
    let mut unit = [0xA5u8; 69];
    refused(end.request_to_send(&mut unit), number, &unit)
}

// With a signal unanswered, request to send is refused with this number in this state.
fn unanswered_refused(state: State, number: u8) -> bool {
    request_refused(in_state(state, true, 7, 3), number)
}

// The state is asked before the flag.
pub fn refusal_7_before_30() -> bool {
    unanswered_refused(State::Reset, 7)
        & unanswered_refused(State::Send, 7)
        & unanswered_refused(State::ConfirmAwaited, 7)
        & unanswered_refused(State::DeferTurn, 7)
        & unanswered_refused(State::DeferEnd, 7)
}

pub fn refusal_30_forged() -> bool {
    unanswered_refused(State::Receive, 30) & unanswered_refused(State::ConfirmOwed, 30)
}

fn both_answer(end: End, number: u8, unit: &mut [u8]) -> bool {
    (request(end, unit) == number) & (take_expedited(end, unit) == number)
}

// A unit buffer that is one short.
fn refused_short(end: End) -> bool {
    let mut unit = [0xA5u8; 68];
    both_answer(end, 4, &mut unit) & same(&unit, &[0xA5u8; 68])
}

// One that is short for the forged record too, whose maximum RU is 7.
fn forged_refused_short() -> bool {
    let mut unit = [0xA5u8; 11];
    both_answer(forged(), 4, &mut unit) & same(&unit, &[0xA5u8; 11])
}

// The buffer is asked first: before the record, the state and the flag.
pub fn refusal_4_expedited() -> bool {
    refused_short(in_state(State::Receive, false, 0, 0))
        & refused_short(in_state(State::Reset, true, 7, 3))
        & forged_refused_short()
}

// The forged record of the other cases is in Reset: 5 is asked before 7.
pub fn refusal_5_forged_expedited() -> bool {
    let mut unit = [0xA5u8; 69];
    both_answer(forged(), 5, &mut unit) & same(&unit, &[0xA5u8; 69])
}
