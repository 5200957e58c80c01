// Records with an error due that no call has made: refused with 5, and no buffer is written. One that is within its section is not
// refused, though no call makes it: the error header goes within a record.
use crate::deferred::{holding_end, sending_end};
use crate::forged_defer::every_call_refused;
use crate::opened::opened_end;
use control::State;
use end::End;

// The error is due at this end, in this state, and BB-due is on or off.
fn with_error(end: End, state: State, due: bool) -> End {
    let mut forged = end;
    let control = forged.control;
    forged.control = control.with_state(state).with_due(due).with_error(true);
    forged
}

// A bidder that has denied a confirmation.
pub fn denying() -> End {
    with_error(opened_end(1), State::Send, false)
}

pub fn refusal_5_error_due_bytes_held() -> bool {
    let mut send = [0xA5u8; 64];
    let end = holding_end(b"\x00\x02", &mut send);
    every_call_refused(with_error(end, State::Send, false))
}

pub fn refusal_5_error_due_in_defer() -> bool {
    every_call_refused(with_error(sending_end(), State::DeferTurn, false))
        & every_call_refused(with_error(sending_end(), State::DeferEnd, false))
}

pub fn refusal_5_error_due_bb_due() -> bool {
    every_call_refused(with_error(sending_end(), State::Send, true))
}

pub fn refusal_5_error_due_in_receive() -> bool {
    every_call_refused(with_error(opened_end(1), State::Receive, false))
}

// Three bytes of a record of five have gone.
fn within_record() -> End {
    let mut send = [0xA5u8; 64];
    let end = holding_end(b"\x00\x05A", &mut send);
    let mut unit = [0xA5u8; 69];
    let flushed = end.flush(&send, &mut unit);
    flushed.end
}

// 9 is not asked of the error header.
pub fn error_header_within_record() -> bool {
    let end = with_error(within_record(), State::Send, false);
    let mut unit = [0xA5u8; 69];
    let flushed = end.flush(&[0xA5u8; 64], &mut unit);
    let answer = flushed.answer;
    (answer.refusal == 0)
        & (answer.unit == 12)
        & unit.starts_with(b"\x00\x02\x0B\x90\x00\x07\x07\x08\x89\x00\x00\x00\xA5")
}
