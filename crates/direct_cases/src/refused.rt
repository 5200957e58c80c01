// The calls whose refusals the cases look at. Each says whether the call is refused with this number and leaves the buffers
// of its own as they were.
use crate::opened::refusal_of;
use check::same;
use end::{Done, End};

pub fn refused(done: Done, number: u8, unit: &[u8]) -> bool {
    (refusal_of(done) == number) & same(unit, &[0xA5u8; 69])
}

pub fn give(end: End, number: u8, send: &mut [u8]) -> bool {
    let mut unit = [0xA5u8; 69];
    let given = end.send_data(b"\x00\x02", send, &mut unit);
    refused(given, number, &unit)
}

pub fn take(end: End, number: u8, inbox: &mut [u8]) -> bool {
    let mut unit = [0xA5u8; 69];
    let taken = end.receive_unit(b"\x00\x01\x03\x91\x81\x00\x02", inbox, &mut unit);
    refused(taken, number, &unit)
}

pub fn read(end: End, number: u8, inbox: &mut [u8]) -> bool {
    let mut buffer = [0xA5u8; 8];
    let read = end.receive(inbox, &mut buffer);
    let answer = read.answer;
    let inner = answer.answer;
    (inner.refusal == number) & same(&buffer, &[0xA5u8; 8])
}

fn begin(end: End, unit: &mut [u8]) -> u8 {
    refusal_of(end.allocate(unit))
}

fn confirm(end: End, unit: &mut [u8]) -> u8 {
    refusal_of(end.confirmed(unit))
}

fn deny(end: End, unit: &mut [u8]) -> u8 {
    refusal_of(end.send_error(unit))
}

pub fn request(end: End, unit: &mut [u8]) -> u8 {
    refusal_of(end.request_to_send(unit))
}

// Takes the first signal on the expedited line.
pub fn take_expedited(end: End, unit: &mut [u8]) -> u8 {
    let taken = end.receive_expedited(b"\x00\x01\x4B\x80\x00\xC9\x00\x01\x00\x00", unit);
    let answer = taken.answer;
    let inner = answer.answer;
    inner.refusal
}

fn pace(end: End, unit: &mut [u8]) -> u8 {
    refusal_of(end.send_pacing_response(unit))
}

// The calls that are lent no buffer to be written but a unit buffer, and no send buffer.
pub fn unit_calls(end: End, number: u8, unit: &mut [u8]) -> bool {
    (begin(end, unit) == number)
        & (pace(end, unit) == number)
        & (confirm(end, unit) == number)
        & (deny(end, unit) == number)
        & (request(end, unit) == number)
        & (take_expedited(end, unit) == number)
}
