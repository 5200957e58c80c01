// Numbers that wrap: after 65,535 comes 0.
use crate::opened::opened_end;
use end::{Done, End};

// One record of two bytes, given and flushed.
fn flush_record(end: End, send: &mut [u8], unit: &mut [u8]) -> Done {
    let given = end.send_data(b"\x00\x02", send, unit);
    let holding = given.end;
    holding.flush(send, unit)
}

// One record sent: the end after, if it is accepted and the unit begins with these bytes.
fn send_record(end: End, front: &[u8]) -> Option<End> {
    let mut send = [0xA5u8; 64];
    let mut unit = [0xA5u8; 69];
    let flushed = flush_record(end, &mut send, &mut unit);
    let answer = flushed.answer;
    let right = (answer.refusal == 0) & unit.starts_with(front);
    right.then_some(flushed.end)
}

// In a conversation, with 65,534 as the last number sent.
fn near_last() -> End {
    let mut end = opened_end(0);
    let mut sending = end.sending;
    sending.number = 65534;
    end.sending = sending;
    let mut unit = [0xA5u8; 69];
    let begun = end.allocate(&mut unit);
    begun.end
}

// The last number sent was 65,534: the next two are 65,535 and 0.
pub fn seq() -> bool {
    send_record(near_last(), b"\xFF\xFF\x03\x91\x80\x00\x02\xA5")
        .and_then(|end| send_record(end, b"\x00\x00\x03\x90\x00\x00\x02\xA5"))
        .is_some()
}
