// A turn or an end that is prepared and then carried out: the unit is the one of turn or end by its own call, cell for cell.
use crate::opened::opened_end;
use check::same;
use control::Deferred;
use end::{Done, End};

// A first speaker in Send, nothing given.
pub fn sending_end() -> End {
    let end = opened_end(0);
    let mut unit = [0xA5u8; 69];
    let begun = end.allocate(&mut unit);
    begun.end
}

// The same with these bytes given.
pub fn holding_end(bytes: &[u8], send: &mut [u8]) -> End {
    let end = sending_end();
    let mut unit = [0xA5u8; 69];
    let given = end.send_data(bytes, send, &mut unit);
    given.end
}

pub fn deferring(end: End, what: Deferred) -> End {
    let done = end.defer(what);
    done.end
}

fn carried_out(end: End, confirm: bool, send: &[u8], unit: &mut [u8]) -> Done {
    if confirm {
        return end.confirm(send, unit);
    }
    end.flush(send, unit)
}

fn at_once(end: End, what: Deferred, confirm: bool, send: &[u8], unit: &mut [u8]) -> Done {
    match what {
        Deferred::Turn => end.prepare_to_receive(confirm, send, unit),
        Deferred::End => end.deallocate(confirm, send, unit),
    }
}

// Accepted, with a unit of five bytes behind its header.
fn made_ten(done: Done) -> bool {
    let answer = done.answer;
    (answer.refusal == 0) & (answer.unit == 10)
}

fn same_unit(what: Deferred, confirm: bool) -> bool {
    let mut send = [0xA5u8; 64];
    let end = holding_end(b"\x00\x05ABC", &mut send);
    let mut deferred = [0xA5u8; 69];
    let one = carried_out(deferring(end, what), confirm, &send, &mut deferred);
    let mut direct = [0xA5u8; 69];
    let two = at_once(end, what, confirm, &send, &mut direct);
    made_ten(one) & made_ten(two) & same(&deferred, &direct)
}

pub fn prepared_as_at_once() -> bool {
    same_unit(Deferred::Turn, false)
        & same_unit(Deferred::Turn, true)
        & same_unit(Deferred::End, false)
        & same_unit(Deferred::End, true)
}
