// Buffers that are not as long as the record says: refused with 4, and not written.
use crate::deferred::{deferring, sending_end};
use crate::forged_error::denying;
use crate::opened::{opened_end, refusal_of};
use crate::refused::{give, read, refused, take, unit_calls};
use check::same;
use control::Deferred;
use end::End;

pub fn refusal_4_unit_buffer() -> bool {
    let mut unit = [0xA5u8; 68];
    unit_calls(opened_end(1), 4, &mut unit) & same(&unit, &[0xA5u8; 68])
}

fn give_refused() -> bool {
    let mut send = [0xA5u8; 63];
    give(opened_end(0), 4, &mut send) & same(&send, &[0xA5u8; 63])
}

fn flush_refused(end: End) -> bool {
    let mut unit = [0xA5u8; 69];
    let flushed = end.flush(&[0xA5u8; 63], &mut unit);
    refused(flushed, 4, &unit)
}

pub fn refusal_4_send_buffer() -> bool {
    give_refused() & flush_refused(opened_end(0))
}

fn take_into_long() -> bool {
    let mut inbox = [0xA5u8; 193];
    take(opened_end(1), 4, &mut inbox) & same(&inbox, &[0xA5u8; 193])
}

fn take_into_short() -> bool {
    let mut inbox = [0xA5u8; 191];
    take(opened_end(1), 4, &mut inbox) & same(&inbox, &[0xA5u8; 191])
}

// An inbox longer than the record says is refused like one that is shorter.
pub fn refusal_4_inbox_of_take() -> bool {
    take_into_long() & take_into_short()
}

pub fn refusal_4_inbox_of_read() -> bool {
    let mut inbox = [0xA5u8; 191];
    read(opened_end(1), 4, &mut inbox) & same(&inbox, &[0xA5u8; 191])
}

fn give_in_defer(end: End) -> bool {
    let mut send = [0xA5u8; 63];
    give(end, 4, &mut send) & same(&send, &[0xA5u8; 63])
}

fn confirm_in_defer(end: End) -> bool {
    let mut unit = [0xA5u8; 68];
    let confirmed = end.confirm(&[0xA5u8; 64], &mut unit);
    (refusal_of(confirmed) == 4) & same(&unit, &[0xA5u8; 68])
}

fn refused_in_defer(what: Deferred) -> bool {
    let end = deferring(sending_end(), what);
    give_in_defer(end) & flush_refused(end) & confirm_in_defer(end)
}

// In Defer too the buffers are asked before the state.
pub fn refusal_4_in_defer() -> bool {
    refused_in_defer(Deferred::Turn) & refused_in_defer(Deferred::End)
}

fn flush_into_short(end: End) -> bool {
    let mut unit = [0xA5u8; 68];
    let flushed = end.flush(&[0xA5u8; 64], &mut unit);
    (refusal_of(flushed) == 4) & same(&unit, &[0xA5u8; 68])
}

// The error header needs both buffers too, though no byte is held.
pub fn refusal_4_error_due() -> bool {
    flush_refused(denying()) & flush_into_short(denying())
}
