// A session opened by its bytes beside one opened by its numbers, bytes that open none, and sizes with their bytes.
use crate::opened::refusal_of;
use bind::size_byte;
use end::{Done, End};
use session::bind_opening::{SessionBytes, open_bind_session};
use session::{Session, open_session};

// The same bytes both ways, with a send buffer of 256 bytes, a unit buffer of 261 and an inbox of 7 × 256.
fn by_bytes(role: u8, window: u8, size: u8) -> Done {
    let bytes = SessionBytes {
        role,
        outwindow: window,
        inwindow: window,
        outsize: size,
        insize: size,
    };
    open_bind_session(bytes, 256, 261, 1792)
}

fn by_numbers(role: u8) -> Done {
    let session = Session {
        role,
        outwindow: 7,
        inwindow: 7,
        outmax: 256,
        inmax: 256,
    };
    open_session(session, 256, 261, 1792)
}

fn same_sending(one: End, two: End) -> bool {
    let a = one.sending;
    let b = two.sending;
    let v = a.window;
    let w = b.window;
    (v.size == w.size) & (v.position == w.position) & (a.max == b.max) & (a.held == b.held)
}

fn same_receiving(one: End, two: End) -> bool {
    let a = one.receiving;
    let b = two.receiving;
    let v = a.window;
    let w = b.window;
    (v.size == w.size) & (v.position == w.position) & (a.max == b.max) & (a.inbox == b.inbox)
}

// Window byte C7 is 7 and size byte 85 is 256.
fn same_opened(role: u8) -> bool {
    let bytes = by_bytes(role, 0xC7, 0x85);
    let numbers = by_numbers(role);
    let one = bytes.end;
    let two = numbers.end;
    (refusal_of(bytes) == 0)
        & (refusal_of(numbers) == 0)
        & (same_sending(one, two) & same_receiving(one, two))
}

pub fn opened_by_bytes() -> bool {
    same_opened(0) & same_opened(1)
}

// In the order 1, 2, 3, 4: each of these is wrong in all that is asked behind.
pub fn refusals_by_bytes() -> bool {
    (refusal_of(by_bytes(2, 0x40, 0x75)) == 1)
        & (refusal_of(by_bytes(0, 0x40, 0x75)) == 2)
        & (refusal_of(by_bytes(0, 0xFF, 0x75)) == 3)
        & (refusal_of(by_bytes(0, 0xFF, 0x97)) == 3)
        & (refusal_of(by_bytes(0, 0xC8, 0x85)) == 4)
}

fn answered(size: u32, number: u8, byte: u8) -> bool {
    let found = size_byte(size);
    let answer = found.answer;
    (answer.refusal == number) & (answer.sense == 0) & (found.byte == byte)
}

pub fn bytes_of_sizes() -> bool {
    answered(8, 0, 0x80)
        & answered(256, 0, 0x85)
        & answered(384, 0, 0xC5)
        & answered(960, 0, 0xF6)
        & answered(1024, 0, 0x87)
}

pub fn refusal_31_no_byte() -> bool {
    answered(17, 31, 0) & answered(257, 31, 0) & answered(1023, 31, 0)
}

pub fn refusal_3_before_31() -> bool {
    answered(0, 3, 0)
        & answered(7, 3, 0)
        & answered(1025, 3, 0)
        & answered(1152, 3, 0)
        & answered(4294967295, 3, 0)
}
