// A session opened by the bytes with which it starts, as they stand in BIND, in place of its numbers.
ghost use Rattle.std.specs.Prelude.{◌≡◌, length};
ghost use Rattle.session.specs.BindOpening.{meant, opened_by_bytes};

use crate::{Session, open_session};
use bind::{size_of, window_of};
use end::Done;

// The role, and for each direction the byte of the window and that of the maximum RU.
#[derive(Clone, Copy)]
pub struct SessionBytes {
    pub role: u8,
    pub outwindow: u8,
    pub inwindow: u8,
    pub outsize: u8,
    pub insize: u8,
}

// The numbers that the bytes mean. A size byte that means no maximum has 0, which opening refuses as it does every number below 8.
fn numbers(bytes: SessionBytes) -> Session
    ensures { result ≡ meant bytes }
{
    Session {
        role: bytes.role,
        outwindow: window_of(bytes.outwindow),
        inwindow: window_of(bytes.inwindow),
        outmax: size_of(bytes.outsize),
        inmax: size_of(bytes.insize),
    }
}

// Opens a session by the lengths of the three buffers that later calls will be lent.
pub fn open_bind_session(bytes: SessionBytes, send: usize, unit: usize, inbox: usize) -> Done
    ensures { result ≡ opened_by_bytes bytes send unit inbox }
{
    open_session(numbers(bytes), send, unit, inbox)
}

// Opens a session with the send buffer, the unit buffer and the inbox. No cell of them is written.
pub fn open_bind(bytes: SessionBytes, send: &[u8], unit: &[u8], inbox: &[u8]) -> Done
    ensures { result ≡ opened_by_bytes bytes (length send.now) (length unit.now) (length inbox.now) }
{
    open_bind_session(bytes, send.len(), unit.len(), inbox.len())
}
