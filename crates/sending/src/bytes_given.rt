// Bytes given to the sending side: whether they are kept, how, and the units that carry them.
ghost use Rattle.std.specs.Prelude.{◌≡◌, ◌&&◌, ◌++◌, ◌+◌, ◌≤◌, ◌<◌, ◌^◌, leb, length, take, drop};
ghost use Rattle.cells.specs.Cells.{front, written};
ghost use Rattle.logical_record.specs.Walk.{walk, place_or};
ghost use Rattle.unit.specs.Unit.{unit_of};
ghost use Rattle.sending.specs.Sending.{keeps, bytes_added};

use crate::Sending;
use cells::copy;
use header::Header;
use logical_record::walk::{place_or, walk_over};
use logical_record::{BadLength, Position};
use unit::write::write_unit;

// The bytes are 1 to M.
pub fn length_fits(s: Sending, n: usize) -> bool
    ensures { result ≡ leb 1 n && leb n s.max }
{
    (1 <= n) & (n <= s.max as usize)
}

// Held plus new is at most M: no unit goes.
pub fn keeps(s: Sending, n: usize) -> bool
    requires { n < 2 ^ 63 }
    ensures { result ≡ keeps s n }
{
    (s.held as usize) + n <= s.max as usize
}

// The walk over new bytes, from where those given before stand.
pub fn walk_given(s: Sending, bytes: &[u8]) -> Result<Position, BadLength>
    ensures { result ≡ walk s.given bytes.now }
{
    walk_over(s.given, bytes)
}

// The side once n more bytes are kept; `walked` is what the walk over them found.
pub fn kept(s: Sending, n: usize, walked: Result<Position, BadLength>) -> Sending
    requires { s.held + n ≤ s.max }
    ensures { result ≡ bytes_added n (place_or s.given walked) s }
{
    Sending {
        held: s.held + n as u16,
        given: place_or(s.given, walked),
        ..s
    }
}

// The bytes are put behind those held.
pub fn keep(held: u16, bytes: &[u8], send: &mut [u8])
    requires { held + length bytes.now ≤ length send.old }
    ensures { send.new ≡ written held bytes.now send.old }
{
    copy(bytes, &mut send[held as usize..]);
}

// Makes the unit of the bytes held.
pub fn send_held(number: u16, header: Header, held: u16, send: &[u8], unit: &mut [u8])
    requires { (held ≤ length send.now) × (5 + held ≤ length unit.old) }
    ensures { unit.new ≡ front (unit_of number header (take held send.now)) unit.old }
{
    write_unit(unit, number, header, &send[..held as usize], b"");
}

// Makes the unit of the bytes held and the first of the new ones, `gone` of them. The rest is kept, at the front of the send
// buffer. The buffer is not filled first: cells past the rest keep what they had.
pub fn send_full(
    number: u16,
    header: Header,
    held: usize,
    gone: usize,
    bytes: &[u8],
    send: &mut [u8],
    unit: &mut [u8],
)
    requires { (held ≤ length send.old) × (gone ≤ length bytes.now) × (length bytes.now ≤ length send.old)
        × (5 + (held + gone) ≤ length unit.old) }
    ensures cells { unit.new
        ≡ front (unit_of number header (take held send.old ++ take gone bytes.now)) unit.old }
    ensures kept { send.new ≡ front (drop gone bytes.now) send.old }
{
    write_unit(unit, number, header, &send[..held], &bytes[..gone]);
    copy(&bytes[gone..], send);
}
