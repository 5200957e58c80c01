// What a read copies, where the bytes go, and what is left.
ghost use Rattle.std.specs.Prelude.{◌≡◌, ◌≤◌, min, leb, length, take, drop};
ghost use Rattle.cells.specs.Cells.{front};
ghost use Rattle.logical_record.specs.Walk.{walk, place_or};
ghost use Rattle.logical_record.specs.RestOfRecord.{rest};
ghost use Rattle.receiving.specs.BytesRead.{rest_good, rest_bytes, bytes_gone};

use crate::Receiving;
use cells::{copy, move_to_front};
use logical_record::rest_of_record::rest_of_record;
use logical_record::walk::{place_or, walk_over};
use logical_record::{BadLength, Position};

// The record's LL is good, or not met.
pub fn rest_good(rest: Result<u16, BadLength>) -> bool
    ensures { result ≡ rest_good rest }
{
    rest.is_ok()
}

// The rest of the current record by the bytes held. It is asked of any record, also one that claims to hold more than the
// inbox has.
pub fn record_rest(r: Receiving, inbox: &[u8]) -> Result<u16, BadLength>
    ensures { result ≡ rest r.read (take r.held inbox.now) }
{
    let n = inbox.len().min(r.held as usize);
    rest_of_record(r.read, &inbox[..n])
}

pub fn some_held(held: u16) -> bool
    ensures { result ≡ leb 1 held }
{
    1 <= held
}

// The least of the caller's buffer, the bytes held and the rest of the current record.
pub fn copy_count(buffer: usize, held: u16, rest: Result<u16, BadLength>) -> usize
    ensures { result ≡ min buffer (min held (rest_bytes rest)) }
{
    let most = held.min(rest.unwrap_or(0));
    buffer.min(most as usize)
}

// The first k of the bytes held go to the front of the caller's buffer, and the others to the front of the inbox. Cells past
// those keep what they had.
pub fn hand_over(inbox: &mut [u8], held: usize, k: usize, buffer: &mut [u8])
    requires { (k ≤ held) × (held ≤ length inbox.old) × (k ≤ length buffer.old) }
    ensures copied { buffer.new ≡ front (take k inbox.old) buffer.old }
    ensures moved { inbox.new ≡ front (drop k (take held inbox.old)) inbox.old }
{
    copy(&inbox[..k], buffer);
    move_to_front(&mut inbox[..held], k);
}

// k of the bytes held are gone, and the record place of reading moves to `place`.
fn read_on(r: Receiving, k: u16, place: Position) -> Receiving
    requires { k ≤ r.held }
    ensures { result ≡ bytes_gone k place r }
{
    Receiving {
        held: r.held - k,
        read: place,
        ..r
    }
}

// The side once k of the bytes held are read: the record place moves over them.
pub fn after_read(r: Receiving, k: usize, inbox: &[u8]) -> Receiving
    requires { (k ≤ r.held) × (r.held ≤ length inbox.now) }
    ensures { result ≡ bytes_gone k (place_or r.read (walk r.read (take k inbox.now))) r }
{
    let place = place_or(r.read, walk_over(r.read, &inbox[..k]));
    read_on(r, k as u16, place)
}
