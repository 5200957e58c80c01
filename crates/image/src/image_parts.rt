// The parts of an image that occur more than once: a flag, a number of two bytes, a window, a record place. Each is read at the byte
// where it starts, and written there. A number is low byte first, as x86-64 keeps it, so that it is moved whole. Here the variants
// of a record place are named, since its bytes go by them.
ghost use Rattle.std.specs.Prelude.{◌≡◌, ◌+◌, ◌≤◌, ◌<◌, [], ◌∷◌, length};
ghost use Rattle.cells.specs.Cells.{written};
ghost use Rattle.image.specs.Image.{IMAGE};
ghost use Rattle.image.specs.ImageParts.{flag_byte, number_bytes, number_at, window_bytes};
ghost use Rattle.image.specs.ImageParts.{place_kind, place_value, place_bytes, place_read};

use crate::IMAGE;
use crate::codes::flag_code;
use logical_record::Position;
use pacing::Window;

pub fn write_flag(image: &mut [u8; IMAGE], at: usize, on: bool)
    requires { at < IMAGE }
    ensures { image.new ≡ written at (flag_byte on ∷ []) image.old }
{
    image[at] = flag_code(on);
}

pub fn number_at(image: &[u8; IMAGE], at: usize) -> u16
    requires { at + 2 ≤ IMAGE }
    ensures { result ≡ number_at image.now at }
{
    u16::from_le_bytes([image[at], image[at + 1]])
}

pub fn write_number(image: &mut [u8; IMAGE], at: usize, n: u16)
    requires { at + 2 ≤ IMAGE }
    ensures { image.new ≡ written at (number_bytes n) image.old }
{
    let [low, high] = n.to_le_bytes();
    image[at] = low;
    image[at + 1] = high;
}

pub fn write_window(image: &mut [u8; IMAGE], at: usize, w: Window)
    requires { at + 3 ≤ IMAGE }
    ensures { image.new ≡ written at (window_bytes w) image.old }
{
    image[at] = w.size;
    image[at + 1] = w.position;
    image[at + 2] = flag_code(w.pending);
}

// The kinds are numbered so that few tests tell a place.
fn place_kind(p: Position) -> u8
    ensures { result ≡ place_kind p }
{
    match p {
        Position::Between(more) => if more { 1 } else { 0 },
        Position::AfterFirst(_) => 4,
        Position::Remaining(more, _) => if more { 3 } else { 2 },
    }
}

fn place_value(p: Position) -> u16
    ensures { result ≡ place_value p }
{
    match p {
        Position::Between(_) => 0,
        Position::AfterFirst(byte) => byte as u16,
        Position::Remaining(_, n) => n,
    }
}

// The record place at a byte, if its three bytes are one's. Between records the value is 0; after the first LL byte it is one byte.
pub fn place_at(image: &[u8; IMAGE], at: usize) -> Option<Position>
    requires { at + 3 ≤ IMAGE }
    ensures { result ≡ place_read image.now at }
{
    let kind = image[at];
    let value = number_at(image, at + 1);
    match kind {
        0 | 1 => if value == 0 {
            Some(Position::Between(kind == 1))
        } else {
            None
        },
        2 | 3 => Some(Position::Remaining(kind == 3, value)),
        4 => if image[at + 2] == 0 {
            Some(Position::AfterFirst(image[at + 1]))
        } else {
            None
        },
        _ => None,
    }
}

pub fn write_place(image: &mut [u8; IMAGE], at: usize, p: Position)
    requires { at + 3 ≤ IMAGE }
    ensures { image.new ≡ written at (place_bytes p) image.old }
{
    image[at] = place_kind(p);
    write_number(image, at + 1, place_value(p));
}
