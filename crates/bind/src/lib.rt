// The bytes with which a session starts, in document 000 bytes 8 to 13 of BIND (appendix E): what a window byte and a size byte mean,
// and the byte of a size.
#![tactic(auto)]

pub mod theorems;

ghost use Rattle.std.specs.Prelude.{◌≡◌, true};
ghost use Rattle.unit.specs.Maximum.{max_good};
ghost use Rattle.bind.specs.SessionBytes.{window_of, size_of, byte_found, no_byte, size_byte};

use answers::numbers::{BAD_MAXIMUM, NO_SIZE_BYTE};
use answers::{Answer, accept, refuse};
use unit::maximum::max_good;

// A mantissa has its high bit on: document 000's floating point number is normalized.
const LEAST_MANTISSA: u32 = 8;

// The answer to a size: its byte, 0 where the size is refused. C reads the answer's numbers and the byte, so this is no Result.
#[derive(Clone, Copy)]
pub struct SizeByte {
    pub answer: Answer,
    pub byte: u8,
}

// The window that a byte means: its low six bits. The two high bits are document 000's staging indicator and reserved bits.
pub fn window_of(byte: u8) -> u8
    ensures { result ≡ window_of byte }
{
    byte % 64
}

// The maximum RU that a byte means: the mantissa, in the high four bits, times 2 to the power of the exponent, in the low four. A byte that
// means no maximum has 0, which question 3 refuses: the definition of opening by bytes (`meant`) says so.
pub fn size_of(byte: u8) -> u32
    ensures { result ≡ size_of byte }
{
    let mantissa = (byte / 16) as u32;
    let exponent = byte % 16;
    let size = mantissa << exponent;
    if (LEAST_MANTISSA <= mantissa) & max_good(size) {
        size
    } else {
        0
    }
}

// The byte that means a size, if one does. The size is moved so that its highest bit is the mantissa's, of weight 8. That loses the bits
// below the mantissa: if one of them is on, no byte means the size.
fn byte_of(size: u32) -> Option<u8>
    requires { max_good size ≡ true }
    ensures { result ≡ byte_found size }
{
    let exponent = 28 - u32::leading_zeros(size);
    let mantissa = size >> exponent;
    if mantissa << exponent == size {
        Some((mantissa * 16 + exponent) as u8)
    } else {
        None
    }
}

fn no_byte(number: u8) -> SizeByte
    ensures { result ≡ no_byte number }
{
    SizeByte {
        answer: refuse(number),
        byte: 0,
    }
}

// The byte of a maximum RU.
#[tactic(auto, unfolding(crate::specs::SessionBytes::size_byte))]
pub fn size_byte(size: u32) -> SizeByte
    ensures { result ≡ size_byte size }
{
    if !max_good(size) {
        return no_byte(BAD_MAXIMUM);
    }
    match byte_of(size) {
        Some(byte) => SizeByte {
            answer: accept(0),
            byte,
        },
        None => no_byte(NO_SIZE_BYTE),
    }
}
