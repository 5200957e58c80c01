// Bytes as pairs of capital hexadecimal digits.
ghost use Rattle.std.specs.Prelude.{◌≡◌, true, ◌≤◌, eqb, length};
ghost use Rattle.cells.specs.Cells.{front};
ghost use Rattle.digits.specs.HexadecimalRead.{is_letter, digit_of, is_pair, byte_of, are_pairs, bytes_of, bytes_read, hex_answer, hex_bytes};

use crate::decimal_read::is_decimal;

// A to F.
fn is_letter(b: u8) -> bool
    ensures { result ≡ is_letter b }
{
    (0x41 <= b) & (b <= 0x46)
}

// The value of a digit; 0 for any other byte.
fn digit(b: u8) -> u8
    ensures { (result ≡ digit_of b) × (result ≤ 15) }
{
    if is_decimal(b) {
        return b - 0x30;
    }
    if is_letter(b) {
        return b - 0x37;
    }
    0
}

fn is_pair(high: u8, low: u8) -> bool
    ensures { result ≡ is_pair high low }
{
    (is_decimal(high) | is_letter(high)) & (is_decimal(low) | is_letter(low))
}

fn byte(high: u8, low: u8) -> u8
    ensures { result ≡ byte_of high low }
{
    16 * digit(high) + digit(low)
}

// No digit is left, not even one without its pair.
fn none_left(left: &[u8]) -> bool
    ensures { result ≡ eqb (length left.now) 0 }
{
    left.is_empty()
}

// Digits, two by two to the end.
fn are_pairs(text: &[u8]) -> bool
    ensures { result ≡ are_pairs text.now }
{
    let mut left = text;
    while let [high, low, rest @ ..] = left {
        if !is_pair(*high, *low) {
            return false;
        }
        left = rest;
    }
    none_left(left)
}

// Counted by i: over the cells and the pairs side by side the proof did not close.
fn write_bytes(text: &[u8], into: &mut [u8])
    requires { (are_pairs text.now ≡ true) × (length (bytes_of text.now) ≤ length into.old) }
    ensures { into.new ≡ front (bytes_of text.now) into.old }
{
    for i in 0..text.len() / 2 {
        into[i] = byte(text[2 * i], text[2 * i + 1]);
    }
}

// How many bytes are written: at least one, and no more than `into` has cells. A text that is not so changes no cell.
pub fn hex(text: &[u8], into: &mut [u8]) -> Option<usize>
    ensures { (result ≡ hex_answer (bytes_read text.now (length into.old)))
        × (into.new ≡ front (hex_bytes (bytes_read text.now (length into.old))) into.old) }
{
    let n = text.len() / 2;
    if are_pairs(text) & (1 <= n) & (n <= into.len()) {
        write_bytes(text, into);
        return Some(n);
    }
    None
}
