// Text put into a lent buffer: bytes as they are, numbers in decimal, and bytes in hexadecimal. Each function takes the place
// to start at and answers the place behind what it wrote. Text that does not fit is not written: no cell is changed, and
// the answer is the place to start at.
ghost use Rattle.std.specs.Prelude.{◌≡◌, ◌<◌};
ghost use Rattle.digits.specs.PutAt.{put_at};
ghost use Rattle.digits.specs.Printed.{hex_digit, hex_byte, hex_of, hex_word_of, decimal_of};

use cells::copy;

pub fn put(out: &mut [u8], at: usize, text: &[u8]) -> usize
    ensures { (result, out.new) ≡ put_at text.now at out.old }
{
    if out.len() < at {
        return at;
    }
    if out.len() - at < text.len() {
        return at;
    }
    copy(text, &mut out[at..]);
    at + text.len()
}

// Without leading zeros. The longest number has 20 digits; they are found from the last to the first. No heap: they stand in a fixed array.
pub fn decimal(out: &mut [u8], at: usize, n: usize) -> usize
    ensures { (result, out.new) ≡ put_at (decimal_of n) at out.old }
{
    let mut digits = [0u8; 20];
    let mut i = 19;
    let mut rest = n;
    while 9 < rest {
        digits[i] = 48 + (rest % 10) as u8;
        rest = rest / 10;
        i = i - 1;
    }
    digits[i] = 48 + rest as u8;
    put(out, at, &digits[i..])
}

fn hex_digit(n: u8) -> u8
    requires { n < 16 }
    ensures { result ≡ hex_digit n }
{
    if n < 10 { 48 + n } else { 55 + n }
}

fn hex_byte(out: &mut [u8], at: usize, b: u8) -> usize
    ensures { (result, out.new) ≡ put_at (hex_byte b) at out.old }
{
    let digits = [hex_digit(b / 16), hex_digit(b % 16)];
    put(out, at, &digits)
}

// Two capital digits for each byte.
pub fn hex_bytes(out: &mut [u8], at: usize, bytes: &[u8]) -> usize
    ensures { (result, out.new) ≡ put_at (hex_of bytes.now) at out.old }
{
    if out.len() < at {
        return at;
    }
    if (out.len() - at) / 2 < bytes.len() {
        return at;
    }
    let mut next = at;
    for b in bytes {
        next = hex_byte(out, next, *b);
    }
    next
}

// Eight capital digits.
pub fn hex_word(out: &mut [u8], at: usize, n: u32) -> usize
    ensures { (result, out.new) ≡ put_at (hex_word_of n) at out.old }
{
    let bytes = n.to_be_bytes();
    hex_bytes(out, at, &bytes)
}
