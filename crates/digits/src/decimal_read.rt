// Numbers: decimal, without leading zeros, 0 to 65,535.
ghost use Rattle.std.specs.Prelude.{◌≡◌};
ghost use Rattle.digits.specs.DecimalRead.{is_decimal, read_on, number_of};

const ZERO: u8 = 0x30;

const NINE: u8 = 0x39;

const GREATEST: u32 = 65535;

// 0 to 9.
pub(crate) fn is_decimal(b: u8) -> bool
    ensures { result ≡ is_decimal b }
{
    (ZERO <= b) & (b <= NINE)
}

// The number whose digits these are, leading zeros or not. It stops once the value is past the greatest, so the value stays small.
fn read_digits(text: &[u8]) -> Option<u16>
    ensures { result ≡ read_on 0 text.now }
{
    let mut value: u32 = 0;
    for b in text {
        if !is_decimal(*b) {
            return None;
        }
        value = 10 * value + (*b - ZERO) as u32;
        if GREATEST < value {
            return None;
        }
    }
    Some(value as u16)
}

// At least one digit, and no 0 before others.
pub fn number(text: &[u8]) -> Option<u16>
    ensures { result ≡ number_of text.now }
{
    let first = *text.first()?;
    if (1 < text.len()) & (first == ZERO) {
        return None;
    }
    read_digits(text)
}
