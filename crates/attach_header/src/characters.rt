// Document 000's symbol-string types (appendix E, note 5), over EBCDIC bytes.
ghost use Rattle.std.specs.Prelude.{◌≡◌};
ghost use Rattle.attach_header.specs.Characters.{between, is_letter, is_graphic, belongs, every};

pub(crate) fn within(low: u8, high: u8, b: u8) -> bool
    ensures { result ≡ between low high b }
{
    (low <= b) & (b <= high)
}

// A to Z, $, # and @: what a string of type A begins with.
pub(crate) fn is_letter(b: u8) -> bool
    ensures { result ≡ is_letter b }
{
    let capital = within(0xC1, 0xC9, b) | within(0xD1, 0xD9, b) | within(0xE2, 0xE9, b);
    capital | (b == 0x5B) | (b == 0x7B) | (b == 0x7C)
}

// Type GR.
pub(crate) fn is_graphic(b: u8) -> bool
    ensures { result ≡ is_graphic b }
{
    within(0x41, 0xFE, b)
}

// Type A has letters and digits, type GR the bytes 41 to FE.
fn belongs_to(b: u8, graphic: bool) -> bool
    ensures { result ≡ belongs graphic b }
{
    if graphic {
        is_graphic(b)
    } else {
        is_letter(b) | within(0xF0, 0xF9, b)
    }
}

// Every byte is one of the type's.
pub(crate) fn all_belong(s: &[u8], graphic: bool) -> bool
    ensures { result ≡ every (belongs graphic) s.now }
{
    for b in s {
        if !belongs_to(*b, graphic) {
            return false;
        }
    }
    true
}
