// Symbol strings: padding left off, and a string kept.
ghost use Rattle.std.specs.Prelude.{◌≡◌, ◌≤◌, true, false, length, MatchOption};
ghost use Rattle.attach_header.specs.Characters.{unpadded};
ghost use Rattle.attach_header.specs.Fields.{text_of, string_of};
ghost use Rattle.attach_header.specs.Written.{within};

use crate::SymbolString;
use cells::copy;

// Fills a string out to the right, and is no part of it.
const SPACE: u8 = 0x40;

impl SymbolString {
    // The bytes up to the length, where there are so many.
    pub(crate) fn text(&self) -> Option<&[u8]>
        ensures { MatchOption result (within self.now ≡ false) (λ text. (within self.now ≡ true) × (text.now ≡ text_of self.now)) }
    {
        self.bytes.get(..self.length as usize)
    }
}

// The string without its padding.
pub(crate) fn unpadded(mut s: &[u8]) -> &[u8]
    ensures { result.now ≡ unpadded s.entry.now }
{
    while let [rest @ .., last] = s {
        if *last == SPACE {
            s = rest;
        } else {
            return s;
        }
    }
    s
}

// The string without its padding, and 0 in the cells past it.
pub(crate) fn symbol_string(s: &[u8]) -> SymbolString
    requires { length s.now ≤ 64 }
    ensures { result ≡ string_of (unpadded s.now) }
{
    let text = unpadded(s);
    let mut bytes = [0u8; 64];
    copy(text, &mut bytes);
    SymbolString {
        length: text.len() as u8,
        bytes,
    }
}
