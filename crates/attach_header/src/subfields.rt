// Access security information subfields: profile, password and user ID, in any order.
ghost use Rattle.std.specs.Prelude.{◌≡◌, true, ◌≤◌, length};
ghost use Rattle.attach_header.specs.Read.{
  subfield_good,
  subfields_good,
  subfields,
  is_type,
  count_of,
  data_of,
  security_good,
};
ghost use Rattle.attach_header.specs.Fields.{string_of};
ghost use Rattle.attach_header.specs.Places.{security_of};

use crate::SymbolString;
use crate::names::data_good;
use crate::parts::part_at;
use crate::strings::{symbol_string, unpadded};

pub const PROFILE: u8 = 0;

pub const PASSWORD: u8 = 1;

pub const USER: u8 = 2;

// The three as a program keeps them, each of length 0 if there is none.
#[derive(Clone, Copy)]
pub struct Security {
    pub profile: SymbolString,
    pub password: SymbolString,
    pub user: SymbolString,
}

// There are three types and none may come twice.
const MOST: usize = 3;

const LONGEST_SUBFIELD: usize = 11;

// A subfield behind its length byte: its type and its data.
fn subfield_good(s: &[u8]) -> bool
    ensures { result ≡ subfield_good s.now }
{
    let [kind, data @ ..] = s else {
        return false;
    };
    (s.len() <= LONGEST_SUBFIELD) & (*kind <= USER) & data_good(unpadded(data))
}

fn is_type(s: &[u8], kind: u8) -> bool
    ensures { result ≡ is_type kind s.now }
{
    let [first, ..] = s else {
        return false;
    };
    *first == kind
}

// Each subfield is good, and they fill the field.
fn subfields_good(s: &[u8]) -> bool
    ensures { result ≡ subfields_good 3 s.now }
{
    let mut at = 0;
    for _ in 0..MOST {
        if s.len() <= at {
            return true;
        }
        let p = part_at(s, at);
        if !(p.whole & subfield_good(&s[p.start..p.end])) {
            return false;
        }
        at = p.end;
    }
    s.len() <= at
}

// How often a type comes.
fn count(s: &[u8], kind: u8) -> usize
    ensures { result ≡ count_of kind (subfields 3 s.now) }
{
    let mut at = 0;
    let mut n = 0;
    for _ in 0..MOST {
        if s.len() <= at {
            return n;
        }
        let p = part_at(s, at);
        n += usize::from(is_type(&s[p.start..p.end], kind));
        at = p.end;
    }
    n
}

pub(crate) fn security_good(s: &[u8]) -> bool
    ensures { result ≡ security_good s.now }
{
    subfields_good(s) & (count(s, PROFILE) <= 1) & (count(s, PASSWORD) <= 1) & (count(s, USER) <= 1)
}

// The data of the subfield of a type, without padding; of length 0 if there is no such subfield.
fn data_of(s: &[u8], kind: u8) -> SymbolString
    requires { subfields_good 3 s.now ≡ true }
    ensures { result ≡ string_of (data_of kind s.now) }
{
    let mut at = 0;
    for _ in 0..MOST {
        if s.len() <= at {
            return symbol_string(&[]);
        }
        let p = part_at(s, at);
        let field = &s[p.start..p.end];
        if is_type(field, kind) {
            return symbol_string(&field[1..]);
        }
        at = p.end;
    }
    symbol_string(&[])
}

pub(crate) fn security_of(s: &[u8]) -> Security
    requires { security_good s.now ≡ true }
    ensures { result ≡ security_of s.now }
{
    Security {
        profile: data_of(s, PROFILE),
        password: data_of(s, PASSWORD),
        user: data_of(s, USER),
    }
}
