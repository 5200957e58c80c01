// The logical-unit-of-work identifier.
ghost use Rattle.std.specs.Prelude.{◌≡◌, true, length, take, drop, replicate};
ghost use Rattle.cells.specs.Cells.{front};
ghost use Rattle.attach_header.specs.Read.{identifier_good};
ghost use Rattle.attach_header.specs.Places.{work_of};

use crate::SymbolString;
use crate::names::lu_name_good;
use crate::parts::part_at;
use crate::strings::{symbol_string, unpadded};
use cells::copy;

const LONGEST_LU_NAME: usize = 17;

// The instance number, and the two numbers together.
const INSTANCE: usize = 6;

const NUMBERS: usize = 8;

// The identifier as a program keeps it.
#[derive(Clone, Copy)]
pub struct Work {
    pub lu: SymbolString,
    pub instance: [u8; 6],
    pub sequence: [u8; 2],
}

// None, or a name behind its length byte and eight bytes.
pub(crate) fn identifier_good(s: &[u8]) -> bool
    ensures { result ≡ identifier_good s.now }
{
    let n = s.len();
    if n == 0 {
        return true;
    }
    let p = part_at(s, 0);
    let name = &s[p.start..p.end];
    p.whole
        & (name.len() <= LONGEST_LU_NAME)
        & (n - p.end == NUMBERS)
        & lu_name_good(unpadded(name))
}

fn instance_of(numbers: &[u8]) -> [u8; 6]
    requires { length numbers.now ≡ 8 }
    ensures { result ≡ front (take 6 numbers.now) (replicate 6 0) }
{
    let mut instance = [0u8; 6];
    copy(&numbers[..INSTANCE], &mut instance);
    instance
}

fn sequence_of(numbers: &[u8]) -> [u8; 2]
    requires { length numbers.now ≡ 8 }
    ensures { result ≡ front (drop 6 numbers.now) (replicate 2 0) }
{
    let mut sequence = [0u8; 2];
    copy(&numbers[INSTANCE..], &mut sequence);
    sequence
}

pub(crate) fn work_of(s: &[u8]) -> Work
    requires { identifier_good s.now ≡ true }
    ensures { result ≡ work_of s.now }
{
    if s.len() == 0 {
        return Work {
            lu: symbol_string(s),
            instance: [0; 6],
            sequence: [0; 2],
        };
    }
    let p = part_at(s, 0);
    let instance = instance_of(&s[p.end..]);
    let sequence = sequence_of(&s[p.end..]);
    Work {
        lu: symbol_string(&s[p.start..p.end]),
        instance,
        sequence,
    }
}
