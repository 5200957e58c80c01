// The strings of the header, without padding.
ghost use Rattle.std.specs.Prelude.{◌≡◌};
ghost use Rattle.attach_header.specs.Characters.{program_good, data_good, part_good, lu_name_good};

use crate::characters::{all_belong, is_graphic, is_letter};
use cells::find;

const LONGEST_PROGRAM: usize = 64;

const LONGEST_DATA: usize = 10;

const LONGEST_PART: usize = 8;

const PERIOD: u8 = 0x4B;

// A transaction program name. The first byte of a service program's is 00 to 3F.
pub(crate) fn program_good(s: &[u8]) -> bool
    ensures { result ≡ program_good s.now }
{
    let [first, rest @ ..] = s else {
        return false;
    };
    (s.len() <= LONGEST_PROGRAM) & ((*first <= 0x3F) | is_graphic(*first)) & all_belong(rest, true)
}

// A profile, password or user ID.
pub(crate) fn data_good(s: &[u8]) -> bool
    ensures { result ≡ data_good s.now }
{
    (s.len() <= LONGEST_DATA) & all_belong(s, true)
}

// A network ID or an LU name.
fn part_good(s: &[u8]) -> bool
    ensures { result ≡ part_good s.now }
{
    let [first, ..] = s else {
        return false;
    };
    (s.len() <= LONGEST_PART) & is_letter(*first) & all_belong(s, false)
}

// A fully qualified LU network name. A period is in no part of it, so the first one parts it.
pub(crate) fn lu_name_good(s: &[u8]) -> bool
    ensures { result ≡ lu_name_good s.now }
{
    let n = s.len();
    let p = find(s, 0, n, PERIOD);
    if p == n {
        return part_good(s);
    }
    let next = p + 1;
    part_good(&s[..p]) & part_good(&s[next..])
}
