// An attach header read.
ghost use Rattle.std.specs.Prelude.{◌≡◌, true, ◌≤◌, [], length};
ghost use Rattle.attach_header.specs.Fields.{attach_of, string_of, resource_good};
ghost use Rattle.attach_header.specs.Read.{
  fixed_good,
  name_good,
  security_good,
  identifier_good,
  header_good,
  fields_from,
  fields_in,
  not_read,
  read_attach,
};
ghost use Rattle.attach_header.specs.Places.{places_of};

use crate::names::program_good;
use crate::parts::{Part, part_at};
use crate::strings::{symbol_string, unpadded};
use crate::subfields::{security_good, security_of};
use crate::work::{identifier_good, work_of};
use crate::{Attach, LONGEST, SymbolString};
use answers::numbers::{BAD_ATTACH, LONG_ATTACH};
use answers::{Answer, accept, refuse};

// The fixed part begins with byte 6, and has at least a resource type, a reserved byte and a sync level.
const FIXED: usize = 6;

const LEAST_FIXED: u8 = 3;

// What is read: the fields, every one 0 or absent where the header is refused. No Result: `read_attach` is so defined.
#[derive(Clone, Copy)]
pub struct AttachRead {
    pub answer: Answer,
    pub attach: Attach,
}

// Where the variable part's fields stand.
#[derive(Clone, Copy)]
pub struct Places {
    pub program: Part,
    pub security: Part,
    pub work: Part,
}

pub(crate) fn resource_good(b: u8) -> bool
    ensures { result ≡ resource_good b }
{
    (b == 0xD0) | (b == 0xD1)
}

// Bytes 0 to j. Reserved bits are not looked at: of byte 1 the highest, of byte 4 all but one, byte 7, of byte 8 the low six.
fn fixed_good(h: &[u8]) -> bool
    ensures { result ≡ fixed_good h.now }
{
    let n = h.len();
    if n < 9 {
        return false;
    }
    let command = (h[0] as usize == n) & (h[1] % 128 == 0x05) & (h[2] == 0x02) & (h[3] == 0xFF);
    let fixed = (LEAST_FIXED <= h[5])
        & (FIXED + h[5] as usize <= n)
        & resource_good(h[6])
        & (h[8] / 64 <= 2);
    command & fixed
}

// The fields behind the fixed part, each behind its length byte.
fn find_places(h: &[u8]) -> Places
    requires { fixed_good h.now ≡ true }
    ensures value { result ≡ places_of h.now }
    ensures start_le_end { (result.program.start ≤ result.program.end) × (result.program.end ≤ length h.now) }
    ensures start_le_end_2 { (result.security.start ≤ result.security.end) × (result.security.end ≤ length h.now) }
    ensures start_le_end_3 { (result.work.start ≤ result.work.end) × (result.work.end ≤ length h.now) }
{
    let variable = FIXED + h[5] as usize;
    let program = part_at(h, variable);
    let security = part_at(h, program.end);
    let work = part_at(h, security.end);
    Places {
        program,
        security,
        work,
    }
}

fn name_good(s: &[u8]) -> bool
    ensures { result ≡ name_good s.now }
{
    (s.len() <= 64) & program_good(unpadded(s))
}

fn header_good(h: &[u8]) -> bool
    ensures { result ≡ header_good h.now }
{
    if !fixed_good(h) {
        return false;
    }
    let found = find_places(h);
    let (program, security, work) = (found.program, found.security, found.work);
    let lengths = program.whole & security.whole & work.whole & (h.len() - work.end <= 1);
    lengths
        & name_good(&h[program.start..program.end])
        & security_good(&h[security.start..security.end])
        & identifier_good(&h[work.start..work.end])
}

// The fields of a good header: of its fixed part, and of the three parts behind it.
fn fields_from(h: &[u8], name: &[u8], security: &[u8], identifier: &[u8]) -> Attach
    requires in_bounds { (9 ≤ length h.now) × (length name.now ≤ 64) }
    requires security_value { (security_good security.now ≡ true) × (identifier_good identifier.now ≡ true) }
    ensures { result ≡ attach_of (fields_from h.now name.now security.now identifier.now) }
{
    let secured = security_of(security);
    let work = work_of(identifier);
    let instance = work.instance;
    let sequence = work.sequence;
    Attach {
        pip: h[4] / 8 % 2,
        resource: h[6],
        sync: h[8] / 64,
        program: symbol_string(name),
        profile: secured.profile,
        password: secured.password,
        user: secured.user,
        lu: work.lu,
        instance,
        sequence,
    }
}

fn fields_in(h: &[u8]) -> Attach
    requires { header_good h.now ≡ true }
    ensures { result ≡ attach_of (fields_in h.now) }
{
    let found = find_places(h);
    let (program, security, work) = (found.program, found.security, found.work);
    fields_from(
        h,
        &h[program.start..program.end],
        &h[security.start..security.end],
        &h[work.start..work.end],
    )
}

fn no_string() -> SymbolString
    ensures { result ≡ string_of [] }
{
    SymbolString {
        length: 0,
        bytes: [0; 64],
    }
}

fn not_read(number: u8) -> AttachRead
    ensures { result ≡ not_read number }
{
    AttachRead {
        answer: refuse(number),
        attach: Attach {
            pip: 0,
            resource: 0,
            sync: 0,
            program: no_string(),
            profile: no_string(),
            password: no_string(),
            user: no_string(),
            lu: no_string(),
            instance: [0; 6],
            sequence: [0; 2],
        },
    }
}

// Reads an attach header: the slice is the header, no more and no less.
pub fn read_attach(header: &[u8]) -> AttachRead
    ensures { result ≡ read_attach header.now }
{
    if LONGEST < header.len() {
        return not_read(LONG_ATTACH);
    }
    if !header_good(header) {
        return not_read(BAD_ATTACH);
    }
    AttachRead {
        answer: accept(0),
        attach: fields_in(header),
    }
}
