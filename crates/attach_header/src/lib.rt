// The attach header, FMH-5 of document 000's appendix H, with which a host names the program that it wants. It passes beside the
// conversation and in none of its units: no end's record is looked at.
#![tactic(auto)]

pub mod characters;
pub mod names;
pub mod parts;
pub mod reading;
pub mod strings;
pub mod subfields;
pub mod work;
pub mod writing;
pub mod written_parts;
pub mod written_tests;

// A header's length is one byte, which counts itself.
pub const LONGEST: usize = 255;

// A symbol string: the bytes up to `length`. Of length 0 it is an absent one, and no other form of it is. What stands past the length is
// looked at by nobody; a reader makes it 0. Fixed memory: the cells are part of it.
#[derive(Clone, Copy)]
pub struct SymbolString {
    pub length: u8,
    pub bytes: [u8; 64],
}

// The fields of an attach header. `pip` is 1 where program initialization parameters follow the header, else 0; `resource` is D0 for a
// basic conversation, D1 for a mapped one; `sync` is 0 for none, 1 for confirm, 2 for confirm, sync point and backout. The
// logical-unit-of-work identifier is `lu`, `instance` and `sequence`: it is absent where `lu`, the fully qualified LU network name, is.
#[derive(Clone, Copy)]
pub struct Attach {
    pub pip: u8,
    pub resource: u8,
    pub sync: u8,
    pub program: SymbolString,
    pub profile: SymbolString,
    pub password: SymbolString,
    pub user: SymbolString,
    pub lu: SymbolString,
    pub instance: [u8; 6],
    pub sequence: [u8; 2],
}
