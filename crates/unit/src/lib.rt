// The unit: a 2-byte sequence number, high byte first, the header, and the RU from byte 5 on.
#![tactic(auto)]

ghost use Rattle.std.specs.Prelude.{◌≡◌};

pub mod expedited;
pub mod fixed;
pub mod maximum;
pub mod read_unit;
pub mod ru;
pub mod sequence;
pub mod theorems;
pub mod write;

use header::Rule;

// Where the RU starts in a unit.
pub const RU_START: usize = 5;

// What stands before a unit's RU: its number, and its header, which is of the kinds of its line.
#[derive(Clone, Copy, Debug, PartialEq, Eq)]
pub struct Heading<H> {
    pub number: u16,
    pub header: H,
}

// Why a unit has no heading: it is too short for one (refusal 20), or its header breaks a rule (21).
#[derive(Clone, Copy, Debug, PartialEq, Eq)]
pub enum Unreadable {
    TooShort,
    Breaks(Rule),
}

impl From<Rule> for Unreadable {
    ghost use Rattle.unit.specs.declared.Unreadable.TheVariants.{Breaks};

    ghost from_gives = { λ rule e. e ≡ Breaks rule };

    fn from(rule: Rule) -> Unreadable {
        Unreadable::Breaks(rule)
    }
}
