// A unit read, on either line: its number and its header.
ghost use Rattle.std.specs.Prelude.{◌≡◌, ◌<◌, ◌≤◌, Err, Result, length};
ghost use Rattle.header.specs.declared.Rule.{Rule};
ghost use Rattle.unit.specs.Unit.{RU_START, number_of, number_in, header_in, heading_read, read_unit};

use crate::{Heading, RU_START, Unreadable};
use header::{Header, HeaderBytes, Rule};

// The sequence number, high byte first.
fn number_of(high: u8, low: u8) -> u16
    ensures { result ≡ number_of high low }
{
    u16::from_be_bytes([high, low])
}

// What a unit says before its RU, on a line that has these headers.
pub(crate) fn read_heading<H: TryFrom<HeaderBytes, Error = Rule>>(
    unit: &[u8],
) -> Result<Heading<H>, Unreadable>
    ensures short { length unit.now < RU_START → result ≡ Err Unreadable.TooShort }
    ensures read { RU_START ≤ length unit.now
        → (read : Result H Rule) × H.try_from_gives (header_in unit.now) read
        × (result ≡ heading_read (number_in unit.now) read) }
{
    if unit.len() < RU_START {
        return Err(Unreadable::TooShort);
    }
    let number = number_of(unit[0], unit[1]);
    let header = H::try_from(HeaderBytes {
        b0: unit[2],
        b1: unit[3],
        b2: unit[4],
    })?;
    Ok(Heading { number, header })
}

// What a unit on the normal line says before its RU.
pub fn read_unit(unit: &[u8]) -> Result<Heading<Header>, Unreadable>
    ensures { result ≡ read_unit unit.now }
{
    read_heading(unit)
}
