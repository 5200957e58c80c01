// A unit written at the front of a lent buffer. Cells past it keep what they had.
ghost use Rattle.std.specs.Prelude.{◌≡◌, ◌+◌, ◌≤◌, [], ◌++◌, length};
ghost use Rattle.cells.specs.Cells.{front};
ghost use Rattle.unit.specs.Unit.{RU_START, unit_bytes, length_made, bytes_made, cells_made};

use crate::RU_START;
use crate::fixed::FixedUnit;
use cells::copy;
use header::{Header, HeaderBytes};

// The sequence number, high byte first, and the header.
fn write_heading(unit: &mut [u8], number: u16, h: HeaderBytes)
    requires { 5 ≤ length unit.old }
    ensures { unit.new ≡ front (unit_bytes number h []) unit.old }
{
    let [high, low] = number.to_be_bytes();
    unit[0] = high;
    unit[1] = low;
    unit[2] = h.b0;
    unit[3] = h.b1;
    unit[4] = h.b2;
}

// The RU: the bytes of a, then those of b.
fn write_ru(ru: &mut [u8], a: &[u8], b: &[u8])
    requires { length a.now + length b.now ≤ length ru.old }
    ensures { ru.new ≡ front (a.now ++ b.now) ru.old }
{
    let n = copy(a, ru);
    copy(b, &mut ru[n..]);
}

// Makes the unit of this number and these bytes of a header, on any line, whose RU is the bytes of a and then those of b, and answers
// its length. A unit that does not fit is not made: the answer is 0 and no cell is changed.
fn write_bytes(unit: &mut [u8], number: u16, h: HeaderBytes, a: &[u8], b: &[u8]) -> usize
    ensures length { result ≡ length_made (a.now ++ b.now) unit.old }
    ensures cells { unit.new ≡ bytes_made number h (a.now ++ b.now) unit.old }
{
    let ru = a.len() + b.len();
    if unit.len() < RU_START {
        return 0;
    }
    if unit.len() - RU_START < ru {
        return 0;
    }
    write_heading(unit, number, h);
    write_ru(&mut unit[RU_START..], a, b);
    RU_START + ru
}

// Makes the unit of this number and header.
#[tactic(auto, unfolding(crate::specs::Unit::cells_made))]
pub fn write_unit(unit: &mut [u8], number: u16, header: Header, a: &[u8], b: &[u8]) -> usize
    ensures length { result ≡ length_made (a.now ++ b.now) unit.old }
    ensures cells { unit.new ≡ cells_made number header (a.now ++ b.now) unit.old }
{
    write_bytes(unit, number, HeaderBytes::from(header), a, b)
}

// The length of a unit that holds no data, before it is made.
pub fn fixed_length<H: FixedUnit>(header: H) -> usize
    ensures { result ≡ RU_START + length (H.ru_of header) }
{
    RU_START + header.fixed_ru().len()
}

// Makes a unit that holds no data: its RU is the fixed one of its header.
pub fn write_fixed<H: FixedUnit>(unit: &mut [u8], number: u16, header: H) -> usize
    ensures length { result ≡ length_made (H.ru_of header) unit.old }
    ensures cells { unit.new ≡ H.made_of number header unit.old }
{
    write_bytes(unit, number, header.header_bytes(), header.fixed_ru(), b"")
}
