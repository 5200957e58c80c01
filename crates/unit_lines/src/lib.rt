// A line of units, first in first out, in lent cells: each unit stands behind its length in two bytes, high byte first.
// Any line and any cells are taken; a line that does not agree with its cells is left as it is.
#![tactic(auto)]

ghost use Rattle.std.specs.Prelude.{◌≡◌, false, List, [], ◌∷◌, ◌++◌, ℕ, ◌+◌, ◌*◌, ◌≤◌, ◌<◌, leb, length, MatchOption};
ghost use Rattle.cells.specs.Cells.{front};
ghost use Rattle.calls.specs.Calls.{units_of};
ghost use Rattle.unit_lines.specs.UnitLine.{MOST_UNITS, LONGEST_UNIT, LONGEST_FRAME, framed, Holds, has_room, stands, oldest_end, UnitTo};

use cells::{copy, move_to_front};

// A line holds up to 512 units.
pub const MOST_UNITS: u16 = 512;

// The longest unit: five bytes, and an RU of the greatest maximum.
pub const LONGEST_UNIT: usize = 1029;

// The cells of the longest unit with its length.
const LONGEST_FRAME: usize = 1031;

// The units on a line, and the cells that they take. The cells are lent at each call, since memory is fixed.
#[derive(Clone, Copy)]
pub struct Line {
    pub units: u16,
    pub used: usize,
}

// A line with no unit.
pub fn empty() -> Line
    ensures { (cells : List ℕ) → MOST_UNITS * LONGEST_FRAME ≤ length cells → Holds result cells [] }
{
    Line { units: 0, used: 0 }
}

// A full line takes no further unit.
pub fn is_full(line: Line) -> bool
    ensures { result ≡ leb MOST_UNITS line.units }
{
    MOST_UNITS <= line.units
}

// A unit may join where there is room for the longest.
fn has_room(line: Line, cells: usize, n: usize) -> bool
    ensures { result ≡ has_room line cells n }
{
    if cells < LONGEST_FRAME {
        return false;
    }
    (line.units < MOST_UNITS) & ((n <= LONGEST_UNIT) & (line.used <= cells - LONGEST_FRAME))
}

// The unit and its length at the front of the cells.
fn put_frame(cells: &mut [u8], unit: &[u8])
    requires { (length unit.now ≤ LONGEST_UNIT) × (LONGEST_FRAME ≤ length cells.old) }
    ensures { cells.new ≡ front (framed unit.now) cells.old }
{
    let n = unit.len();
    cells[0] = (n / 256) as u8;
    cells[1] = (n % 256) as u8;
    copy(unit, &mut cells[2..]);
}

// The unit joins behind those on the line.
pub fn put(line: Line, cells: &mut [u8], unit: &[u8]) -> Line
    ensures held { (us : List (List ℕ)) → Holds line cells.old us
        → length us < MOST_UNITS → length unit.now ≤ LONGEST_UNIT
        → Holds result cells.new (us ++ (unit.now ∷ [])) }
    ensures kept { has_room line (length cells.old) (length unit.now) ≡ false
        → (result ≡ line) × (cells.new ≡ cells.old) }
{
    if has_room(line, cells.len(), unit.len()) {
        let at = line.used;
        put_frame(&mut cells[at..], unit);
        Line {
            units: line.units + 1,
            used: at + 2 + unit.len(),
        }
    } else {
        line
    }
}

// The unit made, n bytes at the front of the unit buffer, joins the line; 0 is no unit.
pub fn deliver(line: Line, cells: &mut [u8], unit: &[u8], n: usize) -> Line
    ensures { (vs : List (List ℕ)) → Holds line cells.old vs
        → length vs < MOST_UNITS → n ≤ LONGEST_UNIT → n ≤ length unit.now
        → Holds result cells.new (vs ++ units_of n unit.now) }
{
    if n == 0 {
        return line;
    }
    if unit.len() < n {
        return line;
    }
    put(line, cells, &unit[..n])
}

// A unit that ends at `past` is within what the line says that it holds.
fn stands(line: Line, cells: usize, past: usize) -> bool
    ensures { result ≡ stands line cells past }
{
    (1 <= line.units) & ((line.used <= cells) & (past <= line.used))
}

// Where the oldest unit ends, which starts at cell 2, if one stands there.
pub fn oldest_end(line: Line, cells: &[u8]) -> Option<usize>
    ensures is { result ≡ oldest_end line cells.now }
    ensures unit { (u : List ℕ) (us : List (List ℕ)) → Holds line cells.now (u ∷ us)
        → MatchOption result ⊥ (λ past. UnitTo past u cells.now) }
{
    let [high, low, ..] = cells else {
        return None;
    };
    let past = 2 + usize::from(u16::from_be_bytes([*high, *low]));
    if stands(line, cells.len(), past) {
        Some(past)
    } else {
        None
    }
}

// The oldest unit goes, and the others move to the front.
pub fn remove_oldest(line: Line, cells: &mut [u8]) -> Line
    ensures removed { (u : List ℕ) (us : List (List ℕ)) → Holds line cells.old (u ∷ us) → Holds result cells.new us }
    ensures kept { oldest_end line cells.old ≡ None → (result ≡ line) × (cells.new ≡ cells.old) }
{
    let Some(past) = oldest_end(line, cells) else {
        return line;
    };
    let used = line.used;
    move_to_front(&mut cells[..used], past);
    Line {
        units: line.units - 1,
        used: used - past,
    }
}
