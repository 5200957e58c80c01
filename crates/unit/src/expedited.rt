// The units of the expedited lines, a signal and its response: their RUs compared, and how they are read.
ghost use Rattle.std.specs.Prelude.{◌≡◌};
ghost use Rattle.unit.specs.ExpeditedUnit.{expedited_ru_good, read_expedited_unit};

use crate::fixed::FixedUnit;
use crate::read_unit::read_heading;
use crate::{Heading, Unreadable};
use cells::same;
use header::ExpeditedHeader;

// The RU is the fixed one of its header.
pub fn expedited_ru_good(h: ExpeditedHeader, ru: &[u8]) -> bool
    ensures { result ≡ expedited_ru_good h ru.now }
{
    same(ru, h.fixed_ru())
}

// What a unit says before its RU.
pub fn read_expedited_unit(unit: &[u8]) -> Result<Heading<ExpeditedHeader>, Unreadable>
    ensures { result ≡ read_expedited_unit unit.now }
{
    read_heading(unit)
}
