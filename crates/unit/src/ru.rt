// RUs: those that are fixed, compared; and the rule of a data RU.
ghost use Rattle.std.specs.Prelude.{◌≡◌};
ghost use Rattle.unit.specs.Ru.{marks, data_ru_good, ru_good};

use crate::fixed::FixedUnit;
use cells::same;
use header::{ChainEnd, DataHeader, Header};

// The unit leaves a mark: it is the last in its chain, with CD, CEB or a confirmation request.
pub fn marks(e: ChainEnd) -> bool
    ensures { result ≡ marks e }
{
    let follows = e.follows();
    e.confirms() | (follows.turns() | follows.ends_bracket())
}

// A data RU of n bytes is no longer than the session's maximum, and empty only on a unit that leaves a mark.
pub fn data_ru_good(max: usize, d: DataHeader, n: usize) -> bool
    ensures { result ≡ data_ru_good max d n }
{
    (n <= max) & ((1 <= n) | marks(d.ends))
}

// The RU is as its header wants it.
pub fn ru_good(max: usize, h: Header, ru: &[u8]) -> bool
    ensures { result ≡ ru_good max h ru.now }
{
    match h {
        Header::Data(d) => data_ru_good(max, d, ru.len()),
        _ => same(ru, h.fixed_ru()),
    }
}
