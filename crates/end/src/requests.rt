// Units that an end makes: one of a kind that holds no data, decided and then written; and the header of the next data unit.
ghost use Rattle.std.specs.Prelude.{◌≡◌, cond, ◌+◌, eqb, length};
ghost use Rattle.unit.specs.Ru.{fixed_ru};
ghost use Rattle.unit.specs.Unit.{RU_START};
ghost use Rattle.answers.specs.Answers.{accepted};
ghost use Rattle.end.specs.Requests.{data_header};

use crate::results::accepted;
use crate::{Done, End};
use header::{ChainEnd, DataHeader, Header};
use transitions::begin_of;
use unit::fixed::FixedUnit;
use unit::write::{fixed_length, write_fixed};

// Accepted, with the length of a unit that holds no data; the end is already the new one.
pub(crate) fn fixed_made(end: End, header: Header) -> Done
    ensures { result ≡ record { answer = accepted (RU_START + length (fixed_ru header)); end = end } }
{
    let n = fixed_length(header);
    accepted(n, end)
}

// Writes the unit that was decided on, of a kind that holds no data. Where its length was said to be 0 there is none.
pub(crate) fn write_made<H: FixedUnit>(made: usize, number: u16, header: H, unit: &mut [u8])
    ensures { unit.new ≡ cond (eqb made 0) unit.old (H.made_of number header unit.old) }
{
    if made != 0 {
        write_fixed(unit, number, header);
    }
}

impl End {
    // The header of the next data unit, which stands so at the end of its chain.
    #[tactic(auto, unfolding(crate::specs::Requests::data_header))]
    pub(crate) fn data_header(self, ends: ChainEnd) -> Header
        ensures { result ≡ data_header self ends }
    {
        let begins = begin_of(self.control);
        let data = DataHeader {
            begins,
            ends,
            pacing: self.sending.window.paced(),
        };
        Header::Data(data)
    }
}
