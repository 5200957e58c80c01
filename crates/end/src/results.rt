// What a call hands back.
ghost use Rattle.std.specs.Prelude.{◌≡◌};
ghost use Rattle.answers.specs.Answers.{accepted, refused, read_refused};

use crate::{Done, End, ReadDone};
use answers::{accept, read_refuse, refuse};

// Accepted, with the length of the unit made, 0 for none.
pub fn accepted(unit: usize, end: End) -> Done
    ensures { result ≡ record { answer = accepted unit; end = end } }
{
    Done {
        answer: accept(unit),
        end,
    }
}

pub fn refused(number: u8, end: End) -> Done
    ensures { result ≡ record { answer = refused number; end = end } }
{
    Done {
        answer: refuse(number),
        end,
    }
}

pub(crate) fn read_refused(number: u8, end: End) -> ReadDone
    ensures { result ≡ record { answer = read_refused number; end = end } }
{
    ReadDone {
        answer: read_refuse(number),
        end,
    }
}
