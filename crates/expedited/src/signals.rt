// Signals made and taken.
ghost use Rattle.std.specs.Prelude.{◌≡◌};
ghost use Rattle.expedited.specs.Signals.{no_signal, signal_made, unit_taken};

use crate::Expedited;
use header::ExpeditedHeader;
use unit::Heading;
use unit::sequence::next_number;

// As opened.
pub fn no_signal() -> Expedited
    ensures { result ≡ no_signal }
{
    Expedited {
        unanswered: false,
        sent: 0,
        taken: 0,
    }
}

// A signal made takes the next number of its own kind, and is unanswered.
pub fn signal_made(x: Expedited) -> Expedited
    ensures { result ≡ signal_made x }
{
    Expedited {
        unanswered: true,
        sent: next_number(x.sent),
        ..x
    }
}

// A signal taken leaves its number; a response clears the flag.
pub fn unit_taken(x: Expedited, heading: Heading<ExpeditedHeader>) -> Expedited
    ensures { result ≡ unit_taken heading.header heading.number x }
{
    if heading.header.is_signal() {
        Expedited {
            taken: heading.number,
            ..x
        }
    } else {
        Expedited {
            unanswered: false,
            ..x
        }
    }
}
