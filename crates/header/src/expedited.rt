// Headers on the expedited lines: a signal and its response, read and built. What three bytes say is a function of the line: 4B 80 00 is a
// signal here and breaks H2 on the normal line; CB 80 00 is a signal's response here and a positive bid response there.
ghost use Rattle.std.specs.Prelude.{◌≡◌};
ghost use Rattle.header.specs.ExpeditedHeader.{expedited_bytes, read_expedited};
ghost use Rattle.header.specs.ExpeditedSteps.{bits_expedited_h1, bits_expedited_h2};

use crate::indicators::{Byte0, Byte1, Byte2};
use crate::read_header::{bracket_is, form_is, keep};
use crate::weights::{DR1, FIRST, FLOW_CONTROL, FORMAT, LAST, RESPONSE};
use crate::{ExpeditedHeader, HeaderBytes, Rule};

// H1, by figure D-1: flow control with format, without sense data, alone in its chain; a request or a response.
fn keeps_h1(b: Byte0) -> bool
    ensures { result ≡ bits_expedited_h1 b }
{
    !b.other & ((b.flow & b.format) & (!b.sense & (b.first & b.last)))
}

// H2: RQD1 (1,0,0), or the positive response to it, without pacing, and nothing in byte 2.
fn keeps_h2(b1: Byte1, b2: Byte2) -> bool
    ensures { result ≡ bits_expedited_h2 b1 b2 }
{
    let form = form_is(b1, true, false, false);
    (!b1.pacing & form) & bracket_is(b2, false)
}

// What three bytes on an expedited line say. Byte 0, byte 1 and byte 2 are tested in this order, as on the normal line.
impl TryFrom<HeaderBytes> for ExpeditedHeader {
    type Error = Rule;

    ghost try_from_gives = { λ h r. r ≡ read_expedited h };

    fn try_from(h: HeaderBytes) -> Result<ExpeditedHeader, Rule> {
        let b0 = Byte0::from(h.b0);
        keep(keeps_h1(b0), Rule::H1)?;
        let b1 = Byte1::from(h.b1);
        let b2 = Byte2::from(h.b2);
        keep(keeps_h2(b1, b2), Rule::H2)?;
        if b0.response {
            Ok(ExpeditedHeader::SignalResponse)
        } else {
            Ok(ExpeditedHeader::Signal)
        }
    }
}

// Byte 0 of a signal, and of its response.
const SIGNAL: u8 = FLOW_CONTROL + FORMAT + FIRST + LAST;

const SIGNAL_RESPONSE: u8 = RESPONSE + FLOW_CONTROL + FORMAT + FIRST + LAST;

// The three bytes of a header on an expedited line.
impl From<ExpeditedHeader> for HeaderBytes {
    ghost from_gives = { λ h b. b ≡ expedited_bytes h };

    #[tactic(auto, unfolding(crate::specs::ExpeditedHeader::expedited_bytes))]
    fn from(h: ExpeditedHeader) -> HeaderBytes {
        match h {
            ExpeditedHeader::Signal => HeaderBytes {
                b0: SIGNAL,
                b1: DR1,
                b2: 0,
            },
            ExpeditedHeader::SignalResponse => HeaderBytes {
                b0: SIGNAL_RESPONSE,
                b1: DR1,
                b2: 0,
            },
        }
    }
}
