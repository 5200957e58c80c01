// The bits of a header's three bytes, each tested once, by its weight, in the order in which document 000 prints them (appendix D, "RH
// Formats", figure D-1; figures 6.1-9 and 6.1-10 number the bits, bit 0 of weight 80 to bit 7 of weight 01).
ghost use Rattle.std.specs.Prelude.{◌≡◌, ◌<◌};
ghost use Rattle.header.specs.Weights.{on};
ghost use Rattle.header.specs.Indicators.{byte0, byte1, byte2};

use crate::weights::{
    BB, CD, CEB, CODE_SELECTION, DR1, DR2, EB, ENCIPHERED, EXCEPTION, FIRST, FLOW_CONTROL, FORMAT,
    LAST, NETWORK_CONTROL, PACING, PADDED, QUEUED_RESPONSE, RESERVED_BIT_1, RESERVED_BIT_3,
    RESERVED_BIT_4, RESERVED_BIT_5, RESPONSE, SENSE,
};

// What byte 0 says: response or request, flow control or data, and so on; `other` is on if one of the bits is that no good header has on.
#[derive(Clone, Copy, Debug, PartialEq, Eq)]
pub struct Byte0 {
    pub response: bool,
    pub flow: bool,
    pub format: bool,
    pub sense: bool,
    pub first: bool,
    pub last: bool,
    pub other: bool,
}

// What byte 1 says: the form of response, and pacing.
#[derive(Clone, Copy, Debug, PartialEq, Eq)]
pub struct Byte1 {
    pub dr1: bool,
    pub dr2: bool,
    pub exception: bool,
    pub pacing: bool,
    pub other: bool,
}

// What byte 2 says: brackets, and change direction.
#[derive(Clone, Copy, Debug, PartialEq, Eq)]
pub struct Byte2 {
    pub bb: bool,
    pub cd: bool,
    pub ceb: bool,
    pub other: bool,
}

// The bit of this weight is on.
fn has(byte: u8, weight: u8) -> bool
    requires { 0 < weight }
    ensures { result ≡ on weight byte }
{
    byte / weight % 2 == 1
}

impl From<u8> for Byte0 {
    ghost from_gives = { λ b bits. bits ≡ byte0 b };

    fn from(b: u8) -> Byte0 {
        // Bit 0, Request/Response indicator (RRI).
        let response = has(b, RESPONSE);
        // Bits 1 and 2, RU Category: 00 FM data, 10 data flow control, 01 network control, 11 session control.
        let flow = has(b, FLOW_CONTROL);
        let network = has(b, NETWORK_CONTROL);
        // Bit 3, reserved.
        let reserved = has(b, RESERVED_BIT_3);
        // Bit 4, Format indicator (FI).
        let format = has(b, FORMAT);
        // Bit 5, Sense Data Included indicator (SDI).
        let sense = has(b, SENSE);
        // Bits 6 and 7, Chaining Control: Begin Chain indicator (BCI) and End Chain indicator (ECI).
        let first = has(b, FIRST);
        let last = has(b, LAST);
        Byte0 {
            response,
            flow,
            format,
            sense,
            first,
            last,
            other: network | reserved,
        }
    }
}

impl From<u8> for Byte1 {
    ghost from_gives = { λ b bits. bits ≡ byte1 b };

    fn from(b: u8) -> Byte1 {
        // Bits 0 to 3, Form of Response Requested: Definite Response 1 (DR1I), a reserved bit, Definite Response 2 (DR2I), Exception Response
        // (ERI); in a response, where bit 3 is the Response Type indicator (RTI), the form of the response.
        let dr1 = has(b, DR1);
        let reserved_1 = has(b, RESERVED_BIT_1);
        let dr2 = has(b, DR2);
        let exception = has(b, EXCEPTION);
        // Bits 4 and 5, reserved.
        let reserved_4 = has(b, RESERVED_BIT_4);
        let reserved_5 = has(b, RESERVED_BIT_5);
        // Bit 6, Queued Response indicator (QRI).
        let queued = has(b, QUEUED_RESPONSE);
        // Bit 7, Pacing indicator (PI).
        let pacing = has(b, PACING);
        Byte1 {
            dr1,
            dr2,
            exception,
            pacing,
            other: reserved_1 | (reserved_4 | (reserved_5 | queued)),
        }
    }
}

impl From<u8> for Byte2 {
    ghost from_gives = { λ b bits. bits ≡ byte2 b };

    fn from(b: u8) -> Byte2 {
        // Bits 0 and 1, Bracket Control: Begin Bracket indicator (BBI), End Bracket indicator (EBI).
        let bb = has(b, BB);
        let eb = has(b, EB);
        // Bit 2, Change Direction indicator (CDI).
        let cd = has(b, CD);
        // Bit 3, reserved.
        let reserved = has(b, RESERVED_BIT_3);
        // Bits 4 to 6: Code Selection (CSI), Enciphered Data (EDI), Padded Data (PDI) indicators.
        let code = has(b, CODE_SELECTION);
        let enciphered = has(b, ENCIPHERED);
        let padded = has(b, PADDED);
        // Bit 7, Bracket Control again: Conditional End Bracket indicator (CEBI).
        let ceb = has(b, CEB);
        Byte2 {
            bb,
            cd,
            ceb,
            other: eb | (reserved | (code | (enciphered | padded))),
        }
    }
}
