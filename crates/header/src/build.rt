// A header built: fields to bytes.
ghost use Rattle.std.specs.Prelude.{◌≡◌, cond, ◌≤◌};
ghost use Rattle.header.specs.Weights.{bit};
ghost use Rattle.header.specs.Rules.{bytes};
ghost use Rattle.header.specs.Header.{data_bytes, header_bytes};

use crate::weights::{
    BB, CD, CEB, DR1, DR2, EXCEPTION, FIRST, FLOW_CONTROL, FORMAT, LAST, PACING, RESPONSE, SENSE,
};
use crate::{DataHeader, Header, HeaderBytes};

// The weight of a bit, or nothing.
fn bit_of(b: bool, weight: u8) -> u8
    ensures { (result ≡ bit b weight) × (result ≤ weight) }
{
    if b { weight } else { 0 }
}

// Byte 1 of data for which no confirmation is requested, of the error description, and of the negative bid response.
const EXCEPTION_RESPONSE: u8 = DR1 + EXCEPTION;

fn response_bits(confirm: bool) -> u8
    ensures { (result ≡ cond confirm 0x20 0x90) × (result ≤ 0x90) }
{
    if confirm { DR2 } else { EXCEPTION_RESPONSE }
}

fn build_data(d: DataHeader) -> HeaderBytes
    ensures { result ≡ data_bytes d }
{
    let follows = d.ends.follows();
    HeaderBytes {
        b0: bit_of(d.begins.is_first(), FIRST) + bit_of(d.ends.is_last(), LAST),
        b1: response_bits(d.ends.confirms()) + bit_of(d.pacing, PACING),
        b2: bit_of(d.begins.begins_bracket(), BB)
            + bit_of(follows.turns(), CD)
            + bit_of(follows.ends_bracket(), CEB),
    }
}

// Byte 0 of a bid, of its two responses, of a response to data (the confirmation and the pacing response), of the negative
// confirmation, and of the error description.
const BID: u8 = FLOW_CONTROL + FORMAT + FIRST + LAST;

const POSITIVE_BID_RESPONSE: u8 = RESPONSE + FLOW_CONTROL + FORMAT + FIRST + LAST;

const NEGATIVE_BID_RESPONSE: u8 = RESPONSE + FLOW_CONTROL + FORMAT + SENSE + FIRST + LAST;

const DATA_RESPONSE: u8 = RESPONSE + FIRST + LAST;

const NEGATIVE_CONFIRMATION: u8 = RESPONSE + SENSE + FIRST + LAST;

const ERROR_DESCRIPTION: u8 = FORMAT + FIRST + LAST;

// These three bytes as one value.
fn bytes(b0: u8, b1: u8, b2: u8) -> HeaderBytes
    ensures { result ≡ bytes b0 b1 b2 }
{
    HeaderBytes { b0, b1, b2 }
}

// The three bytes of a header.
impl From<Header> for HeaderBytes {
    ghost from_gives = { λ h b. b ≡ header_bytes h };

    #[tactic(auto, unfolding(crate::specs::Header::header_bytes))]
    fn from(h: Header) -> HeaderBytes {
        match h {
            Header::Data(d) => build_data(d),
            Header::Bid(pacing) => bytes(BID, DR1 + bit_of(pacing, PACING), BB),
            Header::ErrorDescription(pacing) => bytes(
                ERROR_DESCRIPTION,
                EXCEPTION_RESPONSE + bit_of(pacing, PACING),
                0,
            ),
            Header::PositiveBidResponse => bytes(POSITIVE_BID_RESPONSE, DR1, 0),
            Header::NegativeBidResponse => bytes(NEGATIVE_BID_RESPONSE, EXCEPTION_RESPONSE, 0),
            Header::Confirmation => bytes(DATA_RESPONSE, DR2, 0),
            Header::NegativeConfirmation => bytes(NEGATIVE_CONFIRMATION, DR2 + EXCEPTION, 0),
            Header::PacingResponse => bytes(DATA_RESPONSE, PACING, 0),
        }
    }
}
