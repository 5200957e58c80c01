// A header read: bytes to fields, or the lowest rule that is broken. The bits are tested in document 000's order (header::indicators);
// here the rules are asked of them. The quoted words head the paragraphs of document 000's appendix D.
ghost use Rattle.std.specs.Prelude.{◌≡◌, cond, Ok, Err};
ghost use Rattle.header.specs.Header.{begin_of, follow_of, end_of, read_header};
ghost use Rattle.header.specs.HeaderSteps.{bits_h1, form_is, bracket_is, fixed_read, request_read, response_read, positive_read};
ghost use Rattle.header.specs.HeaderSteps.{bits_h3, bits_h4, bits_h5, bits_h6, fields_read, data_read};

use crate::indicators::{Byte0, Byte1, Byte2};
use crate::{ChainBegin, ChainEnd, DataHeader, Follows, Header, HeaderBytes, Rule};

// A rule that is kept, or that is named.
pub(crate) fn keep(kept: bool, rule: Rule) -> Result<(), Rule>
    ensures { result ≡ cond kept (Ok tt) (Err rule) }
{
    if kept { Ok(()) } else { Err(rule) }
}

// H1, by figure D-1's two formats. "RU Category": data or flow control, no other. "Format Indicator": a response has it in flow control
// alone; a request has it in flow control, and in data where an FM header follows. "Sense Data Included Indicator": not in a request, as
// exception requests (EXRs) are not in use. "Chaining Control": all but data without an FM header is alone in its chain.
fn keeps_h1(b: Byte0) -> bool
    ensures { result ≡ bits_h1 b }
{
    let alone = b.first & b.last;
    let response = alone & (b.format == b.flow);
    let request = !b.sense & (!(b.flow | b.format) | (b.format & alone));
    if b.response {
        !b.other & response
    } else {
        !b.other & request
    }
}

// "Form of Response Requested", "Response Type": the three bits are these, in the order of figure D-2.
pub(crate) fn form_is(b: Byte1, dr1: bool, dr2: bool, exception: bool) -> bool
    ensures { result ≡ form_is b dr1 dr2 exception }
{
    !b.other & ((b.dr1 == dr1) & ((b.dr2 == dr2) & (b.exception == exception)))
}

// "Bracket Control", "Change Direction Indicator": BB is on, or off, and no other bit is on.
pub(crate) fn bracket_is(b: Byte2, bb: bool) -> bool
    ensures { result ≡ bracket_is b bb }
{
    !b.other & ((b.bb == bb) & (!b.cd & !b.ceb))
}

// H2, of a fixed kind: its fields, where bytes 1 and 2 are as they must be.
fn read_fixed(ok: bool, fields: Header) -> Result<Header, Rule>
    ensures { result ≡ fixed_read ok fields }
{
    keep(ok, Rule::H2)?;
    Ok(fields)
}

// A fixed request: an error description, RQE1 (1,0,1), or a bid, RQD1 (1,0,0) with BB. "Pacing": a request's pacing bit is free.
fn read_request(
    b1: Byte1,
    b2: Byte2,
    exception: bool,
    bb: bool,
    fields: Header,
) -> Result<Header, Rule>
    ensures { result ≡ request_read b1 b2 exception bb fields }
{
    let form = form_is(b1, true, false, exception);
    read_fixed(form & bracket_is(b2, bb), fields)
}

// A response of this form, without the pacing bit. Byte 2 of a response is reserved (figure D-1).
fn read_response(
    b1: Byte1,
    b2: Byte2,
    dr1: bool,
    dr2: bool,
    negative: bool,
    fields: Header,
) -> Result<Header, Rule>
    ensures { result ≡ response_read b1 b2 dr1 dr2 negative fields }
{
    let form = form_is(b1, dr1, dr2, negative);
    read_fixed((!b1.pacing & form) & bracket_is(b2, false), fields)
}

// A positive response to data: an isolated pacing response (IPR), of the form (0,0,0) with the pacing bit, or a confirmation, +RSP2
// (0,1,0).
fn read_positive(b1: Byte1, b2: Byte2) -> Result<Header, Rule>
    ensures { result ≡ positive_read b1 b2 }
{
    let pacing = b1.pacing;
    let form = form_is(b1, false, !pacing, false);
    let good = form & bracket_is(b2, false);
    if pacing {
        read_fixed(good, Header::PacingResponse)
    } else {
        read_fixed(good, Header::Confirmation)
    }
}

// H3. "Form of Response Requested": RQE1 (1,0,1), or RQD2 (0,1,0), which requests confirmation.
fn keeps_h3(b: Byte1) -> bool
    ensures { result ≡ bits_h3 b }
{
    form_is(b, true, false, true) | form_is(b, false, true, false)
}

// H4, of a byte 1 that keeps H3: confirmation is requested, by DR2, only on the last in a chain (figure D-2, note 2).
fn keeps_h4(b0: Byte0, b1: Byte1) -> bool
    ensures { result ≡ bits_h4 b0 b1 }
{
    !b1.dr2 | b0.last
}

// H5: CD and CEB do not stand together (figure 6.1-9, note 3).
fn keeps_h5(b: Byte2) -> bool
    ensures { result ≡ bits_h5 b }
{
    !b.other & !(b.cd & b.ceb)
}

// H6, of a byte 2 that keeps H5. "Bracket Control", "Change Direction Indicator": BB stands only on the first in a chain, CD and CEB only
// on the last.
fn keeps_h6(b0: Byte0, b2: Byte2) -> bool
    ensures { result ≡ bits_h6 b0 b2 }
{
    (!b2.bb | b0.first) & (!(b2.cd | b2.ceb) | b0.last)
}

fn begin_of(first: bool, bb: bool) -> ChainBegin
    ensures { result ≡ begin_of first bb }
{
    match (first, bb) {
        (false, _) => ChainBegin::Continued,
        (true, false) => ChainBegin::First,
        (true, true) => ChainBegin::FirstWithBracket,
    }
}

fn follow_of(cd: bool, ceb: bool) -> Follows
    ensures { result ≡ follow_of cd ceb }
{
    if cd {
        Follows::ChangeDirection
    } else if ceb {
        Follows::EndBracket
    } else {
        Follows::Stay
    }
}

fn end_of(last: bool, follows: Follows, confirm: bool) -> ChainEnd
    ensures { result ≡ end_of last follows confirm }
{
    if last {
        ChainEnd::Last { follows, confirm }
    } else {
        ChainEnd::Continues
    }
}

fn data_fields(b0: Byte0, b1: Byte1, b2: Byte2) -> DataHeader
    ensures { result ≡ fields_read b0 b1 b2 }
{
    let begins = begin_of(b0.first, b2.bb);
    let follows = follow_of(b2.cd, b2.ceb);
    let ends = end_of(b0.last, follows, b1.dr2);
    DataHeader {
        begins,
        ends,
        pacing: b1.pacing,
    }
}

// H3 to H6, of data. H4 and H6 look back at byte 0, and each waits for the whole of its own byte: in 00 90 88 BB, the first bit of byte 2,
// breaks H6, but code selection, a later bit, breaks H5.
fn read_data(b0: Byte0, b1: Byte1, b2: Byte2) -> Result<Header, Rule>
    ensures { result ≡ data_read b0 b1 b2 }
{
    keep(keeps_h3(b1), Rule::H3)?;
    keep(keeps_h4(b0, b1), Rule::H4)?;
    keep(keeps_h5(b2), Rule::H5)?;
    keep(keeps_h6(b0, b2), Rule::H6)?;
    Ok(Header::Data(data_fields(b0, b1, b2)))
}

// The fields of three bytes, or the lowest rule that they break. Byte 0, byte 1 and byte 2 are tested in this order; then the kind is
// decided by byte 0, and the rules of that kind are asked. Of the bytes 0 that keep H1 the match leaves CF, a negative bid response.
impl TryFrom<HeaderBytes> for Header {
    type Error = Rule;

    ghost try_from_gives = { λ h r. r ≡ read_header h };

    fn try_from(h: HeaderBytes) -> Result<Header, Rule> {
        let kind = h.b0;
        let b0 = Byte0::from(kind);
        keep(keeps_h1(b0), Rule::H1)?;
        let b1 = Byte1::from(h.b1);
        let b2 = Byte2::from(h.b2);
        match kind {
            0..=3 => read_data(b0, b1, b2),
            0x0B => read_request(b1, b2, true, false, Header::ErrorDescription(b1.pacing)),
            0x4B => read_request(b1, b2, false, true, Header::Bid(b1.pacing)),
            0x83 => read_positive(b1, b2),
            0x87 => read_response(b1, b2, false, true, true, Header::NegativeConfirmation),
            0xCB => read_response(b1, b2, true, false, false, Header::PositiveBidResponse),
            _ => read_response(b1, b2, true, false, true, Header::NegativeBidResponse),
        }
    }
}
