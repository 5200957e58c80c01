// A unit that is taken: what is asked of it, the walk over it, and the bytes that join the inbox.
ghost use Rattle.std.specs.Prelude.{◌≡◌, cond, ◌+◌, ◌≤◌, eqb, length, drop};
ghost use Rattle.answers.specs.Refusals.{outcome_number};
ghost use Rattle.cells.specs.Cells.{written};
ghost use Rattle.logical_record.specs.Walk.{walk, place_or};
ghost use Rattle.answers.specs.FirstNo.{first_no};
ghost use Rattle.receiving.specs.Receiving.{pacing_fits, is_next, records_fit, request_received};
ghost use Rattle.receiving.specs.UnitQuestions.{walked_for, data_questions, bid_questions, error_questions, response_questions, pacing_questions};

use crate::Receiving;
use crate::incoming::request_received;
use answers::questions::ask;
use answers::refusals::Refusal;
use cells::copy;
use control::Control;
use header::{ChainEnd, DataHeader, Header};
use logical_record::positions::is_whole;
use logical_record::walk::{place_or, walk_over};
use logical_record::{BadLength, Position};
use unit::RU_START;
use unit::ru::{marks, ru_good};
use unit::sequence::next_number;

// The walk over an RU, which question 29 and the inbox share. Only data is made of records.
pub fn walk_data(header: Header, r: Receiving, ru: &[u8]) -> Result<Position, BadLength>
    ensures { result ≡ walked_for header r.taken ru.now }
{
    if let Header::Data(_) = header {
        walk_over(r.taken, ru)
    } else {
        Ok(r.taken)
    }
}

// Question 27 of a request: one is open, and its pacing bit is on exactly at window place 0.
fn pacing_fits(r: Receiving, bit: bool) -> bool
    ensures { result ≡ pacing_fits r bit }
{
    let window = r.window;
    window.has_credit() & (bit == window.paced())
}

// Question 23 of a request. The number after 65,535 is 0.
fn is_next(r: Receiving, number: u16) -> bool
    ensures { result ≡ is_next r number }
{
    number == next_number(r.number)
}

// Question 29 of data: every LL is good, and at a mark the last record is whole.
fn records_fit(ends: ChainEnd, walked: Result<Position, BadLength>) -> bool
    ensures { result ≡ records_fit ends walked }
{
    match walked {
        Ok(place) => !marks(ends) | is_whole(place),
        Err(BadLength) => false,
    }
}

// Of data. `walked` is what the one walk over the RU found.
pub fn data_refusal(
    c: Control,
    r: Receiving,
    d: DataHeader,
    number: u16,
    walked: Result<Position, BadLength>,
    ru: &[u8],
) -> Result<(), Refusal>
    requires { walked ≡ walk r.taken ru.now }
    ensures { outcome_number result ≡ first_no (data_questions c r d number ru.now) }
{
    let max = r.max as usize;
    let begins = d.begins;
    let ends = d.ends;
    let bracket = begins.begins_bracket();
    ask(ru_good(max, Header::Data(d), ru), Refusal::BadRu)?;
    ask(pacing_fits(r, d.pacing), Refusal::BadPacing)?;
    ask(is_next(r, number), Refusal::BadNumber)?;
    ask(c.chain_fits(begins.is_first()), Refusal::BadChain)?;
    ask(c.bracket_fits(bracket), Refusal::BadBracket)?;
    ask(c.state_fits(bracket), Refusal::BadState)?;
    ask(records_fit(ends, walked), Refusal::BadRecords)
}

// Of a bid, which counts as first in a chain, and comes to the first speaker only.
pub fn bid_refusal(
    c: Control,
    r: Receiving,
    bit: bool,
    number: u16,
    ru: &[u8],
) -> Result<(), Refusal>
    ensures { outcome_number result ≡ first_no (bid_questions c r bit number ru.now) }
{
    let max = r.max as usize;
    ask(ru_good(max, Header::Bid(bit), ru), Refusal::BadRu)?;
    ask(pacing_fits(r, bit), Refusal::BadPacing)?;
    ask(is_next(r, number), Refusal::BadNumber)?;
    ask(c.chain_fits(true), Refusal::BadChain)?;
    ask(c.bid_fits(), Refusal::BadBracket)
}

// Of an error header, a chain of its own that begins no bracket. Nothing of it is walked.
pub fn error_refusal(
    c: Control,
    r: Receiving,
    bit: bool,
    number: u16,
    ru: &[u8],
) -> Result<(), Refusal>
    ensures { outcome_number result ≡ first_no (error_questions c r bit number ru.now) }
{
    let max = r.max as usize;
    let place = r.taken;
    ask(
        ru_good(max, Header::ErrorDescription(bit), ru),
        Refusal::BadRu,
    )?;
    ask(pacing_fits(r, bit), Refusal::BadPacing)?;
    ask(is_next(r, number), Refusal::BadNumber)?;
    ask(c.chain_fits(true), Refusal::BadChain)?;
    ask(c.bracket_fits(false), Refusal::BadBracket)?;
    ask(c.state_fits(false), Refusal::BadState)?;
    ask(is_whole(place), Refusal::BadRecords)
}

// Of a grant, a bid refusal, a confirmation and its refusal: `fits` says that one of this number is expected now.
pub fn response_refusal(max: u16, header: Header, fits: bool, ru: &[u8]) -> Result<(), Refusal>
    ensures { outcome_number result ≡ first_no (response_questions max header fits ru.now) }
{
    let most = max as usize;
    ask(ru_good(most, header, ru), Refusal::BadRu)?;
    ask(fits, Refusal::BadResponse)
}

// Of a pacing response, whose number is always 0: `pending` is of the window of sending, which it answers.
pub fn pacing_response_refusal(
    max: u16,
    pending: bool,
    number: u16,
    ru: &[u8],
) -> Result<(), Refusal>
    ensures { outcome_number result ≡ first_no (pacing_questions max pending number ru.now) }
{
    let most = max as usize;
    ask(ru_good(most, Header::PacingResponse, ru), Refusal::BadRu)?;
    ask(pending, Refusal::BadPacing)?;
    ask(number == 0, Refusal::BadNumber)
}

// The side once a data unit of n bytes is taken; `walked` is what the walk over them found.
pub fn joined(r: Receiving, n: usize, walked: Result<Position, BadLength>) -> Receiving
    requires { r.held + n ≤ r.inbox }
    ensures { result ≡ request_received (r.held + n) (place_or r.taken walked) r }
{
    let held = r.held + n as u16;
    request_received(r, held, place_or(r.taken, walked))
}

// The RU of a data unit joins the inbox, behind the bytes held before. Where no more are held than before there is none.
pub fn join(before: u16, after: u16, taken: &[u8], inbox: &mut [u8])
    requires { (after ≡ before → ⊥) → (5 ≤ length taken.now) × (before + length (drop 5 taken.now) ≤ length inbox.old) }
    ensures { inbox.new
        ≡ cond (eqb after before) inbox.old (written before (drop 5 taken.now) inbox.old) }
{
    if after == before {
        return;
    }
    copy(&taken[RU_START..], &mut inbox[before as usize..]);
}

// The number owed is that of the last unit that asked for a confirmation.
pub fn owed_after(confirm: bool, number: u16, before: u16) -> u16
    ensures { result ≡ cond confirm number before }
{
    if confirm { number } else { before }
}
