// What the words behind a line's end ask.
ghost use Rattle.std.specs.Prelude.{◌≡◌, length, map};
ghost use Rattle.script.specs.WordsAsked.{handed_back, plain, word_rows, row_of, given_of, offer_of, take_of, read_of};

use crate::{Asked, Flow, Request, Verb};
use cells::same;
use control::Deferred;
use digits::decimal_read::number;
use digits::hexadecimal_read::hex;
use header::Follows;

const GREATEST_COUNT: u16 = 2048;
// Two digits for each byte.
const MOST_DIGITS: usize = 4096;

fn plain(second: bool, request: Request, count: usize) -> Option<Asked>
    ensures { result ≡ plain second request count }
{
    Some(Asked {
        second,
        request,
        count,
    })
}

// The words that stand alone, and what each asks.
const WORDS: [(&[u8], Request); 16] = [
    (b"allocate", Request::Call(Verb::Allocate)),
    (b"flush", Request::Call(Verb::Close(Follows::Stay, false))),
    (b"confirm", Request::Call(Verb::Close(Follows::Stay, true))),
    (b"confirmed", Request::Call(Verb::Confirmed)),
    (
        b"turn",
        Request::Call(Verb::Close(Follows::ChangeDirection, false)),
    ),
    (
        b"turn confirm",
        Request::Call(Verb::Close(Follows::ChangeDirection, true)),
    ),
    (
        b"end",
        Request::Call(Verb::Close(Follows::EndBracket, false)),
    ),
    (
        b"end confirm",
        Request::Call(Verb::Close(Follows::EndBracket, true)),
    ),
    (b"prepare turn", Request::Call(Verb::Defer(Deferred::Turn))),
    (b"prepare end", Request::Call(Verb::Defer(Deferred::End))),
    (b"withdraw", Request::Call(Verb::Withdraw)),
    (b"deny", Request::Call(Verb::SendError)),
    (b"take", Request::Take(Flow::Normal)),
    (b"pace", Request::Call(Verb::SendPacingResponse)),
    (b"send", Request::Call(Verb::SendData)),
    (b"request", Request::Call(Verb::RequestToSend)),
];

// What the first row with these words asks.
fn row_asked(second: bool, words: &[u8], rows: &[(&[u8], Request)]) -> Option<Asked>
    ensures { result ≡ row_of second words.now (map (λ row. (row.0.now, row.1)) rows.now) }
{
    for row in rows {
        if same(words, row.0) {
            return plain(second, row.1, 0);
        }
    }
    None
}

pub(crate) fn words_alone(second: bool, words: &[u8]) -> Option<Asked>
    ensures { result ≡ row_of second words.now word_rows }
{
    row_asked(second, words, &WORDS)
}

// A request with 1 to 2,048 bytes.
pub(crate) fn given(second: bool, request: Request, text: &[u8], bytes: &mut [u8]) -> Option<Asked>
    ensures { (result, bytes.new) ≡ handed_back (given_of second request text.now (length bytes.old)) bytes.old }
{
    if MOST_DIGITS < text.len() {
        return None;
    }
    let count = hex(text, bytes)?;
    plain(second, request, count)
}

// A unit that the line gives: `-` is that of no byte.
fn offer(second: bool, flow: Flow, text: &[u8], bytes: &mut [u8]) -> Option<Asked>
    ensures { (result, bytes.new) ≡ handed_back (offer_of second flow text.now (length bytes.old)) bytes.old }
{
    if same(text, b"-") {
        return plain(second, Request::Offer(flow), 0);
    }
    given(second, Request::Offer(flow), text, bytes)
}

// What stands behind `take `: the expedited line, with a unit or without, or a unit for the normal one.
pub(crate) fn take(second: bool, text: &[u8], bytes: &mut [u8]) -> Option<Asked>
    ensures { (result, bytes.new) ≡ handed_back (take_of second text.now (length bytes.old)) bytes.old }
{
    if same(text, b"expedited") {
        return plain(second, Request::Take(Flow::Expedited), 0);
    }
    if let Some(unit) = text.strip_prefix(b"expedited ") {
        return offer(second, Flow::Expedited, unit, bytes);
    }
    offer(second, Flow::Normal, text, bytes)
}

// A buffer of 0 to 2,048 cells.
#[tactic(auto, unfolding(crate::specs::WordsAsked::read_of))]
pub(crate) fn read(second: bool, text: &[u8]) -> Option<Asked>
    ensures { result ≡ read_of second text.now }
{
    let cells = number(text)?;
    if GREATEST_COUNT < cells {
        return None;
    }
    plain(second, Request::Call(Verb::Receive), cells as usize)
}
