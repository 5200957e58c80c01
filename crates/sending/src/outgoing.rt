// The sending side: is it within its rules, and what it is as opened, once a request has gone out and once a pacing response
// has come.
ghost use Rattle.std.specs.Prelude.{◌≡◌, ◌&&◌, not, eqb};
ghost use Rattle.logical_record.specs.Positions.{is_whole};
ghost use Rattle.logical_record.specs.Walk.{place_or};
ghost use Rattle.unit.specs.Ru.{marks};
ghost use Rattle.sending.specs.Sending.{held_good, sending_good, fresh_sending, request_made, credit_answered};

use crate::Sending;
use control::Control;
use header::ChainEnd;
use logical_record::positions::{is_position, is_whole, start};
use logical_record::walk::place_or;
use logical_record::{BadLength, Position};
use pacing::fresh_window;
use unit::maximum::max_good;
use unit::ru::marks;
use unit::sequence::next_number;

// Send-held is 0 to M, at least 1 while the sending chain is open, and 0 outside Send and Defer and while an error is due.
fn held_good(c: Control, s: Sending) -> bool
    ensures { result ≡ held_good c s }
{
    (s.held <= s.max) & ((!c.outchain | (1 <= s.held)) & (c.may_hold() | (s.held == 0)))
}

#[tactic(auto, unfolding(crate::specs::Sending::sending_good))]
pub fn sending_good(c: Control, s: Sending) -> bool
    ensures { result ≡ sending_good c s }
{
    s.window.window_good() && max_good(s.max as u32) && held_good(c, s) && is_position(s.given)
}

pub fn fresh_sending(window: u8, max: u16) -> Sending
    ensures { result ≡ fresh_sending window max }
{
    Sending {
        window: fresh_window(window),
        max,
        held: 0,
        number: 0,
        given: start(),
    }
}

// The record of the bytes given is whole.
pub fn given_whole(s: Sending) -> bool
    ensures { result ≡ is_whole s.given }
{
    is_whole(s.given)
}

// A unit that says nothing to follow goes only to carry bytes or the error that is due: any other flush of none makes no unit.
pub fn nothing_goes(held: u16, error: bool, ends: ChainEnd) -> bool
    ensures { result ≡ not (marks ends) && (eqb held 0 && not error) }
{
    !marks(ends) & ((held == 0) & !error)
}

// A request has gone out: the next number, one credit less. The bytes held and the record place given are then these.
#[tactic(auto, unfolding(crate::specs::Sending::request_made))]
fn request_made(s: Sending, held: u16, given: Position) -> Sending
    ensures { result ≡ request_made held given s }
{
    Sending {
        window: s.window.advanced(),
        held,
        number: next_number(s.number),
        given,
        ..s
    }
}

// A request has gone out that takes no new bytes.
pub fn request_sent(s: Sending, held: u16) -> Sending
    ensures { result ≡ request_made held s.given s }
{
    request_made(s, held, s.given)
}

// A request has gone out, and new bytes were given; `walked` is what the walk over them found.
pub fn bytes_sent(s: Sending, held: u16, walked: Result<Position, BadLength>) -> Sending
    ensures { result ≡ request_made held (place_or s.given walked) s }
{
    request_made(s, held, place_or(s.given, walked))
}

// The pacing request is answered: a window more may go, besides what is left of the one in hand.
pub fn credit_answered(s: Sending) -> Sending
    ensures { result ≡ credit_answered s }
{
    Sending {
        window: s.window.answered(),
        ..s
    }
}
