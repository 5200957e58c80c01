// The receiving side: is it within its rules, and what it is as opened, once a request is taken and once a pacing response has
// gone out.
ghost use Rattle.std.specs.Prelude.{◌≡◌, ◌+◌, ◌*◌};
ghost use Rattle.receiving.specs.Receiving.{inbox_good, receiving_good, fresh_receiving, request_received, may_answer_pacing, window_answered};

use crate::Receiving;
use logical_record::Position;
use logical_record::positions::{is_position, start};
use pacing::fresh_window;
use unit::maximum::max_good;
use unit::sequence::next_number;

// The bytes held once so many more requests have come, each as long as it may be. The most, 65,535 × 65,536, fits.
fn filled(held: u16, requests: u16, max: u16) -> u32
    ensures { result ≡ held + requests * max }
{
    (held as u32) + (requests as u32) * (max as u32)
}

// What is open, each request at its longest, still has room behind the bytes held.
fn inbox_good(r: Receiving) -> bool
    ensures { result ≡ inbox_good r }
{
    filled(r.held, r.window.credit(), r.max) <= r.inbox as u32
}

#[tactic(auto, unfolding(crate::specs::Receiving::receiving_good))]
pub fn receiving_good(r: Receiving) -> bool
    ensures { result ≡ receiving_good r }
{
    r.window.window_good()
        && max_good(r.max as u32)
        && inbox_good(r)
        && is_position(r.taken)
        && is_position(r.read)
}

pub fn fresh_receiving(window: u8, max: u16, inbox: u16) -> Receiving
    ensures { result ≡ fresh_receiving window max inbox }
{
    Receiving {
        window: fresh_window(window),
        max,
        inbox,
        held: 0,
        number: 0,
        taken: start(),
        read: start(),
    }
}

// A request has been taken: its number, one less open. The bytes held and the record place taken are then these.
#[tactic(auto, unfolding(crate::specs::Receiving::request_received))]
pub fn request_received(r: Receiving, held: u16, taken: Position) -> Receiving
    ensures { result ≡ request_received held taken r }
{
    Receiving {
        window: r.window.advanced(),
        held,
        number: next_number(r.number),
        taken,
        ..r
    }
}

// A request has been taken that brings no bytes.
pub fn request_counted(r: Receiving) -> Receiving
    ensures { result ≡ request_received r.held r.taken r }
{
    request_received(r, r.held, r.taken)
}

// An answer is owed, and the inbox has room for what it opens besides what is open.
pub fn may_answer_pacing(r: Receiving) -> bool
    ensures { result ≡ may_answer_pacing r }
{
    let opened = r.window.credit() + r.window.size as u16;
    r.window.pending && filled(r.held, opened, r.max) <= r.inbox as u32
}

pub fn window_answered(r: Receiving) -> Receiving
    ensures { result ≡ window_answered r }
{
    Receiving {
        window: r.window.answered(),
        ..r
    }
}
