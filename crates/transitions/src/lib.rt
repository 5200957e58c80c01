// Every transition of the finite part. Each is a free function of a Control: methods would have to stand in control, which asks and
// changes one field, and knows no transition.
#![tactic(auto)]

ghost use Rattle.std.specs.Prelude.{◌≡◌};
ghost use Rattle.transitions.specs.Transitions.{fresh, allocated, begin_of, spilled, after_last, closed, after_owed, confirmation_made};
ghost use Rattle.transitions.specs.Transitions.{after_mark, mark_answered, mark_of_last, mark_of, data_received, bid_received, bid_answer};
ghost use Rattle.transitions.specs.Transitions.{deferring, deferred, withdrawn, prepared, carried_out};
ghost use Rattle.transitions.specs.Transitions.{positive_response_received, negative_response_received, confirmation_received};
ghost use Rattle.transitions.specs.Transitions.{confirmation_denied, error_made, error_received, negative_confirmation_received};

use control::{Control, Deferred, Role, State, WhatReceived};
use header::{ChainBegin, ChainEnd, Follows, Header};

// The state after a last unit, without confirmation.
fn after_last(f: Follows) -> State
    ensures { result ≡ after_last f }
{
    match f {
        Follows::Stay => State::Send,
        Follows::ChangeDirection => State::Receive,
        Follows::EndBracket => State::Reset,
    }
}

fn after_owed(f: Follows) -> State
    ensures { result ≡ after_owed f }
{
    match f {
        Follows::Stay => State::Receive,
        Follows::ChangeDirection => State::Send,
        Follows::EndBracket => State::Reset,
    }
}

fn mark_of_last(f: Follows, confirm: bool) -> WhatReceived
    ensures { result ≡ mark_of_last f confirm }
{
    match (f, confirm) {
        (Follows::Stay, false) => WhatReceived::Nothing,
        (Follows::Stay, true) => WhatReceived::Confirm,
        (Follows::ChangeDirection, false) => WhatReceived::Turn,
        (Follows::ChangeDirection, true) => WhatReceived::ConfirmTurn,
        (Follows::EndBracket, false) => WhatReceived::End,
        (Follows::EndBracket, true) => WhatReceived::ConfirmEnd,
    }
}

// The mark that a unit leaves.
fn mark_of(e: ChainEnd) -> WhatReceived
    ensures { result ≡ mark_of e }
{
    match e {
        ChainEnd::Continues => WhatReceived::Nothing,
        ChainEnd::Last { follows, confirm } => mark_of_last(follows, confirm),
    }
}

// As opened.
pub fn fresh(role: Role) -> Control
    ensures { result ≡ fresh role }
{
    Control {
        role,
        state: State::Reset,
        follows: Follows::Stay,
        mark: WhatReceived::Nothing,
        due: false,
        error: false,
        bid: false,
        outchain: false,
        inchain: false,
    }
}

// Allocate: a first speaker sends, BB-due; a bidder has its flag on.
#[tactic(auto, unfolding(crate::specs::Transitions::allocated))]
pub fn allocated(c: Control) -> Control
    ensures { result ≡ allocated c }
{
    if c.role.is_first_speaker() {
        c.with_state(State::Send).with_due(true)
    } else {
        c.with_bid(true)
    }
}

// Where the next data unit stands at the begin of its chain.
pub fn begin_of(c: Control) -> ChainBegin
    ensures { result ≡ begin_of c }
{
    if c.outchain {
        ChainBegin::Continued
    } else if c.due {
        ChainBegin::FirstWithBracket
    } else {
        ChainBegin::First
    }
}

// A data unit that is not last in its chain has gone out.
#[tactic(auto, unfolding(crate::specs::Transitions::spilled))]
pub fn spilled(c: Control) -> Control
    ensures { result ≡ spilled c }
{
    c.with_due(false).with_outchain(true)
}

// A last unit has gone out; with confirmation the end waits, noting what follows.
#[tactic(auto, unfolding(crate::specs::Transitions::closed))]
pub fn closed(c: Control, follows: Follows, confirm: bool) -> Control
    ensures { result ≡ closed follows confirm c }
{
    let next = if confirm {
        c.with_follows(follows).with_state(State::ConfirmAwaited)
    } else {
        c.with_state(after_last(follows))
    };
    next.with_due(false).with_outchain(false)
}

// No From<Deferred> for State: it would have to stand in control, away from the definition that it meets.
fn deferring(what: Deferred) -> State
    ensures { result ≡ deferring what }
{
    match what {
        Deferred::Turn => State::DeferTurn,
        Deferred::End => State::DeferEnd,
    }
}

// A turn or an end is prepared: it is noted, and no more.
#[tactic(auto, unfolding(crate::specs::Transitions::deferred))]
pub fn deferred(c: Control, what: Deferred) -> Control
    ensures { result ≡ deferred what c }
{
    c.with_state(deferring(what))
}

// What was prepared is withdrawn.
#[tactic(auto, unfolding(crate::specs::Transitions::withdrawn))]
pub fn withdrawn(c: Control) -> Control
    ensures { result ≡ withdrawn c }
{
    c.with_state(State::Send)
}

fn prepared(s: State) -> Follows
    ensures { result ≡ prepared s }
{
    match s {
        State::DeferTurn => Follows::ChangeDirection,
        State::DeferEnd => Follows::EndBracket,
        State::Reset | State::Send | State::Receive | State::ConfirmOwed | State::ConfirmAwaited =>
            Follows::Stay,
    }
}

// What the last unit of a closing call says to follow: flush and confirm, which say nothing of it, carry out what is prepared.
pub fn carried_out(c: Control, follows: Follows) -> Follows
    ensures { result ≡ carried_out follows c }
{
    match follows {
        Follows::Stay => prepared(c.state),
        Follows::ChangeDirection | Follows::EndBracket => follows,
    }
}

// The confirmation that was owed has gone out.
#[tactic(auto, unfolding(crate::specs::Transitions::confirmation_made))]
pub fn confirmation_made(c: Control) -> Control
    ensures { result ≡ confirmation_made c }
{
    c.with_state(after_owed(c.follows))
}

// The confirmation that was owed is denied: this end sends, whatever was to follow, and first of all the error header.
#[tactic(auto, unfolding(crate::specs::Transitions::confirmation_denied))]
pub fn confirmation_denied(c: Control) -> Control
    ensures { result ≡ confirmation_denied c }
{
    c.with_state(State::Send).with_error(true)
}

// The error header has gone out.
#[tactic(auto, unfolding(crate::specs::Transitions::error_made))]
pub fn error_made(c: Control) -> Control
    ensures { result ≡ error_made c }
{
    c.with_error(false)
}

fn after_mark(c: Control, mark: WhatReceived) -> Control
    ensures { result ≡ after_mark mark c }
{
    match mark {
        WhatReceived::Nothing | WhatReceived::Error => c,
        WhatReceived::Turn => c.with_state(State::Send),
        WhatReceived::End => c.with_state(State::Reset),
        WhatReceived::Confirm => c.with_follows(Follows::Stay).with_state(State::ConfirmOwed),
        WhatReceived::ConfirmTurn => c
            .with_follows(Follows::ChangeDirection)
            .with_state(State::ConfirmOwed),
        WhatReceived::ConfirmEnd => c
            .with_follows(Follows::EndBracket)
            .with_state(State::ConfirmOwed),
    }
}

// The mark was read.
#[tactic(auto, unfolding(crate::specs::Transitions::mark_answered))]
pub fn mark_answered(c: Control) -> Control
    ensures { result ≡ mark_answered c }
{
    after_mark(c, c.mark).with_mark(WhatReceived::Nothing)
}

// Data was taken.
#[tactic(auto, unfolding(crate::specs::Transitions::data_received))]
pub fn data_received(c: Control, ends: ChainEnd) -> Control
    ensures { result ≡ data_received ends c }
{
    c.with_state(State::Receive)
        .with_mark(mark_of(ends))
        .with_inchain(!ends.is_last())
}

// An error header was taken.
#[tactic(auto, unfolding(crate::specs::Transitions::error_received))]
pub fn error_received(c: Control) -> Control
    ensures { result ≡ error_received c }
{
    c.with_mark(WhatReceived::Error)
}

// A bid was taken, and granted in Reset.
#[tactic(auto, unfolding(crate::specs::Transitions::bid_received))]
pub fn bid_received(c: Control) -> Control
    ensures { result ≡ bid_received c }
{
    if c.state.is_reset() {
        c.with_state(State::Receive)
    } else {
        c
    }
}

// What answers a bid.
pub fn bid_answer(c: Control) -> Header
    ensures { result ≡ bid_answer c }
{
    if c.state.is_reset() {
        Header::PositiveBidResponse
    } else {
        Header::NegativeBidResponse
    }
}

// The bid was granted.
#[tactic(auto, unfolding(crate::specs::Transitions::positive_response_received))]
pub fn positive_response_received(c: Control) -> Control
    ensures { result ≡ positive_response_received c }
{
    c.with_state(State::Send).with_bid(false)
}

// The bid was refused.
#[tactic(auto, unfolding(crate::specs::Transitions::negative_response_received))]
pub fn negative_response_received(c: Control) -> Control
    ensures { result ≡ negative_response_received c }
{
    c.with_bid(false)
}

// The confirmation that was awaited came.
#[tactic(auto, unfolding(crate::specs::Transitions::confirmation_received))]
pub fn confirmation_received(c: Control) -> Control
    ensures { result ≡ confirmation_received c }
{
    c.with_state(after_last(c.follows))
}

// The confirmation that was awaited was denied.
#[tactic(auto, unfolding(crate::specs::Transitions::negative_confirmation_received))]
pub fn negative_confirmation_received(c: Control) -> Control
    ensures { result ≡ negative_confirmation_received c }
{
    c.with_state(State::Receive)
}
