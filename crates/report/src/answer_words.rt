// The words for an end, a call, a mark and a state.
ghost use Rattle.std.specs.Prelude.{◌≡◌};
ghost use Rattle.report.specs.AnswerWords.{end_word, closing_words, defer_words, verb_words, take_words, request_words, mark_word, state_word};

use control::{Deferred, State, WhatReceived};
use header::Follows;
use script::{Flow, Request, Verb};

pub(crate) fn end_digit(second: bool) -> &'static [u8]
    ensures { result.now ≡ end_word second }
{
    if second { b"2" } else { b"1" }
}

fn closing_word(follows: Follows, confirm: bool) -> &'static [u8]
    ensures { result.now ≡ closing_words follows confirm }
{
    match (follows, confirm) {
        (Follows::Stay, false) => b"flush",
        (Follows::Stay, true) => b"confirm",
        (Follows::ChangeDirection, false) => b"turn",
        (Follows::ChangeDirection, true) => b"turn confirm",
        (Follows::EndBracket, false) => b"end",
        (Follows::EndBracket, true) => b"end confirm",
    }
}

fn defer_word(what: Deferred) -> &'static [u8]
    ensures { result.now ≡ defer_words what }
{
    match what {
        Deferred::Turn => b"prepare turn",
        Deferred::End => b"prepare end",
    }
}

fn verb_word(verb: Verb) -> &'static [u8]
    ensures { result.now ≡ verb_words verb }
{
    match verb {
        Verb::Allocate => b"allocate",
        Verb::Confirmed => b"confirmed",
        Verb::SendError => b"deny",
        Verb::RequestToSend => b"request",
        Verb::SendPacingResponse => b"pace",
        Verb::SendData => b"send",
        Verb::Close(follows, confirm) => closing_word(follows, confirm),
        Verb::Defer(what) => defer_word(what),
        Verb::Withdraw => b"withdraw",
        Verb::Receive => b"read",
    }
}

fn take_word(flow: Flow) -> &'static [u8]
    ensures { result.now ≡ take_words flow }
{
    match flow {
        Flow::Normal => b"take",
        Flow::Expedited => b"take expedited",
    }
}

pub(crate) fn request_word(request: Request) -> &'static [u8]
    ensures { result.now ≡ request_words request }
{
    match request {
        Request::Call(verb) => verb_word(verb),
        Request::Take(flow) | Request::Offer(flow) => take_word(flow),
    }
}

pub(crate) fn mark_word(mark: WhatReceived) -> &'static [u8]
    ensures { result.now ≡ mark_word mark }
{
    match mark {
        WhatReceived::Nothing => b"none",
        WhatReceived::Turn => b"turn",
        WhatReceived::End => b"end",
        WhatReceived::Confirm => b"confirm",
        WhatReceived::ConfirmTurn => b"confirm-turn",
        WhatReceived::ConfirmEnd => b"confirm-end",
        WhatReceived::Error => b"error",
    }
}

pub(crate) fn state_word(state: State) -> &'static [u8]
    ensures { result.now ≡ state_word state }
{
    match state {
        State::Reset => b"Reset",
        State::Send => b"Send",
        State::Receive => b"Receive",
        State::ConfirmOwed => b"Owes",
        State::ConfirmAwaited => b"Waits",
        State::DeferTurn => b"Defer-turn",
        State::DeferEnd => b"Defer-end",
    }
}
