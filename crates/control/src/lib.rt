// The finite part of an end's record: role, state, what follows a confirmation, the mark, the flags and the open chains. Numbers,
// windows and bytes are left to the end.
#![tactic(auto)]

mod field_changed;
mod questions;
mod state_tests;

// Document 01's role.
#[derive(Clone, Copy, PartialEq, Eq)]
pub enum Role {
    FirstSpeaker,
    Bidder,
}

// Document 01's state; ConfirmOwed is its Owes, ConfirmAwaited its Waits. DeferTurn and DeferEnd are document 02's Defer: a turn
// or an end is prepared and not yet carried out (document 004: Defer Receive and Defer Deallocate).
#[derive(Clone, Copy, PartialEq, Eq)]
pub enum State {
    Reset,
    Send,
    Receive,
    ConfirmOwed,
    ConfirmAwaited,
    DeferTurn,
    DeferEnd,
}

// What is prepared in Defer.
#[derive(Clone, Copy, PartialEq, Eq)]
pub enum Deferred {
    Turn,
    End,
}

// Document 01's mark: what the last unit taken says after its bytes, kept until a read answers it. Error is document 02's: the
// partner does not confirm, and this is the cause.
#[derive(Clone, Copy, PartialEq, Eq)]
pub enum WhatReceived {
    Nothing,
    Turn,
    End,
    Confirm,
    ConfirmTurn,
    ConfirmEnd,
    Error,
}

// `follows` is what follows a confirmation; `due` is BB-due: the next data unit begins the bracket; `bid` is the flag bid: a bid is
// unanswered; `outchain` and `inchain` say whether the sending and the receiving chain is open; `error` is error-due: the next
// request is the error header. It stands last, where it costs least (docs/BENCHMARK.md).
#[derive(Clone, Copy)]
pub struct Control {
    pub role: Role,
    pub state: State,
    pub follows: header::Follows,
    pub mark: WhatReceived,
    pub due: bool,
    pub bid: bool,
    pub outchain: bool,
    pub inchain: bool,
    pub error: bool,
}
