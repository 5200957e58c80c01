// Tests of roles, states and marks, and the role of a number.
ghost use Rattle.std.specs.Prelude.{◌≡◌};
ghost use Rattle.control.specs.StateTests.{role_of, is_first_speaker, is_bidder, is_reset, is_send, is_receive, is_confirm_owed};
ghost use Rattle.control.specs.StateTests.{is_confirm_awaited, holds_send, is_defer, is_nothing};

use crate::{Role, State, WhatReceived};

// First speaker 0, bidder 1. Callers have asked before whether the number is one of these.
impl From<u8> for Role {
    fn from(number: u8) -> Role
        ensures { result ≡ role_of number }
    {
        if number == 0 {
            Role::FirstSpeaker
        } else {
            Role::Bidder
        }
    }
}

impl Role {
    pub fn is_first_speaker(self) -> bool
        ensures { result ≡ is_first_speaker self }
    {
        self == Role::FirstSpeaker
    }

    pub fn is_bidder(self) -> bool
        ensures { result ≡ is_bidder self }
    {
        self == Role::Bidder
    }
}

impl State {
    pub fn is_reset(self) -> bool
        ensures { result ≡ is_reset self }
    {
        self == State::Reset
    }

    pub fn is_send(self) -> bool
        ensures { result ≡ is_send self }
    {
        self == State::Send
    }

    pub fn is_receive(self) -> bool
        ensures { result ≡ is_receive self }
    {
        self == State::Receive
    }

    pub fn is_confirm_owed(self) -> bool
        ensures { result ≡ is_confirm_owed self }
    {
        self == State::ConfirmOwed
    }

    pub fn is_confirm_awaited(self) -> bool
        ensures { result ≡ is_confirm_awaited self }
    {
        self == State::ConfirmAwaited
    }

    // Document 02: the end holds send state.
    pub fn holds_send(self) -> bool
        ensures { result ≡ holds_send self }
    {
        self.is_send() | self.is_defer()
    }

    // A turn or an end is prepared.
    pub fn is_defer(self) -> bool
        ensures { result ≡ is_defer self }
    {
        matches!(self, State::DeferTurn | State::DeferEnd)
    }
}

impl WhatReceived {
    pub fn is_nothing(self) -> bool
        ensures { result ≡ is_nothing self }
    {
        self == WhatReceived::Nothing
    }
}
