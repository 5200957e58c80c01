// The finite part with one field changed.
ghost use Rattle.std.specs.Prelude.{◌≡◌};
ghost use Rattle.control.specs.FieldChanged.{set_state, set_follows, set_mark, set_due, set_error, set_bid, set_outchain, set_inchain};

use crate::{Control, State, WhatReceived};
use header::Follows;

impl Control {
    pub fn with_state(mut self, state: State) -> Control
        ensures { result ≡ set_state state self }
    {
        self.state = state;
        self
    }

    pub fn with_follows(mut self, follows: Follows) -> Control
        ensures { result ≡ set_follows follows self }
    {
        self.follows = follows;
        self
    }

    pub fn with_mark(mut self, mark: WhatReceived) -> Control
        ensures { result ≡ set_mark mark self }
    {
        self.mark = mark;
        self
    }

    pub fn with_due(mut self, due: bool) -> Control
        ensures { result ≡ set_due due self }
    {
        self.due = due;
        self
    }

    pub fn with_error(mut self, error: bool) -> Control
        ensures { result ≡ set_error error self }
    {
        self.error = error;
        self
    }

    pub fn with_bid(mut self, bid: bool) -> Control
        ensures { result ≡ set_bid bid self }
    {
        self.bid = bid;
        self
    }

    pub fn with_outchain(mut self, outchain: bool) -> Control
        ensures { result ≡ set_outchain outchain self }
    {
        self.outchain = outchain;
        self
    }

    pub fn with_inchain(mut self, inchain: bool) -> Control
        ensures { result ≡ set_inchain inchain self }
    {
        self.inchain = inchain;
        self
    }
}
