// What question 5 and the calls ask of the finite part.
ghost use Rattle.std.specs.Prelude.{◌≡◌};
ghost use Rattle.control.specs.StateTests.{is_first_speaker, is_nothing};
ghost use Rattle.control.specs.Within.{mark_in_receive, due_in_send, bid_at_bidder, chain_in_send, error_in_send, control_good, may_hold};
ghost use Rattle.control.specs.Questions.{may_allocate, may_send, may_close, may_withdraw, may_confirm, may_request};
ghost use Rattle.control.specs.Questions.{chain_fits, bracket_fits, bid_fits, state_fits};
ghost use Rattle.control.specs.Questions.{positive_response_fits, negative_response_fits, confirmation_fits};

use crate::Control;
use header::Follows;

impl Control {
    fn mark_in_receive(self) -> bool
        ensures { result ≡ mark_in_receive self }
    {
        self.mark.is_nothing() | self.state.is_receive()
    }

    fn due_in_send(self) -> bool
        ensures { result ≡ due_in_send self }
    {
        !self.due | (self.role.is_first_speaker() & (self.state.holds_send() & !self.outchain))
    }

    fn bid_at_bidder(self) -> bool
        ensures { result ≡ bid_at_bidder self }
    {
        !self.bid | self.role.is_bidder()
    }

    fn chain_in_send(self) -> bool
        ensures { result ≡ chain_in_send self }
    {
        !self.outchain | self.state.holds_send()
    }

    fn error_in_send(self) -> bool
        ensures { result ≡ error_in_send self }
    {
        !self.error | (self.state.is_send() & !self.due)
    }

    // The finite part is within the section 'The end's record'.
    #[tactic(auto, unfolding(crate::specs::Within::control_good))]
    pub fn control_good(self) -> bool
        ensures { result ≡ control_good self }
    {
        self.mark_in_receive()
            && self.due_in_send()
            && self.bid_at_bidder()
            && self.chain_in_send()
            && self.error_in_send()
    }

    // Bytes are held in Send and Defer alone, and none while an error is due.
    pub fn may_hold(self) -> bool
        ensures { result ≡ may_hold self }
    {
        self.state.holds_send() & !self.error
    }

    pub fn speaks_first(self) -> bool
        ensures { result ≡ is_first_speaker self.role }
    {
        self.role.is_first_speaker()
    }

    // No mark waits to be read.
    pub fn has_no_mark(self) -> bool
        ensures { result ≡ is_nothing self.mark }
    {
        self.mark.is_nothing()
    }

    pub fn may_allocate(self) -> bool
        ensures { result ≡ may_allocate self }
    {
        self.state.is_reset() & !self.bid
    }

    pub fn may_send(self) -> bool
        ensures { result ≡ may_send self }
    {
        self.state.is_send() & !self.error
    }

    // Flush and confirm (both say nothing to follow) carry out what is prepared; turn and end are for Send alone. An error that
    // is due goes by flush.
    pub fn may_close(self, follows: Follows, confirm: bool) -> bool
        ensures { result ≡ may_close follows confirm self }
    {
        match follows {
            Follows::Stay => self.state.holds_send() & !(confirm & self.error),
            Follows::ChangeDirection | Follows::EndBracket => self.may_send(),
        }
    }

    pub fn may_withdraw(self) -> bool
        ensures { result ≡ may_withdraw self }
    {
        self.state.is_defer()
    }

    pub fn may_confirm(self) -> bool
        ensures { result ≡ may_confirm self }
    {
        self.state.is_confirm_owed()
    }

    // Request to send: the partner has the turn, and this end receives or owes a confirmation.
    pub fn may_request(self) -> bool
        ensures { result ≡ may_request self }
    {
        self.state.is_receive() | self.state.is_confirm_owed()
    }

    pub fn chain_fits(self, first: bool) -> bool
        ensures { result ≡ chain_fits first self }
    {
        first == !self.inchain
    }

    pub fn bracket_fits(self, bb: bool) -> bool
        ensures { result ≡ bracket_fits bb self }
    {
        bb == (self.role.is_bidder() & self.state.is_reset())
    }

    pub fn bid_fits(self) -> bool
        ensures { result ≡ bid_fits self }
    {
        self.role.is_first_speaker()
    }

    pub fn state_fits(self, bb: bool) -> bool
        ensures { result ≡ state_fits bb self }
    {
        self.state.is_receive() | (self.state.is_reset() & bb)
    }

    pub fn positive_response_fits(self) -> bool
        ensures { result ≡ positive_response_fits self }
    {
        self.state.is_reset() & self.bid
    }

    pub fn negative_response_fits(self) -> bool
        ensures { result ≡ negative_response_fits self }
    {
        self.bid
    }

    pub fn confirmation_fits(self) -> bool
        ensures { result ≡ confirmation_fits self }
    {
        self.state.is_confirm_awaited()
    }
}
