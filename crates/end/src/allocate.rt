// The call allocate.
ghost use Rattle.std.specs.Prelude.{◌≡◌};
ghost use Rattle.answers.specs.Refusals.{outcome_number};
ghost use Rattle.end.specs.Allocate.{allocate_refusal, bid_made, allocate_decision, allocate};
ghost use Rattle.end.specs.Outcome.{done_of};
ghost use Rattle.end.specs.Results.{made_by};

use crate::requests::{fixed_made, write_made};
use crate::results::{accepted, refused};
use crate::{Done, End};
use answers::questions::ask;
use answers::refusals::Refusal;
use header::Header;
use sending::outgoing::request_sent;
use transitions::allocated;

impl End {
    // A first speaker needs no credit: its allocate makes no unit.
    #[tactic(auto, unfolding(crate::specs::Allocate::allocate_refusal))]
    fn allocate_refusal(self, unit: usize) -> Result<(), Refusal>
        ensures { outcome_number result ≡ allocate_refusal self unit }
    {
        ask(self.unit_lent(unit), Refusal::BadBuffer)?;
        ask(self.record_good(), Refusal::BadRecord)?;
        ask(self.control.may_allocate(), Refusal::WrongState)?;
        ask(
            self.control.speaks_first() | self.sending.window.has_credit(),
            Refusal::NoCredit,
        )
    }

    // The bid is a request; its number is kept, for the response that will carry it.
    fn bid_decision(self) -> Done
        ensures { result ≡ done_of (bid_made self) }
    {
        let control = allocated(self.control);
        let next = request_sent(self.sending, self.sending.held);
        let mut end = self.with_control(control).with_sending(next);
        end.bidding = next.number;
        fixed_made(end, Header::Bid(self.sending.window.paced()))
    }

    // What allocate answers and leaves of the record, before a cell is written.
    #[tactic(auto, unfolding(crate::specs::Allocate::allocate_decision))]
    pub fn allocate_decision(self, unit: usize) -> Done
        ensures { result ≡ done_of (allocate_decision self unit) }
    {
        if let Err(why) = self.allocate_refusal(unit) {
            return refused(why.into(), self);
        }
        if self.control.speaks_first() {
            return accepted(0, self.with_control(allocated(self.control)));
        }
        self.bid_decision()
    }

    // Starts a conversation. A first speaker may send at once; a bidder makes a bid.
    pub fn allocate(self, unit: &mut [u8]) -> Done
        ensures { made_by result unit.new ≡ allocate self unit.old }
    {
        let done = self.allocate_decision(unit.len());
        let header = Header::Bid(self.sending.window.paced());
        write_made(done.answer.unit, done.end.bidding, header, unit);
        done
    }
}
