// A turn or an end prepared and not yet carried out (document 02: prepare), and withdrawn. Flush and confirm carry it out.
ghost use Rattle.std.specs.Prelude.{◌≡◌};
ghost use Rattle.answers.specs.Refusals.{outcome_number};
ghost use Rattle.end.specs.Defer.{defer_refusal, defer, withdraw_refusal, withdraw};

use crate::results::{accepted, refused};
use crate::{Done, End};
use answers::questions::ask;
use answers::refusals::Refusal;
use control::Deferred;
use sending::outgoing::given_whole;
use transitions::{deferred, withdrawn};

impl End {
    #[tactic(auto, unfolding(crate::specs::Defer::defer_refusal))]
    fn defer_refusal(self) -> Result<(), Refusal>
        ensures { outcome_number result ≡ defer_refusal self }
    {
        ask(self.record_good(), Refusal::BadRecord)?;
        ask(self.control.may_send(), Refusal::WrongState)?;
        ask(given_whole(self.sending), Refusal::UnfinishedRecord)
    }

    // Notes a turn or an end, and does no more.
    #[tactic(auto, unfolding(crate::specs::Defer::defer, crate::specs::Defer::defer_decision))]
    pub fn defer(self, what: Deferred) -> Done
        ensures { result ≡ defer what self }
    {
        if let Err(why) = self.defer_refusal() {
            return refused(why.into(), self);
        }
        let next = deferred(self.control, what);
        accepted(0, self.with_control(next))
    }

    #[tactic(auto, unfolding(crate::specs::Defer::withdraw_refusal))]
    fn withdraw_refusal(self) -> Result<(), Refusal>
        ensures { outcome_number result ≡ withdraw_refusal self }
    {
        ask(self.record_good(), Refusal::BadRecord)?;
        ask(self.control.may_withdraw(), Refusal::WrongState)
    }

    // Drops the turn or end that is noted.
    #[tactic(auto, unfolding(crate::specs::Defer::withdraw, crate::specs::Defer::withdraw_decision))]
    pub fn withdraw(self) -> Done
        ensures { result ≡ withdraw self }
    {
        if let Err(why) = self.withdraw_refusal() {
            return refused(why.into(), self);
        }
        let next = withdrawn(self.control);
        accepted(0, self.with_control(next))
    }
}
