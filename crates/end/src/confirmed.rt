// The call confirmed.
ghost use Rattle.std.specs.Prelude.{◌≡◌};
ghost use Rattle.answers.specs.Refusals.{outcome_number};
ghost use Rattle.end.specs.Confirmed.{confirmed_refusal, confirmed_decision, confirmed};
ghost use Rattle.end.specs.Outcome.{done_of};
ghost use Rattle.end.specs.Results.{made_by};

use crate::requests::{fixed_made, write_made};
use crate::results::refused;
use crate::{Done, End};
use answers::questions::ask;
use answers::refusals::Refusal;
use header::Header;
use transitions::confirmation_made;

impl End {
    // Send error asks the same.
    #[tactic(auto, unfolding(crate::specs::Confirmed::confirmed_refusal))]
    pub(crate) fn confirmed_refusal(self, unit: usize) -> Result<(), Refusal>
        ensures { outcome_number result ≡ confirmed_refusal self unit }
    {
        ask(self.unit_lent(unit), Refusal::BadBuffer)?;
        ask(self.record_good(), Refusal::BadRecord)?;
        ask(self.control.may_confirm(), Refusal::WrongState)
    }

    // What confirmed answers and leaves of the record, before a cell is written.
    #[tactic(auto, unfolding(crate::specs::Confirmed::confirmed_decision))]
    pub fn confirmed_decision(self, unit: usize) -> Done
        ensures { result ≡ done_of (confirmed_decision self unit) }
    {
        if let Err(why) = self.confirmed_refusal(unit) {
            return refused(why.into(), self);
        }
        let next = confirmation_made(self.control);
        fixed_made(self.with_control(next), Header::Confirmation)
    }

    // Makes the confirmation that is owed, under the number of the unit that asked for it.
    pub fn confirmed(self, unit: &mut [u8]) -> Done
        ensures { made_by result unit.new ≡ confirmed self unit.old }
    {
        let done = self.confirmed_decision(unit.len());
        write_made(done.answer.unit, self.owed, Header::Confirmation, unit);
        done
    }
}
