// The call send error (document 004: SEND_ERROR, in Confirm state): no confirmation, with a cause. Flush then makes the error header.
ghost use Rattle.std.specs.Prelude.{◌≡◌};
ghost use Rattle.end.specs.SendError.{send_error_decision, send_error};
ghost use Rattle.end.specs.Outcome.{done_of};
ghost use Rattle.end.specs.Results.{made_by};

use crate::requests::{fixed_made, write_made};
use crate::results::refused;
use crate::{Done, End};
use header::Header;
use transitions::confirmation_denied;

impl End {
    // What send error answers and leaves of the record, before a cell is written.
    #[tactic(auto, unfolding(crate::specs::SendError::send_error_decision))]
    pub fn send_error_decision(self, unit: usize) -> Done
        ensures { result ≡ done_of (send_error_decision self unit) }
    {
        if let Err(why) = self.confirmed_refusal(unit) {
            return refused(why.into(), self);
        }
        let next = confirmation_denied(self.control);
        fixed_made(self.with_control(next), Header::NegativeConfirmation)
    }

    // Refuses the confirmation that is owed, under the number of the unit that asked for it.
    pub fn send_error(self, unit: &mut [u8]) -> Done
        ensures { made_by result unit.new ≡ send_error self unit.old }
    {
        let done = self.send_error_decision(unit.len());
        write_made(
            done.answer.unit,
            self.owed,
            Header::NegativeConfirmation,
            unit,
        );
        done
    }
}
