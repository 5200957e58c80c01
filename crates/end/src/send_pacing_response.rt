// The call send pacing response (document 01: pace).
ghost use Rattle.std.specs.Prelude.{◌≡◌};
ghost use Rattle.answers.specs.Refusals.{outcome_number};
ghost use Rattle.end.specs.SendPacingResponse.{send_pacing_response_refusal, send_pacing_response_decision, send_pacing_response};
ghost use Rattle.end.specs.Outcome.{done_of};
ghost use Rattle.end.specs.Results.{made_by};

use crate::requests::{fixed_made, write_made};
use crate::results::refused;
use crate::{Done, End};
use answers::questions::ask;
use answers::refusals::Refusal;
use header::Header;
use receiving::incoming::{may_answer_pacing, window_answered};

impl End {
    #[tactic(auto, unfolding(crate::specs::SendPacingResponse::send_pacing_response_refusal))]
    fn send_pacing_response_refusal(self, unit: usize) -> Result<(), Refusal>
        ensures { outcome_number result ≡ send_pacing_response_refusal self unit }
    {
        ask(self.unit_lent(unit), Refusal::BadBuffer)?;
        ask(self.record_good(), Refusal::BadRecord)?;
        ask(may_answer_pacing(self.receiving), Refusal::NothingToPace)
    }

    // What the call answers and leaves of the record, before a cell is written.
    #[tactic(auto, unfolding(crate::specs::SendPacingResponse::send_pacing_response_decision))]
    pub fn send_pacing_response_decision(self, unit: usize) -> Done
        ensures { result ≡ done_of (send_pacing_response_decision self unit) }
    {
        if let Err(why) = self.send_pacing_response_refusal(unit) {
            return refused(why.into(), self);
        }
        let next = window_answered(self.receiving);
        fixed_made(self.with_receiving(next), Header::PacingResponse)
    }

    // Makes the pacing response that is owed, numbered 0: the partner may send a window more.
    pub fn send_pacing_response(self, unit: &mut [u8]) -> Done
        ensures { made_by result unit.new ≡ send_pacing_response self unit.old }
    {
        let done = self.send_pacing_response_decision(unit.len());
        write_made(done.answer.unit, 0, Header::PacingResponse, unit);
        done
    }
}
