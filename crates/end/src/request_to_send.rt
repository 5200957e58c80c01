// The call request to send (document 004: REQUEST_TO_SEND): a signal asks the partner for the turn.
ghost use Rattle.std.specs.Prelude.{◌≡◌};
ghost use Rattle.answers.specs.Refusals.{outcome_number};
ghost use Rattle.end.specs.RequestToSend.{request_refusal, request_decision, request_to_send};
ghost use Rattle.end.specs.Outcome.{done_of};
ghost use Rattle.end.specs.Results.{made_by};

use crate::requests::write_made;
use crate::results::{accepted, refused};
use crate::{Done, End};
use answers::questions::ask;
use answers::refusals::Refusal;
use expedited::signals::signal_made;
use header::ExpeditedHeader;
use unit::write::fixed_length;

impl End {
    #[tactic(auto, unfolding(crate::specs::RequestToSend::request_refusal))]
    fn request_refusal(self, unit: usize) -> Result<(), Refusal>
        ensures { outcome_number result ≡ request_refusal self unit }
    {
        ask(self.unit_lent(unit), Refusal::BadBuffer)?;
        ask(self.record_good(), Refusal::BadRecord)?;
        ask(self.control.may_request(), Refusal::WrongState)?;
        ask(!self.expedited.unanswered, Refusal::SignalUnanswered)
    }

    // What request to send answers and leaves of the record, before a cell is written.
    #[tactic(auto, unfolding(crate::specs::RequestToSend::request_decision))]
    pub fn request_to_send_decision(self, unit: usize) -> Done
        ensures { result ≡ done_of (request_decision self unit) }
    {
        if let Err(why) = self.request_refusal(unit) {
            return refused(why.into(), self);
        }
        let next = signal_made(self.expedited);
        let n = fixed_length(ExpeditedHeader::Signal);
        accepted(n, self.with_expedited(next))
    }

    // Asks the partner for the turn. The signal is for the expedited line, under the next number of its own; the state stays as it is.
    pub fn request_to_send(self, unit: &mut [u8]) -> Done
        ensures { made_by result unit.new ≡ request_to_send self unit.old }
    {
        let done = self.request_to_send_decision(unit.len());
        let number = done.end.expedited.sent;
        write_made(done.answer.unit, number, ExpeditedHeader::Signal, unit);
        done
    }
}
