// The call receive expedited (document 02: take, on the expedited line).
ghost use Rattle.std.specs.Prelude.{◌≡◌};
ghost use Rattle.answers.specs.Refusals.{outcome_number};
ghost use Rattle.end.specs.Results.{expedited_by};
ghost use Rattle.end.specs.ReceiveExpedited.{lent_refusal, receive_expedited_decision, expedited_done, receive_expedited};

use crate::requests::write_made;
use crate::{End, ExpeditedDone};
use answers::questions::ask;
use answers::refusals::Refusal;
use answers::{expedited_answer, refuse};
use expedited::takes::take_unit;
use header::ExpeditedHeader;

impl End {
    // Of the end alone, before a byte of the unit is read. No mark has to be read first, and the inbox is not lent.
    #[tactic(auto, unfolding(crate::specs::ReceiveExpedited::lent_refusal))]
    fn lent_refusal(self, unit: usize) -> Result<(), Refusal>
        ensures { outcome_number result ≡ lent_refusal self unit }
    {
        ask(self.unit_lent(unit), Refusal::BadBuffer)?;
        ask(self.record_good(), Refusal::BadRecord)
    }

    // What receive expedited answers and leaves of the record, before a cell is written.
    pub fn receive_expedited_decision(self, taken: &[u8], unit: usize) -> ExpeditedDone
        ensures { result ≡ expedited_done taken.now (receive_expedited_decision self taken.now unit) }
    {
        if let Err(why) = self.lent_refusal(unit) {
            return ExpeditedDone {
                answer: expedited_answer(refuse(why.into()), false),
                end: self,
            };
        }
        let took = take_unit(self.expedited, taken);
        let answer = took.answer;
        let next = took.next;
        ExpeditedDone {
            answer,
            end: self.with_expedited(next),
        }
    }

    // Takes one unit from the partner's expedited line, or refuses it and changes nothing. A signal is answered, under its number, which is
    // the last one taken: the response is the unit made.
    pub fn receive_expedited(self, taken: &[u8], unit: &mut [u8]) -> ExpeditedDone
        ensures { expedited_by result unit.new ≡ receive_expedited self taken.now unit.old }
    {
        let done = self.receive_expedited_decision(taken, unit.len());
        let number = done.end.expedited.taken;
        write_made(
            done.answer.answer.unit,
            number,
            ExpeditedHeader::SignalResponse,
            unit,
        );
        done
    }
}
