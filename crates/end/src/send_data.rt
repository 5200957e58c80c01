// The call send data.
ghost use Rattle.std.specs.Prelude.{◌≡◌, List, ℕ, ◌+◌, ◌≤◌, ◌<◌, length};
ghost use Rattle.answers.specs.Refusals.{outcome_number};
ghost use Rattle.logical_record.specs.Walk.{walk};
ghost use Rattle.end.specs.SendData.{send_refusal, bytes_spilled, send_decision, send_data};
ghost use Rattle.end.specs.Outcome.{done_of};
ghost use Rattle.end.specs.Results.{sent_by};

use crate::results::{accepted, refused};
use crate::{Done, End};
use answers::questions::ask;
use answers::refusals::Refusal;
use header::ChainEnd;
use logical_record::walk::is_good;
use logical_record::{BadLength, Position};
use sending::bytes_given::{keep, keeps, kept, length_fits, send_full, walk_given};
use sending::outgoing::bytes_sent;
use transitions::spilled;
use unit::RU_START;

impl End {
    // `walked` is what the one walk over the bytes found.
    #[tactic(auto, unfolding(crate::specs::SendData::send_refusal))]
    fn send_refusal(
        self,
        bytes: &[u8],
        walked: Result<Position, BadLength>,
        send: usize,
        unit: usize,
    ) -> Result<(), Refusal>
        requires { walked ≡ walk self.sending.given bytes.now }
        ensures { outcome_number result ≡ send_refusal self bytes.now send unit }
    {
        let n = bytes.len();
        ask(
            self.send_lent(send) & self.unit_lent(unit),
            Refusal::BadBuffer,
        )?;
        ask(self.record_good(), Refusal::BadRecord)?;
        ask(length_fits(self.sending, n), Refusal::BadLength)?;
        ask(self.control.may_send(), Refusal::WrongState)?;
        ask(is_good(walked), Refusal::BadLl)?;
        ask(
            keeps(self.sending, n) | self.sending.window.has_credit(),
            Refusal::NoCredit,
        )
    }

    // One unit goes, of the bytes held and the first of the new ones; the rest is kept.
    #[tactic(auto, unfolding(crate::specs::SendData::bytes_spilled))]
    fn spill_decision(self, walked: Result<Position, BadLength>, bytes: &[u8]) -> Done
        requires { (walked ≡ walk self.sending.given bytes.now) × (self.sending.held ≤ self.sending.max)
            × (self.sending.max < self.sending.held + length bytes.now) × (length bytes.now ≤ self.sending.max) }
        ensures { (cells : List ℕ) → self.sending.max ≤ length cells → result ≡ done_of (bytes_spilled self bytes.now cells) }
    {
        let gone = (self.sending.max - self.sending.held) as usize;
        let rest = (bytes.len() - gone) as u16;
        let control = spilled(self.control);
        let next = bytes_sent(self.sending, rest, walked);
        let n = RU_START + self.sending.max as usize;
        accepted(n, self.with_control(control).with_sending(next))
    }

    // What send data answers and leaves of the record, before a cell is written: the same for every send buffer of this length.
    #[tactic(auto, unfolding(crate::specs::SendData::send_decision))]
    pub fn send_decision(self, bytes: &[u8], send: usize, unit: usize) -> Done
        ensures { (cells : List ℕ) → length cells ≡ send → result ≡ done_of (send_decision self bytes.now cells unit) }
    {
        let walked = walk_given(self.sending, bytes);
        if let Err(why) = self.send_refusal(bytes, walked, send, unit) {
            return refused(why.into(), self);
        }
        if keeps(self.sending, bytes.len()) {
            let next = kept(self.sending, bytes.len(), walked);
            return accepted(0, self.with_sending(next));
        }
        self.spill_decision(walked, bytes)
    }

    // Gives bytes to the conversation. They are kept until more than M are held; then one unit goes, and the rest stands at the
    // front of the send buffer.
    pub fn send_data(self, bytes: &[u8], send: &mut [u8], unit: &mut [u8]) -> Done
        ensures { sent_by result send.new unit.new ≡ send_data self bytes.now send.old unit.old }
    {
        let done = self.send_decision(bytes, send.len(), unit.len());
        if done.answer.refusal != 0 {
            return done;
        }
        if done.answer.unit == 0 {
            keep(self.sending.held, bytes, send);
            return done;
        }
        let number = done.end.sending.number;
        let header = self.data_header(ChainEnd::Continues);
        let held = self.sending.held as usize;
        let gone = (self.sending.max - self.sending.held) as usize;
        send_full(number, header, held, gone, bytes, send, unit);
        done
    }
}
