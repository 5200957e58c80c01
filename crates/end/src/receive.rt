// The call receive (document 01: read).
ghost use Rattle.std.specs.Prelude.{◌≡◌, ◌≤◌, length};
ghost use Rattle.answers.specs.Refusals.{outcome_number};
ghost use Rattle.end.specs.Receive.{record_rest, receive_refusal, copy_count, bytes_read, mark_read, receive_decision, receive};
ghost use Rattle.end.specs.Results.{copied_by};

use crate::results::read_refused;
use crate::{End, ReadDone};
use answers::questions::ask;
use answers::refusals::Refusal;
use answers::{bytes_read, mark_read};
use logical_record::BadLength;
use logical_record::positions::{is_between, more_follows};
use receiving::bytes_read::{after_read, copy_count, hand_over, record_rest, rest_good, some_held};
use transitions::mark_answered;

impl End {
    #[tactic(auto, unfolding(crate::specs::Receive::receive_refusal))]
    fn receive_refusal(
        self,
        rest: Result<u16, BadLength>,
        inbox: &[u8],
        buffer: usize,
    ) -> Result<(), Refusal>
        requires { rest ≡ record_rest self inbox.now }
        ensures { outcome_number result ≡ receive_refusal self inbox.now buffer }
    {
        ask(self.inbox_lent(inbox.len()), Refusal::BadBuffer)?;
        ask(self.record_good(), Refusal::BadRecord)?;
        ask(1 <= buffer, Refusal::BadLength)?;
        ask(rest_good(rest), Refusal::BadLl)?;
        ask(
            some_held(self.receiving.held) | !self.control.has_no_mark(),
            Refusal::NothingToRead,
        )
    }

    // Bytes of the current record: how many, and the record place after them.
    #[tactic(auto, unfolding(crate::specs::Receive::bytes_read, crate::specs::Receive::copy_count))]
    fn bytes_decision(self, rest: Result<u16, BadLength>, inbox: &[u8], buffer: usize) -> ReadDone
        requires { (rest ≡ record_rest self inbox.now) × (self.receiving.held ≤ length inbox.now) }
        ensures { result ≡ bytes_read self (copy_count self inbox.now buffer) inbox.now }
    {
        let k = copy_count(buffer, self.receiving.held, rest);
        let next = after_read(self.receiving, k, inbox);
        let place = next.read;
        ReadDone {
            answer: bytes_read(k, is_between(place), more_follows(place)),
            end: self.with_receiving(next),
        }
    }

    // With no byte held the mark is answered: it is what was received.
    #[tactic(auto, unfolding(crate::specs::Receive::mark_read))]
    fn read_mark(self) -> ReadDone
        ensures { result ≡ mark_read self }
    {
        ReadDone {
            answer: mark_read(self.control),
            end: self.with_control(mark_answered(self.control)),
        }
    }

    // What receive answers and leaves of the record, before a cell is written.
    #[tactic(auto, unfolding(crate::specs::Receive::receive_decision))]
    pub fn receive_decision(self, inbox: &[u8], buffer: usize) -> ReadDone
        ensures { result ≡ receive_decision self inbox.now buffer }
    {
        let rest = record_rest(self.receiving, inbox);
        if let Err(why) = self.receive_refusal(rest, inbox, buffer) {
            return read_refused(why.into(), self);
        }
        if some_held(self.receiving.held) {
            return self.bytes_decision(rest, inbox, buffer);
        }
        self.read_mark()
    }

    // Reads what was received: bytes of the current record, as many as the buffer takes, or the mark. The bytes go to the caller's
    // buffer, and the rest of those held to the inbox's front.
    #[tactic(auto, unfolding(crate::specs::Receive::receive, crate::specs::Receive::inbox_moved))]
    pub fn receive(self, inbox: &mut [u8], buffer: &mut [u8]) -> ReadDone
        ensures { copied_by result inbox.new buffer.new ≡ receive self inbox.old buffer.old }
    {
        let held = self.receiving.held as usize;
        let done = self.receive_decision(inbox, buffer.len());
        if done.answer.copied == 0 {
            return done;
        }
        hand_over(inbox, held, done.answer.copied, buffer);
        done
    }
}
