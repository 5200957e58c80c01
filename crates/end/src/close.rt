// The calls that send the last unit of a chain: flush, confirm, prepare to receive (document 01: turn) and deallocate (end).
// They differ only in what that unit says to follow, and whether it asks for a confirmation. In Defer flush and confirm carry out
// the turn or end that is prepared. While an error is due flush makes the error header, and the others are not allowed.
ghost use Rattle.std.specs.Prelude.{◌≡◌, List, ℕ, ◌≤◌, length};
ghost use Rattle.answers.specs.Refusals.{outcome_number};
ghost use Rattle.end.specs.Close.{close_refusal, last_made, close_decision, close, flush, confirm, prepare_to_receive, deallocate};
ghost use Rattle.end.specs.Outcome.{done_of};
ghost use Rattle.end.specs.Results.{made_by};

use crate::requests::{fixed_made, write_made};
use crate::results::{accepted, refused};
use crate::{Done, End};
use answers::questions::ask;
use answers::refusals::Refusal;
use header::{ChainEnd, Follows, Header};
use sending::bytes_given::send_held;
use sending::outgoing::{given_whole, nothing_goes, request_sent};
use transitions::{carried_out, closed, error_made};
use unit::RU_START;
use unit::ru::marks;

impl End {
    // Only a unit that leaves a mark needs the record given to be whole; a flush may stand within one.
    #[tactic(auto, unfolding(crate::specs::Close::close_refusal))]
    fn close_refusal(
        self,
        follows: Follows,
        confirm: bool,
        send: usize,
        unit: usize,
    ) -> Result<(), Refusal>
        ensures { outcome_number result ≡ close_refusal self follows confirm send unit }
    {
        let ends = ChainEnd::Last {
            follows: carried_out(self.control, follows),
            confirm,
        };
        ask(
            self.send_lent(send) & self.unit_lent(unit),
            Refusal::BadBuffer,
        )?;
        ask(self.record_good(), Refusal::BadRecord)?;
        ask(
            self.control.may_close(follows, confirm),
            Refusal::WrongState,
        )?;
        ask(
            !marks(ends) | given_whole(self.sending),
            Refusal::UnfinishedRecord,
        )?;
        ask(
            nothing_goes(self.sending.held, self.control.error, ends)
                | self.sending.window.has_credit(),
            Refusal::NoCredit,
        )
    }

    // The last unit: the error header if it is due, and else the bytes held.
    #[tactic(auto, unfolding(crate::specs::Close::last_made))]
    fn last_decision(self, follows: Follows, confirm: bool) -> Done
        ensures { (cells : List ℕ) → self.sending.held ≤ length cells → result ≡ done_of (last_made self follows confirm cells) }
    {
        if self.control.error {
            let control = error_made(self.control);
            let next = request_sent(self.sending, 0);
            let end = self.with_control(control).with_sending(next);
            return fixed_made(end, Header::ErrorDescription(self.sending.window.paced()));
        }
        let control = closed(self.control, follows, confirm);
        let next = request_sent(self.sending, 0);
        let n = RU_START + self.sending.held as usize;
        accepted(n, self.with_control(control).with_sending(next))
    }

    // What a closing call answers and leaves of the record, before a cell is written: the same for every send buffer of this
    // length.
    #[tactic(auto, unfolding(crate::specs::Close::close_decision))]
    pub fn close_decision(self, follows: Follows, confirm: bool, send: usize, unit: usize) -> Done
        ensures { (cells : List ℕ) → length cells ≡ send → result ≡ done_of (close_decision self follows confirm cells unit) }
    {
        if let Err(why) = self.close_refusal(follows, confirm, send, unit) {
            return refused(why.into(), self);
        }
        let follows = carried_out(self.control, follows);
        let ends = ChainEnd::Last { follows, confirm };
        if nothing_goes(self.sending.held, self.control.error, ends) {
            return accepted(0, self);
        }
        self.last_decision(follows, confirm)
    }

    // The closing call, of which the four below are names.
    pub fn close(self, follows: Follows, confirm: bool, send: &[u8], unit: &mut [u8]) -> Done
        ensures { made_by result unit.new ≡ close follows confirm self send.now unit.old }
    {
        let done = self.close_decision(follows, confirm, send.len(), unit.len());
        if done.answer.unit == 0 {
            return done;
        }
        if self.control.error {
            let header = Header::ErrorDescription(self.sending.window.paced());
            write_made(done.answer.unit, done.end.sending.number, header, unit);
            return done;
        }
        let follows = carried_out(self.control, follows);
        let header = self.data_header(ChainEnd::Last { follows, confirm });
        send_held(
            done.end.sending.number,
            header,
            self.sending.held,
            send,
            unit,
        );
        done
    }

    // Sends the error header if it is due, and else the bytes held, if there are any; in Defer carries out what is prepared, without
    // confirmation.
    pub fn flush(self, send: &[u8], unit: &mut [u8]) -> Done
        ensures { made_by result unit.new ≡ flush self send.now unit.old }
    {
        self.close(Follows::Stay, false, send, unit)
    }

    // Sends the bytes held and asks for a confirmation; in Defer carries out what is prepared, with it.
    pub fn confirm(self, send: &[u8], unit: &mut [u8]) -> Done
        ensures { made_by result unit.new ≡ confirm self send.now unit.old }
    {
        self.close(Follows::Stay, true, send, unit)
    }

    // Sends the bytes held and gives the partner the turn, at once or once it has confirmed.
    pub fn prepare_to_receive(self, confirm: bool, send: &[u8], unit: &mut [u8]) -> Done
        ensures { made_by result unit.new ≡ prepare_to_receive confirm self send.now unit.old }
    {
        self.close(Follows::ChangeDirection, confirm, send, unit)
    }

    // Sends the bytes held and ends the conversation, at once or once the partner has confirmed.
    pub fn deallocate(self, confirm: bool, send: &[u8], unit: &mut [u8]) -> Done
        ensures { made_by result unit.new ≡ deallocate confirm self send.now unit.old }
    {
        self.close(Follows::EndBracket, confirm, send, unit)
    }
}
