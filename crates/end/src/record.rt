// Question 5, is the record within its rules, and question 4, are the buffers lent long enough. A record may be forged: every
// test stands by itself, none relies on another, and no sum or product of its numbers overflows.
ghost use Rattle.std.specs.Prelude.{◌≡◌};
ghost use Rattle.end.specs.Record.{record_good, send_lent, unit_lent, inbox_lent};

use crate::End;
use receiving::incoming::receiving_good;
use sending::outgoing::sending_good;

impl End {
    // Question 5. A test that fails returns at once, here and in the two sides: joining all the answers costs more instructions.
    #[tactic(auto, unfolding(crate::specs::Record::record_good))]
    pub(crate) fn record_good(self) -> bool
        ensures { result ≡ record_good self }
    {
        if !self.control.control_good() {
            return false;
        }
        if !sending_good(self.control, self.sending) {
            return false;
        }
        receiving_good(self.receiving)
    }

    // Question 4, of each buffer by its length. The send buffer is at least M long.
    pub(crate) fn send_lent(self, n: usize) -> bool
        ensures { result ≡ send_lent self n }
    {
        let max = self.sending.max as usize;
        max <= n
    }

    // The unit buffer has room for a unit of the longest RU.
    pub(crate) fn unit_lent(self, n: usize) -> bool
        ensures { result ≡ unit_lent self n }
    {
        let max = self.sending.max as usize;
        max + unit::RU_START <= n
    }

    // The inbox is exactly as long as the record says.
    pub(crate) fn inbox_lent(self, n: usize) -> bool
        ensures { result ≡ inbox_lent self n }
    {
        let inbox = self.receiving.inbox as usize;
        n == inbox
    }
}
