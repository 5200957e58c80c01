// The call receive unit (document 01: take).
ghost use Rattle.std.specs.Prelude.{◌≡◌, true};
ghost use Rattle.end.specs.Record.{record_good};
ghost use Rattle.end.specs.Outcome.{done_of};
ghost use Rattle.end.specs.Results.{taken_by};
ghost use Rattle.end.specs.ReceiveUnit.{receive_unit_decision, done_naming, receive_unit};
ghost use Rattle.end.specs.Kinds.{kind_decision};

use crate::requests::write_made;
use crate::results::refused;
use crate::{Done, End};
use answers::numbers::{BAD_HEADER, SHORT_UNIT};
use answers::{refuse_naming, rule_number};
use header::Header;
use receiving::units_received::{join, walk_data};
use transitions::bid_answer;
use unit::read_unit::read_unit;
use unit::{Heading, RU_START, Unreadable};

impl End {
    // Of a unit whose heading is read: it is asked by its kind, and then taken. The RU is walked over once.
    #[tactic(auto, unfolding(crate::specs::Kinds::kind_decision))]
    fn kind_decision(self, heading: Heading<Header>, ru: &[u8]) -> Done
        requires { record_good self ≡ true }
        ensures { result ≡ done_of (kind_decision self heading.header heading.number ru.now) }
    {
        let walked = walk_data(heading.header, self.receiving, ru);
        if let Err(why) = self.kind_refusal(heading, walked, ru) {
            return refused(why.into(), self);
        }
        self.receive_kind(heading, walked, ru)
    }

    // What receive unit answers and leaves of the record, before a cell is written. With 21 it names the lowest rule that is broken.
    pub fn receive_unit_decision(self, taken: &[u8], inbox: usize, unit: usize) -> Done
        ensures { result ≡ done_naming taken.now (receive_unit_decision self taken.now inbox unit) }
    {
        if let Err(why) = self.end_refusal(inbox, unit) {
            return refused(why.into(), self);
        }
        match read_unit(taken) {
            Ok(heading) => self.kind_decision(heading, &taken[RU_START..]),
            Err(Unreadable::TooShort) => refused(SHORT_UNIT, self),
            Err(Unreadable::Breaks(rule)) => Done {
                answer: refuse_naming(BAD_HEADER, rule_number(rule)),
                end: self,
            },
        }
    }

    // Takes one unit from the partner's normal line, or refuses it and changes nothing. If more bytes are held then, they are the unit's
    // own and join the inbox. A bid is answered, under its number, which is the last one taken: its answer is the unit made.
    pub fn receive_unit(self, taken: &[u8], inbox: &mut [u8], unit: &mut [u8]) -> Done
        ensures { taken_by result inbox.new unit.new
            ≡ receive_unit self taken.now inbox.old unit.old }
    {
        let done = self.receive_unit_decision(taken, inbox.len(), unit.len());
        join(self.receiving.held, done.end.receiving.held, taken, inbox);
        let answer = bid_answer(self.control);
        write_made(done.answer.unit, done.end.receiving.number, answer, unit);
        done
    }
}
