// What a unit changes of the record that is taken, by its kind.
ghost use Rattle.std.specs.Prelude.{◌≡◌, true, ◌+◌, ◌≤◌, length};
ghost use Rattle.logical_record.specs.Walk.{walk};
ghost use Rattle.receiving.specs.UnitQuestions.{walked_for};
ghost use Rattle.end.specs.Record.{record_good};
ghost use Rattle.end.specs.Outcome.{accept, nothing, done_of, with_control};
ghost use Rattle.end.specs.ReceiveUnit.{data_joined, error_marked, bid_answered, credit_raised, kind_received};
ghost use Rattle.end.specs.Kinds.{kind_refusal};

use crate::requests::fixed_made;
use crate::results::accepted;
use crate::{Done, End};
use control::Control;
use header::{DataHeader, Header};
use logical_record::{BadLength, Position};
use receiving::incoming::request_counted;
use receiving::units_received::{joined, owed_after};
use sending::outgoing::credit_answered;
use transitions::{
    bid_answer, bid_received, confirmation_received, data_received, error_received,
    negative_confirmation_received, negative_response_received, positive_response_received,
};
use unit::Heading;

impl End {
    // `walked` is what the one walk over the RU found.
    #[tactic(auto, unfolding(crate::specs::ReceiveUnit::data_joined))]
    fn join_data(
        self,
        d: DataHeader,
        number: u16,
        walked: Result<Position, BadLength>,
        ru: &[u8],
    ) -> Done
        requires { (walked ≡ walk self.receiving.taken ru.now) × (self.receiving.held + length ru.now ≤ self.receiving.inbox) }
        ensures { result ≡ done_of (data_joined self d number ru.now) }
    {
        let ends = d.ends;
        let next = joined(self.receiving, ru.len(), walked);
        let marked = data_received(self.control, ends);
        let mut end = self.with_control(marked).with_receiving(next);
        end.owed = owed_after(ends.confirms(), number, self.owed);
        accepted(0, end)
    }

    // An error header is counted as a request and leaves its mark. None of its bytes is for the program.
    #[tactic(auto, unfolding(crate::specs::ReceiveUnit::error_marked))]
    fn mark_error(self) -> Done
        ensures { result ≡ done_of (error_marked self) }
    {
        let next = error_received(self.control);
        let counted = request_counted(self.receiving);
        accepted(0, self.with_control(next).with_receiving(counted))
    }

    // A bid is granted in Reset and refused in any other state.
    #[tactic(auto, unfolding(crate::specs::ReceiveUnit::bid_answered))]
    fn answer_bid(self, number: u16) -> Done
        ensures { result ≡ done_of (bid_answered self number) }
    {
        let answer = bid_answer(self.control);
        let next = bid_received(self.control);
        let counted = request_counted(self.receiving);
        fixed_made(self.with_control(next).with_receiving(counted), answer)
    }

    // Of a grant, a bid refusal, a confirmation and its refusal: only the finite part changes.
    fn settle(self, control: Control) -> Done
        ensures { result ≡ done_of (accept (with_control control self) nothing) }
    {
        accepted(0, self.with_control(control))
    }

    #[tactic(auto, unfolding(crate::specs::ReceiveUnit::credit_raised))]
    fn raise_credit(self) -> Done
        ensures { result ≡ done_of (credit_raised self) }
    {
        let next = credit_answered(self.sending);
        accepted(0, self.with_sending(next))
    }

    // A unit that no question refused.
    pub(crate) fn receive_kind(
        self,
        heading: Heading<Header>,
        walked: Result<Position, BadLength>,
        ru: &[u8],
    ) -> Done
        requires { (record_good self ≡ true) × (kind_refusal self heading.header heading.number ru.now ≡ 0)
            × (walked ≡ walked_for heading.header self.receiving.taken ru.now) }
        ensures { result ≡ done_of (kind_received self heading.header heading.number ru.now) }
    {
        let Heading { number, header } = heading;
        match header {
            Header::Data(d) => self.join_data(d, number, walked, ru),
            Header::Bid(_) => self.answer_bid(number),
            Header::ErrorDescription(_) => self.mark_error(),
            Header::PositiveBidResponse => self.settle(positive_response_received(self.control)),
            Header::NegativeBidResponse => self.settle(negative_response_received(self.control)),
            Header::Confirmation => self.settle(confirmation_received(self.control)),
            Header::NegativeConfirmation => {
                self.settle(negative_confirmation_received(self.control))
            }
            Header::PacingResponse => self.raise_credit(),
        }
    }
}
