// What is asked before a unit is taken: of the end, and then of the unit by its kind.
ghost use Rattle.std.specs.Prelude.{◌≡◌};
ghost use Rattle.answers.specs.Refusals.{outcome_number};
ghost use Rattle.receiving.specs.UnitQuestions.{walked_for};
ghost use Rattle.end.specs.Kinds.{end_refusal, kind_refusal};

use crate::End;
use answers::questions::ask;
use answers::refusals::Refusal;
use header::Header;
use logical_record::{BadLength, Position};
use receiving::units_received::{
    bid_refusal, data_refusal, error_refusal, pacing_response_refusal, response_refusal,
};
use unit::Heading;

impl End {
    // Of the end alone, before a byte of the unit is read.
    #[tactic(auto, unfolding(crate::specs::Kinds::end_refusal))]
    pub(crate) fn end_refusal(self, inbox: usize, unit: usize) -> Result<(), Refusal>
        ensures { outcome_number result ≡ end_refusal self inbox unit }
    {
        ask(
            self.inbox_lent(inbox) & self.unit_lent(unit),
            Refusal::BadBuffer,
        )?;
        ask(self.record_good(), Refusal::BadRecord)?;
        ask(self.control.has_no_mark(), Refusal::UnreadMark)
    }

    // By the kind of unit. A response to a bid carries the bid's number; a confirmation, or its refusal, the last one sent.
    #[tactic(auto, unfolding(crate::specs::Kinds::kind_refusal))]
    pub(crate) fn kind_refusal(
        self,
        heading: Heading<Header>,
        walked: Result<Position, BadLength>,
        ru: &[u8],
    ) -> Result<(), Refusal>
        requires { walked ≡ walked_for heading.header self.receiving.taken ru.now }
        ensures { outcome_number result ≡ kind_refusal self heading.header heading.number ru.now }
    {
        let Heading { number, header } = heading;
        let max = self.receiving.max;
        match header {
            Header::Data(d) => data_refusal(self.control, self.receiving, d, number, walked, ru),
            Header::Bid(bit) => bid_refusal(self.control, self.receiving, bit, number, ru),
            Header::ErrorDescription(bit) => {
                error_refusal(self.control, self.receiving, bit, number, ru)
            }
            Header::PositiveBidResponse => {
                let fits = self.control.positive_response_fits() & (number == self.bidding);
                response_refusal(max, Header::PositiveBidResponse, fits, ru)
            }
            Header::NegativeBidResponse => {
                let fits = self.control.negative_response_fits() & (number == self.bidding);
                response_refusal(max, Header::NegativeBidResponse, fits, ru)
            }
            Header::Confirmation => {
                let fits = self.control.confirmation_fits() & (number == self.sending.number);
                response_refusal(max, Header::Confirmation, fits, ru)
            }
            Header::NegativeConfirmation => {
                let fits = self.control.confirmation_fits() & (number == self.sending.number);
                response_refusal(max, Header::NegativeConfirmation, fits, ru)
            }
            Header::PacingResponse => pacing_response_refusal(
                max,
                self.sending.window.pending,
                number,
                ru,
            ),
        }
    }
}
