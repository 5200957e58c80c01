// Parts of a record changed.
ghost use Rattle.std.specs.Prelude.{◌≡◌};
ghost use Rattle.end.specs.Outcome.{with_control, with_sending, with_receiving, with_expedited};

use crate::End;
use control::Control;
use expedited::Expedited;
use receiving::Receiving;
use sending::Sending;

impl End {
    pub(crate) fn with_control(mut self, control: Control) -> End
        ensures { result ≡ with_control control self }
    {
        self.control = control;
        self
    }

    pub(crate) fn with_sending(mut self, sending: Sending) -> End
        ensures { result ≡ with_sending sending self }
    {
        self.sending = sending;
        self
    }

    pub(crate) fn with_receiving(mut self, receiving: Receiving) -> End
        ensures { result ≡ with_receiving receiving self }
    {
        self.receiving = receiving;
        self
    }

    pub(crate) fn with_expedited(mut self, expedited: Expedited) -> End
        ensures { result ≡ with_expedited expedited self }
    {
        self.expedited = expedited;
        self
    }
}
