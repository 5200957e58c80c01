// The request/response header of three bytes: its fields, its rules, how it is built and how it is read.
#![tactic(auto)]

ghost use Rattle.std.specs.Prelude.{◌≡◌};

pub mod build;
pub mod expedited;
pub mod indicators;
pub mod read_header;
pub mod theorems;
pub mod weights;

// What comes after a chain, or after its confirmation (document 01: stay, turn or end): nothing, change direction (CD),
// or end bracket (CEB). CD and CEB never stand together, so they are one field.
#[derive(Clone, Copy, Debug, PartialEq, Eq)]
pub enum Follows {
    Stay,
    ChangeDirection,
    EndBracket,
}

impl Follows {
    ghost use Rattle.header.specs.Header.{turns, ends_bracket};

    pub fn turns(self) -> bool
        ensures { result ≡ turns self }
    {
        matches!(self, Follows::ChangeDirection)
    }

    pub fn ends_bracket(self) -> bool
        ensures { result ≡ ends_bracket self }
    {
        matches!(self, Follows::EndBracket)
    }
}

// A unit's place at the begin of its chain. BB, begin bracket, stands only on the first in a chain.
#[derive(Clone, Copy, Debug, PartialEq, Eq)]
pub enum ChainBegin {
    Continued,
    First,
    FirstWithBracket,
}

impl ChainBegin {
    ghost use Rattle.header.specs.Header.{is_first, begins_bracket};

    pub fn is_first(self) -> bool
        ensures { result ≡ is_first self }
    {
        matches!(self, ChainBegin::First | ChainBegin::FirstWithBracket)
    }

    pub fn begins_bracket(self) -> bool
        ensures { result ≡ begins_bracket self }
    {
        matches!(self, ChainBegin::FirstWithBracket)
    }
}

// A unit's place at the end of its chain. Only the last in a chain says what follows or requests a confirmation.
#[derive(Clone, Copy, Debug, PartialEq, Eq)]
pub enum ChainEnd {
    Continues,
    Last { follows: Follows, confirm: bool },
}

impl ChainEnd {
    ghost use Rattle.header.specs.Header.{is_last, confirms, follows_of};

    pub fn is_last(self) -> bool
        ensures { result ≡ is_last self }
    {
        matches!(self, ChainEnd::Last { .. })
    }

    // A confirmation is requested.
    pub fn confirms(self) -> bool
        ensures { result ≡ confirms self }
    {
        matches!(self, ChainEnd::Last { confirm: true, .. })
    }

    pub fn follows(self) -> Follows
        ensures { result ≡ follows_of self }
    {
        match self {
            ChainEnd::Continues => Follows::Stay,
            ChainEnd::Last { follows, .. } => follows,
        }
    }
}

// The fields of a data header: 42 values, each of them good.
#[derive(Clone, Copy, Debug, PartialEq, Eq)]
pub struct DataHeader {
    pub begins: ChainBegin,
    pub ends: ChainEnd,
    pub pacing: bool,
}

// The fields of a header: 51 values, each of them good. No other header can be written down.
// A bid and an error description carry their pacing bit. The positive bid response is document 01's grant, the negative one its
// bid refusal, the pacing response its pacing answer. The error description, an FM header 7 (document 000), is document 02's
// error header; the negative confirmation, its 87 30 00, refuses a confirmation that was requested.
#[derive(Clone, Copy, Debug, PartialEq, Eq)]
pub enum Header {
    Data(DataHeader),
    Bid(bool),
    ErrorDescription(bool),
    PositiveBidResponse,
    NegativeBidResponse,
    Confirmation,
    NegativeConfirmation,
    PacingResponse,
}

#[derive(Clone, Copy, Debug, PartialEq, Eq)]
pub struct HeaderBytes {
    pub b0: u8,
    pub b1: u8,
    pub b2: u8,
}

// The rules of document 01 for the three bytes of a header, H1 and H2 as document 02 extends them. A header that is read is its fields, or
// the lowest rule that it breaks: a `Result` with a rule as its error.
#[derive(Clone, Copy, Debug, PartialEq, Eq)]
pub enum Rule {
    H1 = 1,
    H2,
    H3,
    H4,
    H5,
    H6,
}

// The fields of a header on an expedited line: a signal (document 000: SIG), or its response, document 02's answer.
#[derive(Clone, Copy, Debug, PartialEq, Eq)]
pub enum ExpeditedHeader {
    Signal,
    SignalResponse,
}

impl ExpeditedHeader {
    ghost use Rattle.header.specs.ExpeditedHeader.{is_signal};

    pub fn is_signal(self) -> bool
        ensures { result ≡ is_signal self }
    {
        matches!(self, ExpeditedHeader::Signal)
    }
}
