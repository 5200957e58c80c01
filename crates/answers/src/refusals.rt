// Why a call is refused: document 01's questions by its numbers, then document 02's. The first question answered no gives the refusal.
// Each reason takes its number from its constant, so that what is proved of the reasons holds of the constants, which programs compare.
ghost use Rattle.std.specs.Prelude.{◌≡◌};
ghost use Rattle.answers.specs.Refusals.{refusal_number};

use crate::numbers;

#[derive(Debug, Clone, Copy, PartialEq, Eq)]
pub enum Refusal {
    BadRole = numbers::BAD_ROLE as isize,
    BadWindow = numbers::BAD_WINDOW as isize,
    BadMaximum = numbers::BAD_MAXIMUM as isize,
    BadBuffer = numbers::BAD_BUFFER as isize,
    BadRecord = numbers::BAD_RECORD as isize,
    BadLength = numbers::BAD_LENGTH as isize,
    WrongState = numbers::WRONG_STATE as isize,
    BadLl = numbers::BAD_LL as isize,
    UnfinishedRecord = numbers::UNFINISHED_RECORD as isize,
    NoCredit = numbers::NO_CREDIT as isize,
    NothingToPace = numbers::NOTHING_TO_PACE as isize,
    NothingToRead = numbers::NOTHING_TO_READ as isize,
    UnreadMark = numbers::UNREAD_MARK as isize,
    // Breaches of protocol: the partner's unit is at fault.
    ShortUnit = numbers::SHORT_UNIT as isize,
    BadHeader = numbers::BAD_HEADER as isize,
    BadRu = numbers::BAD_RU as isize,
    BadNumber = numbers::BAD_NUMBER as isize,
    BadChain = numbers::BAD_CHAIN as isize,
    BadBracket = numbers::BAD_BRACKET as isize,
    BadState = numbers::BAD_STATE as isize,
    BadPacing = numbers::BAD_PACING as isize,
    BadResponse = numbers::BAD_RESPONSE as isize,
    BadRecords = numbers::BAD_RECORDS as isize,
    // Document 02: this end's own call.
    SignalUnanswered = numbers::SIGNAL_UNANSWERED as isize,
    NoSizeByte = numbers::NO_SIZE_BYTE as isize,
    BadAttach = numbers::BAD_ATTACH as isize,
    LongAttach = numbers::LONG_ATTACH as isize,
}

impl From<Refusal> for u8 {
    ghost from_gives = { λ why number. number ≡ refusal_number why };

    fn from(why: Refusal) -> u8 {
        why as u8
    }
}
