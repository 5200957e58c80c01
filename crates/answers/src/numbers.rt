// Document 01's numbers of the questions; the first question answered no gives its number.
pub const BAD_ROLE: u8 = 1;

pub const BAD_WINDOW: u8 = 2;

pub const BAD_MAXIMUM: u8 = 3;

pub const BAD_BUFFER: u8 = 4;

pub const BAD_RECORD: u8 = 5;

pub const BAD_LENGTH: u8 = 6;

pub const WRONG_STATE: u8 = 7;

pub const BAD_LL: u8 = 8;

pub const UNFINISHED_RECORD: u8 = 9;

pub const NO_CREDIT: u8 = 10;

pub const NOTHING_TO_PACE: u8 = 11;

pub const NOTHING_TO_READ: u8 = 12;

pub const UNREAD_MARK: u8 = 13;

// Breaches of protocol: the partner's unit is at fault.
pub const SHORT_UNIT: u8 = 20;

pub const BAD_HEADER: u8 = 21;

pub const BAD_RU: u8 = 22;

pub const BAD_NUMBER: u8 = 23;

pub const BAD_CHAIN: u8 = 24;

pub const BAD_BRACKET: u8 = 25;

pub const BAD_STATE: u8 = 26;

pub const BAD_PACING: u8 = 27;

pub const BAD_RESPONSE: u8 = 28;

pub const BAD_RECORDS: u8 = 29;

// Document 02: this end's own call.
pub const SIGNAL_UNANSWERED: u8 = 30;

pub const NO_SIZE_BYTE: u8 = 31;

pub const BAD_ATTACH: u8 = 36;

pub const LONG_ATTACH: u8 = 37;
