// A script of calls on two joined ends: the forms of its lines.
#![tactic(auto)]

pub mod line_forms;
mod six_numbers;
pub mod text;
mod text_parts;
mod words_asked;

use control::Deferred;
use header::Follows;

// A call that an end answers by itself. Bytes given, and the buffer of a read, stand beside it.
#[derive(Clone, Copy)]
pub enum Verb {
    Allocate,
    Confirmed,
    // Document 02: deny, which refuses the confirmation that is owed.
    SendError,
    // Document 02: request to send, which asks for the turn.
    RequestToSend,
    // Document 01: pace.
    SendPacingResponse,
    SendData,
    // What follows, and whether confirmation is asked. Document 01: flush, confirm, turn and end.
    Close(Follows, bool),
    // Document 02: prepare a turn or an end, and withdraw it.
    Defer(Deferred),
    Withdraw,
    // Document 01: read.
    Receive,
}

// The two lines on which units come to an end: the normal one, and that of signals and their answers.
#[derive(Clone, Copy)]
pub enum Flow {
    Normal,
    Expedited,
}

// What a line asks: a call, a take of the oldest unit that waits, or a take of a unit that the line gives.
#[derive(Clone, Copy)]
pub enum Request {
    Call(Verb),
    Take(Flow),
    Offer(Flow),
}

// A line that asks for a call: at which end, and how many bytes it gives; of a read the cells of its buffer.
#[derive(Clone, Copy)]
pub struct Asked {
    pub second: bool,
    pub request: Request,
    pub count: usize,
}

// The first line: window and maximum RU from end 1 to end 2, then from 2 to 1, then the two inbox lengths.
#[derive(Clone, Copy)]
pub struct Sizes {
    pub window12: u16,
    pub max12: u16,
    pub window21: u16,
    pub max21: u16,
    pub inbox1: u16,
    pub inbox2: u16,
}
