// What an end keeps of its two expedited lines, and what is asked of a unit that comes on one. Nothing here knows of state, pacing or the
// inbox: a signal asks the partner for the turn and changes no state on either side.
#![tactic(auto)]

pub mod signals;
pub mod takes;

use answers::ExpeditedAnswer;

// Of the expedited lines: whether a signal of this end is unanswered, and the last numbers sent and taken. The numbers are those of
// signals; a response has none of its own and carries its signal's.
#[derive(Clone, Copy)]
pub struct Expedited {
    pub unanswered: bool,
    pub sent: u16,
    pub taken: u16,
}

// What a take on the expedited line leaves: its answer, and what is kept then.
#[derive(Clone, Copy)]
pub struct ExpeditedTake {
    pub answer: ExpeditedAnswer,
    pub next: Expedited,
}
