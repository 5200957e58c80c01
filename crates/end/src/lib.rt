// One end of a basic conversation on one session: its record, and the calls that a program makes on it.
#![tactic(auto)]

mod allocate;
mod close;
mod confirmed;
mod defer;
mod receive;
mod receive_expedited;
mod receive_unit;
mod record;
mod record_parts;
mod request_to_send;
mod requests;
pub mod results;
mod send_data;
mod send_error;
mod send_pacing_response;
mod unit_effects;
mod unit_refusals;

pub use answers::{Answer, ExpeditedAnswer, ReadAnswer};
use control::Control;
pub use expedited::Expedited;
pub use receiving::Receiving;
pub use sending::Sending;

// The end's record. `bidding` is the bid's number, `owed` the number owed a confirmation; `expedited` is what it keeps of its expedited
// lines, which no other part depends on.
#[derive(Clone, Copy)]
pub struct End {
    pub control: Control,
    pub sending: Sending,
    pub receiving: Receiving,
    pub bidding: u16,
    pub owed: u16,
    pub expedited: Expedited,
}

// What a call hands back: its answer and the new end. A read answers more than other calls, and so does a take on the expedited line.
#[derive(Clone, Copy)]
pub struct Done<A = Answer> {
    pub answer: A,
    pub end: End,
}

pub type ReadDone = Done<ReadAnswer>;

pub type ExpeditedDone = Done<ExpeditedAnswer>;
