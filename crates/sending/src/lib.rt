// The sending side of an end: what it keeps, what is asked of it, and the bytes given to it. Nothing here knows the whole end.
#![tactic(auto)]

pub mod bytes_given;
pub mod outgoing;

use logical_record::Position;
use pacing::Window;

// The sending side of a record. `max` is the maximum RU M; `held` is send-held, the bytes in the send buffer; `number` the last
// sequence number sent; `given` the record place of the bytes given to send data.
#[derive(Clone, Copy)]
pub struct Sending {
    pub window: Window,
    pub max: u16,
    pub held: u16,
    pub number: u16,
    pub given: Position,
}
