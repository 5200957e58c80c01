// The receiving side of an end: what it keeps, what is asked of it and of a unit that comes, and the bytes read. Nothing here
// knows the whole end.
#![tactic(auto)]

pub mod bytes_read;
pub mod incoming;
pub mod units_received;

use logical_record::Position;
use pacing::Window;

// The receiving side. `inbox` is the length of the receive buffer (document 01's inbox) and `held` the bytes in it; `number` the
// last sequence number taken; `taken` and `read` the record places of the bytes taken and of those read.
#[derive(Clone, Copy)]
pub struct Receiving {
    pub window: Window,
    pub max: u16,
    pub inbox: u16,
    pub held: u16,
    pub number: u16,
    pub taken: Position,
    pub read: Position,
}
