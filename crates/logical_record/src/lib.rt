// Logical records in a stream of bytes. A logical record is LL, then its data. LL is 2 bytes, high first. Its top bit says that another
// part follows: a table is sent as several records, its parts. The other 15 bits are the length, LL itself counted.
#![tactic(auto)]

mod length_field;
pub mod positions;
pub mod rest_of_record;
pub mod theorems;
pub mod walk;

// What a good LL says.
#[derive(Clone, Copy, Debug, PartialEq, Eq)]
pub struct Length {
    // The length of the record, 2 to 32,767.
    pub bytes: u16,
    // Whether another part follows.
    pub more: bool,
}

// An LL with a length under 2.
#[derive(Clone, Copy, Debug, PartialEq, Eq)]
pub struct BadLength;

// A record place: where a stream of logical records stands after its bytes so far.
// Any value may come in, also one that no stream leads to: `is_position` tells the paper's record places from those.
// Other crates go by this one's functions and definitions and not by the variants, so that a record place may come to hold more;
// only `image`, which lays a record out in bytes, names them, and examples.
#[derive(Clone, Copy, Debug, PartialEq, Eq)]
pub enum Position {
    // Between records: whether the last record says that another part follows.
    Between(bool),
    // After the first LL byte: that byte.
    AfterFirst(u8),
    // Past LL: whether it says that another part follows, and the number of bytes left, 1 to 32,765. In this order a place has four bytes.
    Remaining(bool, u16),
}
