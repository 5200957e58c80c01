// The calls of an end as a host makes them: `in_place` is lent the end's record and leaves it changed there; `by_value` lends it for a
// program that holds the record by value, and has the calls that programs use so.
#![tactic(auto)]

pub mod by_value;
pub mod in_place;
