// One end of a basic conversation for a host in C or Rust: two openings and the fifteen calls, over numbers and byte slices. A slice
// crosses as a pointer and a length. The end's record lies in an image that the host lends, as crate `image` lays it out. Each
// call reads the image, makes the call, writes the new record back and hands out the whole answer; the value returned is the
// refusal number, 0 if accepted. An image of a wrong length is refused by 4, one with a value that no record has by 5, and then
// nothing is changed. The buffers of one call must not overlap.
// Each call matches on the image itself: behind a call that is passed in nothing is proved of the buffers that it borrowed.
#![tactic(auto)]

pub mod bind_calls;
pub mod closing;
pub mod defer_calls;
pub mod expedited_calls;
mod handing;
pub mod opening;
pub mod receive_calls;
pub mod send_calls;
pub mod theorems;
