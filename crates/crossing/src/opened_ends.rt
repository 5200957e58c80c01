// The first line of a script: the two ends as opened, or the refusals.
use end::Done;
use script::Sizes;
use session::{Session, open_session};

// A window that a byte cannot hold is out of range like 255, and is refused like it.
fn window(n: u16) -> u8 {
    u8::try_from(n).unwrap_or(255)
}

// An end as it is seen from itself: its role, the window and the maximum of each direction, and its inbox.
fn open(role: u8, outgoing: (u16, u16), incoming: (u16, u16), inbox: u16) -> Done {
    let session = Session {
        role,
        outwindow: window(outgoing.0),
        inwindow: window(incoming.0),
        outmax: outgoing.1 as u32,
        inmax: incoming.1 as u32,
    };
    open_session(session, 1024, 1029, inbox as usize)
}

// End 1, the first speaker, and end 2, the bidder.
pub fn open_both(sizes: Sizes) -> (Done, Done) {
    let there = (sizes.window12, sizes.max12);
    let back = (sizes.window21, sizes.max21);
    (
        open(0, there, back, sizes.inbox1),
        open(1, back, there, sizes.inbox2),
    )
}
