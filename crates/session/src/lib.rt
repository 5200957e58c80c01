// Opening a session: the questions asked of its sizes and of the buffers, and the end as it starts.
#![tactic(auto)]

pub mod bind_opening;
pub mod opening_questions;
pub mod theorems;

ghost use Rattle.std.specs.Prelude.{◌≡◌, length};
ghost use Rattle.session.specs.Opening.{fresh_end, zero_end, opened};

use control::Role;
use end::results::{accepted, refused};
use end::{Done, End};
use expedited::signals::no_signal;
use opening_questions::opening_refusal;
use receiving::incoming::fresh_receiving;
use sending::outgoing::fresh_sending;
use transitions::fresh;

// What a session is opened with: the role, and for each direction the window and the maximum RU.
#[derive(Clone, Copy)]
pub struct Session {
    pub role: u8,
    pub outwindow: u8,
    pub inwindow: u8,
    pub outmax: u32,
    pub inmax: u32,
}

fn fresh_end(role: Role, outwindow: u8, outmax: u16, inwindow: u8, inmax: u16, inbox: u16) -> End
    ensures { result ≡ fresh_end role outwindow outmax inwindow inmax inbox }
{
    End {
        control: fresh(role),
        sending: fresh_sending(outwindow, outmax),
        receiving: fresh_receiving(inwindow, inmax, inbox),
        bidding: 0,
        owed: 0,
        expedited: no_signal(),
    }
}

// A record of zeros: what a refused opening hands back. It is no record that a later call accepts.
fn zero_end() -> End
    ensures { result ≡ zero_end }
{
    fresh_end(Role::FirstSpeaker, 0, 0, 0, 0, 0)
}

// Opens a session by the lengths of the three buffers that later calls will be lent.
pub fn open_session(session: Session, send: usize, unit: usize, inbox: usize) -> Done
    ensures { result ≡ opened session send unit inbox }
{
    if let Err(why) = opening_refusal(session, send, unit, inbox) {
        return refused(why.into(), zero_end());
    }
    let outmax = session.outmax as u16;
    let inmax = session.inmax as u16;
    accepted(
        0,
        fresh_end(
            Role::from(session.role),
            session.outwindow,
            outmax,
            session.inwindow,
            inmax,
            inbox as u16,
        ),
    )
}

// Opens a session with the send buffer, the unit buffer and the inbox. No cell of them is written.
pub fn open(session: Session, send: &[u8], unit: &[u8], inbox: &[u8]) -> Done
    ensures { result ≡ opened session (length send.now) (length unit.now) (length inbox.now) }
{
    open_session(session, send.len(), unit.len(), inbox.len())
}
