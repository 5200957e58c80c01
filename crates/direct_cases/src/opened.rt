// The ends that the cases begin with, and a role that is none.
use end::{Done, End};
use session::{Session, open_session};

// Window 3 and maximum RU 64 both ways.
fn opened(role: u8) -> Done {
    let session = Session {
        role,
        outwindow: 3,
        inwindow: 3,
        outmax: 64,
        inmax: 64,
    };
    open_session(session, 64, 69, 192)
}

pub fn opened_end(role: u8) -> End {
    let done = opened(role);
    done.end
}

pub fn refusal_of(done: Done) -> u8 {
    let answer = done.answer;
    answer.refusal
}

pub fn refusal_1_role() -> bool {
    refusal_of(opened(2)) == 1
}
