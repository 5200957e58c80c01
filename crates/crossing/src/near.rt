// A step at the near end, the one at which the call is made, and its answer handed out.
use crate::both_ends::Side;
use crate::handing::{Handing, hand_front};
use crate::step_text::step_text;
use bench::{NotMade, Pair, Stepped, step};
use script::{Asked, Request};

// The step on one side, with as much inbox as the end's record says.
fn make(
    side: &mut Side,
    request: Request,
    given: &[u8],
    unit: &mut [u8],
    buffer: &mut [u8],
    lines: Pair,
    waiting: &mut [u8],
    far: &mut [u8],
) -> Result<Stepped, NotMade> {
    let room = side.end.receiving.inbox as usize;
    let inbox = &mut side.inbox[..];
    step(
        side.end,
        request,
        given,
        &mut side.send,
        unit,
        &mut inbox[..room],
        buffer,
        lines,
        waiting,
        far,
    )
}

fn hand_made<H: Handing>(
    answers: &mut H,
    asked: Asked,
    stepped: Result<Stepped, NotMade>,
    unit: &[u8],
    buffer: &[u8],
) {
    let mut out = [0u8; 8192];
    let length = step_text(stepped, asked, unit, buffer, &mut out);
    hand_front(answers, &out, length);
}

// The call asked for, at the near end, with the lines of its flow as that end sees them. A line of a script gives, or reads, at most
// 2,048 bytes; of a read the buffer has as many cells as bytes are given. A step that is not made leaves the end and the lines as they
// were.
pub fn at_near<H: Handing>(
    answers: &mut H,
    near: &mut Side,
    asked: Asked,
    given: &[u8],
    lines: Pair,
    waiting: &mut [u8],
    far: &mut [u8],
) -> Pair {
    let count = given.len().min(2048);
    let mut unit = [0u8; 1029];
    let mut buffer = [0u8; 2048];
    let stepped = make(
        &mut *near,
        asked.request,
        given,
        &mut unit,
        &mut buffer[..count],
        lines,
        waiting,
        far,
    );
    hand_made(answers, asked, stepped, &unit, &buffer);
    let Ok(made) = stepped else {
        return lines;
    };
    near.end = made.told.end;
    made.lines
}
