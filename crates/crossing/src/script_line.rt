// One line of a script: the call that it asks for, made at its end, and its answer handed out.
use crate::both_ends::{Cells, FlowCells, Joined, turned};
use crate::handing::{Handing, hand_front};
use crate::near::at_near;
use bench::{Pair, request_flow};
use report::other_lines::bad_line;
use script::line_forms::call_line;
use script::{Asked, Flow};

// The call asked for, at the end that it names, with the lines of its flow; answers these as the first end sees them.
fn on_lines<H: Handing>(
    answers: &mut H,
    joined: &mut Joined,
    asked: Asked,
    given: &[u8],
    lines: Pair,
    cells: &mut FlowCells<'_>,
) -> Pair {
    let first = &mut *cells.to_first;
    let second = &mut *cells.to_second;
    if asked.second {
        let side = &mut joined.second;
        turned(at_near(answers, side, asked, given, turned(lines), second, first))
    } else {
        at_near(
            answers,
            &mut joined.first,
            asked,
            given,
            lines,
            first,
            second,
        )
    }
}

// The call asked for, with its answer handed out.
fn call_asked<H: Handing>(
    answers: &mut H,
    joined: &mut Joined,
    asked: Asked,
    given: &[u8],
    cells: &mut Cells<'_>,
) {
    let normal = joined.normal;
    let expedited = joined.expedited;
    match request_flow(asked.request) {
        Flow::Normal => {
            joined.normal = on_lines(
                answers,
                &mut *joined,
                asked,
                given,
                normal,
                &mut cells.normal,
            );
        }
        Flow::Expedited => {
            joined.expedited = on_lines(
                answers,
                &mut *joined,
                asked,
                given,
                expedited,
                &mut cells.expedited,
            );
        }
    }
}

pub fn hand_bad<H: Handing>(answers: &mut H, number: usize) {
    let mut out = [0u8; 64];
    let length = bad_line(number, &mut out);
    hand_front(answers, &out, length);
}

// The call that a line asks for; `number` is the line's, for a bad one.
pub fn line_at<H: Handing>(
    answers: &mut H,
    joined: &mut Joined,
    text: &[u8],
    number: usize,
    cells: &mut Cells<'_>,
) {
    let mut given = [0u8; 2048];
    let Some(asked) = call_line(text, &mut given) else {
        return hand_bad(answers, number);
    };
    let n = asked.count.min(2048);
    call_asked(answers, joined, asked, &given[..n], cells)
}
