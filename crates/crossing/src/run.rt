// A whole script: its answers go to standard output, or are held to those expected.
use crate::both_ends::{Cells, FlowCells, Joined, join};
use crate::handing::{Handing, Met, Printed, hand_front};
use crate::lines::{Lines, lines_of};
use crate::opened_ends::open_both;
use crate::script_line::{hand_bad, line_at};
use end::{Done, End};
use report::other_lines::{Counts, end_line, open_line};
use script::line_forms::first_line;
use script::text::{passed_over, too_long};
use std::io;
use unit_lines::Line;

// How an end stands when the script has ended, with the two lines to it.
fn hand_last<H: Handing>(answers: &mut H, second: bool, end: End, normal: Line, expedited: Line) {
    let mut out = [0u8; 8192];
    let counts = Counts {
        send: end.sending.held,
        inbox: end.receiving.held,
        credit: end.sending.window.credit(),
        opened: end.receiving.window.credit(),
        waiting: normal.units as usize,
        expedited: expedited.units as usize,
    };
    let length = end_line(
        second,
        end.control.state,
        end.control.mark,
        counts,
        &mut out,
    );
    hand_front(answers, &out, length);
}

fn hand_both<H: Handing>(answers: &mut H, joined: &Joined) {
    let normal = joined.normal;
    let expedited = joined.expedited;
    hand_last(
        answers,
        false,
        joined.first.end,
        normal.from,
        expedited.from,
    );
    hand_last(answers, true, joined.second.end, normal.to, expedited.to);
}

// The calls that the lines ask for, one after the other, with these cells for the lines between the ends. They are lent here one by
// one: a struct of the arrays themselves ran out of stack.
fn run_lines<'a, H: Handing>(
    answers: &mut H,
    joined: &mut Joined,
    lines: Lines<'_>,
    normal1: &'a mut [u8],
    normal2: &'a mut [u8],
    expedited1: &'a mut [u8],
    expedited2: &'a mut [u8],
) {
    let mut cells = Cells {
        normal: FlowCells {
            to_first: normal1,
            to_second: normal2,
        },
        expedited: FlowCells {
            to_first: expedited1,
            to_second: expedited2,
        },
    };
    for (number, text) in lines {
        if !passed_over(text) {
            line_at(answers, &mut *joined, text, number, &mut cells);
        }
    }
}

// The lines after the one that opens the ends, with nothing on the four lines between them.
fn run_opened<H: Handing>(answers: &mut H, joined: &mut Joined, lines: Lines<'_>) {
    let mut normal1 = [0u8; 527872];
    let mut normal2 = [0u8; 527872];
    let mut expedited1 = [0u8; 527872];
    let mut expedited2 = [0u8; 527872];
    run_lines(
        answers,
        joined,
        lines,
        &mut normal1,
        &mut normal2,
        &mut expedited1,
        &mut expedited2,
    )
}

fn hand_opening<H: Handing>(answers: &mut H, second: bool, done: Done) {
    let mut out = [0u8; 64];
    let length = open_line(second, done.answer.refusal, &mut out);
    hand_front(answers, &out, length);
}

fn accepted(done: Done) -> bool {
    done.answer.refusal == 0
}

// Of a script that is too long no line is read; one in which every line is passed over has a bad first line. The script goes on
// behind the line that opens the ends if both are accepted; last comes how the ends stand.
fn run<H: Handing>(answers: &mut H, script: &[u8]) {
    if too_long(script.len()) {
        return answers.hand_out(b"input too long\n");
    }
    let mut lines = lines_of(script);
    let Some((number, text)) = lines.find(|line| !passed_over(line.1)) else {
        return hand_bad(answers, 1);
    };
    let Some(sizes) = first_line(text) else {
        return hand_bad(answers, number);
    };
    let (one, two) = open_both(sizes);
    hand_opening(answers, false, one);
    hand_opening(answers, true, two);
    if accepted(one) & accepted(two) {
        let mut joined = join(one.end, two.end);
        run_opened(answers, &mut joined, lines);
        hand_both(answers, &joined);
    }
}

// Prints the answers of a script.
pub fn print_answers(rt: &impl Print, script: &[u8]) -> io::Result<()> {
    let mut answers = Printed {
        to: rt,
        printed: Ok(()),
    };
    run(&mut answers, script);
    answers.printed
}

// Whether the answers of a script are these, byte for byte.
pub fn answers_as(script: &[u8], expected: &[u8]) -> bool {
    let mut met = Met {
        to_come: expected,
        same: true,
    };
    run(&mut met, script);
    met.same & met.to_come.is_empty()
}
