// The lines beside those of calls: the opening, a call that was not made, a line that fits no form, and each end at the end of
// the input.
ghost use Rattle.report.specs.Prints.{PrintsAt, Prints};
ghost use Rattle.report.specs.OtherLines.{open_text, nothing_waiting_text, full_text, bad_line_text, state_text, count_text, counts_text, end_text};

use crate::answer_line::put_call;
use crate::answer_words::{end_digit, mark_word, state_word};
use control::{State, WhatReceived};
use digits::printed::{decimal, put};
use script::Asked;

// What the last line of an end counts: bytes held in the send buffer and in the inbox, requests that may still be sent (`credit`)
// and taken (`opened`), and units that wait to be taken, on the normal line and on the expedited one.
#[derive(Clone, Copy)]
pub struct Counts {
    pub send: u16,
    pub inbox: u16,
    pub credit: u16,
    pub opened: u16,
    pub waiting: usize,
    pub expedited: usize,
}

// `refusal` is 0 where the opening was accepted.
pub fn open_line(second: bool, refusal: u8, out: &mut [u8]) -> usize
    ensures { Prints (open_text second refusal) out.old result out.new }
{
    let behind_end = put(out, 0, end_digit(second));
    let behind_word = put(out, behind_end, b" open ");
    let behind_number = decimal(out, behind_word, refusal as usize);
    put(out, behind_number, b"\n")
}

// A take with nothing waiting, which is no call of the end.
pub fn nothing_waiting(asked: Asked, out: &mut [u8]) -> usize
    ensures { Prints (nothing_waiting_text asked.second asked.request) out.old result out.new }
{
    let behind_call = put_call(out, 0, asked);
    put(out, behind_call, b" -\n")
}

// The line to the other end is full, and the call is not made.
pub fn line_full(asked: Asked, out: &mut [u8]) -> usize
    ensures { Prints (full_text asked.second asked.request) out.old result out.new }
{
    let behind_call = put_call(out, 0, asked);
    put(out, behind_call, b" full\n")
}

// `number` is the line's, counted from 1.
pub fn bad_line(number: usize, out: &mut [u8]) -> usize
    ensures { Prints (bad_line_text number) out.old result out.new }
{
    let behind_words = put(out, 0, b"bad line ");
    let behind_number = decimal(out, behind_words, number);
    put(out, behind_number, b"\n")
}

fn put_state(out: &mut [u8], at: usize, second: bool, state: State, mark: WhatReceived) -> usize
    ensures { PrintsAt (state_text second state mark) at out.old result out.new }
{
    let behind_end = put(out, at, end_digit(second));
    let behind_blank = put(out, behind_end, b" ");
    let behind_state = put(out, behind_blank, state_word(state));
    let behind_label = put(out, behind_state, b" mark ");
    put(out, behind_label, mark_word(mark))
}

fn put_count(out: &mut [u8], at: usize, label: &[u8], n: usize) -> usize
    ensures { PrintsAt (count_text label.now n) at out.old result out.new }
{
    let behind_label = put(out, at, label);
    decimal(out, behind_label, n)
}

fn put_counts(out: &mut [u8], at: usize, counts: Counts) -> usize
    ensures { PrintsAt (counts_text counts.send counts.inbox counts.credit counts.opened counts.waiting counts.expedited)
        at out.old result out.new }
{
    let behind_send = put_count(out, at, b" send ", counts.send as usize);
    let behind_inbox = put_count(out, behind_send, b" inbox ", counts.inbox as usize);
    let behind_credit = put_count(out, behind_inbox, b" credit ", counts.credit as usize);
    let behind_opened = put_count(out, behind_credit, b" open ", counts.opened as usize);
    let behind_waiting = put_count(out, behind_opened, b" waiting ", counts.waiting);
    put_count(out, behind_waiting, b" expedited ", counts.expedited)
}

pub fn end_line(
    second: bool,
    state: State,
    mark: WhatReceived,
    counts: Counts,
    out: &mut [u8],
) -> usize
    ensures { Prints (end_text second state mark counts.send counts.inbox counts.credit counts.opened counts.waiting counts.expedited)
        out.old result out.new }
{
    let behind_state = put_state(out, 0, second, state, mark);
    let behind_counts = put_counts(out, behind_state, counts);
    put(out, behind_counts, b"\n")
}
