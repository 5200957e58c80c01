// The line that says what a call answered. A part that does not apply puts nothing.
// Cells and place are two parameters, as in `digits::printed`: a struct that lends the cells on is no plainer, since `PrintsAt` says
// of its two fields what it says of these.
ghost use Rattle.report.specs.Prints.{PrintsAt, Prints};
ghost use Rattle.report.specs.AnswerLine.{call_text, sense_text, rule_text, refusal_text, bytes_text, flag_text, mark_text, told_text, answer_text};

use crate::answer_words::{end_digit, mark_word, request_word};
use answers::numbers::{BAD_HEADER, SHORT_UNIT};
use answers::{Answer, ReadAnswer};
use control::WhatReceived;
use digits::printed::{decimal, hex_bytes, hex_word, put};
use script::Asked;

pub(crate) fn put_call(out: &mut [u8], at: usize, asked: Asked) -> usize
    ensures { PrintsAt (call_text asked.second asked.request) at out.old result out.new }
{
    let behind_end = put(out, at, end_digit(asked.second));
    let behind_blank = put(out, behind_end, b" ");
    put(out, behind_blank, request_word(asked.request))
}

// Refusals of a unit have a sense; a short unit is the first of them.
fn put_sense(out: &mut [u8], at: usize, refusal: u8, sense: u32) -> usize
    ensures { PrintsAt (sense_text refusal sense) at out.old result out.new }
{
    if refusal < SHORT_UNIT {
        return at;
    }
    let behind_blank = put(out, at, b" ");
    hex_word(out, behind_blank, sense)
}

fn put_rule(out: &mut [u8], at: usize, refusal: u8, rule: u8) -> usize
    ensures { PrintsAt (rule_text refusal rule) at out.old result out.new }
{
    if refusal != BAD_HEADER {
        return at;
    }
    let behind_letter = put(out, at, b" H");
    decimal(out, behind_letter, rule as usize)
}

fn put_refusal(out: &mut [u8], at: usize, answer: Answer) -> usize
    ensures { PrintsAt (refusal_text answer.refusal answer.sense answer.rule) at out.old result out.new }
{
    let behind_blank = put(out, at, b" ");
    let behind_number = decimal(out, behind_blank, answer.refusal as usize);
    let behind_sense = put_sense(out, behind_number, answer.refusal, answer.sense);
    put_rule(out, behind_sense, answer.refusal, answer.rule)
}

fn put_bytes(out: &mut [u8], at: usize, label: &[u8], bytes: &[u8]) -> usize
    ensures { PrintsAt (bytes_text label.now bytes.now) at out.old result out.new }
{
    if bytes.is_empty() {
        return at;
    }
    let behind_label = put(out, at, label);
    hex_bytes(out, behind_label, bytes)
}

// A flag that is set puts its word.
fn put_flag(out: &mut [u8], at: usize, word: &[u8], set: bool) -> usize
    ensures { PrintsAt (flag_text word.now set) at out.old result out.new }
{
    if set {
        return put(out, at, word);
    }
    at
}

fn put_mark(out: &mut [u8], at: usize, mark: WhatReceived) -> usize
    ensures { PrintsAt (mark_text mark) at out.old result out.new }
{
    if mark.is_nothing() {
        return at;
    }
    let behind_label = put(out, at, b" mark ");
    put(out, behind_label, mark_word(mark))
}

// What a read adds, or the take of a signal.
fn put_told(out: &mut [u8], at: usize, copied: &[u8], answer: ReadAnswer, signalled: bool) -> usize
    ensures { PrintsAt (told_text copied.now answer.complete answer.more signalled answer.mark) at out.old result out.new }
{
    let behind_copied = put_bytes(out, at, b" bytes ", copied);
    let behind_complete = put_flag(out, behind_copied, b" complete", answer.complete);
    let behind_more = put_flag(out, behind_complete, b" more", answer.more);
    let behind_signalled = put_flag(out, behind_more, b" signalled", signalled);
    put_mark(out, behind_signalled, answer.mark)
}

// `unit` is the unit made, `copied` what a read copied, each empty where there is none.
pub fn answer_line(
    asked: Asked,
    answer: ReadAnswer,
    signalled: bool,
    unit: &[u8],
    copied: &[u8],
    out: &mut [u8],
) -> usize
    ensures { let given = answer.answer in
        Prints (answer_text asked.second asked.request given.refusal given.sense given.rule unit.now copied.now
        answer.complete answer.more signalled answer.mark) out.old result out.new }
{
    let behind_call = put_call(out, 0, asked);
    let behind_refusal = put_refusal(out, behind_call, answer.answer);
    let behind_unit = put_bytes(out, behind_refusal, b" unit ", unit);
    let behind_told = put_told(out, behind_unit, copied, answer, signalled);
    put(out, behind_told, b"\n")
}
