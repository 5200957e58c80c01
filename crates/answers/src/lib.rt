// The answers that calls give: the refusal number, its sense, and the rule that a refusal names.
#![tactic(auto)]

pub mod first_no;
pub mod numbers;
pub mod questions;
pub mod refusals;

ghost use Rattle.std.specs.Prelude.{◌≡◌, false};
ghost use Rattle.header.specs.Rules.{rule_number};
ghost use Rattle.answers.specs.Answers.{sense_of, accepted, refused, refused_naming, read_refused, read_accepted, expedited_answer};

use crate::numbers::BAD_HEADER;
use control::{Control, WhatReceived};
use header::Rule;

// The refusal number, 0 if accepted; its sense; the rule for 21, else 0; and the length of the unit made, 0 for none. C reads the four
// as numbers; the questions in the code give a `Refusal`.
#[derive(Clone, Copy)]
pub struct Answer {
    pub refusal: u8,
    pub sense: u32,
    pub rule: u8,
    pub unit: usize,
}

// A read's answer has besides: the bytes copied; whether a record is complete; whether the record completed is a part that another
// follows; and the mark answered.
#[derive(Clone, Copy)]
pub struct ReadAnswer {
    pub answer: Answer,
    pub copied: usize,
    pub complete: bool,
    pub more: bool,
    pub mark: control::WhatReceived,
}

// The answer of a take on the expedited line has besides: whether a signal was taken.
#[derive(Clone, Copy)]
pub struct ExpeditedAnswer {
    pub answer: Answer,
    pub signalled: bool,
}

// The senses by refusal number, zero where none. Document 02's numbers go to 38, and none of them has one.
const SENSES: [u32; 39] = [
    0, 0, 0, 0, 0, 0, 0, 0, 0, 0, 0, 0, 0, 0, 0, 0, 0, 0, 0, 0, 0x40050000, 0, 0x10020000,
    0x20010000, 0x20020000, 0x20030000, 0x20040000, 0x20110000, 0x200E0000, 0, 0, 0, 0, 0, 0, 0, 0,
    0, 0,
];

fn sense_of(number: u8) -> u32
    ensures { result ≡ sense_of number }
{
    let i = number as usize;
    if i < 39 { SENSES[i] } else { 0 }
}

// Accepted, with the length of the unit made, 0 for none.
pub fn accept(unit: usize) -> Answer
    ensures { result ≡ accepted unit }
{
    Answer {
        refusal: 0,
        sense: 0,
        rule: 0,
        unit,
    }
}

pub fn refuse(number: u8) -> Answer
    ensures { result ≡ refused number }
{
    Answer {
        refusal: number,
        sense: sense_of(number),
        rule: 0,
        unit: 0,
    }
}

// Only a bad header names a rule.
fn rule_for(number: u8, rule: u8) -> u8
    ensures { result ≡ (refused_naming rule number).rule }
{
    if number == BAD_HEADER { rule } else { 0 }
}

// A refusal that names the rule broken, where its number is that of a bad header.
pub fn refuse_naming(number: u8, rule: u8) -> Answer
    ensures { result ≡ refused_naming rule number }
{
    Answer {
        refusal: number,
        sense: sense_of(number),
        rule: rule_for(number, rule),
        unit: 0,
    }
}

// The number by which document 01 calls a rule.
pub fn rule_number(rule: Rule) -> u8
    ensures { result ≡ rule_number rule }
{
    rule as u8
}

// A refused read: nothing copied, no record complete, so no part that another follows; no mark.
pub fn read_refuse(number: u8) -> ReadAnswer
    ensures { result ≡ read_refused number }
{
    ReadAnswer {
        answer: refuse(number),
        copied: 0,
        complete: false,
        more: false,
        mark: WhatReceived::Nothing,
    }
}

// Bytes read, and no mark.
pub fn bytes_read(copied: usize, complete: bool, more: bool) -> ReadAnswer
    ensures { result ≡ read_accepted copied complete more WhatReceived.Nothing }
{
    ReadAnswer {
        answer: accept(0),
        copied,
        complete,
        more,
        mark: WhatReceived::Nothing,
    }
}

// The mark read, and no byte: no record is completed.
pub fn mark_read(c: Control) -> ReadAnswer
    ensures { result ≡ read_accepted 0 false false c.mark }
{
    let mark = c.mark;
    ReadAnswer {
        answer: accept(0),
        copied: 0,
        complete: false,
        more: false,
        mark,
    }
}

// The answer of a take on the expedited line, of a signal or of its response. A refused take tells of no signal.
pub fn expedited_answer(answer: Answer, signal: bool) -> ExpeditedAnswer
    ensures { result ≡ expedited_answer answer signal }
{
    let taken = answer.refusal == 0;
    ExpeditedAnswer {
        answer,
        signalled: taken & signal,
    }
}
