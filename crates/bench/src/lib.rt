// Two joined ends on the bench, one step at a time: a request at one end, the units that wait for it on the two lines to it, and the
// unit that it makes on one of the two lines to the other end. A step is lent the two lines of one flow; those of the other, which it
// cannot touch, stand in its promise.
#![tactic(auto)]

mod made_call;

ghost use Rattle.std.specs.Prelude.{◌≡◌, List, ℕ};
ghost use Rattle.bench.specs.CallMade.{verb_lane, flow_lane};
ghost use Rattle.bench.specs.Step.{Ways, ways_of, placed, bench_of, end_left, lines_left, lane_of, accepted, StepsTo};

use crate::made_call::{call, take};
use end::{End, ReadAnswer};
use script::{Flow, Request, Verb};
use unit_lines::{Line, deliver, is_full, oldest_end, remove_oldest};

// Why a request is not made: a take finds nothing waiting, or the line that the unit would join is full.
#[derive(Clone, Copy)]
pub enum NotMade {
    NothingWaiting,
    Full,
}

// The two lines of one flow: the line to this end, and the line to the other end.
#[derive(Clone, Copy)]
pub struct Pair {
    pub from: Line,
    pub to: Line,
}

// What a take hands back: its answer, whether it tells of a signal, and the new end.
#[derive(Clone, Copy)]
pub struct Told {
    pub answer: ReadAnswer,
    pub signalled: bool,
    pub end: End,
}

// What a request that is made hands back: its answer with the new end, and the two lines of its flow.
#[derive(Clone, Copy)]
pub struct Stepped {
    pub told: Told,
    pub lines: Pair,
}

// A call that the end answers by itself, with the lines of the flow that its unit joins.
fn step_call(
    end: End,
    verb: Verb,
    given: &[u8],
    send: &mut [u8],
    unit: &mut [u8],
    inbox: &mut [u8],
    buffer: &mut [u8],
    lines: Pair,
    far: &mut [u8],
) -> Result<Stepped, NotMade>
    ensures { (waiting : List ℕ) (there : Ways) → StepsTo (Request.Call verb) given.now
        (bench_of end send.old unit.old inbox.old buffer.old
        (placed (verb_lane verb) (ways_of lines waiting far.old) there)) result
        (bench_of (end_left end result) send.new unit.new inbox.new buffer.new
        (placed (verb_lane verb) (ways_of (lines_left lines result) waiting far.new) there)) }
{
    if is_full(lines.to) {
        return Err(NotMade::Full);
    }
    let done = call(end, verb, given, send, unit, inbox, buffer);
    let to = deliver(lines.to, far, unit, done.answer.answer.unit);
    let told = Told {
        answer: done.answer,
        signalled: false,
        end: done.end,
    };
    Ok(Stepped {
        told,
        lines: Pair { to, ..lines },
    })
}

// A unit that is given: it is taken or refused, and what it makes, the answer to a bid or to a signal, joins the line to the other
// end.
fn step_offer(
    end: End,
    flow: Flow,
    taken: &[u8],
    unit: &mut [u8],
    inbox: &mut [u8],
    lines: Pair,
    far: &mut [u8],
) -> Result<Stepped, NotMade>
    ensures { (send buffer waiting : List ℕ) (there : Ways) → StepsTo (Request.Offer flow) taken.now
        (bench_of end send unit.old inbox.old buffer
        (placed (flow_lane flow) (ways_of lines waiting far.old) there)) result
        (bench_of (end_left end result) send unit.new inbox.new buffer
        (placed (flow_lane flow) (ways_of (lines_left lines result) waiting far.new) there)) }
{
    if is_full(lines.to) {
        return Err(NotMade::Full);
    }
    let told = take(end, flow, taken, inbox, unit);
    let to = deliver(lines.to, far, unit, told.answer.answer.unit);
    Ok(Stepped {
        told,
        lines: Pair { to, ..lines },
    })
}

// A take is accepted where it has no refusal.
fn accepted(refusal: u8) -> bool
    ensures { result ≡ accepted refusal }
{
    refusal == 0
}

// A take of the oldest unit: it is offered, and goes from the line where the take is accepted.
fn step_take(
    end: End,
    flow: Flow,
    unit: &mut [u8],
    inbox: &mut [u8],
    lines: Pair,
    waiting: &mut [u8],
    far: &mut [u8],
) -> Result<Stepped, NotMade>
    ensures { (given send buffer : List ℕ) (there : Ways) → StepsTo (Request.Take flow) given
        (bench_of end send unit.old inbox.old buffer
        (placed (flow_lane flow) (ways_of lines waiting.old far.old) there)) result
        (bench_of (end_left end result) send unit.new inbox.new buffer
        (placed (flow_lane flow) (ways_of (lines_left lines result) waiting.new far.new) there)) }
{
    let Some(past) = oldest_end(lines.from, waiting) else {
        return Err(NotMade::NothingWaiting);
    };
    let offered = step_offer(end, flow, &waiting[2..past], unit, inbox, lines, far)?;
    if accepted(offered.told.answer.answer.refusal) {
        let from = remove_oldest(lines.from, waiting);
        Ok(Stepped {
            told: offered.told,
            lines: Pair {
                from,
                ..offered.lines
            },
        })
    } else {
        Ok(offered)
    }
}

// The flow that a call's unit joins: one call alone makes an expedited unit.
fn verb_flow(verb: Verb) -> Flow
    ensures { flow_lane result ≡ verb_lane verb }
{
    match verb {
        Verb::RequestToSend => Flow::Expedited,
        _ => Flow::Normal,
    }
}

// The flow whose lines a request is lent.
pub fn request_flow(request: Request) -> Flow
    ensures { flow_lane result ≡ lane_of request }
{
    match request {
        Request::Call(verb) => verb_flow(verb),
        Request::Take(flow) | Request::Offer(flow) => flow,
    }
}

// Makes the request at this end, with the lines of its flow: the line to this end in `waiting`, the line to the other end in `far`.
// Those of the other flow, `there`, stay as they are; where the request is not made, all does.
pub fn step(
    end: End,
    request: Request,
    given: &[u8],
    send: &mut [u8],
    unit: &mut [u8],
    inbox: &mut [u8],
    buffer: &mut [u8],
    lines: Pair,
    waiting: &mut [u8],
    far: &mut [u8],
) -> Result<Stepped, NotMade>
    ensures { (there : Ways) → StepsTo request given.now
        (bench_of end send.old unit.old inbox.old buffer.old
        (placed (lane_of request) (ways_of lines waiting.old far.old) there)) result
        (bench_of (end_left end result) send.new unit.new inbox.new buffer.new
        (placed (lane_of request) (ways_of (lines_left lines result) waiting.new far.new) there)) }
{
    match request {
        Request::Call(verb) => {
            step_call(end, verb, given, send, unit, inbox, buffer, lines, far)
        }
        Request::Take(flow) => step_take(end, flow, unit, inbox, lines, waiting, far),
        Request::Offer(flow) => step_offer(end, flow, given, unit, inbox, lines, far),
    }
}
