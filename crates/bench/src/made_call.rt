// A call of a script, made on the end that it names.
ghost use Rattle.std.specs.Prelude.{◌≡◌, false, List, ℕ};
ghost use Rattle.calls.specs.Calls.{called, plain};
ghost use Rattle.bench.specs.CallMade.{verb_of, is_read, station_of, acted_by, plain_done, unit_told, signal_told, taken_by, taken_on};

use crate::Told;
use control::WhatReceived;
use end::{Answer, Done, End, ExpeditedDone, ReadAnswer, ReadDone};
use script::{Flow, Verb};

// Here and in `plain` a function and no `From`: both types are of other crates.
// The answer of a call that is no read: nothing copied, no record complete, no part that another follows, no mark.
fn plain_answer(given: Answer) -> ReadAnswer
    ensures { result ≡ (plain given).answer }
{
    ReadAnswer {
        answer: given,
        copied: 0,
        complete: false,
        more: false,
        mark: WhatReceived::Nothing,
    }
}

fn plain(done: Done) -> ReadDone
    ensures { result ≡ plain_done done }
{
    ReadDone {
        answer: plain_answer(done.answer),
        end: done.end,
    }
}

// Makes the call. A read goes into the buffer; no other call touches it.
pub(crate) fn call(
    end: End,
    verb: Verb,
    given: &[u8],
    send: &mut [u8],
    unit: &mut [u8],
    inbox: &mut [u8],
    buffer: &mut [u8],
) -> ReadDone
    ensures acted { acted_by verb result send.new unit.new inbox.new buffer.new
        ≡ called (station_of end send.old unit.old inbox.old) (verb_of verb given.now buffer.old) }
    ensures unread { is_read verb ≡ false → buffer.new ≡ buffer.old }
{
    match verb {
        Verb::Allocate => plain(end.allocate(unit)),
        Verb::Confirmed => plain(end.confirmed(unit)),
        Verb::SendError => plain(end.send_error(unit)),
        Verb::RequestToSend => plain(end.request_to_send(unit)),
        Verb::SendPacingResponse => plain(end.send_pacing_response(unit)),
        Verb::SendData => plain(end.send_data(given, send, unit)),
        Verb::Close(follows, confirm) => plain(end.close(follows, confirm, send, unit)),
        Verb::Defer(what) => plain(end.defer(what)),
        Verb::Withdraw => plain(end.withdraw()),
        Verb::Receive => end.receive(inbox, buffer),
    }
}

// A take on the normal line tells of no signal.
fn unit_told(done: Done) -> Told
    ensures { result ≡ unit_told done }
{
    Told {
        answer: plain_answer(done.answer),
        signalled: false,
        end: done.end,
    }
}

fn signal_told(done: ExpeditedDone) -> Told
    ensures { result ≡ signal_told done }
{
    Told {
        answer: plain_answer(done.answer.answer),
        signalled: done.answer.signalled,
        end: done.end,
    }
}

// Takes the unit on its line. No expedited unit meets the inbox.
pub(crate) fn take(end: End, flow: Flow, taken: &[u8], inbox: &mut [u8], unit: &mut [u8]) -> Told
    ensures { (send : List ℕ) → taken_by flow result send unit.new inbox.new
        ≡ taken_on flow (station_of end send unit.old inbox.old) taken.now }
{
    match flow {
        Flow::Normal => unit_told(end.receive_unit(taken, inbox, unit)),
        Flow::Expedited => signal_told(end.receive_expedited(taken, unit)),
    }
}
