// Carries records of 1,024 bytes from one end to the other by the ends' own calls, with no image between: given in parts of M
// bytes, taken and read.
//
//   calls_alone M W PARTS
//
// Prints the bytes read. The last part given stays in the send buffer. The benchmark counts its instructions.
#![tactic(auto)]

mod carrying;

use carrying::{Pair, part_carried};
use digits::decimal_read::number;
use end::End;
use session::{Session, open_session};
use std::env::Env;
use std::io;

// An end's send buffer and unit buffer, and its inbox: each the longest, but for the way back, which carries no data.
const SEND: usize = 1024;

const UNIT: usize = 1029;

const INBOX: usize = 65535;

const RESPONSE: usize = 13;

const BACK: usize = 8;

fn session(role: u8, outwindow: u8, inwindow: u8, outmax: u32, inmax: u32) -> Session {
    Session {
        role,
        outwindow,
        inwindow,
        outmax,
        inmax,
    }
}

fn giver(max: u16, window: u8, unit: &mut [u8]) -> End {
    let opened = open_session(session(0, window, 1, max as u32, 8), SEND, UNIT, BACK);
    let end = opened.end;
    let done = end.allocate(unit);
    done.end
}

fn reader(max: u16, window: u8) -> End {
    let opened = open_session(
        session(1, 1, window, 8, max as u32),
        RESPONSE,
        RESPONSE,
        INBOX,
    );
    opened.end
}

fn carry(
    before: Pair,
    max: usize,
    window: u8,
    parts: usize,
    whole: &[u8],
    send: &mut [u8],
    unit: &mut [u8],
    inbox: &mut [u8],
    buffer: &mut [u8],
) -> Pair {
    let mut pair = before;
    for _ in 0..parts {
        pair = part_carried(pair, max, window, whole, send, unit, inbox, buffer);
    }
    pair
}

// The record's LL counts its 1,024 bytes; its other bytes are zeros.
fn carried(max: u16, window: u8, parts: usize) -> usize {
    let mut whole = [0u8; 1024];
    let mut send = [0u8; 1024];
    let mut unit = [0u8; 1029];
    let mut inbox = [0u8; 65535];
    let mut buffer = [0u8; 1024];
    whole[0] = 4;
    let pair = Pair {
        giver: giver(max, window, &mut unit),
        reader: reader(max, window),
        place: 0,
        at: 0,
        read: 0,
    };
    let after = carry(
        pair,
        max as usize,
        window,
        parts,
        &whole,
        &mut send,
        &mut unit,
        &mut inbox,
        &mut buffer,
    );
    after.read
}

// The longest argument that is read.
const LONGEST: usize = 4096;

// The argument of that number, 0 where it is none.
fn argument(rt: &impl Env, i: usize) -> u16 {
    let mut text = [0u8; LONGEST];
    let Ok(n) = rt.arg(i, &mut text) else {
        return 0;
    };
    number(&text[..n]).unwrap_or(0)
}

fn main(rt: HostRuntime) -> io::Result<()> {
    let max = argument(&rt, 1);
    let window = argument(&rt, 2);
    let parts = argument(&rt, 3);
    let read = carried(max, (window % 256) as u8, parts as usize);
    println!(rt; "{read}")
}
