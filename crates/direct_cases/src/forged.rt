// Records and inboxes that no call has made: refused, and no buffer is written.
use crate::opened::{opened_end, refusal_of};
use crate::refused::{give, read, refused, take, unit_calls};
use check::same;
use end::{Done, End};

// A record whose sending maximum is below 8.
pub fn forged() -> End {
    let mut end = opened_end(0);
    let mut sending = end.sending;
    sending.max = 7;
    end.sending = sending;
    end
}

pub fn refusal_5_forged_unit_calls() -> bool {
    let mut unit = [0xA5u8; 69];
    unit_calls(forged(), 5, &mut unit) & same(&unit, &[0xA5u8; 69])
}

fn give_refused() -> bool {
    let mut send = [0xA5u8; 64];
    give(forged(), 5, &mut send) & same(&send, &[0xA5u8; 64])
}

fn turn_refused() -> bool {
    let end = forged();
    let mut unit = [0xA5u8; 69];
    let turned = end.prepare_to_receive(true, &[0xA5u8; 64], &mut unit);
    refused(turned, 5, &unit)
}

fn end_refused() -> bool {
    let end = forged();
    let mut unit = [0xA5u8; 69];
    let ended = end.deallocate(false, &[0xA5u8; 64], &mut unit);
    refused(ended, 5, &unit)
}

pub fn refusal_5_forged_sends() -> bool {
    give_refused() & turn_refused() & end_refused()
}

fn take_refused() -> bool {
    let mut inbox = [0xA5u8; 192];
    take(forged(), 5, &mut inbox) & same(&inbox, &[0xA5u8; 192])
}

fn read_refused() -> bool {
    let mut inbox = [0xA5u8; 192];
    read(forged(), 5, &mut inbox) & same(&inbox, &[0xA5u8; 192])
}

pub fn refusal_5_forged_receives() -> bool {
    take_refused() & read_refused()
}

// A record of two bytes is taken; its LL lies in the inbox.
fn take_first(inbox: &mut [u8]) -> Done {
    let end = opened_end(1);
    let mut unit = [0xA5u8; 69];
    end.receive_unit(b"\x00\x01\x03\x91\x80\x00\x02", inbox, &mut unit)
}

// The LL of a record taken is written over in the inbox: the read refuses it, and copies nothing.
fn read_refused_over(high: u8, low: u8) -> bool {
    let mut inbox = [0xA5u8; 192];
    let taken = take_first(&mut inbox);
    let reading = taken.end;
    inbox[0] = high;
    inbox[1] = low;
    let right = read(reading, 8, &mut inbox);
    (refusal_of(taken) == 0) & right & (inbox[0] == high) & (inbox[1] == low) & (inbox[2] == 0xA5)
}

// The top bit of LL is no part of the length.
pub fn refusal_8_read() -> bool {
    read_refused_over(0, 1) & read_refused_over(0x80, 1) & read_refused_over(0x80, 0)
}
