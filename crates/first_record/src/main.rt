// The laboratory gives one record and ends; the blender takes the unit, reads the record and prints its data.
#![tactic(auto)]

use session::{Session, open};
use std::io;

// Window 3 and maximum RU 64 both ways; the role is 0 for the first speaker, 1 for the bidder.
fn session(role: u8) -> Session {
    Session {
        role,
        outwindow: 3,
        inwindow: 3,
        outmax: 64,
        inmax: 64,
    }
}

// One record: LL, which counts itself, and four bytes of data. Answers the unit that goes out, which stands at the front of the
// unit buffer.
fn laboratory(unit: &mut [u8; 69]) -> &[u8] {
    let mut send = [0u8; 64];
    let inbox = [0u8; 192];
    let lab = open(session(0), &send, unit, &inbox).end;
    let sending = lab.allocate(unit).end;
    let last = sending
        .send_data(b"\x00\x06\x56\x34\x36\x0A", &mut send, unit)
        .end;
    let done = last.deallocate(false, &send, unit);
    unit.get(..done.answer.unit).unwrap_or(&[])
}

// Takes the unit and reads into the buffer; answers the bytes of the record.
fn blender<'a>(line: &[u8], buffer: &'a mut [u8; 64]) -> &'a [u8] {
    let send = [0u8; 64];
    let mut unit = [0u8; 69];
    let mut inbox = [0u8; 192];
    let end = open(session(1), &send, &unit, &inbox).end;
    let reading = end.receive_unit(line, &mut inbox, &mut unit).end;
    let read = reading.receive(&mut inbox, buffer);
    buffer.get(..read.answer.copied).unwrap_or(&[])
}

// The data stand behind the two bytes of LL.
fn main(rt: HostRuntime) -> io::Result<()> {
    let mut unit = [0u8; 69];
    let mut buffer = [0u8; 64];
    let record = blender(laboratory(&mut unit), &mut buffer);
    rt.write_all(record.get(2..).unwrap_or(&[]))
}
