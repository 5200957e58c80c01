// One part of a record is given, the unit that goes is taken, and its bytes are read; after each window the reader paces.
use end::{Done, End};

// The two ends, by value: as a struct with the buffers and methods they cost 0.07 instructions a byte more, and miss the bar of 3 that
// this program is measured by (docs/DESIGN-PASS.md). `place` counts the units taken in the window, `at` is where the next part of the
// record starts, `read` counts the bytes read.
#[derive(Clone, Copy)]
pub(crate) struct Pair {
    pub giver: End,
    pub reader: End,
    pub place: u8,
    pub at: usize,
    pub read: usize,
}

// The length of a record.
pub(crate) const RECORD: usize = 1024;

// The next part is the one behind; behind the last comes the first of the next record.
fn part_behind(at: usize, max: usize) -> usize {
    let next = at.wrapping_add(max);
    if next < RECORD { next } else { 0 }
}

// Gives the part of the record that starts at `from`, as much of it as there is.
fn part_given(
    giver: End,
    from: usize,
    max: usize,
    whole: &[u8],
    send: &mut [u8],
    unit: &mut [u8],
) -> Done {
    let start = from.min(whole.len());
    let n = max.min(whole.len() - start);
    giver.send_data(&whole[start..start + n], send, unit)
}

// Takes the unit of n bytes at the front of `line`. The reader answers no data, so its own unit buffer is short.
fn unit_taken(reader: End, line: &[u8], n: usize, inbox: &mut [u8]) -> End {
    if line.len() < n {
        return reader;
    }
    let mut unit = [0u8; 13];
    let done = reader.receive_unit(&line[..n], inbox, &mut unit);
    done.end
}

// Reads what the reader has taken.
fn read(before: Pair, reader: End, inbox: &mut [u8], buffer: &mut [u8]) -> Pair {
    let done = reader.receive(inbox, buffer);
    Pair {
        reader: done.end,
        place: before.place.wrapping_add(1),
        read: before.read.wrapping_add(done.answer.copied),
        ..before
    }
}

// At the end of a window the reader makes a pacing response, and the giver takes it.
fn paced(before: Pair, window: u8, unit: &mut [u8]) -> Pair {
    if before.place != window {
        return before;
    }
    let mut response = [0u8; 13];
    let made = before.reader.send_pacing_response(&mut response);
    Pair {
        giver: response_taken(before.giver, &response, made.answer.unit, unit),
        reader: made.end,
        place: 0,
        ..before
    }
}

// The giver gets no data, so its inbox is short.
fn response_taken(giver: End, line: &[u8], n: usize, unit: &mut [u8]) -> End {
    if line.len() < n {
        return giver;
    }
    let mut inbox = [0u8; 8];
    let done = giver.receive_unit(&line[..n], &mut inbox, unit);
    done.end
}

// One part, from one end to the other.
pub(crate) fn part_carried(
    before: Pair,
    max: usize,
    window: u8,
    whole: &[u8],
    send: &mut [u8],
    unit: &mut [u8],
    inbox: &mut [u8],
    buffer: &mut [u8],
) -> Pair {
    let done = part_given(before.giver, before.at, max, whole, send, unit);
    let pair = Pair {
        giver: done.end,
        at: part_behind(before.at, max),
        ..before
    };
    if done.answer.unit == 0 {
        return pair;
    }
    let taken = unit_taken(pair.reader, unit, done.answer.unit, inbox);
    paced(read(pair, taken, inbox, buffer), window, unit)
}
