// Two joined ends. A call is made in place at the end that it names: a copy of both, with their buffers, would cost most of a step.
use bench::Pair;
use end::End;
use unit_lines::empty;

// An end and what the program lends it at each call; of the inbox it lends as many cells as the end's record says. The buffers
// are held by value: a slice that is lent through every function down to the call would cost a proof in each of them.
#[derive(Clone, Copy)]
pub struct Side {
    pub send: [u8; 1024],
    pub inbox: [u8; 65535],
    pub end: End,
}

// The two sides, and the lines between them, of each flow as they are seen from the first end.
#[derive(Clone, Copy)]
pub struct Joined {
    pub first: Side,
    pub second: Side,
    pub normal: Pair,
    pub expedited: Pair,
}

// The cells of the two lines of one flow, each named for the end that it leads to.
#[derive(Drop)]
pub struct FlowCells<'a> {
    pub to_first: &'a mut [u8],
    pub to_second: &'a mut [u8],
}

// The cells of the four lines.
#[derive(Drop)]
pub struct Cells<'a> {
    pub normal: FlowCells<'a>,
    pub expedited: FlowCells<'a>,
}

fn lent(end: End) -> Side {
    Side {
        send: [0u8; 1024],
        inbox: [0u8; 65535],
        end,
    }
}

fn no_units() -> Pair {
    Pair {
        from: empty(),
        to: empty(),
    }
}

// Both ends as opened.
pub fn join(first: End, second: End) -> Joined {
    Joined {
        first: lent(first),
        second: lent(second),
        normal: no_units(),
        expedited: no_units(),
    }
}

// The two lines as they are seen from the other end.
pub fn turned(lines: Pair) -> Pair {
    Pair {
        from: lines.to,
        to: lines.from,
    }
}
