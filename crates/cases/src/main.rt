// Reads names of cases from standard input, one a line, and prints for each the name, a blank, and `ok` or `bad`; a name that
// no case has is bad.
#![tactic(auto)]

use std::io::{self, Read};

// No two cases have one name.
fn right(name: &[u8]) -> bool {
    conversation_cases::run(name) | refusal_cases::run(name) | direct_cases::run(name)
}

// The longest line that is kept: any name is shorter.
const LONGEST: usize = 40;

// The line that is read, as far as it has come; it has no length where it is too long to be kept.
#[derive(Drop)]
struct Line {
    bytes: [u8; LONGEST],
    length: Option<usize>,
}

impl Line {
    fn empty() -> Line {
        Line {
            bytes: [0; LONGEST],
            length: Some(0),
        }
    }

    fn is_empty(&self) -> bool {
        self.length == Some(0)
    }

    // These bytes stand behind those that came before, if there is room.
    fn join(&mut self, part: &[u8]) {
        let Some(length) = self.length else {
            return;
        };
        self.length = None;
        let Some(room) = self.bytes.get_mut(length..) else {
            return;
        };
        let Some(cells) = room.get_mut(..part.len()) else {
            return;
        };
        cells.copy_from_slice(part);
        self.length = Some(length + part.len());
    }

    fn is_right(&self) -> bool {
        self.length
            .and_then(|length| self.bytes.get(..length))
            .is_some_and(right)
    }

    // The line has ended: its name is already printed, and its verdict follows.
    fn end(&mut self, rt: &impl Print) -> io::Result<()> {
        let verdict: &[u8] = if self.is_right() { b" ok\n" } else { b" bad\n" };
        self.length = Some(0);
        rt.write_all(verdict)
    }
}

// The lines of what was read, and of the last one what there is of it. Bytes are printed as they come, so that a line of any
// length is answered whole.
fn lines(rt: &impl Print, text: &[u8], line: &mut Line) -> io::Result<()> {
    for part in text.split_inclusive(|byte| *byte == b'\n') {
        let bytes = part.strip_suffix(b"\n").unwrap_or(part);
        rt.write_all(bytes)?;
        line.join(bytes);
        if bytes.len() < part.len() {
            line.end(rt)?;
        }
    }
    Ok(())
}

// A proved loop has to end, and nothing says that an input does: the turns are counted up to a number that no run reaches.
fn main(rt: HostRuntime) -> io::Result<()> {
    let mut input = rt.reader();
    let mut line = Line::empty();
    let mut text = [0u8; 4096];
    for _ in 0..u64::MAX {
        let n = input.read(&mut text)?;
        if n == 0 {
            break;
        }
        lines(&rt, &text[..n], &mut line)?;
    }
    if !line.is_empty() {
        line.end(&rt)?;
    }
    Ok(())
}
