// The lines of a script, each with its number.
ghost use Rattle.std.specs.Prelude.{length};
ghost use Rattle.std.specs.Iterator.{at_most};

use script::text::{line_end, text_length};

// What is left of a script, and the number of its first line.
#[derive(Drop)]
pub struct Lines<'a> {
    rest: &'a [u8],
    number: usize,
}

// The lines of a script are counted from 1.
pub fn lines_of(script: &[u8]) -> Lines<'_> {
    Lines {
        rest: script,
        number: 1,
    }
}

// A line has at least its end, so there are no more of them than bytes.
impl<'a> Iterator for Lines<'a> {
    type Item = (usize, &'a [u8]);

    ghost remaining = { λ s. at_most (length s.rest.now) };

    fn next(&mut self) -> Option<(usize, &'a [u8])> {
        let rest = self.rest;
        if rest.is_empty() {
            return None;
        }
        let end = line_end(rest, 0);
        let line = &rest[..end];
        let number = self.number;
        self.rest = if end < rest.len() {
            &rest[end + 1..]
        } else {
            &rest[end..]
        };
        self.number = number.saturating_add(1);
        Some((number, &line[..text_length(line)]))
    }
}
