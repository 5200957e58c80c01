// A field behind its length byte.
ghost use Rattle.std.specs.Prelude.{◌≡◌, ◌≤◌, length};
ghost use Rattle.attach_header.specs.Places.{part_at};

// Where a field stands: from `start` up to `end`. It is not whole if its length byte counts more bytes than there are; the definition of
// `part_at` gives its place then too.
#[derive(Clone, Copy)]
pub struct Part {
    pub whole: bool,
    pub start: usize,
    pub end: usize,
}

// The field whose length byte stands at `at`. Where the bytes have ended, a length byte of 0 was left out.
pub(crate) fn part_at(s: &[u8], at: usize) -> Part
    requires { at ≤ length s.now }
    ensures value { result ≡ part_at at s.now }
    ensures start_le_end { (result.start ≤ result.end) × (result.end ≤ length s.now) }
{
    if s.len() <= at {
        return Part {
            whole: true,
            start: at,
            end: at,
        };
    }
    let n = s[at] as usize;
    let start = at + 1;
    if s.len() - start < n {
        return Part {
            whole: false,
            start,
            end: s.len(),
        };
    }
    Part {
        whole: true,
        start,
        end: start + n,
    }
}
