// Cells of a lent buffer: what a call leaves in them. Bytes copied from one buffer to the front of another, and moved to the
// front of their own. Two buffers compared, and a byte looked for in one.
#![tactic(auto)]

ghost use Rattle.std.specs.Prelude.{◌≡◌, ◌+◌, ◌≤◌, ◌==◌, ◌++◌, length, take, drop, slice_range, position, unwrap_or};
ghost use Rattle.cells.specs.Cells.{front};
ghost use Rattle.cells.specs.Equal.{same_bytes};
ghost use Rattle.cells.specs.Found.{index_of};

// Copies the bytes to the front of `to`, and answers how many there are. Cells past them keep what they had.
pub fn copy(from: &[u8], to: &mut [u8]) -> usize
    requires { length from.now ≤ length to.old }
    ensures count { result ≡ length from.now }
    ensures cells { to.new ≡ take (length from.now) from.now ++ drop (length from.now) to.old }
{
    let n = from.len();
    to[..n].copy_from_slice(from);
    n
}

// Moves the cells from `from` on to the front of a. Cells past those that arrive keep what they had; a `from` past the
// end moves nothing.
pub fn move_to_front(a: &mut [u8], from: usize)
    ensures { a.new ≡ front (drop from a.old) a.old }
{
    if from < a.len() {
        a.copy_within(from.., 0);
    }
}

// The two hold the same bytes.
pub fn same(a: &[u8], b: &[u8]) -> bool
    ensures { result ≡ same_bytes a.now b.now }
{
    a == b
}

// The place of the first such byte, where there is one.
fn first_of(text: &[u8], byte: u8) -> Option<usize>
    ensures { result ≡ position (λ b. b == byte) text.now }
{
    text.iter().position(|b| *b == byte)
}

// The place that is found, or the end where none is.
fn place_or_end(found: Option<usize>, end: usize) -> usize
    ensures { result ≡ unwrap_or found end }
{
    found.unwrap_or(end)
}

// The place of the first such byte from `from` on and before `to`; `to` where there is none.
pub fn find(text: &[u8], from: usize, to: usize, byte: u8) -> usize
    requires start { from ≤ to }
    requires end { to ≤ length text.now }
    ensures place { result ≡ from + index_of byte (slice_range text.now from to) }
    ensures within { result ≤ to }
{
    let part = &text[from..to];
    from + place_or_end(first_of(part, byte), part.len())
}
