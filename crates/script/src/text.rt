// A script's length, and its lines.
ghost use Rattle.std.specs.Prelude.{◌≤◌, ◌≡◌, length};
ghost use Rattle.script.specs.LineEnds.{too_long, line_end, text_length, passed_over};

use cells::find;

// 1 MiB.
const SCRIPT_MOST: usize = 1048576;

// Whether a script of so many bytes is not read. A program that reads one has room for a byte more than the longest, so that it sees a
// longer one.
pub fn too_long(bytes: usize) -> bool
    ensures { result ≡ too_long bytes }
{
    SCRIPT_MOST < bytes
}

// Where the line ends that begins at `from`: at the next byte 0A, or at the end of the text.
pub fn line_end(text: &[u8], from: usize) -> usize
    ensures { (result ≡ line_end from text.now)
        × (result ≤ length text.now)
        × (from ≤ length text.now → from ≤ result) }
{
    let n = text.len();
    if n < from {
        return n;
    }
    find(text, from, n, b'\n')
}

// How much of a line is its text: all but one byte 0D at its end.
pub fn text_length(line: &[u8]) -> usize
    ensures { (result ≡ text_length line.now) × (result ≤ length line.now) }
{
    line.strip_suffix(b"\r").unwrap_or(line).len()
}

// Whether a line with this text asks for nothing: it is empty, or a comment.
pub fn passed_over(text: &[u8]) -> bool
    ensures { result ≡ passed_over text.now }
{
    text.is_empty() || text.starts_with(b"#")
}
