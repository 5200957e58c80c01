// The two forms of line: the first, and one that asks for a call.
ghost use Rattle.std.specs.Prelude.{◌≡◌, length};
ghost use Rattle.script.specs.FirstLine.{first_line_of};
ghost use Rattle.script.specs.WordsAsked.{handed_back};
ghost use Rattle.script.specs.CallLine.{request_of, parsed_of, cells_of};

use crate::six_numbers::sizes;
use crate::words_asked::{given, read, take, words_alone};
use crate::{Asked, Request, Sizes, Verb};

// `ends` and six numbers.
pub fn first_line(line: &[u8]) -> Option<Sizes>
    ensures { result ≡ first_line_of line.now }
{
    sizes(line.strip_prefix(b"ends ")?)
}

// The words behind the end that a line names.
fn request(second: bool, words: &[u8], bytes: &mut [u8]) -> Option<Asked>
    ensures { (result, bytes.new) ≡ handed_back (request_of second words.now (length bytes.old)) bytes.old }
{
    if let Some(text) = words.strip_prefix(b"send ") {
        return given(second, Request::Call(Verb::SendData), text, bytes);
    }
    if let Some(text) = words.strip_prefix(b"take ") {
        return take(second, text, bytes);
    }
    if let Some(text) = words.strip_prefix(b"read ") {
        return read(second, text);
    }
    words_alone(second, words)
}

// A line without its 0A. The bytes that it gives, 1 to 2,048, are written at the front of `bytes`, and a line that gives
// more than there are cells is bad; the other cells keep what they had.
pub fn call_line(line: &[u8], bytes: &mut [u8]) -> Option<Asked>
    ensures { (result ≡ parsed_of line.now (length bytes.old))
        × (bytes.new ≡ cells_of line.now bytes.old) }
{
    if let Some(words) = line.strip_prefix(b"1 ") {
        return request(false, words, bytes);
    }
    if let Some(words) = line.strip_prefix(b"2 ") {
        return request(true, words, bytes);
    }
    None
}
