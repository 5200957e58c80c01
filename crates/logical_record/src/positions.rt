// Record places: where a stream starts, where it stands with so many bytes left, and tests.
ghost use Rattle.std.specs.Prelude.{◌≡◌};
ghost use Rattle.logical_record.specs.Positions.{start, remaining, after_length, is_position, is_between, more_follows, is_whole};

use crate::Position;
use crate::length_field::GREATEST_LENGTH;

// What is left of the longest record past its LL.
const MOST_REMAINING: u16 = GREATEST_LENGTH - 2;

// Where a fresh stream stands.
pub fn start() -> Position
    ensures { result ≡ start }
{
    Position::Between(false)
}

// With n bytes of the record left; its end remembers what LL says of more parts.
pub(crate) fn remaining(n: u16, more: bool) -> Position
    ensures { result ≡ remaining n more }
{
    if n == 0 {
        Position::Between(more)
    } else {
        Position::Remaining(more, n)
    }
}

// Past an LL of n, which counts its own two bytes.
pub(crate) fn after_length(n: u16, more: bool) -> Position
    ensures { result ≡ after_length n more }
{
    remaining(n.saturating_sub(2), more)
}

// Is this one of the paper's record places? Any byte may be the first of LL; it is bound so that the proof knows it for a u8.
pub fn is_position(p: Position) -> bool
    ensures { result ≡ is_position p }
{
    match p {
        Position::Between(_) => true,
        Position::AfterFirst(_byte) => true,
        Position::Remaining(_, n) => (1 <= n) & (n <= MOST_REMAINING),
    }
}

// Is a record complete? Whether another part follows is another question.
pub fn is_between(p: Position) -> bool
    ensures { result ≡ is_between p }
{
    matches!(p, Position::Between(_))
}

// Does the record just completed say that another part follows? No unless one is complete.
pub fn more_follows(p: Position) -> bool
    ensures { result ≡ more_follows p }
{
    match p {
        Position::Between(bit) => bit,
        Position::AfterFirst(_) => false,
        // The bit of a part that has begun is known, and counts when the part has ended.
        Position::Remaining(_bit, _) => false,
    }
}

// Is nothing unfinished, neither a record nor a table? Asked at a mark, and before confirm, turn and end.
pub fn is_whole(p: Position) -> bool
    ensures { result ≡ is_whole p }
{
    is_between(p) & !more_follows(p)
}
