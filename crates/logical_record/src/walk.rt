// The walk over the bytes of a stream, from one record place to another.
ghost use Rattle.std.specs.Prelude.{◌≡◌, true, ◌<◌, min, max};
ghost use Rattle.logical_record.specs.Length.{length_of};
ghost use Rattle.logical_record.specs.Walk.{passed, walk, is_good, place_or};
ghost use Rattle.logical_record.specs.DataAtOnce.{all_data, past_data};

use crate::length_field::length_of;
use crate::positions::{after_length, remaining};
use crate::{BadLength, Position};

// Past the two bytes of LL, which is met, and checked, with its second byte. A record forgets what the one before it said of more parts.
fn passed(high: u8, low: u8) -> Result<Position, BadLength>
    ensures { result ≡ passed (length_of high low) }
{
    let length = length_of(high, low)?;
    Ok(after_length(length.bytes, length.more))
}

// How many of `left` bytes belong to a record with n of its bytes left. One byte ends a forged record with none left.
fn data_passed(n: u16, left: usize) -> u16
    ensures { result ≡ min (max 1 n) left }
{
    left.min(n.max(1) as usize) as u16
}

// Do so many bytes all belong to the record that is begun?
fn all_data(from: Position, count: usize) -> bool
    ensures test { result ≡ all_data from count }
    ensures few { result ≡ true → count < 65536 }
{
    matches!(from, Position::Remaining(_, n) if 1 <= n && count <= n as usize)
}

// Past so many bytes of the record's data.
fn past_data(from: Position, count: u16) -> Position
    ensures { result ≡ past_data from count }
{
    if let Position::Remaining(more, n) = from {
        remaining(n.saturating_sub(count), more)
    } else {
        from
    }
}

// All bytes. The data of a record is passed at once, so the work grows with the number of records; so is an LL of which both bytes are
// there. Most units of a long record lie within it, and meet nothing.
pub fn walk_over(from: Position, bytes: &[u8]) -> Result<Position, BadLength>
    ensures { result ≡ walk from bytes.now }
{
    if all_data(from, bytes.len()) {
        return Ok(past_data(from, bytes.len() as u16));
    }
    let mut position = from;
    let mut left = bytes;
    while let [first, after @ ..] = left {
        match position {
            Position::Between(_) => {
                let [low, data @ ..] = after else {
                    return Ok(Position::AfterFirst(*first));
                };
                position = passed(*first, *low)?;
                left = data;
            }
            Position::AfterFirst(high) => {
                position = passed(high, *first)?;
                left = after;
            }
            Position::Remaining(more, n) => {
                let k = data_passed(n, left.len());
                position = remaining(n.saturating_sub(k), more);
                left = &left[k as usize..];
            }
        }
    }
    Ok(position)
}

// Every LL met is good.
pub fn is_good(walked: Result<Position, BadLength>) -> bool
    ensures { result ≡ is_good walked }
{
    walked.is_ok()
}

// The record place walked to; where an LL is bad, the place before.
pub fn place_or(before: Position, walked: Result<Position, BadLength>) -> Position
    ensures { result ≡ place_or before walked }
{
    walked.unwrap_or(before)
}
