// What a read may copy of the current record.
ghost use Rattle.std.specs.Prelude.{◌≡◌};
ghost use Rattle.logical_record.specs.RestOfRecord.{rest};

use crate::length_field::length_of;
use crate::{BadLength, Position};

// The rest of the current record, LL included, by the bytes held. Only the current record's LL is met.
pub fn rest_of_record(position: Position, held: &[u8]) -> Result<u16, BadLength>
    ensures { result ≡ rest position held.now }
{
    match (position, held) {
        (Position::Between(_), [high, low, ..]) => Ok(length_of(*high, *low)?.bytes),
        // One LL byte, or nothing.
        (Position::Between(_), _) => Ok(held.len() as u16),
        // The first LL byte is read already.
        (Position::AfterFirst(high), [low, ..]) => {
            let length = length_of(high, *low)?;
            Ok(length.bytes.saturating_sub(1))
        }
        (Position::AfterFirst(_), []) => Ok(0),
        (Position::Remaining(_, n), _) => Ok(n),
    }
}
