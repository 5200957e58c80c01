// LL: what it says.
ghost use Rattle.std.specs.Prelude.{◌≡◌};
ghost use Rattle.logical_record.specs.Length.{length_in, length_of};

use crate::{BadLength, Length};

// LL alone, a record with no data.
const LEAST_LENGTH: u16 = 2;

// The weight of LL's top bit, which says that another part follows. The other 15 bits are the length.
const MORE_BIT: u16 = 32768;

pub(crate) const GREATEST_LENGTH: u16 = MORE_BIT - 1;

impl TryFrom<u16> for Length {
    type Error = BadLength;

    ghost try_from_gives = { λ ll result. result ≡ length_in ll };

    fn try_from(ll: u16) -> Result<Length, BadLength> {
        let bytes = ll % MORE_BIT;
        if LEAST_LENGTH <= bytes {
            Ok(Length {
                bytes,
                more: MORE_BIT <= ll,
            })
        } else {
            Err(BadLength)
        }
    }
}

pub(crate) fn length_of(high: u8, low: u8) -> Result<Length, BadLength>
    ensures { result ≡ length_of high low }
{
    Length::try_from(u16::from_be_bytes([high, low]))
}
