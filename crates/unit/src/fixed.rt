// Units that hold no data: the RU of each goes by its header alone, on either line.
ghost use Rattle.std.specs.Prelude.{◌≡◌, ℕ, List};
ghost use Rattle.header.specs.ExpeditedHeader.{expedited_bytes};
ghost use Rattle.header.specs.Header.{header_bytes};
ghost use Rattle.header.specs.declared.HeaderBytes.{HeaderBytes};
ghost use Rattle.unit.specs.ExpeditedUnit.{expedited_made, expedited_made_is, expedited_ru};
ghost use Rattle.unit.specs.Ru.{fixed_ru};
ghost use Rattle.unit.specs.Unit.{bytes_made, cells_made, cells_made_is};

use header::{ExpeditedHeader, Header, HeaderBytes};

// The headers of a line, each with its bytes and its fixed RU.
pub trait FixedUnit: Copy {
    ghost bytes_of: { Self → HeaderBytes };

    ghost ru_of: { Self → List ℕ };

    // The buffer after the unit of this number and header is made at its front; as it was if it does not fit.
    ghost made_of: { ℕ → Self → List ℕ → List ℕ };

    fn header_bytes(self) -> HeaderBytes
        ensures { result ≡ bytes_of self };

    fn fixed_ru(self) -> &'static [u8]
        ensures { result.now ≡ ru_of self };

    ghost made_is: { (n : ℕ) (h : Self) (cells : List ℕ) → made_of n h cells ≡ bytes_made n (bytes_of h) (ru_of h) cells };
}

// A bid is LUSTAT 04 00 06 00 00, an error header 07 07 08 89 00 00 00, a grant 04, a bid refusal 08 13 00 00 04, a negative
// confirmation 08 46 00 00. Data has no fixed RU and gets the empty one, as a confirmation and a pacing response do.
impl FixedUnit for Header {
    ghost bytes_of = { header_bytes };

    ghost ru_of = { fixed_ru };

    ghost made_of = { λ n h cells. cells_made n h (fixed_ru h) cells };

    ghost made_is = { λ n h cells. cells_made_is n h (fixed_ru h) cells };

    fn header_bytes(self) -> HeaderBytes {
        HeaderBytes::from(self)
    }

    fn fixed_ru(self) -> &'static [u8] {
        match self {
            Header::Bid(_) => b"\x04\x00\x06\x00\x00",
            Header::ErrorDescription(_) => b"\x07\x07\x08\x89\x00\x00\x00",
            Header::PositiveBidResponse => b"\x04",
            Header::NegativeBidResponse => b"\x08\x13\x00\x00\x04",
            Header::NegativeConfirmation => b"\x08\x46\x00\x00",
            Header::Data(_) | Header::Confirmation | Header::PacingResponse => b"",
        }
    }
}

// A signal is SIG C9 00 01 00 00, its response C9.
impl FixedUnit for ExpeditedHeader {
    ghost bytes_of = { expedited_bytes };

    ghost ru_of = { expedited_ru };

    ghost made_of = { expedited_made };

    ghost made_is = { expedited_made_is };

    fn header_bytes(self) -> HeaderBytes {
        self.into()
    }

    fn fixed_ru(self) -> &'static [u8] {
        match self {
            ExpeditedHeader::Signal => b"\xC9\x00\x01\x00\x00",
            ExpeditedHeader::SignalResponse => b"\xC9",
        }
    }
}
