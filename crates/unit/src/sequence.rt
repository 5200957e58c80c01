// Sequence numbers of requests.
ghost use Rattle.std.specs.Prelude.{◌≡◌};
ghost use Rattle.unit.specs.Sequence.{next_number};

// The number of the request after the one of this number. The number after 65,535 is 0.
pub fn next_number(number: u16) -> u16
    ensures { result ≡ next_number number }
{
    std::num::wrapping_add_u16(number, 1)
}
