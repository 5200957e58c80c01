// What is proved of opening as a whole. The function does nothing; its contract is the claims, so that a check prints its name and fails if
// a proof goes.
ghost use Rattle.session.specs.BindClaims.{AsAsked, SameEnd, BytesOfNumbers};

// A session opened by its bytes.
pub fn opened_by_bytes()
    ensures as_asked { AsAsked }
    ensures same_end { SameEnd }
    ensures bytes_of_numbers { BytesOfNumbers }
{}
