// Questions before each call, asked one by one: the first answered no refuses, and `?` asks no other.
ghost use Rattle.std.specs.Prelude.{◌≡◌};
ghost use Rattle.answers.specs.Refusals.{asked};

use crate::refusals::Refusal;

// One question. Answered no, the call is refused for this reason.
pub fn ask(ok: bool, why: Refusal) -> Result<(), Refusal>
    ensures { result ≡ asked ok why }
{
    if ok { Ok(()) } else { Err(why) }
}
