// Questions asked by number, for a row whose numbers are not all those of a `Refusal`. The crates here ask theirs by `questions::ask`.
ghost use Rattle.std.specs.Prelude.{◌≡◌};
ghost use Rattle.answers.specs.FirstNo.{then_ask};

// One question of a row. `before` is what those before it gave: a number stands; after none but yes, 0, this one is answered.
pub fn then_ask(before: u8, ok: bool, number: u8) -> u8
    ensures { result ≡ then_ask before ok number }
{
    if before != 0 {
        return before;
    }
    if ok { 0 } else { number }
}
