// Named cases of refusals. A case is one text: its name, its script, a line `=`, and the answers that the script must have.
// A wrong length in the type of a case is refused by the compiler.
#![tactic(auto)]

mod breaches;
mod error_due;
mod error_units;
mod expedited_units;
mod in_defer;
mod openings_refused;
mod own_calls;
mod requests;

use breaches::breaches;
use error_due::error_due;
use error_units::error_units;
use expedited_units::expedited_units;
use in_defer::in_defer;
use openings_refused::opening;
use own_calls::own_calls;
use requests::requests;

// Whether the case of that name went as it should; an unknown name is bad.
pub fn run(name: &[u8]) -> bool {
    opening(name)
        | own_calls(name)
        | breaches(name)
        | in_defer(name)
        | error_due(name)
        | error_units(name)
        | requests(name)
        | expedited_units(name)
}
