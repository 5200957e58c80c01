// Named cases of conversations, headers, tables in parts, turns and ends prepared, confirmations denied, and signals. A case is one
// text: its name, its script, a line `=`, and the answers that the script must have. A wrong length in the type of a case is refused
// by the compiler.
#![tactic(auto)]

mod conversations;
mod denied;
mod headers;
mod parts;
mod prepared;
mod signals;

use conversations::conversations;
use denied::denied;
use headers::headers;
use parts::parts;
use prepared::prepared;
use signals::signals;

// Whether the case of that name went as it should; an unknown name is bad.
pub fn run(name: &[u8]) -> bool {
    conversations(name)
        | headers(name)
        | parts(name)
        | prepared(name)
        | denied(name)
        | signals(name)
}
