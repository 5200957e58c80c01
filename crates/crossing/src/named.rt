// A named case as one text: its name on the first line, then its script, a line `=`, and the answers that the script must have.
use crate::run::answers_as;

// What follows the first line, run. No script has the byte `=`. It is not inlined: its frame holds the cells of the lines, and `goes`
// would touch all of that frame for each name that it compares.
#[inline(never)]
fn script_goes(case: &[u8]) -> bool {
    let Some(bar) = case.iter().position(|byte| *byte == b'=') else {
        return false;
    };
    case[bar..]
        .get(2..)
        .is_some_and(|expected| answers_as(&case[..bar], expected))
}

// Whether the case has that name and its script is answered as it says.
pub fn goes(name: &[u8], case: &[u8]) -> bool {
    let Some(end) = case.iter().position(|byte| *byte == b'\n') else {
        return false;
    };
    name == &case[..end] && script_goes(&case[end + 1..])
}
