// The text of a step.
use bench::{NotMade, Stepped, Told};
use report::answer_line::answer_line;
use report::other_lines::{line_full, nothing_waiting};
use script::Asked;

// The unit that was made stands at the front of `unit`, what a read copied at the front of `buffer`.
fn answer_text(asked: Asked, told: Told, unit: &[u8], buffer: &[u8], out: &mut [u8]) -> usize {
    let answer = told.answer;
    let Some(made) = unit.get(..answer.answer.unit) else {
        return 0;
    };
    let Some(copied) = buffer.get(..answer.copied) else {
        return 0;
    };
    answer_line(asked, answer, told.signalled, made, copied, out)
}

pub fn step_text(
    stepped: Result<Stepped, NotMade>,
    asked: Asked,
    unit: &[u8],
    buffer: &[u8],
    out: &mut [u8],
) -> usize {
    match stepped {
        Ok(made) => answer_text(asked, made.told, unit, buffer, out),
        Err(NotMade::NothingWaiting) => nothing_waiting(asked, out),
        Err(NotMade::Full) => line_full(asked, out),
    }
}
