// A take on the expedited line.
ghost use Rattle.std.specs.Prelude.{◌≡◌, false};
ghost use Rattle.answers.specs.Refusals.{outcome_number};
ghost use Rattle.expedited.specs.Takes.{length_answered, field_refusal, headed_taken, unit_taken_by};

use crate::signals::unit_taken;
use crate::{Expedited, ExpeditedTake};
use answers::numbers::{BAD_HEADER, SHORT_UNIT};
use answers::questions::ask;
use answers::refusals::Refusal;
use answers::{
    Answer, ExpeditedAnswer, accept, expedited_answer, refuse, refuse_naming, rule_number,
};
use header::ExpeditedHeader;
use unit::expedited::{expedited_ru_good, read_expedited_unit};
use unit::sequence::next_number;
use unit::write::fixed_length;
use unit::{Heading, RU_START, Unreadable};

// Of a unit whose heading is read. A signal carries the next number, a response the number of this end's signal that is unanswered.
#[tactic(auto, unfolding(crate::specs::Takes::field_refusal))]
fn field_refusal(x: Expedited, heading: Heading<ExpeditedHeader>, ru: &[u8]) -> Result<(), Refusal>
    ensures { outcome_number result ≡ field_refusal x heading.header heading.number ru.now }
{
    let Heading { number, header } = heading;
    let signal = header.is_signal();
    let next = number == next_number(x.taken);
    let answers = x.unanswered & (number == x.sent);
    ask(expedited_ru_good(header, ru), Refusal::BadRu)?;
    ask(!signal | next, Refusal::BadNumber)?;
    ask(signal | answers, Refusal::BadResponse)
}

// The length of the unit that the take makes: a signal is answered, a response is not.
fn length_answered(h: ExpeditedHeader) -> usize
    ensures { result ≡ length_answered h }
{
    if h.is_signal() {
        fixed_length(ExpeditedHeader::SignalResponse)
    } else {
        0
    }
}

// A refused take tells of no signal and changes nothing.
fn refused_take(answer: Answer, x: Expedited) -> ExpeditedTake
    ensures { result ≡ record { answer = record { answer = answer; signalled = false }; next = x } }
{
    let told = ExpeditedAnswer {
        answer,
        signalled: false,
    };
    ExpeditedTake {
        answer: told,
        next: x,
    }
}

// Of a unit whose heading is read: it is asked, and then taken.
#[tactic(auto, unfolding(crate::specs::Takes::headed_taken))]
fn headed_take(x: Expedited, heading: Heading<ExpeditedHeader>, ru: &[u8]) -> ExpeditedTake
    ensures { result ≡ headed_taken x heading.header heading.number ru.now }
{
    if let Err(why) = field_refusal(x, heading, ru) {
        return refused_take(refuse(why.into()), x);
    }
    let made = accept(length_answered(heading.header));
    ExpeditedTake {
        answer: expedited_answer(made, heading.header.is_signal()),
        next: unit_taken(x, heading),
    }
}

// Takes one unit from the expedited line, or refuses it and changes nothing. With 21 it names the rule that is broken.
pub fn take_unit(x: Expedited, taken: &[u8]) -> ExpeditedTake
    ensures { result ≡ unit_taken_by x taken.now }
{
    match read_expedited_unit(taken) {
        Ok(heading) => headed_take(x, heading, &taken[RU_START..]),
        Err(Unreadable::TooShort) => refused_take(refuse(SHORT_UNIT), x),
        Err(Unreadable::Breaks(rule)) => {
            refused_take(refuse_naming(BAD_HEADER, rule_number(rule)), x)
        }
    }
}
