// Six numbers of a first line: all are numbers, or the line is bad.
ghost use Rattle.std.specs.Prelude.{◌≡◌};
ghost use Rattle.script.specs.FirstLine.{sizes_of};

use crate::Sizes;
use crate::text_parts::{behind_word, word};
use digits::decimal_read::number;

// Each number ends at the next blank, the sixth with the text.
#[tactic(auto, unfolding(crate::specs::FirstLine::sizes_of))]
pub(crate) fn sizes(text: &[u8]) -> Option<Sizes>
    ensures { result ≡ sizes_of text.now }
{
    let text2 = behind_word(text);
    let text3 = behind_word(text2);
    let text4 = behind_word(text3);
    let text5 = behind_word(text4);
    let text6 = behind_word(text5);
    Some(Sizes {
        window12: number(word(text))?,
        max12: number(word(text2))?,
        window21: number(word(text3))?,
        max21: number(word(text4))?,
        inbox1: number(word(text5))?,
        inbox2: number(text6)?,
    })
}
