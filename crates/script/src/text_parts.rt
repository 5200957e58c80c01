// Parts of a text.
ghost use Rattle.std.specs.Prelude.{◌≡◌};
ghost use Rattle.script.specs.TextParts.{word_of, behind_word};

use cells::find;

const BLANK: u8 = 0x20;

// The bytes before the first blank; where there is none, all.
pub(crate) fn word(text: &[u8]) -> &[u8]
    ensures { result.now ≡ word_of text.now }
{
    &text[..find(text, 0, text.len(), BLANK)]
}

// The bytes behind the first blank; where there is none, none.
pub(crate) fn behind_word(text: &[u8]) -> &[u8]
    ensures { result.now ≡ behind_word text.now }
{
    text.get(find(text, 0, text.len(), BLANK) + 1..)
        .unwrap_or(&[])
}
