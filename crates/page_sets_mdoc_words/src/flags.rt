//! `Fl`: flags, each with a dash before it (mdoc(7), "Fl").

ghost use Rattle.std.specs.Prelude.{◌≤◌, length};
ghost use Rattle.page_core_base.specs.laws.Views.{Came};
ghost use Rattle.page_sets_mdoc_lines.specs.machine.Cursors.{IsCursorOf};
ghost use Rattle.page_sets_mdoc_lines.specs.laws.Views.{words_view};
ghost use Rattle.page_sets_mdoc_words.specs.Inlines as inlines;

use crate::printed::{give_generated, give_word};
use page_core_base::{Font, LINE};
use page_sets_lines::{EventTaker, GeneratedText, Join, word_place};
use page_sets_mdoc_lines::{Words, is_real};

/// A dash before each word that is no delimiter.
pub(crate) fn give_flags<'a, O: EventTaker<'a>>(
    out: &mut O,
    number: u32,
    text: &'a [u8],
    words: Words,
)
    requires short { length text.now ≤ LINE }
    requires within { IsCursorOf text.now words.cursor }
    ensures { Came O.left out.old (inlines.flags number (words_view text.now words)) out.new }
{
    let mut left = words;
    while let Some(word) = left.read(text) {
        if is_real(word) {
            let (place, dash) = (word_place(number, word), GeneratedText::Dash);
            give_generated(out, place, dash, Some(Font::B), Join::Apart, Join::Glued);
            give_word(out, number, Some(Font::B), word);
        } else {
            give_word(out, number, None, word);
        }
    }
}
