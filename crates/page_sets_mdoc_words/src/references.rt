//! `Xr`: another manual (mdoc(7), "Xr").

ghost use Rattle.std.specs.Prelude.{◌≤◌, length};
ghost use Rattle.page_core_base.specs.laws.Views.{Came};
ghost use Rattle.page_sets_mdoc_lines.specs.machine.Cursors.{IsCursorOf};
ghost use Rattle.page_sets_mdoc_lines.specs.laws.Views.{words_view};
ghost use Rattle.page_sets_mdoc_words.specs.Inlines as inlines;

use crate::plain::give_printed;
use crate::printed::{give_generated, give_word};
use page_core_base::LINE;
use page_sets_lines::{EventTaker, GeneratedText, Join, word_place};
use page_sets_mdoc_lines::{Words, is_real};

// The section, in parentheses.
fn give_section<'a, O: EventTaker<'a>>(out: &mut O, number: u32, text: &'a [u8], words: Words)
    requires short { length text.now ≤ LINE }
    requires within { IsCursorOf text.now words.cursor }
    ensures { Came O.left out.old (inlines.section number (words_view text.now words)) out.new }
{
    let mut left = words;
    while let Some(word) = left.read(text) {
        if is_real(word) {
            let place = word_place(number, word);
            let (opening, closing) = (
                GeneratedText::OpenParenthesis,
                GeneratedText::CloseParenthesis,
            );
            give_generated(out, place, opening, None, Join::Glued, Join::Glued);
            give_word(out, number, None, word);
            give_generated(out, place, closing, None, Join::Glued, Join::Apart);
            give_printed(out, number, None, text, left);
            return;
        }
        give_word(out, number, None, word);
    }
}

/// The name of another manual, then its section in parentheses.
pub(crate) fn give_reference<'a, O: EventTaker<'a>>(
    out: &mut O,
    number: u32,
    text: &'a [u8],
    words: Words,
)
    requires short { length text.now ≤ LINE }
    requires within { IsCursorOf text.now words.cursor }
    ensures { Came O.left out.old (inlines.reference number (words_view text.now words)) out.new }
{
    let mut left = words;
    while let Some(word) = left.read(text) {
        give_word(out, number, None, word);
        if is_real(word) {
            give_section(out, number, text, left);
            return;
        }
    }
}
