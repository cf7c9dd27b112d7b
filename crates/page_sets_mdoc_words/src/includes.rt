//! `In`: a file of declarations (mdoc(7), "In").

ghost use Rattle.std.specs.Prelude.{◌≤◌, length};
ghost use Rattle.page_core_base.specs.laws.Views.{Came};
ghost use Rattle.page_sets_mdoc_lines.specs.machine.Cursors.{IsCursorOf};
ghost use Rattle.page_sets_mdoc_lines.specs.laws.Views.{words_view};
ghost use Rattle.page_sets_mdoc_words.specs.Sentences.{include_events};

use crate::plain::give_printed;
use crate::printed::{give_generated, give_line_step, give_word};
use page_core_base::{LINE, Place};
use page_sets_lines::{EventTaker, GeneratedText, Join, LineStep, SynopsisStep};
use page_sets_mdoc_lines::{Words, is_real};

/// Gives the words of `In`: the first that is no delimiter is a file, which is in angles.
pub fn give_include<'a, O: EventTaker<'a>>(out: &mut O, place: Place, text: &'a [u8], words: Words)
    requires short { length text.now ≤ LINE }
    requires within { IsCursorOf text.now words.cursor }
    ensures { Came O.left out.old (include_events place (words_view text.now words)) out.new }
{
    let mut left = words;
    while let Some(word) = left.read(text) {
        if is_real(word) {
            let include = LineStep::Synopsis(SynopsisStep::Include);
            let (opening, closing) = (GeneratedText::OpenAngle, GeneratedText::CloseAngle);
            give_line_step(out, place, include);
            give_generated(out, place, opening, None, Join::Apart, Join::Glued);
            give_word(out, place.line, None, word);
            give_generated(out, place, closing, None, Join::Glued, Join::Apart);
            give_printed(out, place.line, None, text, left);
            return;
        }
        give_word(out, place.line, None, word);
    }
}
