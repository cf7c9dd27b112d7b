//! Functions and their arguments (mdoc(7), "Fn", "Fa" and "Fo").

ghost use Rattle.std.specs.Prelude.{◌≤◌, ◌++◌, length};
ghost use Rattle.page_core_base.specs.laws.Views.{Came};
ghost use Rattle.page_sets_mdoc_lines.specs.machine.Cursors.{IsCursorOf};
ghost use Rattle.page_sets_mdoc_lines.specs.laws.Views.{AreIn, words_view};
ghost use Rattle.page_sets_mdoc_words.specs.Inlines as inlines;

use crate::plain::give_printed;
use crate::printed::{give_generated, give_line_step, give_word};
use page_core_base::{Font, LINE, Place};
use page_sets_lines::{
    BlockOpener, EventKind, EventTaker, GeneratedText, Join, LineStep, Opener, event_at,
};
use page_sets_mdoc_lines::{MacroWords, Words, is_real};

// The arguments of `Fn`: a comma before each but the first.
fn give_arguments<'a, O: EventTaker<'a>>(out: &mut O, place: Place, text: &'a [u8], words: Words)
    requires short { length text.now ≤ LINE }
    requires within { IsCursorOf text.now words.cursor }
    ensures { Came O.left out.old (inlines.arguments place (words_view text.now words)) out.new }
{
    let mut left = words;
    let mut is_first = true;
    while let Some(word) = left.read(text) {
        if is_real(word) {
            if !is_first {
                let comma = GeneratedText::Comma;
                give_generated(out, place, comma, None, Join::Glued, Join::Apart);
            }
            is_first = false;
        }
        give_word(out, place.line, Some(Font::I), word);
    }
}

// The name of a function, and then its arguments.
fn give_function_words<'a, O: EventTaker<'a>>(
    out: &mut O,
    place: Place,
    text: &'a [u8],
    words: Words,
)
    requires short { length text.now ≤ LINE }
    requires within { IsCursorOf text.now words.cursor }
    ensures { Came O.left out.old (inlines.function_words place (words_view text.now words)) out.new }
{
    let mut left = words;
    while let Some(word) = left.read(text) {
        give_word(out, place.line, Some(Font::B), word);
        if is_real(word) {
            let opening = GeneratedText::OpenParenthesis;
            give_generated(out, place, opening, None, Join::Glued, Join::Glued);
            give_arguments(out, place, text, left);
            return;
        }
    }
}

/// `Fn`: a function with its arguments; the closing delimiters at the end come after its end.
pub(crate) fn give_function<'a, O: EventTaker<'a>>(
    out: &mut O,
    place: Place,
    text: &'a [u8],
    words: &MacroWords<'a>,
)
    requires short { length text.now ≤ LINE }
    requires stand { AreIn text.now words.now }
    ensures { Came O.left out.old (inlines.function_words place (words_view text.now words.now.inside)
        ++ inlines.function_end place (words_view text.now words.now.outside)) out.new }
{
    give_function_words(out, place, text, words.inside);
    give_line_step(out, place, LineStep::FunctionEnd);
    give_printed(out, place.line, None, text, words.outside);
}

/// `Fa`: each word is the next argument of the function that is open.
pub(crate) fn give_next_arguments<'a, O: EventTaker<'a>>(
    out: &mut O,
    place: Place,
    text: &'a [u8],
    words: Words,
)
    requires short { length text.now ≤ LINE }
    requires within { IsCursorOf text.now words.cursor }
    ensures { Came O.left out.old (inlines.next_arguments place (words_view text.now words)) out.new }
{
    let mut left = words;
    while let Some(word) = left.read(text) {
        if is_real(word) {
            give_line_step(out, place, LineStep::NextArgument);
            give_word(out, place.line, Some(Font::I), word);
        } else {
            give_word(out, place.line, None, word);
        }
    }
}

/// `Fo`: the first word that is no delimiter is the name of a function that goes on over lines.
pub(crate) fn give_function_opened<'a, O: EventTaker<'a>>(
    out: &mut O,
    place: Place,
    text: &'a [u8],
    words: Words,
)
    requires short { length text.now ≤ LINE }
    requires within { IsCursorOf text.now words.cursor }
    ensures { Came O.left out.old (inlines.function_opened place (words_view text.now words)) out.new }
{
    let mut left = words;
    while let Some(word) = left.read(text) {
        if is_real(word) {
            let opener = BlockOpener::Function(word);
            out.give(event_at(place, EventKind::Open(Opener::Block(opener))));
            give_printed(out, place.line, None, text, left);
            return;
        }
        give_word(out, place.line, None, word);
    }
}
