//! `Lk`: a link with its texts (mdoc(7), "Lk").

ghost use Rattle.std.specs.Prelude.{◌≤◌, ◌++◌, None, length};
ghost use Rattle.page_core_base.specs.laws.Views.{Came};
ghost use Rattle.page_roff_syntax.specs.laws.Views.{argument_view};
ghost use Rattle.page_sets_lines.specs.laws.Views.{ArgumentFits};
ghost use Rattle.page_sets_mdoc_lines.specs.machine.Cursors.{IsCursorOf};
ghost use Rattle.page_sets_mdoc_lines.specs.laws.Views.{AreIn, words_view};
ghost use Rattle.page_sets_mdoc_words.specs.Inlines as inlines;
ghost use Rattle.page_sets_mdoc_words.specs.Inlines.{printed};

use crate::plain::give_printed;
use crate::printed::{give_generated, give_line_step, give_word};
use page_core_base::{Font, LINE, Place};
use page_roff_syntax::Argument;
use page_sets_lines::{EventTaker, GeneratedText, Join, LineStep};
use page_sets_mdoc_lines::{MacroWords, Words, is_real};

// An address, after its texts.
fn give_address<'a, O: EventTaker<'a>>(
    out: &mut O,
    place: Place,
    uri: Argument<&'a [u8]>,
    text: &'a [u8],
    texts: Words,
)
    requires short { length text.now ≤ LINE }
    requires within { IsCursorOf text.now texts.cursor }
    requires fits { ArgumentFits (argument_view uri) }
    ensures { Came O.left out.old
        (inlines.address place (argument_view uri.entry) (words_view text.now texts)) out.new }
{
    let mut left = texts;
    let Some(first) = left.read(text) else {
        give_line_step(out, place, LineStep::Uri(uri));
        return;
    };
    give_word(out, place.line, Some(Font::I), first);
    give_printed(out, place.line, Some(Font::I), text, left);
    give_generated(
        out,
        place,
        GeneratedText::Colon,
        None,
        Join::Glued,
        Join::Apart,
    );
    give_line_step(out, place, LineStep::Uri(uri));
}

// The words of a link up to its closing delimiters: the first that is no delimiter is the address.
fn give_link_words<'a, O: EventTaker<'a>>(out: &mut O, place: Place, text: &'a [u8], words: Words)
    requires short { length text.now ≤ LINE }
    requires within { IsCursorOf text.now words.cursor }
    ensures { Came O.left out.old (inlines.link_words place (words_view text.now words)) out.new }
{
    let mut left = words;
    while let Some(word) = left.read(text) {
        if is_real(word) {
            give_address(out, place, word, text, left);
            return;
        }
        give_word(out, place.line, None, word);
    }
}

/// A link, and the closing delimiters at the end.
pub(crate) fn give_link<'a, O: EventTaker<'a>>(
    out: &mut O,
    place: Place,
    text: &'a [u8],
    words: &MacroWords<'a>,
)
    requires short { length text.now ≤ LINE }
    requires stand { AreIn text.now words.now }
    ensures { Came O.left out.old (inlines.link_words place (words_view text.now words.now.inside)
        ++ printed place.line None (words_view text.now words.now.outside)) out.new }
{
    give_link_words(out, place, text, words.inside);
    give_printed(out, place.line, None, text, words.outside);
}
