//! Words as they are printed, and macros that lack one (mdoc(7), "MACRO SYNTAX").

ghost use Rattle.std.specs.Prelude.{◌≤◌, ◌∷◌, length};
ghost use Rattle.page_core_base.specs.laws.Views.{Came};
ghost use Rattle.page_roff_syntax.specs.laws.Views.{argument_view};
ghost use Rattle.page_sets_lines.specs.laws.Views.{ArgumentFits};
ghost use Rattle.page_sets_mdoc_lines.specs.machine.Cursors.{IsCursorOf};
ghost use Rattle.page_sets_mdoc_lines.specs.laws.Views.{IsFirstKnown, words_view};
ghost use Rattle.page_sets_mdoc_words.specs.Inlines.{refused};
ghost use Rattle.page_sets_mdoc_words.specs.Inlines as printed;

use crate::printed::give_word;
use page_core_base::{Font, LINE, NoteKind, Place};
use page_roff_syntax::Argument;
use page_sets_lines::{EventKind, EventTaker, event_at};
use page_sets_mdoc_lines::{MacroWords, Words};

/// The name of a macro in its line.
#[derive(Clone, Copy)]
pub struct MacroName<'a> {
    pub place: Place,
    pub text: &'a [u8],
}

// Gives a word that was read, and then others, in a font, or in the font around them.
fn give_read<'a, O: EventTaker<'a>>(
    out: &mut O,
    number: u32,
    font: Option<Font>,
    text: &'a [u8],
    first: Argument<&'a [u8]>,
    others: Words,
)
    requires short { length text.now ≤ LINE }
    requires within { IsCursorOf text.now others.cursor }
    requires fits { ArgumentFits (argument_view first) }
    ensures { Came O.left out.old
        (printed.printed number font (argument_view first.entry ∷ words_view text.now others)) out.new }
{
    let mut next = Some(first);
    let mut left = others;
    while let Some(word) = next {
        give_word(out, number, font, word);
        next = left.read(text);
    }
}

/// Gives all words in a font, or in the font around them.
pub fn give_printed<'a, O: EventTaker<'a>>(
    out: &mut O,
    number: u32,
    font: Option<Font>,
    text: &'a [u8],
    words: Words,
)
    requires short { length text.now ≤ LINE }
    requires within { IsCursorOf text.now words.cursor }
    ensures { Came O.left out.old (printed.printed number font (words_view text.now words)) out.new }
{
    let mut left = words;
    if let Some(first) = left.read(text) {
        give_read(out, number, font, text, first, left);
    }
}

/// Gives all words of a macro in a font, or in the font around them. The first of them is given as it was found.
#[inline(always)]
pub fn give_found<'a, O: EventTaker<'a>>(
    out: &mut O,
    number: u32,
    font: Option<Font>,
    text: &'a [u8],
    words: &MacroWords<'a>,
)
    requires short { length text.now ≤ LINE }
    requires first { IsFirstKnown text.now words.now }
    ensures { Came O.left out.old (printed.printed number font (words_view text.now words.now.all)) out.new }
{
    if let Some(first) = words.first {
        let others = Words {
            count: words.all.count - 1,
            cursor: first.after,
        };
        give_read(out, number, font, text, first.word, others);
    }
}

/// The message that a macro lacks a word, and then its words.
pub(crate) fn give_refused<'a, O: EventTaker<'a>>(
    out: &mut O,
    name: MacroName<'a>,
    text: &'a [u8],
    words: Words,
)
    requires short { length text.now ≤ LINE }
    requires within { IsCursorOf text.now words.cursor }
    ensures { Came O.left out.old
        (refused name.entry.place name.entry.text.now (words_view text.now words)) out.new }
{
    out.give(event_at(
        name.place,
        EventKind::Note {
            kind: NoteKind::EmptyMacro,
            detail: name.text,
            is_quoted: false,
            begins_body: false,
        },
    ));
    give_printed(out, name.place.line, None, text, words);
}
