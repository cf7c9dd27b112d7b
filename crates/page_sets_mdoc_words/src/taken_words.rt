//! Words that `An` and `Pf` take as they are (mdoc(7), "An" and "Pf").

ghost use Rattle.std.specs.Prelude.{◌≡◌, ◌≤◌, length, false};
ghost use Rattle.std.specs.List.{list_any};
ghost use Rattle.page_core_base.specs.laws.Views.{Came};
ghost use Rattle.page_roff_syntax.specs.laws.Views.{argument_view};
ghost use Rattle.page_sets_lines.specs.laws.Events.{given_view};
ghost use Rattle.page_sets_lines.specs.laws.Views.{GivenFits};
ghost use Rattle.page_sets_mdoc_lines.specs.machine.Cursors.{IsCursorOf};
ghost use Rattle.page_sets_mdoc_lines.specs.Parts.{is_real};
ghost use Rattle.page_sets_mdoc_lines.specs.laws.Views.{words_view};
ghost use Rattle.page_sets_mdoc_words.specs.Inlines as inlines;

use crate::plain::{MacroName, give_printed, give_refused};
use page_core_base::{Font, LINE, NoteKind, Place};
use page_roff_syntax::{Argument, Quoting};
use page_sets_lines::{EventKind, EventTaker, Join, Role, event_at, word_event};
use page_sets_mdoc_lines::Words;

// The message about an option that lacks its last quote.
fn give_missing_quote<'a, O: EventTaker<'a>>(out: &mut O, number: u32, option: Argument<&'a [u8]>)
    ensures { Came O.left out.old (inlines.missing_quote number (argument_view option.entry)) out.new }
{
    if let Quoting::Unclosed = option.quoting {
        let detail: &[u8] = &[];
        let place = Place {
            line: number,
            column: option.column.saturating_sub(1),
        };
        out.give(event_at(
            place,
            EventKind::Note {
                kind: NoteKind::Unterminated,
                detail,
                is_quoted: false,
                begins_body: false,
            },
        ));
    }
}

/// `An`: an author; its option prints nothing.
pub(crate) fn give_author<'a, O: EventTaker<'a>>(
    out: &mut O,
    name: MacroName<'a>,
    option: Option<Argument<&'a [u8]>>,
    text: &'a [u8],
    words: Words,
    has_real: bool,
)
    requires short { length text.now ≤ LINE }
    requires within { IsCursorOf text.now words.cursor }
    requires real { has_real ≡ list_any is_real (words_view text.now words) }
    ensures { Came O.left out.old (inlines.author name.entry.place name.entry.text.now
        (given_view option.entry) (words_view text.now words)) out.new }
{
    match option {
        Some(option) => {
            give_missing_quote(out, name.place.line, option);
            give_printed(out, name.place.line, Some(Font::R), text, words);
        }
        None if has_real => give_printed(out, name.place.line, Some(Font::R), text, words),
        None => give_refused(out, name, text, words),
    }
}

/// `Pf`: a word before the others, without a blank.
pub(crate) fn give_prefix<'a, O: EventTaker<'a>>(
    out: &mut O,
    name: MacroName<'a>,
    prefix: Option<Argument<&'a [u8]>>,
    text: &'a [u8],
    words: Words,
)
    requires short { length text.now ≤ LINE }
    requires within { IsCursorOf text.now words.cursor }
    requires fits { GivenFits (given_view prefix) }
    ensures { Came O.left out.old (inlines.prefix name.entry.place name.entry.text.now
        (given_view prefix.entry) (words_view text.now words)) out.new }
{
    match prefix {
        Some(prefix) => {
            let number = name.place.line;
            let role = Role::Argument;
            out.give(word_event(number, role, None, Join::Apart, Join::Glued, prefix));
            give_printed(out, number, None, text, words);
        }
        None => give_refused(out, name, text, words),
    }
}
