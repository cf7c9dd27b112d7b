//! Words of a line, and words that a macro prints itself (man(7), mdoc(7); roff(7), "Macro syntax").
ghost use Rattle.std.specs.Prelude.{◌≡◌};
ghost use Rattle.page_core_base.specs.laws.Views.{Came};
ghost use Rattle.page_roff_syntax.specs.laws.Views.{argument_view};
ghost use Rattle.page_sets_lines.specs.laws.Views.{FitsAt};
ghost use Rattle.page_scopes_phrases.specs.LineWords.{text_outcome};
ghost use Rattle.page_scopes_phrases.specs.LineWords as lines;
ghost use Rattle.page_scopes_phrases.specs.laws.Views.{GivesOutcome, phrase_view};
ghost use Rattle.page_sets_lines.specs.laws.Events.{word_view};
ghost use Rattle.page_scopes_phrases.specs.Phrases.{own_phrase};
ghost use Rattle.page_sets_names.specs.Names.{generated_text, generated_spaced};

use crate::cells::{give_cells, in_columns};
use crate::{Formatting, Phrase, give_phrase};
use page_core_base::{Font, NoteKind, PieceOut, Place};
use page_roff_syntax::{Argument, Quoting};
use page_scopes_words::{ends_sentence, report};
use page_sets_lines::{GeneratedWord, Join, Role, Word};

// Reports a quote without its end.
fn report_quote<O: PieceOut>(out: &mut O, line: u32, quoting: Quoting, column: u32)
    ensures { Came O.left out.old (lines.quote_items line quoting column) out.new }
{
    if let Quoting::Unclosed = quoting {
        let place = Place {
            line,
            column: column.saturating_sub(1),
        };
        report(out, NoteKind::Unterminated, place, b"");
    }
}

// Whether a word is a whole line.
fn is_line(role: Role) -> bool
    ensures { result ≡ lines.is_line role }
{
    match role {
        Role::Line => true,
        Role::Argument | Role::Delimiter | Role::Name { .. } => false,
    }
}

/// An argument as a word, in a font of its own if it has one.
pub fn argument_word<'a>(
    font: Option<Font>,
    before: Join,
    argument: Argument<&'a [u8]>,
) -> Word<&'a [u8]>
    ensures { word_view result ≡ lines.argument_word font before (argument_view argument.entry) }
{
    Word {
        arg: argument,
        role: Role::Argument,
        font,
        before,
        after: Join::Apart,
    }
}

// A word of a line as a phrase.
fn word_phrase<'a>(word: &Word<&'a [u8]>) -> Phrase<&'a [u8]>
    ensures { phrase_view result ≡ lines.word_phrase (word_view word.now) }
{
    Phrase {
        text: word.arg.text,
        column: word.arg.column,
        is_quoted: word.arg.is_quoted(),
        is_line: is_line(word.role),
        is_written: true,
        font: word.font,
        before: word.before,
        after: word.after,
    }
}

// Gives the words of a phrase, in columns where these are open.
#[inline(always)]
fn give_parted<O: PieceOut>(out: &mut O, line: u32, phrase: &Phrase<&[u8]>, state: &mut Formatting)
    requires { FitsAt phrase.now.column phrase.now.text.now }
    ensures { GivesOutcome O.left out.old (text_outcome line (phrase_view phrase.now) state.old) out.new state.new }
{
    if in_columns(&state.context) && !phrase.text.is_empty() {
        give_cells(out, line, phrase, state);
    } else {
        give_phrase(out, line, phrase, state);
    }
}

/// Gives a word of a line.
#[inline(always)]
pub fn give_line_word<O: PieceOut>(
    out: &mut O,
    line: u32,
    word: &Word<&[u8]>,
    state: &mut Formatting,
)
    requires { FitsAt word.now.arg.column word.now.arg.text.now }
    ensures { GivesOutcome O.left out.old (lines.line_word line (word_view word.now) state.old) out.new state.new }
{
    report_quote(out, line, word.arg.quoting, word.arg.column);
    give_parted(out, line, &word_phrase(word), state);
    state.line.is_sentence = ends_sentence(state.line.ends_blank, word.arg.text);
}

// A word of a macro's own as a phrase.
fn generated_phrase(place: Place, has_spacing: bool, word: GeneratedWord) -> Phrase<&'static [u8]>
    ensures seen { phrase_view result ≡ own_phrase place (generated_text (generated_spaced has_spacing word.text)) word.font word.before word.after }
    ensures fits { FitsAt result.column result.text.now }
{
    let text = word.text.spaced(has_spacing).text().as_bytes();
    Phrase::own(place, text, word.font, word.before, word.after)
}

/// Gives a word of a macro's own, at the macro's place.
#[tactic(auto, unfolding(crate::specs::LineWords::generated_word))]
pub fn give_generated_word<O: PieceOut>(
    out: &mut O,
    place: Place,
    word: GeneratedWord,
    state: &mut Formatting,
)
    ensures { GivesOutcome O.left out.old (lines.generated_word place word state.old) out.new state.new }
{
    let phrase = generated_phrase(place, state.context.has_spacing.value, word);
    give_phrase(out, place.line, &phrase, state);
    state.line.is_sentence = word.text.ends_sentence()
        || (state.line.is_sentence && !word.text.is_word());
    state.line.joins_next = word.text.joins_next();
}
