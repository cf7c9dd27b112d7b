//! The name of the manual: the first word of the first `Nm` that has one, which each `Nm` without words prints (mdoc(7), `Nm`).
ghost use Rattle.std.specs.Prelude.{◌≡◌, [], Some};
ghost use Rattle.page_core_base.specs.laws.Views.{Came};
ghost use Rattle.page_roff_syntax.specs.laws.Views.{argument_view};
ghost use Rattle.page_sets_lines.specs.laws.Views.{FitsAt};
ghost use Rattle.page_scopes_phrases.specs.Names as names;
ghost use Rattle.page_scopes_phrases.specs.laws.Views.{GivesOutcome, phrase_view};
ghost use Rattle.page_scopes_phrases.specs.Phrases.{own_phrase};
ghost use Rattle.page_core_base.specs.declared.cells.Font.TheVariants.{B};
ghost use Rattle.page_sets_lines.specs.declared.events.Join.TheVariants.{Apart};
ghost use Rattle.page_sets_lines.specs.declared.events.Role.TheVariants.{Name};

use crate::kept_words::{give_kept_gap, give_name, report_cut};
use crate::phrases::{Phrase, give_phrase, own_fonts};
use crate::{Formatting, KeptText, ManualName};
use page_core_base::{Font, NoteKind, Piece, PieceOut, Place};
use page_roff_syntax::Argument;
use page_scopes_words::{ends_sentence, report};
use page_sets_lines::{Join, Role};

// Keeps a word of `Nm` at a column, unless there is a name.
#[inline(never)]
fn keep_word<O: PieceOut>(
    out: &mut O,
    place: Place,
    argument: Argument<&[u8]>,
    name: &mut Option<ManualName>,
)
    ensures came { Came O.left out.old (names.name_notes place.line (Name place.column) (argument_view argument.entry) name.old) out.new }
    ensures name { name.new ≡ names.named (Name place.column) (argument_view argument.entry) name.old }
{
    if name.is_none() {
        report_cut(out, place, argument);
        *name = Some(ManualName::of(argument));
    }
}

/// Keeps a word as the name of the manual, where it is a name and there is none yet.
#[inline(always)]
pub fn keep_name<O: PieceOut>(
    out: &mut O,
    line: u32,
    role: Role,
    argument: Argument<&[u8]>,
    name: &mut Option<ManualName>,
)
    ensures came { Came O.left out.old (names.name_notes line role (argument_view argument.entry) name.old) out.new }
    ensures name { name.new ≡ names.named role (argument_view argument.entry) name.old }
{
    if let Role::Name { column } = role {
        keep_word(out, Place { line, column }, argument, name);
    }
}

// A word of no bytes, in the place of a name.
fn nameless(place: Place) -> Phrase<&'static [u8]>
    ensures seen { phrase_view result ≡ own_phrase place [] (Some B) Apart Apart }
    ensures fits { FitsAt result.column result.text.now }
{
    Phrase::own(place, b"", Some(Font::B), Join::Apart, Join::Apart)
}

// Gives the word of a manual without a name.
#[tactic(auto, unfolding(crate::specs::Names::missing_name))]
fn give_nameless<O: PieceOut>(out: &mut O, place: Place, state: &mut Formatting)
    ensures { GivesOutcome O.left out.old (names.missing_name place state.old) out.new state.new }
{
    report(out, NoteKind::MissingName, place, b"");
    give_phrase(out, place.line, &nameless(place), state);
    state.line.is_sentence = ends_sentence(state.line.ends_blank, b"");
}

// A name of no bytes is a text without characters.
fn give_empty<O: PieceOut>(out: &mut O, place: Place, name: &KeptText)
    ensures { Came O.left out.old (names.empty_items place name.now) out.new }
{
    if name.text.text().is_empty() {
        out.give(Piece::Text {
            text: b"",
            font: Font::B,
            place,
        });
    }
}

// Whether the blanks before a name are cells.
fn has_gap_cells(state: &Formatting) -> bool
    ensures { result ≡ names.has_gap_cells state.now }
{
    state.context.is_literal.value && (state.line.is_after_word && state.next_gap() > 0)
}

// Gives a name in bold.
#[tactic(auto, unfolding(crate::specs::Names::name_word))]
fn give_name_word<O: PieceOut>(out: &mut O, place: Place, name: &ManualName, state: &mut Formatting)
    ensures { GivesOutcome O.left out.old (names.name_word place name.now state.old) out.new state.new }
{
    let is_literal = state.context.is_literal.value;
    let gap = state.next_gap();
    let text = name.kept().text.text();
    give_kept_gap(out, state, place);
    give_empty(out, place, name.kept());
    let fonts = own_fonts(Some(Font::B), state.context.fonts);
    give_name(out, is_literal, gap.max(1), place, fonts, name);
    state.context.has_row = state.context.has_row
        || (has_gap_cells(state) || name.prints_cell(is_literal));
    state
        .heading
        .pass_text(state.context.part, false, gap, text);
    state.pass_kept(place);
    state.line.is_sentence = ends_sentence(false, text);
}

/// Gives the name of the manual.
pub fn give_manual_name<O: PieceOut>(
    out: &mut O,
    place: Place,
    name: &Option<ManualName>,
    state: &mut Formatting,
)
    ensures { GivesOutcome O.left out.old (names.manual_name place name.now state.old) out.new state.new }
{
    match name {
        Some(name) => give_name_word(out, place, name, state),
        None => give_nameless(out, place, state),
    }
}
