//! What opens and closes nothing (man(7), mdoc(7); roff(7)).

ghost use Rattle.std.specs.Prelude.{◌≡◌, None};
ghost use Rattle.page_core_base.specs.laws.Views.{Came};
ghost use Rattle.page_sets_lines.specs.laws.Views.{LeafFits};
ghost use Rattle.page_scopes_nodes.specs.Leaves as leaves;
ghost use Rattle.page_scopes_nodes.specs.Leaves.{given_rows, given_rows_notes};
ghost use Rattle.page_scopes_phrases.specs.laws.Views.{GivesOutcome};
ghost use Rattle.page_scopes_words.specs.Fonts.{set_to};
ghost use Rattle.page_sets_lines.specs.laws.Events.{leaf_view, text_view};
ghost use Rattle.page_scopes_phrases.specs.Phrases.{at_margins, in_context};

use crate::margins::give_row_margins;
use crate::requests::{give_given_rows, give_literal, give_request};
use crate::steps::give_step;
use page_core_base::{Font, NoteKind, Piece, PieceOut, Place};
use page_scopes_layout::Context;
use page_scopes_phrases::{
    Formatting, ManualName, give_generated_word, give_white_columns, in_columns,
};
use page_scopes_words::{Setting, give_white_cells, has_tab, report};
use page_sets_lines::Leaf;

// Gives a blank line.
fn give_blank_line<O: PieceOut>(out: &mut O, place: Place, state: &mut Formatting)
    ensures { GivesOutcome O.left out.old (leaves.blank_line place state.old) out.new state.new }
{
    if state.context.is_literal.value {
        out.give(Piece::RowEnd);
    } else {
        report(out, NoteKind::BlankFill, place, b"");
        out.give(Piece::Space(1));
    }
    state.has_content = true;
    state.end_row();
}

// Gives a line of blanks and tabs where rows are kept.
fn give_kept_line<O: PieceOut>(out: &mut O, place: Place, text: &[u8], state: &mut Formatting)
    ensures { GivesOutcome O.left out.old (leaves.kept_line place text.now state.old) out.new state.new }
{
    if in_columns(&state.context) && has_tab(text) {
        give_white_columns(out, text, state);
    } else {
        give_white_cells(out, place, text);
        state.context.has_row = state.context.has_row || !text.is_empty();
        state.line.has_row_words = true;
    }
}

// Gives a line of blanks and tabs, or of nothing.
fn give_wordless_line<O: PieceOut>(out: &mut O, place: Place, text: &[u8], state: &mut Formatting)
    ensures { let literal = state.old.context.is_literal.value
        in GivesOutcome O.left out.old (leaves.wordless_line literal place text.now state.old) out.new state.new }
{
    if state.context.is_literal.value {
        give_kept_line(out, place, text, state);
    } else if !text.is_empty() {
        out.give(Piece::Break);
        state.end_row();
    }
}

// Sets the distance of paragraphs: `PD`.
fn give_distance<O: PieceOut>(out: &mut O, place: Place, rows: Option<&[u8]>, context: &mut Context)
    ensures came { Came O.left out.old (given_rows_notes place (text_view rows.entry)) out.new }
    ensures context { context.new ≡ record context.old { distance = set_to (given_rows (text_view rows.entry)) } }
{
    let rows = give_given_rows(out, place, rows);
    context.distance = Setting::set_to(rows);
}

// The words of a font macro (`B`, `I`, `SM`, `SB`) begin, or end.
fn set_fonts(font: Option<Font>, state: &mut Formatting)
    ensures { state.new ≡ (leaves.fonts font state.old).state }
{
    match font {
        Some(font) => {
            state.line.fonts_before = Some(state.context.fonts);
            state.context = state.context.font_begun(font);
        }
        None => {
            state.context.fonts = state.line.fonts_before.unwrap_or(state.context.fonts);
            state.line.fonts_before = None;
        }
    }
}

// A further tag comes: `TQ`.
fn give_further_tag<O: PieceOut>(out: &mut O, state: &mut Formatting)
    ensures { GivesOutcome O.left out.old (at_margins (in_context (record state.old.context { hang = state.old.context.prevailing; first = None }) state.old)) out.new state.new }
{
    state.context.hang = state.context.prevailing;
    state.context.first = None;
    give_row_margins(out, &state.context);
    state.end_row();
}

/// Gives what a leaf gives, in the context of a page's body; the name is that of the manual.
#[tactic(auto, unfolding(crate::specs::Leaves::leaf_outcome))]
#[inline(never)]
pub fn give_leaf<O: PieceOut>(
    out: &mut O,
    place: Place,
    leaf: &Leaf<&[u8]>,
    name: &Option<ManualName>,
    state: &mut Formatting,
)
    requires { LeafFits (leaf_view leaf.now) }
    ensures { GivesOutcome O.left out.old (leaves.leaf_outcome place (leaf_view leaf.now) name.now state.old) out.new state.new }
{
    match *leaf {
        Leaf::BlankLine => give_blank_line(out, place, state),
        Leaf::Wordless(text) => give_wordless_line(out, place, text, state),
        Leaf::Request(request) => give_request(out, place, &request, state),
        Leaf::Prologue(..) => {}
        Leaf::Generated(word) => give_generated_word(out, place, word, state),
        Leaf::Example(begins) => give_literal(out, begins, state),
        Leaf::Distance(rows) => give_distance(out, place, rows, &mut state.context),
        Leaf::Fonts(font) => set_fonts(font, state),
        Leaf::FurtherTag => give_further_tag(out, state),
        Leaf::Step(step) => give_step(out, place, &step, name, state),
    }
}
