//! Lines of tables, equations and pictures: rows of their characters as they are (roff(7), `TS`, `EQ` and `PS`).

ghost use Rattle.std.specs.Prelude.{[]};
ghost use Rattle.page_core_base.specs.laws.Views.{Came};
ghost use Rattle.page_scopes_phrases.specs.laws.Views.{GivesOutcome};
ghost use Rattle.page_scopes_nodes.specs.Leaves as raw;

use page_core_base::{Font, Piece, PieceOut, Place};
use page_scopes_phrases::Formatting;

// Gives characters up to a tab.
fn give_part<O: PieceOut>(out: &mut O, place: Place, font: Font, text: &[u8])
    ensures { Came O.left out.old (raw.part_items place font text.now) out.new }
{
    if !text.is_empty() {
        out.give(Piece::Text { text, font, place });
    }
}

// Gives characters as they are.
fn give_cells<O: PieceOut>(out: &mut O, place: Place, font: Font, text: &[u8])
    ensures { Came O.left out.old (raw.cells_after place font [] text.now) out.new }
{
    let mut start = 0;
    for (index, byte) in text.iter().enumerate() {
        if *byte == b'\t' {
            give_part(out, place, font, &text[start..index]);
            out.give(Piece::Tab { font, place });
            start = index + 1;
        }
    }
    give_part(out, place, font, &text[start..]);
}

/// Gives a line as it is, as a row of its own.
#[tactic(auto, unfolding(crate::specs::Leaves::raw_line))]
#[inline(never)]
pub fn give_raw_line<O: PieceOut>(out: &mut O, place: Place, text: &[u8], state: &mut Formatting)
    ensures { GivesOutcome O.left out.old (raw.raw_line place text.now state.old) out.new state.new }
{
    out.give(Piece::Break);
    out.give(Piece::Literal(true));
    give_cells(out, place, state.context.fonts.value.font, text);
    out.give(Piece::RowEnd);
    out.give(Piece::Literal(state.context.is_literal.value));
    state.context.has_row = state.context.has_row || !text.is_empty();
    state.heading.pass_other(state.context.part);
    state.has_content = true;
    state.end_row();
}
