//! The end of a line (roff(7), `nf`, `\c`).

ghost use Rattle.std.specs.Prelude.{◌≡◌, ◌&&◌, not};
ghost use Rattle.page_scopes_nodes.specs.Ends as ends;
ghost use Rattle.page_scopes_phrases.specs.laws.Views.{GivesOutcome};

use page_core_base::{Piece, PieceOut};
use page_scopes_phrases::Formatting;

// Whether a line is a row that ends with it.
fn ends_row(state: &Formatting) -> bool
    ensures { result ≡ (state.now.context.is_literal.value && (not state.now.line.is_cut && state.now.line.has_row_words)) }
{
    state.context.is_literal.value && (!state.line.is_cut && state.line.has_row_words)
}

/// Ends a line: its row ends with it, where rows are kept.
#[inline(always)]
pub fn end_line<O: PieceOut>(out: &mut O, state: &mut Formatting)
    ensures { GivesOutcome O.left out.old (ends.line_end state.old) out.new state.new }
{
    if ends_row(state) {
        out.give(Piece::RowEnd);
    }
    state.end_line();
}
