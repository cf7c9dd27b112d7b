//! The margins of a context after the end of a row (man(7)).

ghost use Rattle.page_core_base.specs.laws.Views.{Came};
ghost use Rattle.page_core_base.specs.Rows.{shown};
ghost use Rattle.page_core_base.specs.declared.pieces.Piece.TheVariants.{Break};
ghost use Rattle.std.specs.Prelude.{◌∷◌};
ghost use Rattle.page_scopes_layout.specs.Lists.{margin_items};

use page_core_base::{Piece, PieceOut};
use page_scopes_layout::{Context, give_margins};

/// Ends the row, and gives the margins of a context.
pub(crate) fn give_row_margins<O: PieceOut>(out: &mut O, context: &Context)
    ensures { Came O.left out.old (shown Break ∷ margin_items context.now) out.new }
{
    out.give(Piece::Break);
    give_margins(out, context);
}
