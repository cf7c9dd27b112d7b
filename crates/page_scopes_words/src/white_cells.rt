//! White space of a row that is kept as it is (roff(7), "nf").

ghost use Rattle.std.specs.Prelude.{◌≡◌, ◌==◌, [], ◌∷◌, if◌then◌else◌};
ghost use Rattle.page_core_base.specs.laws.Views.{Came, piece_of};
ghost use Rattle.page_core_base.specs.declared.cells.Font.TheVariants.{R};
ghost use Rattle.page_scopes_words.specs.Words as words;

use page_core_base::{Font, Piece, PieceOut, Place};

// What a blank or a tab is in a row that keeps it.
fn white_piece(place: Place, byte: u8) -> Piece<&'static [u8]>
    ensures { piece_of result ≡ (if byte == 9 then Piece.Tab R place else Piece.Text (32 ∷ []) R place) }
{
    if byte == b'\t' {
        return Piece::Tab {
            font: Font::R,
            place,
        };
    }
    Piece::Text {
        text: b" ",
        font: Font::R,
        place,
    }
}

/// Gives blanks and tabs as cells.
pub fn give_white_cells<O: PieceOut>(out: &mut O, place: Place, white: &[u8])
    ensures { Came O.left out.old (words.white_cells place white.now) out.new }
{
    for byte in white {
        out.give(white_piece(place, *byte));
    }
}

/// Whether there is a tab.
pub fn has_tab(white: &[u8]) -> bool
    ensures { result ≡ words.has_tab white.now }
{
    white.iter().any(|byte| *byte == b'\t')
}
