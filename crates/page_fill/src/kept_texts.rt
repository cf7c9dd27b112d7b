//! Characters of a row that is kept as it is, which are taken at once where they go on with its last word.

ghost use Rattle.std.specs.Prelude.{◌≡◌, ℕ, List, false, true};
ghost use Rattle.page_core_base.specs.Rows.{nothing};
ghost use Rattle.page_core_base.specs.declared.pieces.Piece.{Piece};
ghost use Rattle.page_fill.specs.laws.Views.{AreKept, can_keep, has_kept_room};
ghost use Rattle.page_fill.specs.machine.Fill as fill;

use crate::FillEdge;
use page_core_base::Font;

impl FillEdge {
    // Whether characters go on with the last word of a row that is kept as it is, and the row has room for them.
    #[inline(always)]
    fn has_kept_room(&self, text: &[u8]) -> bool
        ensures { result ≡ has_kept_room self.now text.now }
    {
        self.word.is_joined
            && self.sheet.is_literal()
            && !text.is_empty()
            && self.sheet.has_part_room(text.len())
    }

    /// Takes characters in a font, if they are printable ASCII and go on with the last word of a row that is kept as it is and has room for them.
    /// Says whether it took them.
    #[inline(always)]
    pub fn take_kept(&mut self, text: &[u8], font: Font) -> bool
        ensures answer { result ≡ can_keep self.old text.now }
        ensures kept { result ≡ true → (pieces : List (Piece (List ℕ))) → AreKept text.now font pieces → fill.laid self.old pieces ≡ nothing self.new }
        ensures same { result ≡ false → self.new ≡ self.old }
        ensures word { self.new.word ≡ self.old.word }
    {
        self.has_kept_room(text) && self.sheet.add_part(text, font)
    }
}
