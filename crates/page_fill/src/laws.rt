//! Laws of filling (roff(7), "Filling and adjusting").

ghost use Rattle.std.specs.Prelude.{◌≡◌, ℕ, ◌+◌, ◌<◌, ◌≤◌, Bool, true, false, List, [], ◌∷◌, ◌++◌, length, IsUtf8};
ghost use Rattle.page_core_base.specs.Rows.{nothing, join, Item, shown};
ghost use Rattle.page_core_base.specs.declared.cells.Cell.{Cell};
ghost use Rattle.page_core_base.specs.declared.cells.Font.{Font};
ghost use Rattle.page_core_base.specs.declared.pieces.Piece.TheVariants.{Text, Blank, Glue, Split};
ghost use Rattle.page_core_base.specs.declared.places.Place.{Place};
ghost use Rattle.page_core_base.specs.declared.limits.TheConstants.{CELLS};
ghost use Rattle.page_fill_rows.specs.laws.Views.{IsHeld};
ghost use Rattle.page_fill.specs.laws.Views.{is_sound};
ghost use Rattle.page_fill.specs.Words as edges;
ghost use Rattle.page_fill.specs.declared.edges.FillEdge.{FillEdge};
ghost use Rattle.page_fill_cells.specs.Cells.{cells_of};
ghost use Rattle.page_fill_rows.specs.OpenRows as open_rows;
ghost use Rattle.page_core_base.specs.laws.Views.{is_printable_ascii};
ghost use Rattle.page_fill.specs.machine.Words.{laid_items};
ghost use Rattle.page_fill.specs.Filled.{one_word};
ghost use Rattle.page_fill_rows.specs.OpenRows.{Sheet};
ghost use Rattle.page_fill.specs.Filling as filling;
ghost use Rattle.page_fill.specs.machine.Words as row;

/// What a filler lays piece by piece is what the definition says of the whole list: pieces and the messages among them are groups of
/// words, which fill rows, and what is between such groups; and a list may be cut anywhere. So it is at each edge that a page comes
/// to: the premises on the sheet and the open word hold from the start of a page on.
pub fn words_law()
    ensures items { (e : FillEdge) (items : List Item) → IsHeld e.sheet → is_sound e.word ≡ true
        → laid_items e items ≡ filling.filled e items }
    ensures cut { (e : FillEdge) (above below : List Item) → IsHeld e.sheet → is_sound e.word ≡ true
        → filling.filled e (above ++ below) ≡ join (filling.filled e above) (filling.filled (filling.filled e above).edge below) }
    ensures held { (e : FillEdge) (items : List Item) → IsHeld e.sheet → is_sound e.word ≡ true
        → IsHeld (filling.filled e items).edge.sheet × (is_sound (filling.filled e items).edge.word ≡ true) }
    ensures end { (e : FillEdge) → IsHeld e.sheet → is_sound e.word ≡ true
        → IsHeld (filling.row_end e).edge.sheet × (is_sound (filling.row_end e).edge.word ≡ true) }
    ensures start { (width : ℕ) → IsHeld (open_rows.fresh width) × (is_sound edges.no_word ≡ true) }
{}

/// Texts that are glued are one word, whatever blanks are between them.
pub fn glue_law()
    ensures { (e : FillEdge) (a b : List ℕ) (font : Font) (place : Place) (n : ℕ) (has_tab : Bool)
        → e.word.is_joined ≡ false → IsUtf8 a → IsUtf8 b → 0 < length a
        → filling.filled e (shown (Text a font place) ∷ shown (Blank n has_tab) ∷ shown Glue ∷ shown (Text b font place) ∷ [])
        ≡ filling.filled e (shown (Text (a ++ b) font place) ∷ []) }
{}

/// A row takes the next word with its blanks where margin and columns stay within the width; else the row ends before the word, which
/// begins the next row. A row's first word is taken whatever its columns are, up to `CELLS` cells: so the columns of a filled row pass
/// the width only where its first word alone does.
pub fn word_law()
    ensures fits { (s : Sheet) (n : ℕ) (cells : List Cell) (place : Place)
        → 0 < length s.cells → length s.cells + n + length cells ≤ CELLS
        → s.margin + open_rows.columns s.cells + n + open_rows.columns cells ≤ s.width
        → one_word s (row.word_of_cells n cells place) ≡ nothing (row.with_word s n cells) }
    ensures passes { (s : Sheet) (n : ℕ) (cells : List Cell) (place : Place)
        → s.literal ≡ false → 0 < length s.cells → length s.cells + n + length cells ≤ CELLS
        → s.margin + open_rows.columns s.cells + n ≤ s.width
        → s.width < s.margin + open_rows.columns s.cells + n + open_rows.columns cells
        → one_word s (row.word_of_cells n cells place) ≡ row.word_wrapped s n cells }
    ensures blanks_pass { (s : Sheet) (n : ℕ) (cell : Cell) (cells : List Cell) (place : Place)
        → s.literal ≡ false → 0 < length s.cells → length s.cells + n ≤ CELLS
        → s.width < s.margin + open_rows.columns s.cells + n → 0 < n → length (cell ∷ cells) ≤ CELLS
        → one_word s (row.word_of_cells n (cell ∷ cells) place)
        ≡ row.word_wrapped s (row.fitting s) (cell ∷ cells) }
    ensures first { (s : Sheet) (n : ℕ) (cell : Cell) (cells : List Cell) (place : Place)
        → length s.cells ≡ 0 → length (cell ∷ cells) ≤ CELLS
        → one_word s (row.word_of_cells n (cell ∷ cells) place)
        ≡ nothing (row.word_first s (cell ∷ cells)) }
{}

/// A row takes the next part of its last word where margin and columns stay within the width; else the row ends before that part, which
/// begins the next row. So a word of two parts is in the row whole, with its last part at the second one, or the row ends between them.
pub fn part_law()
    ensures fits { (e : FillEdge) (part : List ℕ) (font : Font) (place : Place)
        → e.word.is_joined ≡ true → e.sheet.literal ≡ false → 0 < length e.sheet.cells
        → is_printable_ascii part ≡ true → 0 < length part → length e.sheet.cells + length part ≤ CELLS
        → e.sheet.margin + open_rows.columns e.sheet.cells + length part ≤ e.sheet.width
        → filling.filled e (shown Split ∷ shown (Text part font place) ∷ [])
        ≡ edges.next_edge e e.word (nothing (row.with_word e.sheet 0 (cells_of font part))) }
    ensures passes { (e : FillEdge) (part : List ℕ) (font : Font) (place : Place)
        → e.word.is_joined ≡ true → e.sheet.literal ≡ false → 0 < length e.sheet.cells
        → is_printable_ascii part ≡ true → 0 < length part → length e.sheet.cells + length part ≤ CELLS
        → e.sheet.margin + open_rows.columns e.sheet.cells ≤ e.sheet.width
        → e.sheet.width < e.sheet.margin + open_rows.columns e.sheet.cells + length part
        → filling.filled e (shown Split ∷ shown (Text part font place) ∷ [])
        ≡ edges.next_edge e e.word
        (row.word_wrapped e.sheet 0 (cells_of font part)) }
    ensures whole { (e : FillEdge) (a b : List ℕ) (font : Font) (place : Place)
        → e.word.is_joined ≡ false → e.word.has_tab ≡ false → e.sheet.literal ≡ false → 0 < length e.sheet.cells
        → is_printable_ascii a ≡ true → 0 < length a → is_printable_ascii b ≡ true → 0 < length b
        → length e.sheet.cells + e.word.blanks + length a + length b ≤ CELLS
        → e.sheet.margin + open_rows.columns e.sheet.cells + e.word.blanks + length a + length b ≤ e.sheet.width
        → filling.filled e (shown (Text a font place) ∷ shown Split ∷ shown (Text b font place) ∷ [])
        ≡ edges.next_edge e (edges.begun_word false) (nothing (row.with_word
        (row.with_word e.sheet e.word.blanks (cells_of font a)) 0 (cells_of font b))) }
    ensures cut { (e : FillEdge) (a b : List ℕ) (font : Font) (place : Place)
        → e.word.is_joined ≡ false → e.word.has_tab ≡ false → e.sheet.literal ≡ false → 0 < length e.sheet.cells
        → is_printable_ascii a ≡ true → 0 < length a → is_printable_ascii b ≡ true → 0 < length b
        → length e.sheet.cells + e.word.blanks + length a + length b ≤ CELLS
        → e.sheet.margin + open_rows.columns e.sheet.cells + e.word.blanks + length a ≤ e.sheet.width
        → e.sheet.width < e.sheet.margin + open_rows.columns e.sheet.cells + e.word.blanks + length a + length b
        → filling.filled e (shown (Text a font place) ∷ shown Split ∷ shown (Text b font place) ∷ [])
        ≡ edges.next_edge e (edges.begun_word false) (row.word_wrapped
        (row.with_word e.sheet e.word.blanks (cells_of font a)) 0 (cells_of font b)) }
{}
