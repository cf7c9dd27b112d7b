//! Laws of indexes: what the test of a word says, and that a record that was written reads back.

ghost use Rattle.std.specs.Prelude.{◌≡◌, ℕ, List, ◌++◌, None, true, codes};
ghost use Rattle.std.specs.List.{flat_map};
ghost use Rattle.page_engine_index.specs.Entries.{Entry, index};
ghost use Rattle.page_engine_index.specs.Matches.{IsMatch, is_match};
ghost use Rattle.page_engine_index.specs.Records.{AreKept, entry_line};

use crate::records::FIRST_LINE;

/// A word matches a name where the test says so, and nowhere else: where it occurs in the name, but for the case of letters, with no
/// letter, digit or underscore on either side (whatis(1)).
pub fn match_law()
    ensures sound { (word : List ℕ) → (name : List ℕ) → is_match word name ≡ true → IsMatch word name }
    ensures complete { (word : List ℕ) → (name : List ℕ) → IsMatch word name → is_match word name ≡ true }
{}

/// The entries of an index that was written are those that it was written with, and no line of it is bad: of fields without a tab or a
/// line feed, on lines that are not too long.
pub fn read_back_law()
    ensures { (entries : List Entry) → AreKept entries
        → index (codes "whatis 2\n" ++ flat_map entry_line entries) ≡ record { entries = entries; bad = None } }
{}

/// The first line that an index is written with says the version that [`read_back_law`] speaks of.
pub fn first_line_law() -> &'static str
    ensures { result.now ≡ codes "whatis 2" }
{
    FIRST_LINE
}
