//! The glyphs that have a name in mandoc_char(7), how characters are spelled in ASCII, and what characters and glyphs print.
//!
//! It is below filling, which prints them, and below numbers, which count their columns.
//!
//! Read first: `glyph` and `spelling` below, with the table in `specs/Glyphs.antt`; then `printing.rt`.
//!
//! Proved: `glyph`, `spelling`, `printed_char`, `printed_glyph`: the glyph of a name, the spelling in ASCII of a character, and what each prints in
//! an output, are those of one table (`specs/Glyphs.antt`), with which the rows of the program are compared.
#![tactic(auto)]

ghost use Rattle.std.specs.Prelude.{◌≡◌, option_map};
ghost use Rattle.page_core_tables.specs.Glyphs.{glyph_of, spelling_of, first_spelling, table};
ghost use Rattle.page_core_tables.specs.laws.Views.{symbol_of};

mod printing;
mod rows;

pub use printing::{Printed, char_columns, printed_char, printed_glyph};
pub use rows::Glyph;

/// What a name stands for, as `em` in `\(em`: mandoc_char(7).
pub fn glyph(name: &[u8]) -> Option<Glyph>
    ensures { option_map symbol_of result ≡ glyph_of name.now }
{
    if name.len() != 2 {
        return None;
    }
    rows::find(rows::by_name(), rows::name_key(name[0], name[1]))
}

/// The spelling of a character in ASCII, empty where it has none: mandoc_char(7). From a blank to
/// `~` it is the character itself.
pub fn spelling(c: char) -> &'static str
    ensures { result.now ≡ spelling_of c }
{
    match c {
        ' '..='~' => rows::ascii(c),
        _ => listed_spelling(c),
    }
}

// The spelling in the table of names, empty where it has none.
fn listed_spelling(c: char) -> &'static str
    ensures { result.now ≡ first_spelling c table }
{
    match rows::find(rows::by_code(), c as u32) {
        Some(found) => found.ascii,
        None => "",
    }
}
