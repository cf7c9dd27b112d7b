//! Contexts: what the texts of a page are laid out by, what each scope begins with and gives but its words, and what stays after it (man(7), mdoc(7)).
//!
//! A scope that opens changes the context, and one that ends restores it; the layers above give words in it. Read `src/contexts.rt` first, then
//! `specs/Contexts.antt` (a context for each scope) and `Lists.antt` (the pieces). Which section a heading begins is read from what it prints:
//! `specs/Headings.antt`.
//!
//! Proved: `give_begin`, `give_end`, `margins_of`, the beginnings of `Context`, and `restore`: what each scope of man(7) and mdoc(7) begins with and
//! gives besides its words, and what stays after it (`specs/Contexts.antt`, `Lists.antt`). `HeadingSoFar`: the section that a heading begins, by the
//! characters that it prints (`specs/Headings.antt`). `constants_law`: the constants below are those that the definitions cite.
#![tactic(auto)]

ghost use Rattle.std.specs.Prelude.{◌≡◌};
ghost use Rattle.page_scopes_layout.specs.Contexts as contexts;
ghost use Rattle.page_scopes_layout.specs.Lists as lists;

mod begins;
mod contexts;
mod headings;
mod lists;
mod margins;
mod nodes;

pub use contexts::{Context, PagePart, PageSection, SeriesSoFar};
pub use headings::{HeadingSoFar, in_synopsis, is_heading};
pub use lists::{ColumnWidths, OpenList};
pub use margins::{Margins, hold, margins_of};
pub use nodes::{give_begin, give_end, give_margins};

/// The columns at most of a margin.
pub const MARGIN: u32 = 1_000;

/// The columns between two columns of a list (`-column`).
pub const COLUMN_GAP: u32 = 4;

/// The width of a list's column that is given none.
pub const COLUMN_WIDTH: u32 = 6;

/// The prevailing indent, in columns, of a section, a relative margin and a plain paragraph.
pub const PREVAILING: i32 = 7;

/// The constants are those of the definitions.
pub fn constants_law()
    ensures { (MARGIN ≡ contexts.MARGIN) × (COLUMN_GAP ≡ lists.COLUMN_GAP) × (COLUMN_WIDTH ≡ lists.COLUMN_WIDTH)
        × (PREVAILING ≡ contexts.PREVAILING) }
{}
