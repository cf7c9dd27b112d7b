//! What comes after the words of a macro in its line (mdoc(7), "MACRO SYNTAX").

use crate::cursors::Cursor;
use crate::macros::Inline;
use page_roff_syntax::Argument;

/// A macro that a word of a line calls.
#[derive(Clone, Copy)]
pub struct Call<'a> {
    /// That word.
    pub name: Argument<&'a [u8]>,
    /// What it calls.
    pub inline: Inline,
    /// Where its line goes on after the name.
    pub after: Cursor,
}

/// What comes after the words of a macro in its line.
#[derive(Clone, Copy)]
pub enum Rest<'a> {
    /// A macro that the next word calls.
    Next(Call<'a>),
    /// The closing delimiters at the line's end, if there are any.
    Tail(Cursor),
}
