//! What is no scope: macros and requests that change what follows, and words that a macro prints itself (man(7),
//! mdoc(7), roff(7)).

use crate::events::Join;
use crate::line_steps::LineStep;
use page_core_base::Font;
use page_roff_syntax::Argument;
use page_sets_names::{GeneratedText, Prologue};

/// A request that changes rows; `W` is a text, a number in it still an expression.
#[derive(Clone, Copy)]
pub enum RequestLeaf<W> {
    /// `br`.
    Break,
    /// `sp`, with its rows.
    Space(Option<W>),
    /// `ft`, with the name of the font.
    Font(Option<Argument<W>>),
    /// `in`, with its shift.
    Shift(Option<W>),
    /// `nf` (true) and `fi` (false).
    Literal(bool),
}

/// A word that a macro prints itself, in a font of its own if it has one.
#[derive(Clone, Copy)]
pub struct GeneratedWord {
    pub text: GeneratedText,
    pub font: Option<Font>,
    pub before: Join,
    pub after: Join,
}

/// What is no scope; `W` is a text.
#[derive(Clone, Copy)]
pub enum Leaf<W> {
    /// A blank line.
    BlankLine,
    /// A text line without a word: blanks and tabs, or nothing.
    Wordless(W),
    Request(RequestLeaf<W>),
    /// A macro of the prologue, with the rest of its line.
    Prologue(Prologue, W),
    /// A word of the macro's own.
    Generated(GeneratedWord),
    /// `EX` (true) and `EE` (false).
    Example(bool),
    /// `PD`, with the distance of paragraphs.
    Distance(Option<W>),
    /// `B`, `I`, `SM` and `SB` with words: their font begins, and it ends.
    Fonts(Option<Font>),
    /// `TQ`: a further tag, which is the line scope that follows.
    FurtherTag,
    /// What a macro of mdoc(7) changes in its line, or prints there.
    Step(LineStep<W>),
}
