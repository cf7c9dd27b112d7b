//! What a macro that begins a line does (mdoc(7), "MACRO REFERENCE").

use crate::macros::Inline;
use page_core_base::Font;
use page_sets_lines::{BodyParagraphName, HeadingName, OneLineName, Prologue};

/// A block of lines between two macros.
#[derive(Clone, Copy, PartialEq, Eq)]
pub enum BlockMacro {
    /// `Bd` and `Ed`.
    Display,
    /// `Bf` and `Ef`.
    Fonts,
    /// `Bk` and `Ek`.
    Keep,
    /// `Bl` and `El`.
    List,
    /// `Rs` and `Re`: a reference to a work.
    Reference,
}

/// A sentence that many manuals have.
#[derive(Clone, Copy, PartialEq, Eq)]
pub enum Sentence {
    /// `Ex`: the status of programs.
    Exit,
    /// `Rv`: the value that functions return.
    Return,
}

/// What the macro does that begins a line.
#[derive(Clone, Copy, PartialEq, Eq)]
pub enum LineMacro {
    /// What it also does among the words of a line; `Fd Lb St` only begin one.
    Inline(Inline),
    /// `Dd Dt Os`.
    Prologue(Prologue),
    /// `Sh Ss`.
    Heading(HeadingName),
    /// `Pp Lp`.
    Paragraph(BodyParagraphName),
    /// `Nd`: what the manual is about.
    Description,
    /// `D1 Dl`.
    OneLine(OneLineName),
    /// `Bd Bf Bk Bl Rs`.
    Begins(BlockMacro),
    /// `Ed Ef Ek El Re`.
    Ends(BlockMacro),
    /// `It`: an item of a list.
    Item,
    /// A field of a reference: italic `%B %J %T`, roman `%A %C %D %I %N %O %P %Q %R %U %V`.
    Field(Font),
    /// `Ex Rv`.
    Sentence(Sentence),
    /// `In`: a file of declarations.
    Include,
    /// `Sm`: whether there are blanks between words.
    Spacing,
    /// `Tg`: a place for links.
    Target,
}
