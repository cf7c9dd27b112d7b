//! What a macro changes in its line, or prints there, that is no word (mdoc(7), "MACRO REFERENCE").

use page_roff_syntax::Argument;
use page_sets_names::BodyParagraphName;

/// What a macro does in the section SYNOPSIS alone.
#[derive(Clone, Copy, PartialEq, Eq)]
pub enum SynopsisStep {
    /// The row ends: `Cd Fd Fn Fo Ft In Vt`.
    Break,
    /// `In`: `#include` is printed.
    Include,
    /// `Nm` begins a row.
    NameBegins,
    /// The words of `Nm` have ended: later rows are further in by their columns.
    NameEnds,
}

/// What a macro changes in its line, or prints there; `W` is a text.
#[derive(Clone, Copy)]
pub enum LineStep<W> {
    /// `Ta`: the next column of a list.
    NextColumn,
    /// `Ns`: no blank between the words before and after it.
    Glue,
    /// `Pp` and `Lp`: a paragraph begins.
    BodyParagraph(BodyParagraphName),
    /// `Lk`: the address that it prints.
    Uri(Argument<W>),
    /// `Nm` without a name of its own: the name of the manual.
    ManualName,
    /// The next field of the open reference (`Rs`) begins: `%A`, `%T` and so on.
    NextField,
    /// The next argument of the open function (`Fo`) begins: `Fa`.
    NextArgument,
    /// The arguments of `Fn` have ended.
    FunctionEnd,
    /// `Sm`: there are blanks between words (true) or not, or the other of these.
    Spacing(Option<bool>),
    /// What is done in the section SYNOPSIS alone.
    Synopsis(SynopsisStep),
}
