//! What opens a scope, and what closes one (man(7), mdoc(7)).

ghost use Rattle.std.specs.Prelude.{◌≡◌};
ghost use Rattle.page_sets_lines.specs.laws.Events as names;

use crate::blocks::{BlockCloser, BlockOpener};
use page_roff_syntax::Argument;
use page_sets_names::{FontMacro, HeadingName, Link, Marks, OneLineName, ParagraphName, TagName};

/// What opens a scope that goes on after its line; `W` is a text, a number in it still an expression.
#[derive(Clone, Copy)]
pub enum Opener<W> {
    /// `It`; its head is the line scope that follows.
    Item,
    /// `SH` and `Sh`; its heading is the line scope that follows.
    Section,
    /// `SS` and `Ss`; its heading is the line scope that follows.
    Subsection,
    /// `PP`, `LP` and `P`.
    Paragraph(ParagraphName),
    /// `TP`, with its hang; its tag is the line scope that follows.
    Tagged(Option<W>),
    /// `IP`.
    Indented {
        tag: Option<Argument<W>>,
        hang: Option<W>,
    },
    /// `HP`, with its hang.
    Hanging(Option<W>),
    /// `RS`, with the columns further in.
    RelativeMargin(Option<W>),
    /// `UR` and `MT`, with their target.
    Target(Link, Argument<W>),
    /// `SY`, with the command's name.
    Syntax(Argument<W>),
    /// A macro of mdoc(7) that another one ends.
    Block(BlockOpener<W>),
}

/// What closes a scope; `W` is a text.
#[derive(Clone, Copy)]
pub enum Closer<W> {
    /// What breaks the line scopes that are open: most macros of man(7).
    Line,
    /// `RE`: the innermost relative margin, or all from that of a number on.
    RelativeMargin(Option<W>),
    /// `UE` and `ME`, with what is glued to the target.
    Target(Link, Option<Argument<W>>),
    /// `YS`.
    Syntax,
    /// What ends the enclosures of a line before its last delimiters (mdoc(7)).
    Enclosures,
    /// A macro of mdoc(7) that ends what another one began.
    Block(BlockCloser<W>),
}

/// What opens a scope that ends with a line: its own, or the next one that gives words.
#[derive(Clone, Copy, PartialEq, Eq)]
pub enum LineOpener {
    /// The words of `It`.
    Head,
    /// The words of `SH SS Sh Ss`.
    Heading(HeadingName),
    /// The tag of `TP`, and a further one of `TQ`.
    Tag(TagName),
    /// `B`, `I`, `SM` and `SB` without words.
    FontWords(FontMacro),
    /// `Aq Bq Brq Dq Op Pq Ql Qq Sq`.
    Enclosure(Marks),
    /// `Nd`.
    Description,
    /// `D1` and `Dl`.
    OneLine(OneLineName),
}

impl LineOpener {
    /// The macro's name; of an enclosure that of the first macro with its marks.
    pub fn name(self) -> &'static str
        ensures { result.now ≡ names.line_opener_name self }
    {
        match self {
            LineOpener::Head => "It",
            LineOpener::Heading(heading) => heading.name(),
            LineOpener::Tag(tag) => tag.name(),
            LineOpener::FontWords(font_macro) => font_macro.name(),
            LineOpener::Enclosure(marks) => marks.name(),
            LineOpener::Description => "Nd",
            LineOpener::OneLine(one_line) => one_line.name(),
        }
    }
}
