//! What an open scope is, and what is known of it by that alone: one row for each (man(7), mdoc(7)).

ghost use Rattle.std.specs.Prelude.{◌≡◌};
ghost use Rattle.page_scopes_labels.specs.Labels as labels;
ghost use Rattle.page_scopes_labels.specs.laws.Views as labels_laws;

use page_sets_lines::{Block, LineOpener, Link, ListKind};

/// A scope with a closer of its own.
#[derive(Clone, Copy, PartialEq, Eq)]
pub enum Explicit {
    /// `RS` up to `RE`.
    RelativeMargin,
    /// `UR` up to `UE`, and `MT` up to `ME`.
    Target(Link),
    /// `SY` up to `YS`.
    Syntax,
    /// A block of mdoc(7), as `Oo` up to `Oc`.
    Block(Block),
}

/// What an open scope is.
#[derive(Clone, Copy, PartialEq, Eq)]
pub enum Label {
    /// An item of a list: `It`.
    Item,
    /// A section: `SH` and `Sh`.
    Section,
    /// A subsection: `SS` and `Ss`.
    Subsection,
    /// A paragraph: `PP`, `LP`, `P`, `TP`, `IP` and `HP`.
    Paragraph,
    /// A scope with a closer of its own.
    Explicit(Explicit),
    /// A scope that ends with a line.
    Line(LineOpener),
}

/// How a scope ends; `W` is a text.
#[derive(Clone, Copy)]
pub enum ScopeEnd<W> {
    /// Where a macro opens the next scope of its kind, or one around it ends.
    Implied,
    /// With a line.
    Line,
    /// By the closer of this name.
    Closer(W),
}

/// What is known of a scope by its label alone; `W` is a text.
#[derive(Clone, Copy)]
pub struct LabelRow<W> {
    /// The name of the macro that opens the scope, of a paragraph the first of them.
    pub name: W,
    pub end: ScopeEnd<W>,
    /// Paragraphs inside the scope are apart from those around it.
    pub is_level: bool,
    /// The prevailing indent ends with the scope.
    pub owns_prevailing: bool,
    /// The scope leaves the fonts as they were before it.
    pub guards_fonts: bool,
}

// The row of a scope that keeps nothing apart.
#[inline(always)]
fn plain_row(name: &'static str, end: ScopeEnd<&'static str>) -> LabelRow<&'static str>
    ensures { labels_laws.row_view result ≡ labels.plain_row name.now (labels_laws.end_view end.entry) }
{
    LabelRow {
        name,
        end,
        is_level: false,
        owns_prevailing: false,
        guards_fonts: false,
    }
}

// The row of a scope with paragraphs and a prevailing indent of its own.
#[inline(always)]
fn level_row(name: &'static str, end: ScopeEnd<&'static str>) -> LabelRow<&'static str>
    ensures { labels_laws.row_view result ≡ labels.level_row name.now (labels_laws.end_view end.entry) }
{
    LabelRow {
        name,
        end,
        is_level: true,
        owns_prevailing: true,
        guards_fonts: false,
    }
}

// The row of a line scope that leaves the fonts as they were.
#[inline(always)]
fn guard_row(name: &'static str) -> LabelRow<&'static str>
    ensures { labels_laws.row_view result ≡ labels.guard_row name.now }
{
    LabelRow {
        name,
        end: ScopeEnd::Line,
        is_level: false,
        owns_prevailing: false,
        guards_fonts: true,
    }
}

// The row of a scope that ends with a line.
#[inline(always)]
fn line_row(opener: LineOpener) -> LabelRow<&'static str>
    ensures { labels_laws.row_view result ≡ labels.label_row (Label.Line opener) }
{
    match opener {
        LineOpener::Head => plain_row("It", ScopeEnd::Line),
        LineOpener::Heading(heading) => guard_row(heading.name()),
        LineOpener::Tag(tag) => plain_row(tag.name(), ScopeEnd::Line),
        LineOpener::FontWords(font_macro) => guard_row(font_macro.name()),
        LineOpener::Enclosure(marks) => plain_row(marks.name(), ScopeEnd::Line),
        LineOpener::Description => plain_row("Nd", ScopeEnd::Line),
        LineOpener::OneLine(name) => plain_row(name.name(), ScopeEnd::Line),
    }
}

// Whether the items of a list have heads; the words of `It` in any other list are those of its text.
fn has_heads(kind: ListKind) -> bool
    ensures { result ≡ labels.is_headed_list (Label.Explicit (Explicit.Block (Block.List kind))) }
{
    matches!(
        kind,
        ListKind::Diag | ListKind::Hang | ListKind::Inset | ListKind::Ohang | ListKind::Tag
    )
}

impl Explicit {
    // The name of the macro that opens the scope.
    #[inline(always)]
    fn name(self) -> &'static str
        ensures { result.now ≡ labels.label_name (Label.Explicit self) }
    {
        match self {
            Explicit::RelativeMargin => "RS",
            Explicit::Target(link) => link.name(),
            Explicit::Syntax => "SY",
            Explicit::Block(block) => block.name(),
        }
    }
}

impl Label {
    /// What is known of the scope by its label alone.
    #[inline(always)]
    pub fn row(self) -> LabelRow<&'static str>
        ensures { labels_laws.row_view result ≡ labels.label_row self }
    {
        match self {
            Label::Item => plain_row("It", ScopeEnd::Implied),
            Label::Section => level_row("SH", ScopeEnd::Implied),
            Label::Subsection => level_row("SS", ScopeEnd::Implied),
            Label::Paragraph => plain_row("PP", ScopeEnd::Implied),
            Label::Explicit(Explicit::RelativeMargin) => level_row("RS", ScopeEnd::Closer("RE")),
            Label::Explicit(Explicit::Target(link)) => {
                plain_row(link.name(), ScopeEnd::Closer(link.closer_name()))
            }
            Label::Explicit(Explicit::Syntax) => plain_row("SY", ScopeEnd::Closer("YS")),
            Label::Explicit(Explicit::Block(block)) => {
                plain_row(block.name(), ScopeEnd::Closer(block.closer_name()))
            }
            Label::Line(opener) => line_row(opener),
        }
    }

    /// The name of the macro that opens the scope, of a paragraph the first of them.
    pub fn name(self) -> &'static str
        ensures { result.now ≡ labels.label_name self }
    {
        self.row().name
    }

    /// Whether the scope ends with a line.
    #[inline(always)]
    pub fn is_line(self) -> bool
        ensures { result ≡ labels.is_line self }
    {
        matches!(self, Label::Line(_))
    }

    /// Whether the scope is an enclosure that ends with a line.
    pub fn is_enclosure(self) -> bool
        ensures { result ≡ labels.is_enclosure self }
    {
        matches!(self, Label::Line(LineOpener::Enclosure(_)))
    }

    /// Whether the scope is a section.
    pub fn is_section(self) -> bool
        ensures { result ≡ labels.is_section self }
    {
        matches!(self, Label::Section)
    }

    /// Whether the scope is a paragraph.
    pub fn is_paragraph(self) -> bool
        ensures { result ≡ labels.is_paragraph self }
    {
        matches!(self, Label::Paragraph)
    }

    /// Whether the scope is an item of a list.
    pub fn is_item(self) -> bool
        ensures { result ≡ labels.is_item self }
    {
        matches!(self, Label::Item)
    }

    /// Whether the scope is a list.
    pub fn is_list(self) -> bool
        ensures { result ≡ labels.is_list self }
    {
        matches!(self, Label::Explicit(Explicit::Block(Block::List(_))))
    }

    /// Whether the scope is a list whose items have heads.
    pub fn is_headed_list(self) -> bool
        ensures { result ≡ labels.is_headed_list self }
    {
        match self {
            Label::Explicit(Explicit::Block(Block::List(kind))) => has_heads(kind),
            _ => false,
        }
    }

    /// Whether the scope is that with a closer of its own; lists of all types have one closer.
    #[inline(always)]
    pub fn is_explicit(self, explicit: Explicit) -> bool
        ensures { result ≡ labels.is_explicit explicit self }
    {
        match self {
            Label::Explicit(open) => explicit.name() == open.name(),
            _ => false,
        }
    }

    /// Whether the scope is a relative margin.
    pub fn is_margin(self) -> bool
        ensures { result ≡ labels.is_margin self }
    {
        self.is_explicit(Explicit::RelativeMargin)
    }

    /// Whether paragraphs inside the scope are apart from those around it.
    pub fn is_level(self) -> bool
        ensures { result ≡ labels.is_level self }
    {
        self.row().is_level
    }
}
