//! The context of a text (man(7), mdoc(7)).

ghost use Rattle.std.specs.Prelude.{◌≡◌};
ghost use Rattle.page_scopes_layout.specs.Contexts as contexts;

use crate::{OpenList, PREVAILING};
use page_scopes_labels::{Explicit, Label};
use page_scopes_words::{Fonts, ROMAN, Setting};
use page_sets_lines::{Block, LineOpener, ListKind};

/// What part of a page a text is.
#[derive(Clone, Copy, PartialEq, Eq)]
pub enum PagePart {
    /// The head of an item that is no tag.
    Head,
    /// The text of a section or a paragraph.
    Text,
    /// A tag.
    Tag,
    /// A heading, at a column.
    Heading(u32),
}

/// How far a series has come: the fields of a reference to a work (`Rs`), or the arguments of a function (`Fo`).
#[derive(Clone, Copy, PartialEq, Eq)]
pub enum SeriesSoFar {
    /// Neither is open.
    Outside,
    /// None has come.
    Empty,
    /// One has come, or more.
    Begun,
}

/// The section that a text is in, by its heading.
#[derive(Clone, Copy, PartialEq, Eq)]
pub enum PageSection {
    Other,
    /// `NAME`.
    Name,
    /// `SYNOPSIS`.
    Synopsis,
}

/// What a text is laid out by. Columns are counted from the left edge of the page.
#[derive(Clone, Copy)]
pub struct Context {
    /// The innermost open list.
    pub list: Option<OpenList>,
    /// The margin of the section, relative margin, list, item or display, up to [`MARGIN`](crate::MARGIN).
    pub margin: u32,
    /// The columns that the open paragraph's text is further in.
    pub hang: i32,
    /// The margin of the paragraph's first row, where it has one of its own.
    pub first: Option<u32>,
    /// A row has begun since that was set.
    pub has_row: bool,
    pub part: PagePart,
    /// The indent of paragraphs that give none.
    pub prevailing: i32,
    pub fonts: Setting<Fonts>,
    pub is_literal: Setting<bool>,
    /// What `in` adds to all margins.
    pub shift: Setting<i32>,
    /// The blank rows before a paragraph.
    pub distance: Setting<u32>,
    /// The fields of the innermost reference.
    pub fields: SeriesSoFar,
    /// The arguments of the innermost function.
    pub arguments: SeriesSoFar,
    /// Blanks are between words: `Sm`.
    pub has_spacing: Setting<bool>,
    pub section: PageSection,
}

impl Context {
    /// The context of a page before its first line, at the page's indent in columns.
    pub fn start(page_indent: u32) -> Context
        ensures { result ≡ contexts.start page_indent }
    {
        Context {
            list: None,
            margin: page_indent,
            hang: 0,
            first: None,
            has_row: true,
            part: PagePart::Text,
            prevailing: PREVAILING,
            fonts: Setting::at_first(ROMAN),
            is_literal: Setting::at_first(false),
            shift: Setting::at_first(0),
            distance: Setting::at_first(1),
            fields: SeriesSoFar::Outside,
            arguments: SeriesSoFar::Outside,
            has_spacing: Setting::at_first(true),
            section: PageSection::Other,
        }
    }
}

// Whether a scope is the head of an item of a list of messages (`-diag`).
fn is_message(label: Label, list: &Option<OpenList>) -> bool
    ensures { result ≡ contexts.is_message label list.now }
{
    match (label, list) {
        (Label::Line(LineOpener::Head), Some(list)) => matches!(list.kind, ListKind::Diag),
        _ => false,
    }
}

// Whether a scope has fields of its own, as a reference does.
fn owns_fields(label: Label) -> bool
    ensures { result ≡ contexts.owns_fields label }
{
    matches!(label, Label::Explicit(Explicit::Block(Block::Reference)))
}

// Whether a scope has arguments of its own, as a function does.
fn owns_arguments(label: Label) -> bool
    ensures { result ≡ contexts.owns_arguments label }
{
    matches!(label, Label::Explicit(Explicit::Block(Block::Function)))
}

impl Context {
    /// A scope ends: the context before it holds again, but for what was set inside for good.
    #[inline(always)]
    pub fn restore(&mut self, label: Label, before: &Context)
        ensures { self.new ≡ contexts.restored label before.now self.old }
    {
        let row = label.row();
        if label.is_list() {
            self.list = before.list;
        }
        self.margin = before.margin;
        self.hang = before.hang;
        self.first = before.first;
        self.has_row = before.has_row || self.has_row;
        self.part = before.part;
        if row.owns_prevailing {
            self.prevailing = before.prevailing;
        }
        if row.guards_fonts || is_message(label, &before.list) {
            self.fonts = before.fonts;
        } else {
            self.fonts.restore(&before.fonts);
        }
        self.is_literal.restore(&before.is_literal);
        self.shift.restore(&before.shift);
        self.distance.restore(&before.distance);
        if owns_fields(label) {
            self.fields = before.fields;
        }
        if owns_arguments(label) {
            self.arguments = before.arguments;
        }
        self.has_spacing.restore(&before.has_spacing);
        self.section = before.section;
    }
}
