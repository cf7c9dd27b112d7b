//! What a scope gives where it begins and where it ends, but its words (man(7), mdoc(7)).

ghost use Rattle.std.specs.Prelude.{◌≡◌, [], ◌∷◌};
ghost use Rattle.page_core_base.specs.laws.Views.{Came};
ghost use Rattle.page_core_base.specs.Rows.{shown};
ghost use Rattle.page_scopes_layout.specs.Lists as nodes;

use crate::{Context, OpenList, hold, margins_of};
use page_core_base::{Piece, PieceOut, TagForm};
use page_scopes_labels::{Explicit, Label};
use page_sets_lines::{Block, LineOpener, ListKind};

/// Gives the margins of a context.
pub fn give_margins<O: PieceOut>(out: &mut O, context: &Context)
    ensures { Came O.left out.old (nodes.margin_items context.now) out.new }
{
    let margins = margins_of(context);
    out.give(Piece::Indent {
        first: margins.first,
        rest: margins.rest,
    });
}

// Gives what an item of the open list begins with.
fn give_item_begin<O: PieceOut>(out: &mut O, context: &Context)
    ensures { Came O.left out.old (nodes.item_begin_items context.now.list context.now) out.new }
{
    if let Some(list) = context.list {
        if list.is_close() {
            out.give(Piece::Break);
        } else {
            out.give(Piece::Para(context.distance.value));
        }
    }
}

// Gives a tag of words that are in their text's row, whatever their columns are.
fn give_inset<O: PieceOut>(out: &mut O, blanks: u32)
    ensures { Came O.left out.old (shown (Piece.Tag 0 (TagForm.Inset blanks)) ∷ []) out.new }
{
    out.give(Piece::Tag {
        hang: 0,
        form: TagForm::Inset(blanks),
    });
}

// Gives a tag that hangs as the list says.
fn give_hanging<O: PieceOut>(out: &mut O, list: &OpenList, form: TagForm, context: &Context)
    ensures { Came O.left out.old (nodes.hanging_items list.now form context.now) out.new }
{
    give_margins(out, context);
    out.give(Piece::Tag {
        hang: hold(i64::from(list.hang)),
        form,
    });
}

// Gives what a head of an item of a list begins with.
fn give_head_of<O: PieceOut>(out: &mut O, list: &OpenList, context: &Context)
    ensures { Came O.left out.old (nodes.head_items list.now.kind list.now context.now) out.new }
{
    match list.kind {
        ListKind::Tag => give_hanging(out, list, TagForm::Row, context),
        ListKind::Hang => give_hanging(out, list, TagForm::Hang, context),
        _ => {}
    }
}

// Gives what a head of an item of the open list begins with.
fn give_head_begin<O: PieceOut>(out: &mut O, context: &Context)
    ensures { Came O.left out.old (nodes.head_begin_items context.now.list context.now) out.new }
{
    if let Some(list) = &context.list {
        give_head_of(out, list, context);
    }
}

impl Context {
    /// Whether heads of the open list are rows of their own (`-ohang`).
    pub fn has_row_heads(&self) -> bool
        ensures { result ≡ nodes.is_row self.now.list }
    {
        match &self.list {
            Some(list) => matches!(list.kind, ListKind::Ohang),
            None => false,
        }
    }
}

// Gives what the words of a head end with that is set in.
fn give_head_last<O: PieceOut>(out: &mut O, list: &Option<OpenList>)
    ensures { Came O.left out.old (nodes.open_head_last_items list.now) out.new }
{
    if let Some(list) = list {
        match list.kind {
            ListKind::Inset => give_inset(out, 1),
            ListKind::Diag => give_inset(out, 2),
            _ => {}
        }
    }
}

// Gives what ends a head, and the margins of the context after it.
fn give_head_end<O: PieceOut>(out: &mut O, context: &Context)
    ensures { Came O.left out.old (nodes.end_items (Label.Line LineOpener.Head) context.now) out.new }
{
    if context.has_row_heads() {
        out.give(Piece::Break);
    } else {
        give_head_last(out, &context.list);
        out.give(Piece::TagEnd);
    }
    give_margins(out, context);
}

// Gives what a line scope begins with.
#[inline(always)]
fn give_line_begin<O: PieceOut>(out: &mut O, opener: LineOpener, context: &Context)
    ensures { Came O.left out.old (nodes.line_begin_items opener context.now) out.new }
{
    match opener {
        LineOpener::Head => give_head_begin(out, context),
        LineOpener::Heading(_) => give_margins(out, context),
        LineOpener::Tag(_) => {
            give_margins(out, context);
            out.give(Piece::Tag {
                hang: hold(i64::from(context.hang)),
                form: TagForm::Row,
            });
        }
        LineOpener::OneLine(_) => {
            out.give(Piece::Break);
            give_margins(out, context);
        }
        LineOpener::FontWords(_) | LineOpener::Enclosure(_) | LineOpener::Description => {}
    }
}

/// Gives what a scope begins with, in the context of its front: `SH`, `SS`, `Sh`, `Ss`, paragraphs (`PP`, `LP`, `P`, `TP`, `IP`, `HP`),
/// `RS`, `SY`, `UR`, `MT`, items of lists (`It`), blocks of mdoc(7), and line scopes.
#[inline(always)]
pub fn give_begin<O: PieceOut>(out: &mut O, label: Label, context: &Context)
    ensures { Came O.left out.old (nodes.begin_items label context.now) out.new }
{
    match label {
        Label::Item => give_item_begin(out, context),
        Label::Section | Label::Subsection => {
            out.give(Piece::Para(context.distance.value));
            out.give(Piece::Literal(false));
        }
        Label::Paragraph => {
            out.give(Piece::Para(context.distance.value));
            give_margins(out, context);
        }
        Label::Explicit(Explicit::RelativeMargin) => {
            out.give(Piece::Break);
            give_margins(out, context);
        }
        Label::Explicit(Explicit::Syntax) => out.give(Piece::Break),
        Label::Explicit(Explicit::Target(_) | Explicit::Block(_)) => {}
        Label::Line(opener) => give_line_begin(out, opener, context),
    }
}

// Gives what ends a line scope, and the margins of the context after it.
fn give_line_end<O: PieceOut>(out: &mut O, opener: LineOpener, context: &Context)
    ensures { Came O.left out.old (nodes.end_items (Label.Line opener) context.now) out.new }
{
    match opener {
        LineOpener::Head => give_head_end(out, context),
        LineOpener::Heading(_) => {
            out.give(Piece::Heading);
            give_margins(out, context);
        }
        LineOpener::Tag(_) => {
            out.give(Piece::TagEnd);
            give_margins(out, context);
        }
        LineOpener::OneLine(_) => {
            out.give(Piece::Break);
            give_margins(out, context);
        }
        LineOpener::Enclosure(_) | LineOpener::Description => give_margins(out, context),
        LineOpener::FontWords(_) => {}
    }
}

// Gives what ends a block of mdoc(7), and the margins of the context after it.
fn give_block_end<O: PieceOut>(out: &mut O, block: Block, context: &Context)
    ensures { Came O.left out.old (nodes.end_items (Label.Explicit (Explicit.Block block)) context.now) out.new }
{
    match block {
        Block::List(_) => out.give(Piece::Break),
        Block::Display => {
            out.give(Piece::Break);
            out.give(Piece::Literal(context.is_literal.value));
        }
        _ => {}
    }
    give_margins(out, context);
}

/// Gives what ends a scope, and the margins of the context after it; `RE`, `YS`, `Ed`, `El` and the end of `D1` or `Dl` end the row first.
pub fn give_end<O: PieceOut>(out: &mut O, label: Label, context: &Context)
    ensures { Came O.left out.old (nodes.end_items label context.now) out.new }
{
    match label {
        Label::Item
        | Label::Section
        | Label::Subsection
        | Label::Paragraph
        | Label::Explicit(Explicit::Target(_)) => give_margins(out, context),
        Label::Explicit(Explicit::Block(block)) => give_block_end(out, block, context),
        Label::Explicit(Explicit::RelativeMargin | Explicit::Syntax) => {
            out.give(Piece::Break);
            give_margins(out, context);
        }
        Label::Line(opener) => give_line_end(out, opener, context),
    }
}
