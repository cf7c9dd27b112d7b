//! What lists begin with (mdoc(7), `Bl`).

ghost use Rattle.std.specs.Prelude.{◌≡◌, ◌≤◌, length, pos, unwrap_or};
ghost use Rattle.page_core_base.specs.laws.Views.{Came};
ghost use Rattle.page_scopes_layout.specs.Lists.{list_begun};
ghost use Rattle.page_scopes_phrases.specs.laws.Views.{GivesOutcome};
ghost use Rattle.page_scopes_blocks.specs.laws.Views.{LengthFits};
ghost use Rattle.page_scopes_blocks.specs.Lists as lists;
ghost use Rattle.page_sets_lines.specs.laws.Views.{options_view};

use crate::widths::{give_columns, give_given, hang_of};
use page_core_base::{LINE, Output, Piece, PieceOut, Place};
use page_scopes_layout::{ColumnWidths, Context, OpenList, give_margins};
use page_scopes_phrases::Formatting;
use page_sets_lines::{ListKind, ListOptions, read_list_options};

/// What the arguments of `Bl` say of a list, in columns.
#[derive(Clone, Copy)]
pub(crate) struct SaidList {
    /// The list before its first item.
    pub(crate) list: OpenList,
    /// How much further in it is than the text.
    pub(crate) offset: Option<i32>,
}

// A list before its first item.
fn new_list(kind: ListKind, is_compact: bool, hang: u32, widths: ColumnWidths) -> OpenList
    ensures { result ≡ lists.new_list kind is_compact hang widths }
{
    OpenList {
        kind,
        is_compact,
        hang,
        head: 0,
        items: 0,
        cells: 0,
        column: 0,
        widths,
    }
}

// Gives the messages of what the arguments of `Bl` say, and answers that.
fn give_said<O: PieceOut>(
    out: &mut O,
    output: Output,
    place: Place,
    kind: ListKind,
    is_compact: bool,
    text: &[u8],
    options: &ListOptions<&[u8]>,
) -> SaidList
    requires text { length text.now ≤ LINE }
    requires width { LengthFits (options_view options.now).width }
    requires offset { LengthFits (options_view options.now).offset }
    ensures value { result ≡ lists.said_list output kind is_compact text.now (options_view options.now) }
    ensures came { Came O.left out.old (lists.list_notes output place kind text.now (options_view options.now)) out.new }
{
    let width = give_given(out, output, place, options.width);
    let offset = give_given(out, output, place, options.offset);
    let widths = give_columns(out, output, place, kind, text);
    SaidList {
        list: new_list(kind, is_compact, hang_of(kind, width), widths),
        offset,
    }
}

// The context in which a list begins.
fn list_context(said: &SaidList, context: Context) -> Context
    ensures { result ≡ list_begun said.now.list (unwrap_or said.now.offset (pos 0)) context }
{
    context.list_begun(said.list, said.offset.unwrap_or(0))
}

// Begins a list.
fn begin_list<O: PieceOut>(out: &mut O, said: &SaidList, state: &mut Formatting)
    ensures { GivesOutcome O.left out.old (lists.list_by said.now state.old) out.new state.new }
{
    state.context = list_context(said, state.context.entered());
    out.give(Piece::Break);
    give_margins(out, &state.context);
    state.end_row();
}

/// Gives what a list begins with, compact or not, with its arguments as they are.
#[tactic(auto, unfolding(crate::specs::Lists::list_opened))]
pub fn give_list<O: PieceOut>(
    out: &mut O,
    output: Output,
    place: Place,
    kind: ListKind,
    is_compact: bool,
    text: &[u8],
    state: &mut Formatting,
)
    requires { length text.now ≤ LINE }
    ensures { GivesOutcome O.left out.old (lists.list_opened output place kind is_compact text.now state.old) out.new state.new }
{
    let options = read_list_options(text, 0);
    let said = give_said(out, output, place, kind, is_compact, text, &options);
    begin_list(out, &said, state);
}
