//! The widths that the arguments of `Bl` give (mdoc(7), `Bl`).

ghost use Rattle.std.specs.Prelude.{◌≡◌, ◌≤◌, length, option_map, unwrap_or};
ghost use Rattle.page_core_base.specs.laws.Views.{Came};
ghost use Rattle.page_roff_syntax.specs.laws.Views.{argument_view};
ghost use Rattle.page_scopes_blocks.specs.Lists as widths;
ghost use Rattle.page_scopes_blocks.specs.laws.Views.{LengthFits};
ghost use Rattle.page_scopes_layout.specs.Contexts.{hold};
ghost use Rattle.page_sets_lines.specs.laws.Events.{given_view};
ghost use Rattle.page_sets_lines.specs.declared.lists.ListKind.TheVariants.{Column};

use page_core_base::{LINE, Limit, NoteKind, Output, PieceOut, Place};
use page_roff_syntax::{Argument, Arguments};
use page_scopes_layout::{ColumnWidths, hold};
use page_scopes_words::{give_width, name_columns, report};
use page_sets_lines::{ListKind, ListOptions};

/// The widths of columns that were given.
#[derive(Clone, Copy)]
pub(crate) struct GivenWidths {
    pub(crate) widths: ColumnWidths,
    /// There were more than are kept.
    pub(crate) is_cut: bool,
}

// The width of a list that is given none.
fn default_width(kind: ListKind) -> u32
    ensures { result ≡ widths.default_width kind }
{
    match kind {
        ListKind::Tag | ListKind::Hang => 6,
        ListKind::Enum => 3,
        _ => 2,
    }
}

// Whether the text of an item hangs from its head or its mark.
fn hangs(kind: ListKind) -> bool
    ensures { result ≡ widths.hangs kind }
{
    matches!(
        kind,
        ListKind::Bullet
            | ListKind::Dash
            | ListKind::Enum
            | ListKind::Hang
            | ListKind::Hyphen
            | ListKind::Tag
    )
}

// The width of a list, in columns.
#[tactic(auto, using(crate::proofs::ListLemmas::hold_bound))]
fn width_of(kind: ListKind, width: Option<i32>) -> u32
    ensures value { result ≡ unwrap_or (option_map hold width) (widths.default_width kind) }
    ensures bound { result ≤ 1000 }
{
    match width {
        Some(width) => hold(i64::from(width)),
        None => default_width(kind),
    }
}

/// How far the text of an item is from its head or its mark, by the width that the list is given.
pub(crate) fn hang_of(kind: ListKind, width: Option<i32>) -> u32
    ensures { result ≡ widths.hang_of kind width }
{
    if hangs(kind) {
        width_of(kind, width) + 2
    } else {
        0
    }
}

/// Gives the columns of an option's value, with their messages.
pub(crate) fn give_given<O: PieceOut>(
    out: &mut O,
    output: Output,
    place: Place,
    given: Option<Argument<&[u8]>>,
) -> Option<i32>
    requires { LengthFits (given_view given) }
    ensures columns { result ≡ widths.given_columns output (given_view given.entry) }
    ensures came { Came O.left out.old (widths.given_notes place (given_view given.entry)) out.new }
{
    match given {
        Some(width) => Some(give_width(out, output, place, width)),
        None => None,
    }
}

// The width of a column: that of its text.
fn column_width(output: Output, word: Argument<&[u8]>) -> u32
    requires { length word.text.now ≤ LINE }
    ensures { result ≡ widths.column_width output (argument_view word.entry) }
{
    hold(i64::from(name_columns(output, word.is_quoted(), word.text)))
}

impl GivenWidths {
    // None is given.
    fn new() -> GivenWidths
        ensures { result ≡ widths.no_widths_given }
    {
        GivenWidths {
            widths: ColumnWidths::new(),
            is_cut: false,
        }
    }

    // One more is given.
    fn add(&mut self, output: Output, word: Argument<&[u8]>)
        requires { length word.text.now ≤ LINE }
        ensures { self.new ≡ widths.one_more output self.old (argument_view word.entry) }
    {
        if self.widths.has_room() {
            self.widths.add(column_width(output, word));
        } else {
            self.is_cut = true;
        }
    }
}

// The widths of the columns that the arguments in a text give.
fn columns_in(output: Output, options: &[u8]) -> GivenWidths
    requires { length options.now ≤ LINE }
    ensures { result ≡ widths.columns_of output Column options.now }
{
    let mut arguments = Arguments::new(options, 1);
    let mut so_far = ListOptions::new();
    let mut given = GivenWidths::new();
    while let Some(word) = arguments.next_argument() {
        if so_far.is_column(word) {
            given.add(output, word);
        }
        so_far.read(word);
    }
    given
}

// The widths of a list's columns.
fn columns_of(output: Output, kind: ListKind, options: &[u8]) -> GivenWidths
    requires { length options.now ≤ LINE }
    ensures { result ≡ widths.columns_of output kind options.now }
{
    match kind {
        ListKind::Column => columns_in(output, options),
        _ => GivenWidths::new(),
    }
}

/// Gives the message about widths that are not kept; the widths of a list's columns.
pub(crate) fn give_columns<O: PieceOut>(
    out: &mut O,
    output: Output,
    place: Place,
    kind: ListKind,
    options: &[u8],
) -> ColumnWidths
    requires { length options.now ≤ LINE }
    ensures widths { result ≡ (widths.columns_of output kind options.now).widths }
    ensures came { Came O.left out.old (widths.cut_notes place (widths.columns_of output kind options.now)) out.new }
{
    let given = columns_of(output, kind, options);
    if given.is_cut {
        report(
            out,
            NoteKind::Limit,
            place,
            Limit::Columns.name().as_bytes(),
        );
    }
    given.widths
}
