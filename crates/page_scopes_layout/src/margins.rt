//! The margins of rows (man(7)).

ghost use Rattle.std.specs.Prelude.{◌≡◌, pos, ◌+ℤ◌};
ghost use Rattle.page_scopes_layout.specs.Contexts as margins;

use crate::{Context, MARGIN, PagePart};

/// The margins of the row that begins next, and of the rows after it.
#[derive(Clone, Copy)]
pub struct Margins {
    pub first: u32,
    pub rest: u32,
}

/// A margin, held to 0 to [`MARGIN`] columns.
pub fn hold(columns: i64) -> u32
    ensures { result ≡ margins.hold columns }
{
    if columns < 0 {
        0
    } else if columns > i64::from(MARGIN) {
        MARGIN
    } else {
        columns as u32
    }
}

/// A margin that is a hang, and some columns more, further in.
pub(crate) fn further_in(margin: u32, hang: i32, more: i32) -> u32
    ensures { result ≡ margins.further_in margin hang more }
{
    hold(i64::from(margin) + i64::from(hang) + i64::from(more))
}

// The margin of the text of a paragraph.
fn rest_margin(context: &Context) -> u32
    ensures { result ≡ margins.rest_margin context.now }
{
    further_in(context.margin, context.hang, context.shift.value)
}

// The margin of a first row that has one of its own.
fn first_margin(context: &Context, first: u32) -> u32
    ensures { result ≡ margins.hold (pos first +ℤ context.now.shift.value) }
{
    hold(i64::from(first) + i64::from(context.shift.value))
}

/// The margins in a context.
pub fn margins_of(context: &Context) -> Margins
    ensures { result ≡ margins.margins context.now }
{
    if let PagePart::Heading(column) = context.part {
        return Margins {
            first: column,
            rest: column,
        };
    }
    let rest = rest_margin(context);
    match context.first {
        Some(first) if !context.has_row => Margins {
            first: first_margin(context, first),
            rest,
        },
        _ => Margins { first: rest, rest },
    }
}
