//! Regions: definitions of macros, ignored lines, tables, equations and pictures (roff(7), "de", "am", "ig").

ghost use Rattle.std.specs.Prelude.{◌≡◌, ◌≤◌, ◌+◌, length, option_map};
ghost use Rattle.page_core_base.specs.declared.limits.TheConstants.{LINE, NAME};
ghost use Rattle.page_roff_syntax.specs.laws.Views.{argument_view, region_view, NameOfNext};
ghost use Rattle.page_roff_syntax.specs.Arguments.{argument_name, arguments};
ghost use Rattle.page_roff_syntax.specs.Regions.{ending_of, end_name, has_long_name, is_too_long, region_head, is_ending};

use crate::{Argument, Arguments, LineForm, RegionKind, form_of};
use arrayvec::ArrayVec;
use page_core_base::{LINE, NAME};

/// The head of a region; `W` is a text. Its names are arguments as they are written, and nothing in them is
/// expanded.
#[derive(Clone, Copy)]
pub struct RegionHead<W> {
    pub kind: RegionKind,
    /// The column of its own name.
    pub column: u32,
    /// The macro that it defines, where it names one.
    pub name: Option<Argument<W>>,
    /// The name of the control line that ends it, where it names one.
    pub ending: Option<Argument<W>>,
}

// The next argument, if there is one more that has bytes: an empty name is none.
fn next_named<'a>(arguments: &mut Arguments<'a>) -> Option<Argument<&'a [u8]>>
    ensures { NameOfNext arguments.old (option_map argument_view result) arguments.new }
{
    match arguments.next_argument() {
        Some(argument) if !argument.text.is_empty() => Some(argument),
        _ => None,
    }
}

/// A name of its own.
pub(crate) fn copy_of(name: &[u8]) -> ArrayVec<u8, NAME>
    requires { length name.now ≤ NAME }
    ensures { result.items ≡ name.now }
{
    let mut copy = ArrayVec::new();
    let _ = copy.try_extend_from_slice(name);
    copy
}

// The end name of a region that asks for this one.
fn ending_of(asked: &[u8]) -> ArrayVec<u8, NAME>
    ensures { result.items ≡ ending_of (Some asked.now) }
{
    if asked.len() <= NAME {
        copy_of(asked)
    } else {
        copy_of(b".")
    }
}

// Whether a name is longer than names may be.
fn is_too_long(name: Option<Argument<&[u8]>>) -> bool
    ensures { result ≡ is_too_long (option_map argument_name (option_map argument_view name.entry)) }
{
    match name {
        Some(argument) => argument.name().len() > NAME,
        None => false,
    }
}

impl<'a> RegionHead<&'a [u8]> {
    /// The name of the control line that ends it: at most [`NAME`] bytes.
    pub fn end_name(&self) -> ArrayVec<u8, NAME>
        ensures { result.items ≡ end_name (region_view self.now) }
    {
        if let Some(name) = self.kind.fixed_ending() {
            return ending_of(name);
        }
        match self.ending {
            Some(argument) => ending_of(argument.name().as_slice()),
            None => ending_of(b"."),
        }
    }

    /// Whether its name or its end name is longer than names may be.
    pub fn has_long_name(&self) -> bool
        ensures { result ≡ has_long_name (region_view self.now) }
    {
        is_too_long(self.name) || is_too_long(self.ending)
    }
}

/// The head of a region of a kind: the column of its name and, without its comment, the rest of its line,
/// of which the first byte is at another.
#[tactic(auto, unfolding(crate::specs::Regions::region_head))]
pub fn region_head(
    kind: RegionKind,
    column: u32,
    rest: &[u8],
    rest_column: u32,
) -> RegionHead<&[u8]>
    requires short { length rest.now ≤ LINE }
    requires room { rest_column + length rest.now ≤ LINE + 1 }
    ensures { region_view result ≡ region_head kind column rest_column rest.now }
{
    let mut arguments = Arguments::new(rest, rest_column);
    let first = next_named(&mut arguments);
    let second = next_named(&mut arguments);
    let (name, ending) = match kind {
        RegionKind::Define | RegionKind::Append => (first, second),
        RegionKind::Ignore => (None, first),
        RegionKind::Table | RegionKind::Equation | RegionKind::Picture => (None, None),
    };
    RegionHead {
        kind,
        column,
        name,
        ending,
    }
}

/// Whether a raw line ends a region of that end name.
#[tactic(auto, unfolding(crate::specs::Regions::is_ending))]
pub fn is_ending(ending: &[u8], line: &[u8]) -> bool
    requires { length line.now ≤ LINE }
    ensures { result ≡ is_ending ending.now line.now }
{
    match form_of(line) {
        LineForm::Control { name, .. } => name == ending,
        _ => false,
    }
}
