//! The arguments of requests for definitions.

ghost use Rattle.std.specs.Prelude.{◌≡◌, ◌≤◌, ◌+◌, length};
ghost use Rattle.page_core_base.specs.laws.Views.{Came};
ghost use Rattle.page_roff_syntax.specs.laws.Views.{argument_view};
ghost use Rattle.page_roff_syntax.specs.Arguments.{arguments, after_blanks};
ghost use Rattle.page_roff_definitions.specs.Definitions as ends;
ghost use Rattle.page_roff_definitions.specs.Definitions.{closing_notes, closings_notes, without_quote, value_after};

use memchr::memchr;
use page_core_base::{LINE, Note, NoteKind, NoteOut, Place};
use page_roff_syntax::{Argument, Arguments, Quoting, blank_len};

// Reports an argument without its closing quote, at its opening one.
fn report_closing<O: NoteOut>(out: &mut O, line: u32, argument: Argument<&[u8]>)
    ensures { Came O.left out.old (closing_notes line (argument_view argument.entry)) out.new }
{
    let place = Place {
        line,
        column: argument.column.saturating_sub(1),
    };
    match argument.quoting {
        Quoting::Bare | Quoting::Closed => {}
        Quoting::Unclosed => out.report(&Note::about(NoteKind::Unterminated, place, b"")),
    }
}

/// Reports the arguments without their closing quote. The first byte of `rest` is at the place.
pub fn report_closings<O: NoteOut>(out: &mut O, place: Place, rest: &[u8])
    requires short { length rest.now ≤ LINE }
    requires room { place.column + length rest.now ≤ LINE + 1 }
    ensures { Came O.left out.old (closings_notes place.line (arguments place.column rest.now)) out.new }
{
    if memchr(b'"', rest).is_none() {
        return;
    }
    let mut arguments = Arguments::new(rest, place.column);
    while let Some(argument) = arguments.next_argument() {
        report_closing(out, place.line, argument);
    }
}

// The number of an argument's bytes after its text.
fn closing_len(quoting: Quoting) -> usize
    ensures value { result ≡ ends.closing_len quoting }
    ensures bound { result ≤ 1 }
{
    match quoting {
        Quoting::Bare | Quoting::Unclosed => 0,
        Quoting::Closed => 1,
    }
}

// A text without its leading blanks.
fn after_blanks(text: &[u8]) -> &[u8]
    ensures { result.now ≡ after_blanks text.now }
{
    &text[blank_len(text)..]
}

// A text without its leading quote.
fn without_quote(text: &[u8]) -> &[u8]
    ensures { result.now ≡ without_quote text.now }
{
    match text {
        [b'"', rest @ ..] => rest,
        _ => text,
    }
}

/// The value of a string: what follows its name and blanks in the rest of a line, of which the first byte is at a
/// column.
pub(crate) fn value_after<'a>(rest: &'a [u8], column: u32, name: Argument<&[u8]>) -> &'a [u8]
    requires { length name.text.now ≤ LINE }
    ensures { result.now ≡ value_after column rest.now (argument_view name.entry) }
{
    let before = name.column.saturating_sub(column) as usize;
    let end = before + name.text.len() + closing_len(name.quoting);
    without_quote(after_blanks(&rest[end.min(rest.len())..]))
}
