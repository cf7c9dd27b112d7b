//! The events of a line, given one after another (mdoc(7), "MACRO SYNTAX").

ghost use Rattle.std.specs.Prelude.{◌≡◌, ◌≤◌, ◌∷◌, [], Some, length, ◌&&◌, not};
ghost use Rattle.page_core_base.specs.laws.Views.{line_view, Came};
ghost use Rattle.page_sets_lines.specs.Lines.{layout_request, line_end, name_of, rest_of};
ghost use Rattle.page_sets_mdoc_lines.specs.Rows as rows;
ghost use Rattle.page_sets.specs.Mdoc as mdoc;
ghost use Rattle.page_sets_mdoc_blocks.specs.Fronts.{has_phrase as spec_has_phrase};
ghost use Rattle.page_roff_syntax.specs.Arguments.{has_arguments};

use crate::mdoc_line_words::give_words;
use page_core_base::{LINE, NoteKind, Taken};
use page_roff_syntax::LayoutRequest;
use page_sets_lines::{
    ControlLine, EventKind, EventTaker, PlainLine, event_at, layout_request, line_start,
};
use page_sets_mdoc_blocks::{give_front, give_refusal, give_request, has_phrase};
use page_sets_mdoc_lines::{LineMacro, MacroRow, row_of};

// A line's end.
fn give_end<'a, O: EventTaker<'a>>(out: &mut O, number: u32, fills: bool)
    ensures { Came O.left out.old (line_end number fills ∷ []) out.new }
{
    out.give(event_at(line_start(number), EventKind::End { fills }));
}

// A message that names the macro, which does nothing else.
fn give_refused<'a, O: EventTaker<'a>>(out: &mut O, kind: NoteKind, line: &ControlLine<'a>)
    ensures { Came O.left out.old (mdoc.refused_events kind line.now) out.new }
{
    give_refusal(out, kind, line);
    give_end(out, line.number(), true);
}

// Whether a macro needs words, and has none.
fn lacks_words(begins: LineMacro, line: &ControlLine<'_>) -> bool
    ensures { result ≡ (spec_has_phrase begins && not (has_arguments (rest_of line.now))) }
{
    has_phrase(begins) && !line.has_arguments()
}

// A macro that begins a line, by its row.
fn give_line_macro<'a, O: EventTaker<'a>>(out: &mut O, row: MacroRow, line: &ControlLine<'a>)
    requires { rows.row_of (name_of line.now) ≡ Some row }
    ensures { Came O.left out.old (mdoc.macro_events row.begins line.now) out.new }
{
    if lacks_words(row.begins, line) {
        give_refused(out, NoteKind::EmptyMacro, line);
        return;
    }
    give_front(out, row.begins, line);
    give_words(out, row, line);
    give_end(out, line.number(), true);
}

// A name that is no macro's.
fn give_line_request<'a, O: EventTaker<'a>>(
    out: &mut O,
    request: Option<LayoutRequest>,
    line: &ControlLine<'a>,
)
    ensures { Came O.left out.old (mdoc.request_events request line.now) out.new }
{
    match request {
        Some(request) => {
            give_request(out, request, line);
            give_end(out, line.number(), true);
        }
        None => give_refused(out, NoteKind::UnknownMacro, line),
    }
}

// A control line.
#[inline(never)]
fn give_control<'a, O: EventTaker<'a>>(out: &mut O, line: &ControlLine<'a>)
    ensures { Came O.left out.old (mdoc.control_events line.now) out.new }
{
    if line.is_nameless() {
        give_end(out, line.number(), true);
        return;
    }
    match row_of(line.name()) {
        Some(row) => give_line_macro(out, row, line),
        None => give_line_request(out, layout_request(line.name()), line),
    }
}

/// Gives the events of a line.
#[tactic(auto, unfolding(crate::specs::Mdoc::mdoc_events))]
pub(crate) fn give_events<'a, O: EventTaker<'a>>(out: &mut O, line: Taken<'a>)
    requires { length line.text.now ≤ LINE }
    ensures { Came O.left out.old (mdoc.mdoc_events (line_view line.entry)) out.new }
{
    match PlainLine::of(line) {
        Some(plain) => {
            out.give(event_at(line_start(line.line), plain.kind(line.text)));
            give_end(out, line.line, plain.fills());
        }
        None => give_control(out, &ControlLine::new(line)),
    }
}
