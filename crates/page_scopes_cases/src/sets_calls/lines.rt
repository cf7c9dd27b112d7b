//! Lines of sets of macros, with their events.

ghost use Rattle.std.specs.Prelude.{◌≤◌, length};

use super::events::show_event;
use crate::lines::{taken, unnamed};
use crate::verbatim::Verbatim;
use page_core_base::{Form, LINE, Taken};
use page_sets::{Event, MacroSet, Man, Mdoc};
use page_sets_lines::EventOut;
use page_test_streams::repeated;

/// The line of the page that is shown.
const NUMBER: u32 = 7;

// The events that a set gives of a line.
fn show_events<S: MacroSet>(rt: &HostRuntime, set: &S, line: Taken<'_>)
where
    S::Place: Drop,
    requires { length line.text.now ≤ LINE }
{
    let mut place = set.start(line);
    let mut is_first = true;
    while let Some(event) = set.next(line, &mut place) {
        show_event(rt, is_first, event);
        is_first = false;
    }
}

/// Shows a control line of man(7).
pub(crate) fn show_man(rt: &HostRuntime, text: &str)
    requires { length text.now ≤ LINE }
{
    show_events(rt, &Man, taken(text.as_bytes(), NUMBER));
}

/// Shows one of mdoc(7).
pub(crate) fn show_mdoc(rt: &HostRuntime, text: &str)
    requires { length text.now ≤ LINE }
{
    show_events(rt, &Mdoc, taken(text.as_bytes(), NUMBER));
}

/// Shows one of man(7) whose name ends after as many bytes as are given before it.
pub(crate) fn show_named(rt: &HostRuntime, text: &str) {
    let (name_end, text) = text.split_once(' ').unwrap_or((text, ""));
    if text.len() > LINE {
        return;
    }
    let line = Taken {
        form: Form::Control,
        text: text.as_bytes(),
        line: NUMBER,
        name_end: name_end.parse().unwrap_or(0),
    };
    show_events(rt, &Man, line);
}

/// Shows a line of man(7) that is no control line.
pub(crate) fn show_unnamed(rt: &HostRuntime, form: Form, text: &str)
    requires { length text.now ≤ LINE }
{
    show_events(rt, &Man, unnamed(form, text.as_bytes(), NUMBER));
}

/// Shows one of the set that shows each as it is.
pub(crate) fn show_other(rt: &HostRuntime, text: &str)
    requires { length text.now ≤ LINE }
{
    show_events(rt, &Verbatim, unnamed(Form::Text, text.as_bytes(), NUMBER));
}

// How many events came.
#[derive(Drop)]
struct Counted {
    count: usize,
}

impl EventOut for Counted {
    ghost Plan = { Unit {0} };

    ghost left = { λ plan counted events. Unit {0} };

    fn give(&mut self, _event: Event<&[u8]>) {
        self.count = self.count.saturating_add(1);
    }
}

/// Shows how many events a line of mdoc(7) gives.
pub(crate) fn show_count(rt: &HostRuntime, text: &str) {
    let Ok(text) = repeated(rt.alloc(), text) else {
        return;
    };
    if text.len() > LINE {
        return;
    }
    let mut counted = Counted { count: 0 };
    Mdoc.give(taken(text.as_bytes(), NUMBER), &mut counted);
    let _ = print!(rt; " -> {}", counted.count);
}

/// Shows the indents of pages.
pub(crate) fn show_indents(rt: &HostRuntime) {
    let (man, mdoc, other) = (Man.indent(), Mdoc.indent(), Verbatim.indent());
    let _ = print!(rt; " -> {man} {mdoc} {other}");
}
