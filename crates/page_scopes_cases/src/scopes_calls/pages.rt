//! A page, whose lines come one by one.

ghost use Rattle.std.specs.Prelude.{◌≤◌, length};
ghost use Rattle.page_sets_lines.specs.laws.Views.{KindFits};
ghost use Rattle.page_sets_lines.specs.laws.Events.{kind_view};

use super::shown::{Shown, nothing};
use super::spelled::{read_spelled, spelled_kind, spelled_list};
use crate::lines::{taken, unnamed};
use crate::verbatim::Verbatim;
use page_core_base::{Form, LINE, Output, Place, Taken};
use page_scopes::OpenScopes;
use page_scopes_nodes::PageLayout;
use page_sets::Man;
use page_sets_lines::{Event, EventKind, MacroSet};
use std::alloc::{AllocError, Global};

/// The scopes of a page, and the number of its next line.
#[derive(Drop)]
pub(crate) struct Page {
    scopes: OpenScopes,
    line: u32,
}

// A line as roff hands it to a macro set; one that begins with `|` is one of a table, and one that begins with `~` a text as it is.
fn line_of(text: &[u8], line: u32) -> Taken<'_>
    requires { length text.now ≤ LINE }
    ensures { length result.text.now ≤ length text.now }
{
    match text {
        [b'|', raw @ ..] => unnamed(Form::Raw, raw, line),
        [b'~', expanded @ ..] => unnamed(Form::Text, expanded, line),
        _ => taken(text, line),
    }
}

// Gives what the events of a line settle, which a set of macros says.
fn give_line<S: MacroSet>(set: &S, line: Taken<'_>, scopes: &mut OpenScopes, out: &mut Shown)
where
    S::Place: Drop,
    requires { length line.text.now ≤ LINE }
{
    let mut place = set.start(line);
    while let Some(event) = set.next(line, &mut place) {
        scopes.give_event(&event, out);
    }
}

// Gives what an event settles.
fn give_kind(scopes: &mut OpenScopes, out: &mut Shown, place: Place, kind: EventKind<&[u8]>)
    requires { KindFits (kind_view kind) }
{
    scopes.give_event(&Event { place, kind }, out);
}

// Gives what the events of a line settle, which are spelled, each in its column.
fn give_spelled(text: &str, line: u32, scopes: &mut OpenScopes, out: &mut Shown) {
    let mut column = 2u32;
    for part in text.split(' ') {
        let (name, text) = read_spelled(part, column);
        give_kind(
            scopes,
            out,
            Place { line, column },
            spelled_kind(name, column, text),
        );
        let len = u32::try_from(part.len()).unwrap_or(u32::MAX);
        column = column.saturating_add(1).saturating_add(len);
    }
}

// Gives what a line of mdoc(7) settles, and its end.
fn give_mdoc(text: &str, line: u32, scopes: &mut OpenScopes, out: &mut Shown) {
    match text.strip_prefix("Bl ") {
        Some(options) => {
            let place = Place { line, column: 2 };
            give_kind(scopes, out, place, spelled_list(options.as_bytes()));
        }
        None => give_spelled(text, line, scopes, out),
    }
    let place = Place { line, column: 1 };
    give_kind(scopes, out, place, EventKind::End { fills: true });
}

impl Page {
    /// A page before its first line, at an indent of 7 columns.
    pub(crate) fn new(alloc: Global) -> Result<Page, AllocError> {
        let layout = PageLayout {
            indent: 7,
            output: Output::Ascii,
        };
        Ok(Page {
            scopes: OpenScopes::new(alloc, layout)?,
            line: 1,
        })
    }

    /// Takes a heading and a word.
    pub(crate) fn begin(&mut self, alloc: Global) {
        let mut out = nothing(alloc);
        self.take(&mut out, ".SH A");
        self.take(&mut out, "x");
    }

    // Takes a line; one that begins with `^` by the second set, which shows it as it is.
    fn take_line(&mut self, out: &mut Shown, text: &[u8])
        requires { length text.now ≤ LINE }
    {
        if let [b'^', raw @ ..] = text {
            let line = unnamed(Form::Raw, raw, self.line);
            give_line(&Verbatim, line, &mut self.scopes, out);
        } else {
            give_line(&Man, line_of(text, self.line), &mut self.scopes, out);
        }
    }

    // Takes a line; `end` ends the page.
    fn take(&mut self, out: &mut Shown, text: &str) {
        if text.len() > LINE / 2 {
            return;
        }
        if text == "end" {
            self.scopes.give_end(self.line, out);
        } else if let Some(spelled) = text.strip_prefix('&') {
            give_mdoc(spelled, self.line, &mut self.scopes, out);
        } else {
            self.take_line(out, text.as_bytes());
        }
        self.line = self.line.saturating_add(1);
    }

    /// Shows what a line gives.
    pub(crate) fn show(&mut self, rt: &HostRuntime, text: &str) {
        let mut out = nothing(rt.alloc());
        self.take(&mut out, text);
        let _ = println!(rt; "   {}", out.notation.text());
    }

    /// Takes a line a number of times, which is before it, and shows the last.
    pub(crate) fn repeat(&mut self, rt: &HostRuntime, text: &str) {
        let (count, line) = text.split_once(' ').unwrap_or(("0", text));
        let count: u32 = count.parse().unwrap_or(0);
        for _i in 0..count.saturating_sub(1) {
            let mut out = nothing(rt.alloc());
            self.take(&mut out, line);
        }
        self.show(rt, line);
    }
}
