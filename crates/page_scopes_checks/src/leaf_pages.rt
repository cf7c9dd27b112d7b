//! The lines of a script, of which what opens and closes scopes is passed over.

use crate::collected::events_of;
use page_core_base::{Form, Taken};
use page_roff_syntax::{LineForm, form_of};
use page_scopes_nodes::give_kind;
use page_scopes_phrases::Formatting;
use page_sets::{Event, EventKind, Leaf, Man};
use page_test_streams::Shown;
use std::alloc::Global;
use std::process::Abort;

/// The bytes at most of a line here.
pub const MOST: usize = 100;

// Gives what an event gives.
fn give_event(out: &mut Shown, event: &Event<&[u8]>, state: &mut Formatting) {
    let mut name = None;
    match event.kind {
        EventKind::Word(word) => {
            if word.arg.text.len() <= MOST && word.arg.column <= MOST as u32 {
                give_kind(out, event.place, &EventKind::Word(word), &mut name, state);
            }
        }
        EventKind::Open(_) | EventKind::Close(_) | EventKind::Leaf(Leaf::Step(_)) => {}
        _ => give_kind(out, event.place, &event.kind, &mut name, state),
    }
}

// The bytes up to the end of the name of a control line.
fn name_end(text: &str) -> u32 {
    if text.len() > MOST {
        return 0;
    }
    match form_of(text.as_bytes()) {
        LineForm::Control { rest_column, .. } => rest_column.saturating_sub(1),
        LineForm::Comment | LineForm::BlankLine | LineForm::Text(_) => 0,
    }
}

/// A line of a script: "=" begins a raw line, and "~" is a text that was expanded to nothing.
pub fn read_line(text: &str, line: u32) -> Taken<'_> {
    let (form, text) = match text.as_bytes().first() {
        None => (Form::Blank, text),
        Some(b'=') => (Form::Raw, text.get(1..).unwrap_or("")),
        Some(b'~') => (Form::Text, ""),
        Some(b'.') => (Form::Control, text),
        Some(_) => (Form::Text, text),
    };
    Taken {
        form,
        text: text.as_bytes(),
        line,
        name_end: if let Form::Control = form {
            name_end(text)
        } else {
            0
        },
    }
}

/// Checks what was given.
pub fn check_shown(rt: &impl Abort, got: &Shown, wanted: &str, at: &str) {
    assert_eq!(rt; got.text(), wanted.as_bytes(), "of {at}");
}

/// Gives the lines of a script, with "|" after each.
pub fn give_script(
    rt: &impl Abort,
    alloc: Global,
    out: &mut Shown,
    state: &mut Formatting,
    script: &str,
) {
    let mut number = 0u32;
    for text in script.split('\n') {
        assert!(rt; number < 1_000);
        number += 1;
        let line = read_line(text, number);
        assert!(rt; line.text.len() <= MOST);
        let Ok(events) = events_of(alloc, &Man, line) else {
            return;
        };
        for event in &events {
            give_event(out, event, state);
        }
        out.add(b"|");
    }
}
