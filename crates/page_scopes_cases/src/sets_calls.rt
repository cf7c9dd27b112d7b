//! Lines that a set of macros takes, each after the name of a call and a blank, and the events that it gives of them, as `events.rt` shows these.
//!
//! - `man` and `mdoc`: a control line whose raw text is its finished text; `named N`: one of man(7) whose name ends after N bytes (`lines.rt`).
//! - `text`, `blank` and `raw`: a line of man(7) that is no control line; `other`: one in a set that shows each line as it is.
//! - `count`: how many events a line of mdoc(7) gives. Each `~N*TEXT~` in it stands for the text N times.
//! - `words`: the events of a macro's words alone, as they are where a word calls it, and `first` where it begins its line (`words.rt`).
//! - `row`: whether words call a macro of mdoc(7), and whether words of its line call others; `delimiter`: what a word is (`rows.rt`).
//! - `indents`: of a page of man(7), of mdoc(7) and of that other set.

mod events;
mod lines;
mod rows;
mod words;

use lines::{show_count, show_indents, show_man, show_mdoc, show_named, show_other, show_unnamed};
use page_core_base::{Form, LINE};
use rows::{show_delimiter, show_row};
use std::io;
use words::show_words;

/// Shows lines up to the heading of scopes.
pub(crate) fn show_sets(rt: &HostRuntime) -> io::Result<()> {
    for line in rt.lines(rt.alloc()) {
        let line = line?;
        let _ = print!(rt; "{line}");
        let (call, text) = line.as_str().split_once(' ').unwrap_or((line.as_str(), ""));
        show_call(rt, call, text);
        let _ = println!(rt; "");
        if line.as_str() == "==== scopes" {
            return Ok(());
        }
    }
    Ok(())
}

// Shows what a call gives.
fn show_call(rt: &HostRuntime, call: &str, text: &str) {
    if text.len() > LINE {
        return;
    }
    match call {
        "man" => show_man(rt, text),
        "mdoc" => show_mdoc(rt, text),
        "named" => show_named(rt, text),
        "text" => show_unnamed(rt, Form::Text, text),
        "blank" => show_unnamed(rt, Form::Blank, text),
        "raw" => show_unnamed(rt, Form::Raw, text),
        "other" => show_other(rt, text),
        "count" => show_count(rt, text),
        "indents" => show_indents(rt),
        "words" => show_words(rt, false, text),
        "first" => show_words(rt, true, text),
        "row" => show_row(rt, text),
        "delimiter" => show_delimiter(rt, text),
        _ => {}
    }
}
