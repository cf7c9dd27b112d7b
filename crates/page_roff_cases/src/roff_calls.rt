//! Calls of the crates of roff, each a line: its name, a blank, and its text.
//!
//! The calls work on one set of names and arguments, and on one page, up to a line `new`. A call after `long` has a text in which each `~N*TEXT~`
//! stands for the text N times, as a line of the page has.
//!
//! - `form`, `words`, `kept` and `others`: the form of a line, and its arguments (`forms.rt`).
//! - `head`, `guarded` and `end`: a conditional, what one guards, and the end of a block (`heads.rt`).
//! - `string`, `register`, `number`, and what changes names, arguments and the output and shows nothing (`names.rt`).
//! - `set-string` .. `rename`, `is` and `given`: changes that may exceed a limit, and what they leave (`changes.rt`).
//! - `if`, `text`, `copy` and `more`: a condition, and texts that are expanded (`texts.rt`).
//! - `mode` and `request`: the requests for definitions (`definitions.rt`).
//! - `parts` and `loop-text`: the parts of a line, and what of it belongs to a loop (`parts.rt`).
//! - `line`, `lines N`, `page-end` and `counts`: lines of the page, its end, and what is counted (`sources.rt`).

mod changes;
mod definitions;
mod forms;
mod heads;
mod names;
mod parts;
mod sources;
mod texts;

use changes::{show_change, show_given, show_meaning};
use definitions::{show_mode, show_request};
use forms::{show_form, show_kept, show_others, show_words};
use heads::{show_end, show_guarded, show_head};
use names::{Roff, show_number, show_register, show_string};
use page_test_streams::repeated;
use parts::{show_loop_text, show_parts};
use sources::Page;
use std::io;
use texts::{show_condition, show_more, show_text};

/// Shows all lines that are left.
pub(crate) fn show_roff(rt: &HostRuntime) -> io::Result<()> {
    'parts: for _ in 0..u64::MAX {
        if !show_part(rt)? {
            break 'parts;
        }
    }
    Ok(())
}

// Shows lines up to a line `new`, and answers whether it came. What the calls work on is made and dropped here alone, since this takes most of the proof.
fn show_part(rt: &HostRuntime) -> io::Result<bool> {
    let mut roff = Roff::new(rt.alloc())?;
    let Ok(mut page) = Page::new(rt.alloc()) else {
        return Ok(false);
    };
    show_lines(rt, &mut roff, &mut page)
}

fn show_lines(rt: &HostRuntime, roff: &mut Roff, page: &mut Page) -> io::Result<bool> {
    for line in rt.lines(rt.alloc()) {
        let line = line?;
        show_line(rt, roff, page, line.as_str());
        if line.as_str() == "new" {
            return Ok(true);
        }
    }
    Ok(false)
}

// A line of the input, with what its call gives.
fn show_line(rt: &HostRuntime, roff: &mut Roff, page: &mut Page, line: &str) {
    let _ = print!(rt; "{line}");
    let (call, text) = line.split_once(' ').unwrap_or((line, ""));
    if call == "long" {
        show_long(rt, roff, text);
    } else {
        show_call(rt, roff, call, text);
        show_source(rt, page, call, text);
    }
    let _ = println!(rt; "");
}

// What a call gives whose text has parts that occur several times.
fn show_long(rt: &HostRuntime, roff: &mut Roff, line: &str) {
    let Ok(whole) = repeated(rt.alloc(), line) else {
        return;
    };
    let line = whole.as_str();
    let (call, text) = line.split_once(' ').unwrap_or((line, ""));
    show_call(rt, roff, call, text);
}

fn show_call(rt: &HostRuntime, roff: &mut Roff, call: &str, text: &str) {
    roff.change(call, text);
    show(rt, roff, call, text);
}

fn show(rt: &HostRuntime, roff: &mut Roff, call: &str, text: &str) {
    match call {
        "head" => show_head(rt, text),
        "guarded" => show_guarded(rt, text),
        "end" => show_end(rt, text),
        "mode" => show_mode(rt, text),
        "string" => show_string(rt, roff, text),
        "register" => show_register(rt, roff, text),
        "request" => show_request(rt, roff, text),
        "if" => show_condition(rt, roff, text),
        "text" => show_text(rt, roff, false, text),
        "copy" => show_text(rt, roff, true, text),
        "more" => show_more(rt, roff, text),
        "number" => show_number(rt, roff, text),
        "is" => show_meaning(rt, &roff.names, text),
        "given" => show_given(rt, &roff.names, text),
        "set-string" | "add-string" | "set-macro" | "add-macro" | "set-register" | "rename" =>
            show_change(rt, roff, call, text),
        _ => show_line_part(rt, call, text),
    }
}

// What needs no names.
fn show_line_part(rt: &HostRuntime, call: &str, text: &str) {
    match call {
        "form" => show_form(rt, text),
        "words" => show_words(rt, text),
        "kept" => show_kept(rt, text),
        "others" => show_others(rt, text),
        "parts" => show_parts(rt, text),
        "loop-text" => show_loop_text(rt, text),
        _ => {}
    }
}

// A line of the page, several lines `N TEXT`, or the page's end.
fn show_source(rt: &HostRuntime, page: &mut Page, call: &str, text: &str) {
    let (times, text) = match call {
        "lines" => text.split_once(' ').unwrap_or(("1", text)),
        _ => ("1", text),
    };
    let Ok(text) = repeated(rt.alloc(), text) else {
        return;
    };
    match call {
        "line" | "lines" => page.show_lines(rt, times.parse().unwrap_or(1), text.as_str()),
        "page-end" => page.show_end(rt),
        "counts" => page.show_counts(rt),
        _ => {}
    }
}
