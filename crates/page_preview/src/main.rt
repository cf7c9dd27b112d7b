//! An editor's preview with the page's outline: a page is formatted, and after each change only what follows the last edge before it; and its headings
//! are shown, each with the number of the line where it begins. `docs/LIBRARY.md` walks through it.
//!
//! The standard input has pages, with a line `====` between them, and below the lines of each changes: a line `== N TEXT` says that the physical line of
//! number N is now TEXT. What is shown are the rows and messages of the page, and after each change those that came anew, with the number of bytes in
//! front that were kept. Where these are not what the changed page gives as a whole, a line `-- not` says so. The outline is below them.
#![tactic(auto)]

mod feeding;
mod outline;
mod preview;
mod text;

use page_core::{Fault, Level, Output, Settings};
use preview::Preview;
use std::io;
use text::{change_of, line_at};

fn main(rt: HostRuntime) -> io::Result<()> {
    let mut preview = new_preview(&rt);
    run(&rt, &mut preview)
}

// Shows the pages, each with its changes.
fn run(rt: &HostRuntime, preview: &mut Preview) -> io::Result<()> {
    let mut text = Vec::new(rt.alloc());
    let mut is_shown = false;
    for line in rt.lines(rt.alloc()) {
        let line = line?;
        if line.as_str() == "====" {
            show_first(rt, preview, text.as_slice(), is_shown)?;
            is_shown = false;
            text.clear();
            continue;
        }
        let Some((number, new)) = change_of(line.as_str()) else {
            text.extend_from_slice(line.as_bytes())?;
            text.push(b'\n')?;
            continue;
        };
        show_first(rt, preview, text.as_slice(), is_shown)?;
        is_shown = true;
        let (begin, end) = line_at(text.as_slice(), number);
        text = changed(rt, text.as_slice(), (begin, end), new)?;
        println!(rt; "{line}")?;
        show(rt, preview, text.as_slice(), begin)?;
    }
    show_first(rt, preview, text.as_slice(), is_shown)
}

// Shows a page before its first change, unless it is shown already.
fn show_first(
    rt: &HostRuntime,
    preview: &mut Preview,
    text: &[u8],
    is_shown: bool,
) -> io::Result<()> {
    if is_shown {
        return Ok(());
    }
    show(rt, preview, text, 0)
}

// A preview with no page yet, in UTF-8 and with all messages.
fn new_preview(rt: &HostRuntime) -> Preview {
    let settings = Settings {
        output: Output::Utf8,
        least: Some(Level::Base),
        ..Settings::new()
    };
    Preview::new(rt.alloc(), settings)
}

// The text with other bytes in a place.
fn changed(rt: &HostRuntime, text: &[u8], place: (usize, usize), new: &str) -> io::Result<Vec<u8>> {
    let mut whole = Vec::new(rt.alloc());
    whole.extend_from_slice(text.get(..place.0).unwrap_or(b""))?;
    whole.extend_from_slice(new.as_bytes())?;
    whole.extend_from_slice(text.get(place.1..).unwrap_or(b""))?;
    Ok(whole)
}

// Shows what comes anew of a text that is as it was up to a place, and its outline.
fn show(rt: &HostRuntime, preview: &mut Preview, text: &[u8], same: usize) -> io::Result<()> {
    match preview.format(text, same) {
        Ok(kept) => {
            println!(rt; "-- {kept} of {} bytes are kept", text.len())?;
            print!(rt; "{}{}", preview.new_rows(), preview.new_messages())?;
            show_difference(rt, preview, text)?;
            show_outline(rt, text)
        }
        Err(fault) => println!(rt; "-- {fault}"),
    }
}

// Shows whether the text as a whole gives something else.
fn show_difference(rt: &HostRuntime, preview: &Preview, text: &[u8]) -> io::Result<()> {
    let mut whole = new_preview(rt);
    match whole.format(text, 0) {
        Ok(_) if whole.is_same(preview) => Ok(()),
        Ok(_) => println!(rt; "-- not what the whole page gives"),
        Err(fault) => report(rt, fault),
    }
}

fn report(rt: &HostRuntime, fault: Fault) -> io::Result<()> {
    println!(rt; "-- not whole: {fault}")
}

// Shows the headings of a page, those of subsections behind three blanks.
fn show_outline(rt: &HostRuntime, text: &[u8]) -> io::Result<()> {
    match feeding::outline_of(rt.alloc(), text) {
        Ok(outline) => show_headings(rt, &outline),
        Err(fault) => println!(rt; "-- no outline: {fault}"),
    }
}

fn show_headings(rt: &HostRuntime, outline: &outline::Outline) -> io::Result<()> {
    for heading in outline.headings.iter() {
        let blanks = if heading.margin == 0 { "" } else { "   " };
        println!(rt; "{}: {blanks}{}", heading.line, heading.text.as_str())?;
    }
    Ok(())
}
