//! Lines of pages, each with what the scopes of its page give below it (`pages.rt`, in the notation of `shown.rt`).
//!
//! A line is text or a macro of man(7). One that begins with `|` is one of a table, as it is, and one with `~` a text as it was expanded; one that
//! begins with `^` is taken by a second set of macros, which shows each as it is; one that begins with `&` has events of mdoc(7), as `spelled.rt`
//! says, and its end. A line `new` and a title begins a page, `page` one after a heading and a word; `end` ends it; `times N` takes the line after it
//! N times, and shows the last.

mod pages;
mod shown;
mod spelled;

use pages::Page;
use std::io;

// How a page begins.
#[derive(Clone, Copy)]
enum Start {
    // Before its first line.
    New,
    // After a heading and a word.
    Begun,
}

/// Shows all lines that are left.
pub(crate) fn show_scopes(rt: &HostRuntime) -> io::Result<()> {
    let mut next = Some(Start::New);
    'pages: for _ in 0..u64::MAX {
        match next {
            Some(start) => next = show_page(rt, start)?,
            None => break 'pages,
        }
    }
    Ok(())
}

// Shows the lines of a page, and answers how the next one begins. It is made and dropped here alone, since this takes most of the proof.
fn show_page(rt: &HostRuntime, start: Start) -> io::Result<Option<Start>> {
    let mut page = Page::new(rt.alloc())?;
    if let Start::Begun = start {
        page.begin(rt.alloc());
    }
    show_lines(rt, &mut page)
}

fn show_lines(rt: &HostRuntime, page: &mut Page) -> io::Result<Option<Start>> {
    for line in rt.lines(rt.alloc()) {
        let line = line?;
        let _ = println!(rt; "{line}");
        match line.as_str().split_once(' ').unwrap_or((line.as_str(), "")) {
            ("new", _) => return Ok(Some(Start::New)),
            ("page", _) => return Ok(Some(Start::Begun)),
            ("times", text) => page.repeat(rt, text),
            _ => page.show(rt, line.as_str()),
        }
    }
    Ok(None)
}
