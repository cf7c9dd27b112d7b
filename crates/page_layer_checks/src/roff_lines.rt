//! Messages that are not taken, and lines that are known to be free; `page_roff_cases` has the pages that are cut.

use crate::checks::check_count;
use page_core_base::{Encoding, LINE, NoteKind};
use page_core_streams::KeptNotes;
use page_roff::Cutter;
use page_test_streams::CountingSink;
use std::alloc::Global;
use std::test::Fail;

// How many messages come of a page's last line that are not about a byte that is no character, and how many bytes it has.
fn messages_of(alloc: Global, page: &[u8]) -> Result<(u64, usize), Fail> {
    let mut notes = CountingSink::new(0);
    notes.passed_over = Some(NoteKind::BadChar);
    let mut len = 0;
    if page.len() > 100_000 {
        return Ok((0, 0));
    }
    let mut cutter = Cutter::new(alloc, Encoding::Auto)?;
    let (_, whole) = cutter.feed(page);
    if whole {
        return Ok((0, 0));
    }
    if cutter.end() {
        let (text, _) = cutter.line(&mut notes)?;
        len = text.len();
    }
    Ok((notes.calls, len))
}

#[test]
fn gives_no_message_that_is_not_taken(rt: HostRuntime) -> Result<(), Fail> {
    let (count, len) = messages_of(rt.alloc(), b"a\x01\x7f")?;
    check_count(&rt, count as usize, 0, "messages");
    check_count(&rt, len, 3, "the line");
    let page = vec![in rt.alloc(); 0x01; LINE + 1]?;
    let (count, len) = messages_of(rt.alloc(), page.as_slice())?;
    check_count(&rt, count as usize, 1, "messages");
    check_count(&rt, len, LINE, "the line");
    Ok(())
}

// Whether a line of a page that is not its first, nor its last, is known to be free.
fn is_known_as_free(alloc: Global, line: &str) -> Result<bool, Fail> {
    let mut notes = KeptNotes::new(alloc);
    let page = format!(in alloc;
        "a\n{line}\nmore words of the page, which follow the line that is looked at\n"
    )?;
    if page.len() > 1000 {
        return Ok(false);
    }
    let mut cutter = Cutter::new(alloc, Encoding::Auto)?;
    let (consumed, whole) = cutter.feed(page.as_bytes());
    if !whole {
        return Ok(false);
    }
    cutter.line(&mut notes)?;
    let (_, whole) = cutter.feed(&page.as_bytes()[consumed..]);
    if !whole {
        return Ok(false);
    }
    Ok(cutter.is_free())
}

// Lines, and whether they are known to be free: no comment, no end of a block and no interpolation begins in them. Some have more bytes than a
// vector has.
static FREE_LINES: [(&str, bool); 16] = [
    ("words", true),
    (".SH NAME", true),
    (
        "a line of words alone, which has more than thirty-two bytes",
        true,
    ),
    ("a\\fBb\\fP", true),
    ("ends\\&", true),
    (
        "\\fBwords\\fP with \\- and \\(bu in them, which have more than thirty-two bytes",
        true,
    ),
    (
        "a line of words, which has more than thirty-two bytes, and then \\*x",
        false,
    ),
    (
        "\\*x before a line of words, which has more than thirty-two bytes",
        false,
    ),
    ("\\fBa\\fP\\*(xx", false),
    ("a string \\*x", false),
    ("a register \\nx", false),
    ("an argument \\$1", false),
    ("a width \\w'x'", false),
    ("the end of a block \\}", false),
    ("a comment \\\" of words", false),
    ("a backslash \\\\*x", false),
];

#[test]
fn knows_lines_that_are_free(rt: HostRuntime) -> Result<(), Fail> {
    for (line, want) in &FREE_LINES {
        let is_free = is_known_as_free(rt.alloc(), line)?;
        assert!(rt; is_free == *want, "{line}");
    }
    Ok(())
}
