//! Worked pages from their bytes to rows and messages, however the bytes come and go; and runs whose reader, writer or settings fail.
//! `page_cases` has the other pages.

use crate::checks::{
    FOOTER, HEADER, all_messages, check, check_count, check_outcome, check_text, framed, gives,
    outcome,
};
use page_core_base::{Fault, Level, SettingFault, Settings};
use page_engine::run_page;
use page_test_streams::{Chunks, Fails, Store};
use std::io::{self, Read};
use std::process::Abort;
use std::test::Fail;

// A page; what is between its header and its footer; its messages and the worst level of these; how many lines it has.
struct Case {
    page: &'static [u8],
    body: &'static str,
    notes: &'static str,
    worst: Option<Level>,
    source: u64,
}

static CASES: [Case; 8] = [
    Case {
        page: b".TH T 1 2020-01-01 S\n.SH NAME\nt \\- x\n",
        body: "N\u{8}NA\u{8}AM\u{8}ME\u{8}E\n       t - x\n",
        notes: "",
        worst: None,
        source: 3,
    },
    Case {
        page: b".TH T 1 2020-01-01 S\n.SH A\na\n\nb\n",
        body: "A\u{8}A\n       a\n\n       b\n",
        notes: "mandoc: x.1:4:1: WARNING: blank line in fill mode, using .sp\n",
        worst: Some(Level::Warning),
        source: 5,
    },
    Case {
        page: b".TH T 1 2020-01-01 S\n.SH A\n.ZZ\na\n",
        body: "A\u{8}A\n       a\n",
        notes: "mandoc: x.1:3:2: ERROR: skipping unknown macro: ZZ\n",
        worst: Some(Level::Error),
        source: 4,
    },
    Case {
        page: b".TH T 1 2020-01-01 S\n.SH A\n.PP\na\n",
        body: "A\u{8}A\n       a\n",
        notes: "mandoc: x.1:3:2: WARNING: skipping paragraph macro: PP\n",
        worst: Some(Level::Warning),
        source: 4,
    },
    Case {
        page: b".TH T 1 2020-01-01 S\n.SH A\naaaaaaaaaaaaaaaaaaaaaaaaaaaaaaaaaaa bbbbbbbbbbbbbbbbbbbbbbbbbbbbbbbbbbb\n",
        body: "A\u{8}A\n       aaaaaaaaaaaaaaaaaaaaaaaaaaaaaaaaaaa bbbbbbbbbbbbbbbbbbbbbbbbbbbbbbbbbbb\n",
        notes: "",
        worst: None,
        source: 3,
    },
    Case {
        page: b".TH T 1 2020-01-01 S\n.SH A\naaaaaaaaaaaaaaaaaaaaaaaaaaaaaaaaaaa cccccccccccccccccccccccccccccccccccc\n",
        body: "A\u{8}A\n       aaaaaaaaaaaaaaaaaaaaaaaaaaaaaaaaaaa\n       cccccccccccccccccccccccccccccccccccc\n",
        notes: "",
        worst: None,
        source: 3,
    },
    Case {
        page: b".TH T 1 2020-01-01 S\n.SH A\nwwwwwwwwwwwwwwwwwwwwwwwwwwwwwwwwwwwwwwwwwwwwwwwwwwwwwwwwwwwwwwwwwwwwwwww\n",
        body: "A\u{8}A\n       wwwwwwwwwwwwwwwwwwwwwwwwwwwwwwwwwwwwwwwwwwwwwwwwwwwwwwwwwwwwwwwwwwwwwwww\n",
        notes: "",
        worst: None,
        source: 3,
    },
    Case {
        page: b".TH T 1 2020-01-01 S\n.SH A\na wwwwwwwwwwwwwwwwwwwwwwwwwwwwwwwwwwwwwwwwwwwwwwwwwwwwwwwwwwwwwwwwwwwwwwww\n",
        body: "A\u{8}A\n       a\n       wwwwwwwwwwwwwwwwwwwwwwwwwwwwwwwwwwwwwwwwwwwwwwwwwwwwwwwwwwwwwwwwwwwwwwww\n",
        notes: "",
        worst: None,
        source: 3,
    },
];

// A page with an unknown macro, and after it a blank line; and its body.
const TWO_MESSAGES: &[u8] = b".TH T 1 2020-01-01 S\n.SH A\n.ZZ\na\n\nb\n";

const TWO_PARAGRAPHS: &str = "A\u{8}A\n       a\n\n       b\n";

// A run over a page that ends by a fault, into the writers.
fn faults<I: Read, R: Abort + AllocGlobal>(
    rt: &R,
    reader: &mut I,
    out: &mut Store,
    messages: &mut Store,
    want: Fault,
) {
    let settings = all_messages();
    let result = run_page(rt.alloc(), reader, out, messages, "x.1", &settings);
    check_outcome(rt, result, Err(want));
}

#[test]
fn formats_pages(rt: HostRuntime) -> Result<(), Fail> {
    let settings = all_messages();
    for case in &CASES {
        let rows = framed(rt.alloc(), case.body)?;
        let want = outcome(case.worst, case.source);
        let mut whole = case.page;
        gives(&rt, &mut whole, &settings, rows.as_str(), case.notes, want)?;
        let mut bytes = Chunks::new(case.page, 1, None);
        gives(&rt, &mut bytes, &settings, rows.as_str(), case.notes, want)?;
        let mut interrupted = Chunks::new(case.page, 3, None);
        interrupted.is_interrupted = true;
        gives(
            &rt,
            &mut interrupted,
            &settings,
            rows.as_str(),
            case.notes,
            want,
        )?;
    }
    Ok(())
}

#[test]
fn takes_a_last_line_without_a_line_feed(rt: HostRuntime) -> Result<(), Fail> {
    let rows = framed(rt.alloc(), "A\u{8}A\n       a b\n")?;
    let mut page = b".TH T 1 2020-01-01 S\n.SH A\na\nb".as_slice();
    let want = outcome(None, 4);
    gives(&rt, &mut page, &all_messages(), rows.as_str(), "", want)
}

// 9,000 words of a letter, a line each: 36 fill a row.
#[test]
fn formats_a_long_page(rt: HostRuntime) -> Result<(), Fail> {
    let mut page = Vec::from_slice(rt.alloc(), b".TH T 1 2020-01-01 S\n.SH A\n")?;
    for _ in 0..9000 {
        page.extend_from_slice(b"a\n")?;
    }
    let mut rows = String::from_str(rt.alloc(), HEADER)?;
    rows.push_str("A\u{8}A\n")?;
    for _ in 0..250 {
        rows.push_str(
            "       a a a a a a a a a a a a a a a a a a a a a a a a a a a a a a a a a a a a\n",
        )?;
    }
    rows.push_str(FOOTER)?;
    let mut reader = page.as_slice();
    let want = outcome(None, 9002);
    gives(&rt, &mut reader, &all_messages(), rows.as_str(), "", want)
}

#[test]
fn refuses_bad_settings(rt: HostRuntime) -> Result<(), Fail> {
    let cases = [
        (57, None, SettingFault::Width),
        (57, Some(21), SettingFault::Width),
        (301, None, SettingFault::Width),
        (78, Some(21), SettingFault::Indent),
    ];
    for (width, indent, fault) in cases {
        let settings = Settings {
            width,
            indent,
            ..all_messages()
        };
        let mut reader = Chunks::new(TWO_MESSAGES, 1, None);
        let want = Err(Fault::Settings(fault));
        gives(&rt, &mut reader, &settings, "", "", want)?;
        check_count(&rt, reader.calls as u64, 0);
    }
    Ok(())
}

// The writers are those of the standard library that keep nothing.
#[test]
fn runs_into_writers_that_keep_nothing(rt: HostRuntime) {
    let mut reader = Chunks::new(TWO_MESSAGES, 3, None);
    let (mut out, mut messages) = (io::sink(), io::sink());
    let answer = run_page(
        rt.alloc(),
        &mut reader,
        &mut out,
        &mut messages,
        "x.1",
        &all_messages(),
    );
    check_outcome(&rt, answer, outcome(Some(Level::Error), 6));
}

// Each call fails in turn: what was written is the front of the page, and no less than at an earlier call.
#[test]
fn ends_by_a_failing_read(rt: HostRuntime) -> Result<(), Fail> {
    let whole = framed(rt.alloc(), TWO_PARAGRAPHS)?;
    let mut written = 0;
    for calls in 0..TWO_MESSAGES.len() + 1 {
        let mut reader = Chunks::new(TWO_MESSAGES, 1, Some(calls));
        let mut out = Store::new(rt.alloc(), usize::MAX, Fails::Never);
        let mut messages = Store::new(rt.alloc(), usize::MAX, Fails::Never);
        faults(&rt, &mut reader, &mut out, &mut messages, Fault::Read);
        check(&rt, whole.as_bytes().starts_with(out.kept.as_slice()));
        check(&rt, out.kept.len() >= written);
        written = out.kept.len();
    }
    let settled = format!(in rt.alloc(); "{HEADER}A\u{8}A\n       a\n")?;
    check(&rt, written >= settled.len() && written < whole.len());
    Ok(())
}

#[test]
fn writes_a_byte_at_a_time(rt: HostRuntime) -> Result<(), Fail> {
    let settings = all_messages();
    for case in &CASES {
        let rows = framed(rt.alloc(), case.body)?;
        let mut out = Store::new(rt.alloc(), 1, Fails::Never);
        let mut messages = Store::new(rt.alloc(), 1, Fails::Never);
        let mut page = case.page;
        let result = run_page(
            rt.alloc(),
            &mut page,
            &mut out,
            &mut messages,
            "x.1",
            &settings,
        );
        check_outcome(&rt, result, outcome(case.worst, case.source));
        check_text(&rt, out.kept.as_slice(), rows.as_str())?;
        check_text(&rt, messages.kept.as_slice(), case.notes)?;
    }
    Ok(())
}

// Where a writer fails, each has the front of what it would have, and nothing that is written after it.
#[test]
fn ends_by_a_failing_write(rt: HostRuntime) -> Result<(), Fail> {
    let three_rows = format!(in rt.alloc(); "{HEADER}A\u{8}A\n")?;
    let cases = [
        (
            Fails::Past(10),
            Fails::Never,
            Fault::WriteText,
            "T(1)      ",
            "",
        ),
        (
            Fails::Never,
            Fails::Past(0),
            Fault::WriteNotes,
            three_rows.as_str(),
            "",
        ),
        (
            Fails::Never,
            Fails::Past(10),
            Fault::WriteNotes,
            three_rows.as_str(),
            "mandoc: x.",
        ),
    ];
    for (of_rows, of_messages, fault, rows, notes) in cases {
        let mut out = Store::new(rt.alloc(), usize::MAX, of_rows);
        let mut messages = Store::new(rt.alloc(), usize::MAX, of_messages);
        let mut page = TWO_MESSAGES;
        faults(&rt, &mut page, &mut out, &mut messages, fault);
        check_text(&rt, out.kept.as_slice(), rows)?;
        check_text(&rt, messages.kept.as_slice(), notes)?;
    }
    Ok(())
}
