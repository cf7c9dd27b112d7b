//! What a sink of messages refuses, and what is known of a page after it.

use page_core_base::{Fault, NoteSink, Settings, is_line};
use page_roff_source::Roff;
use page_test_streams::CountingSink;
use std::process::Abort;
use std::test::Fail;

// Eight messages: of a text, a condition, a request, a table, the end of a block, a call, the budget, and an open region.
static PAGE: [&str; 12] = [
    "\\*(zz", ".if z x", ".nr a b", ".TS", ".TE", "\\}", ".de m", ".m", "..", ".m", ".so x", ".ig",
];

const MESSAGES: u64 = 8;

// Runs a line to its end, and answers how many finished lines it gives.
fn run_line<N: NoteSink>(
    roff: &mut Roff,
    line: &str,
    number: u32,
    notes: &mut N,
) -> Result<u64, Fault> {
    if !roff.idle() || !is_line(line.as_bytes()) || roff.counts().source > 1_000_000 {
        return Ok(0);
    }
    roff.source(line.as_bytes(), number);
    let mut lines = 0u64;
    'takes: for _ in 0..1_002 {
        if roff.take(notes)?.is_none() {
            break 'takes;
        }
        lines = lines.saturating_add(1);
    }
    Ok(lines)
}

// Runs the page to its end, and answers how many finished lines it gives.
fn run_page<N: NoteSink>(roff: &mut Roff, notes: &mut N) -> Result<u64, Fault> {
    let mut lines = 0u64;
    let mut number = 0u32;
    for line in &PAGE {
        number = number.saturating_add(1);
        lines = lines.saturating_add(run_line(roff, line, number, notes)?);
    }
    if roff.idle() {
        roff.end(notes)?;
    }
    Ok(lines)
}

// A call of each kind after a fault or the end: the fault is reported, and nothing is given.
fn check_closed(rt: &impl Abort, roff: &mut Roff, notes: &mut CountingSink) {
    let calls = notes.calls;
    assert!(rt; matches!(roff.take(notes), Err(Fault::Failed)));
    assert!(rt; roff.idle());
    assert!(rt; matches!(roff.end(notes), Err(Fault::Failed)));
    assert!(rt; notes.calls == calls);
}

// The page comes, of which a sink refuses the message of this number, 0 for none; then roff is closed.
fn check_page(rt: &impl Abort, roff: &mut Roff, failing: u64) {
    let (want, calls) = match failing {
        0 => (Ok(1), MESSAGES),
        _ => (Err(Fault::WriteNotes), failing),
    };
    let mut notes = CountingSink::new(failing);
    let got = run_page(roff, &mut notes);
    assert!(rt; got == want, "{got:?} in place of {want:?}");
    assert!(rt; notes.calls == calls, "{} messages", notes.calls);
    check_closed(rt, roff, &mut notes);
}

// Makes roff, and checks the page over it. It is written once, since what makes and drops a roff takes most of the proof.
fn run(rt: &(impl Abort + AllocGlobal), failing: u64) -> Result<(), Fault> {
    let mut roff = Roff::new(rt.alloc(), &Settings::new())?;
    check_page(rt, &mut roff, failing);
    Ok(())
}

#[test]
fn fails_where_a_message_is_refused(rt: HostRuntime) -> Result<(), Fail> {
    for failing in 0..MESSAGES + 1 {
        run(&rt, failing)?;
    }
    Ok(())
}
