//! Whole pages by hand, from all layers; and what each layer needs of memory.

use crate::checks::{all_messages, check_answer, check_counts, check_text, counts_of};
use crate::cuts::CutPage;
use crate::hands::{ByHand, new_roff, new_scopes};
use crate::lines::{FedPage, cut};
use crate::sheets::new_filler;
use crate::sinks::{Kept, Notes};
use crate::steps::{Step, check_steps};
use page_core::{Encoding, Fault};
use page_roff::Cutter;
use page_sets::{Either, MacroSet, Man, Mdoc};
use std::alloc::Global;
use std::process::Abort;
use std::test::Fail;

// A page whose lines are each taken once: its text; how many lines these are; the rows, without header and footer, which the engine writes, and then the
// messages of its cutting and the others.
type Case = (&'static str, u64, &'static str);

const MAN_PAGES: &[Case] = &[
    (
        ".TH T 1 2020-01-01 S\n.SH A\na\u{1}\\\nb\n",
        3,
        "A\u{8}A\n       a?b\nmandoc: x.1:3:2: ERROR: skipping bad character: 0x01\n",
    ),
    (
        ".TH T 1 2020-01-01 S\n.SH NAME\nt \\- x\n",
        3,
        "N\u{8}NA\u{8}AM\u{8}ME\u{8}E\n       t - x\n",
    ),
    (
        ".TH T 1 2020-01-01 S\n.SH A\na\n\nb\n",
        5,
        "A\u{8}A\n       a\n\n       b\nmandoc: x.1:4:1: WARNING: blank line in fill mode, using .sp\n",
    ),
    (
        ".TH T 1 2020-01-01 S\n.SH A\n.ZZ\na\n",
        4,
        "A\u{8}A\n       a\nmandoc: x.1:3:2: ERROR: skipping unknown macro: ZZ\n",
    ),
    (
        ".TH T 1 2020-01-01 S\n.SH A\na\n.RS\nb\n",
        5,
        "A\u{8}A\n       a\n              b\nmandoc: x.1:5:1: ERROR: appending missing end of block: RS\n",
    ),
    (
        ".TH T 1 2020-01-01 S\n.SH A\na\n.RS\n.B b\n.I c\n.RE\n.TP\nd\ne\n",
        10,
        "A\u{8}A\n       a\n              b\u{8}b _\u{8}c\n\n       d      e\n",
    ),
    (
        ".TH T 1 2020-01-01 S\n.SH A\naaaaaaaaaaaaaaaaaaaaaaaaaaaaaaaaaaa cccccccccccccccccccccccccccccccccccc\n",
        3,
        "A\u{8}A\n       aaaaaaaaaaaaaaaaaaaaaaaaaaaaaaaaaaa\n       cccccccccccccccccccccccccccccccccccc\n",
    ),
    (
        ".TH T 1 2020-01-01 S\n.SH A\naaaaaaaaaaaaaaaaaaaaaaaaaaaaaaaaaaaaaaaaaaaaaaaaaaaaaaaaaaaa b\\ c\\c\ndddddddddddd\n",
        4,
        "A\u{8}A\n       aaaaaaaaaaaaaaaaaaaaaaaaaaaaaaaaaaaaaaaaaaaaaaaaaaaaaaaaaaaa\n       b cdddddddddddd\n",
    ),
    (
        ".TH T 1 2020-01-01 S\n.SH A\n.UR http://a/\nsite\n.UE .\n.TS\na b\n.TE\n",
        8,
        "A\u{8}A\n       site <http://a/>.\n       a b\nmandoc: x.1:6:2: UNSUPP: unsupported table, equation or picture\n",
    ),
];

const MDOC_PAGES: &[Case] = &[
    (
        ".Dd January 1, 2020\n.Dt T 1\n.Os S\n.Sh NAME\n.Nm t\n.Nd x\n",
        6,
        "N\u{8}NA\u{8}AM\u{8}ME\u{8}E\n     t\u{8}t - x\n",
    ),
    (
        ".Dd January 1, 2020\n.Dt T 1\n.Os S\n.Sh A\na\n.Em b\n.Pp\nc\n",
        8,
        "A\u{8}A\n     a _\u{8}b\n\n     c\n",
    ),
    (
        ".Dd January 1, 2020\n.Dt T 1\n.Os S\n.Sh A\n.Zz\na\n",
        6,
        "A\u{8}A\n     a\nmandoc: x.1:5:2: ERROR: skipping unknown macro: Zz\n",
    ),
    (
        ".Dd January 1, 2020\n.Dt T 1\n.Os S\n.Sh A\n.Bl -enum -compact\n.It\na\n.It\nb\n.El\n.Bl -column aa b\n.It x Ta y Ta z\n.El\n",
        13,
        "A\u{8}A\n     1.   a\n     2.   b\n\n     x     y    z\n",
    ),
];

// Cuts a page and feeds its lines, and compares what comes of it.
fn check_page<P: FedPage + Drop, R: Abort + AllocGlobal>(rt: &R, mut page: P, case: &Case) {
    let (text, lines, shown) = *case;
    let mut cuts = Notes::new(rt.alloc(), 0);
    let fed = cut(
        rt.alloc(),
        Encoding::Auto,
        text.as_bytes(),
        &mut cuts,
        &mut page,
    );
    check_answer(rt, fed, Ok(()));
    check_counts(rt, page.counts(), counts_of(lines));
    let kept = page.kept();
    let mut all = Vec::new(rt.alloc());
    let _ = all.extend_from_slice(kept.rows.text.as_slice());
    let _ = all.extend_from_slice(cuts.text.as_slice());
    let _ = all.extend_from_slice(kept.notes.text.as_slice());
    check_text(rt, all.as_slice(), shown);
}

// A page by hand, whose sinks do not fail.
fn new_page<S: MacroSet + Copy>(alloc: Global, set: S) -> Result<ByHand<S>, Fault> {
    ByHand::new(alloc, &all_messages(), set, Kept::new(alloc, (0, 0)))
}

// Checks pages by hand, also where their layers go on after each line from what they hold.
fn check_by_hand<S: MacroSet + Copy, R: Abort + AllocGlobal>(
    rt: &R,
    set: S,
    cases: &[Case],
) -> Result<(), Fail>
where
    S::Place: Drop,
{
    for case in cases {
        check_page(rt, new_page(rt.alloc(), set)?, case);
        let page = new_page(rt.alloc(), set)?;
        check_page(rt, CutPage { page }, case);
    }
    Ok(())
}

#[test]
fn pages_by_hand(rt: HostRuntime) -> Result<(), Fail> {
    check_by_hand(&rt, Man, MAN_PAGES)?;
    check_by_hand(&rt, Mdoc, MDOC_PAGES)?;
    check_by_hand(&rt, Either::Man, MAN_PAGES)?;
    check_by_hand(&rt, Either::Mdoc, MDOC_PAGES)
}

const STEPS: &[Step] = &[
    (".SH A", "A\u{8}A\n", (1, 0)),
    ("one two", "A\u{8}A\n", (1, 7)),
    ("three", "A\u{8}A\n", (1, 13)),
    (".RS", "A\u{8}A\n       one two three\n", (2, 0)),
    (".B", "A\u{8}A\n       one two three\n", (3, 0)),
    ("four", "A\u{8}A\n       one two three\n", (2, 4)),
    (
        ".RE",
        "A\u{8}A\n       one two three\n              f\u{8}fo\u{8}ou\u{8}ur\u{8}r\n",
        (1, 0),
    ),
];

#[test]
fn lines_by_hand(rt: HostRuntime) -> Result<(), Fail> {
    check_steps(&rt, new_page(rt.alloc(), Man)?, STEPS);
    let page = new_page(rt.alloc(), Man)?;
    check_steps(&rt, CutPage { page }, STEPS);
    Ok(())
}

// The row and the message that fails, 0 for none; the answer of the line that has a message; that of the end, and of each call after it; and the
// rows.
struct Stop {
    failing: (u64, u64),
    answer: Result<(), Fault>,
    end: Result<(), Fault>,
    rows: &'static str,
}

static STOPS: &[Stop] = &[
    Stop {
        failing: (0, 0),
        answer: Ok(()),
        end: Ok(()),
        rows: "A\u{8}A\n       a\n       b\n",
    },
    // the filler takes nothing more after a row that fails
    Stop {
        failing: (2, 0),
        answer: Ok(()),
        end: Err(Fault::Failed),
        rows: "A\u{8}A\n",
    },
    // roff takes nothing more after a message that fails
    Stop {
        failing: (0, 1),
        answer: Err(Fault::WriteNotes),
        end: Err(Fault::Failed),
        rows: "A\u{8}A\n",
    },
];

// Feeds lines to a page of which a sink fails, and its end.
fn check_stop<P: FedPage + Drop>(rt: &impl Abort, mut page: P, stop: &Stop) {
    check_answer(rt, page.line(b".SH A", 1), Ok(()));
    check_answer(rt, page.line(b"a", 2), Ok(()));
    check_answer(rt, page.line(b"\\*(zz", 3), stop.answer);
    let _ = page.line(b".br", 4);
    let _ = page.line(b"b", 5);
    check_answer(rt, page.end(), stop.end);
    check_answer(rt, page.end(), Err(Fault::Failed));
    check_answer(rt, page.cut(), Err(Fault::Failed));
    check_text(rt, page.kept().rows.text.as_slice(), stop.rows);
}

#[test]
fn a_page_stops_once(rt: HostRuntime) -> Result<(), Fail> {
    for stop in STOPS {
        let kept = Kept::new(rt.alloc(), stop.failing);
        let page = ByHand::new(rt.alloc(), &all_messages(), Either::Man, kept)?;
        check_stop(&rt, page, stop);
    }
    Ok(())
}

// The fault of a constructor, if it has one.
fn check_made<T: Drop>(rt: &impl Abort, made: Result<T, Fault>, want: Result<(), Fault>) {
    check_answer(rt, made.map(|_| ()), want);
}

// With ample memory each constructor makes what it is asked for.
#[test]
fn each_is_made(rt: HostRuntime) {
    let settings = all_messages();
    check_made(&rt, Cutter::new(rt.alloc(), Encoding::Auto), Ok(()));
    check_made(&rt, new_roff(rt.alloc(), &settings), Ok(()));
    check_made(&rt, new_scopes(rt.alloc(), &settings, &Man), Ok(()));
    check_made(&rt, new_filler(rt.alloc(), &settings), Ok(()));
}
