//! Messages: their levels, writers that fail, and faults.

use crate::checks::{check, check_answer, check_count, check_text};
use crate::writers::{narrow_writer, note};
use page_core::{Fault, Level, NoteKind, NoteSink, TextNotes, write_note};
use std::process::Abort;
use std::test::Fail;

// The levels in their order, with their names.
static LEVELS: &[(u32, Level, &str)] = &[
    (0, Level::Base, "BASE"),
    (1, Level::Style, "STYLE"),
    (2, Level::Warning, "WARNING"),
    (3, Level::Error, "ERROR"),
    (4, Level::Unsupp, "UNSUPP"),
];

// Checks that a level is below those after it, and no other.
fn check_order(rt: &impl Abort, rank: u32, level: Level) {
    for (other_rank, other, name) in LEVELS {
        check(rt, level.is_below(*other) == (rank < *other_rank), name);
    }
}

#[test]
fn levels_have_names_and_an_order(rt: HostRuntime) {
    for (rank, level, name) in LEVELS {
        check_text(&rt, level.name(), name, name);
        check_order(&rt, *rank, *level);
    }
}

// A front of the bytes is written where the writer fails; a slow or interrupted writer gets all.
#[test]
fn a_message_to_a_bad_writer(rt: HostRuntime) {
    let want = b"mandoc: f:2:1: WARNING: no document body\n".as_slice();
    let note = note(NoteKind::NoBody, 2, 1, "");
    let whole = want.len();
    let cases = [
        (whole, whole, 0, false, Ok(())),
        (1, whole, 0, false, Ok(())),
        (1, whole, 1000, true, Ok(())),
        (whole, 0, 0, false, Err(Fault::WriteNotes)),
        (whole, 7, 0, false, Err(Fault::WriteNotes)),
        (1, whole - 1, 3, false, Err(Fault::WriteNotes)),
        (0, whole, 0, true, Err(Fault::WriteNotes)),
        (whole, 20, 0, true, Err(Fault::WriteNotes)),
    ];
    for (most, room, interruptions, takes_none, answer) in cases {
        let mut out = narrow_writer(rt.alloc(), most, room);
        out.interruptions = interruptions;
        out.takes_none = takes_none;
        check_answer(&rt, write_note(&mut out, "f", &note), answer);
        let got = out.got.as_slice();
        check(&rt, want.starts_with(got), "a front");
        check_count(
            &rt,
            got.len(),
            if most == 0 { 0 } else { room },
            "what is written",
        );
    }
}

#[test]
fn a_note_to_a_bad_writer(rt: HostRuntime) {
    let first = note(NoteKind::SkipPara, 4, 2, "PP");
    let want = b"mandoc: b.7:4:2: WARNING: skipping paragraph macro: PP\n".as_slice();
    for (room, takes_none) in [(0, true), (9, false), (54, false)] {
        let mut out = narrow_writer(rt.alloc(), 9, room);
        out.takes_none = takes_none;
        let mut notes = TextNotes::new(&mut out, "b.7");
        check_answer(&rt, notes.note(&first), Err(Fault::WriteNotes));
        check_answer(&rt, notes.note(&first), Err(Fault::WriteNotes));
        drop(notes);
        check_count(&rt, out.got.len(), room, "what is written");
        check(&rt, want.starts_with(out.got.as_slice()), "a front");
    }
}

#[test]
fn faults_have_texts(rt: HostRuntime) -> Result<(), Fail> {
    let cases = [
        (Fault::Memory, "out of memory"),
        (Fault::Read, "cannot read"),
        (Fault::WriteText, "cannot write"),
        (Fault::WriteNotes, "cannot write"),
        (Fault::TooLong, "input too large"),
        (Fault::BadIndex(3), "line 3: bad index"),
        (Fault::BadIndex(u32::MAX), "line 4294967295: bad index"),
    ];
    for (fault, want) in cases {
        check_text(&rt, fault.to_string(rt.alloc())?.as_str(), want, want);
    }
    Ok(())
}
