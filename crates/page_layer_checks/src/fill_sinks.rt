//! Rows and messages that fail; `page_fill_cases` has those that do not.

use crate::checks::check_answer;
use page_core_base::{Fault, Font, NoteSink, Place, RowSink, Settings};
use page_fill::{Filler, Piece};
use page_test_streams::CountingSink;
use std::alloc::Global;
use std::process::Abort;

const HERE: Place = Place { line: 3, column: 7 };

// A text in roman.
macro_rules! word {
    ($text:expr) => {
        Piece::Text {
            text: $text,
            font: Font::R,
            place: HERE,
        }
    };
}

// Gives 5 rows and 2 messages.
static PIECES: &[Piece<&'static [u8]>] = &[
    word!(b"abc"),
    Piece::Blank {
        count: 1,
        has_tab: true,
    },
    word!(b"defghi"),
    Piece::Break,
    Piece::Space(2),
    Piece::Glyph {
        name: b"zz",
        font: Font::R,
        place: HERE,
    },
    Piece::Heading,
    Piece::Para(1),
    Piece::Indent { first: 1, rest: 1 },
];

const ROWS: u64 = 5;

const MESSAGES: u64 = 2;

// Gives a piece. No caller has to know more of what a filler does, so that this says nothing of it: their proofs stay short.
fn give<R: RowSink, N: NoteSink>(
    filler: &mut Filler,
    piece: Piece<&[u8]>,
    rows: &mut R,
    notes: &mut N,
) -> Result<(), Fault> {
    filler.piece(piece, rows, notes)
}

fn give_all<R: RowSink, N: NoteSink>(
    filler: &mut Filler,
    rows: &mut R,
    notes: &mut N,
) -> Result<(), Fault> {
    for piece in PIECES {
        give(filler, *piece, rows, notes)?;
    }
    Ok(())
}

fn end<R: RowSink, N: NoteSink>(
    filler: &mut Filler,
    rows: &mut R,
    notes: &mut N,
) -> Result<(), Fault> {
    filler.finish(rows, notes)
}

// The sinks of rows and of messages, and what is answered where their calls of a number fail, 0 for none.
#[derive(Drop)]
struct Sinks {
    rows: CountingSink,
    notes: CountingSink,
    wanted: Result<(), Fault>,
}

// Gives the pieces, and after a fault more of them, which fail too.
fn check_pieces(rt: &impl Abort, filler: &mut Filler, sinks: &mut Sinks) {
    let (rows, notes) = (&mut sinks.rows, &mut sinks.notes);
    check_answer(rt, give_all(filler, rows, notes), sinks.wanted);
    if sinks.wanted.is_err() {
        check_answer(
            rt,
            give(filler, word!(b"b"), rows, notes),
            Err(Fault::Failed),
        );
        check_answer(rt, end(filler, rows, notes), Err(Fault::Failed));
    }
}

fn new_filler(alloc: Global) -> Result<Filler, Fault> {
    let mut settings = Settings::new();
    settings.width = 6;
    Filler::new(alloc, &settings)
}

// Checks the pieces over a filler, and the calls of rows and of messages, where these are not 0. It is made and dropped here alone, since this takes
// most of the proof.
fn check(rt: &(impl Abort + AllocGlobal), mut sinks: Sinks, calls: (u64, u64)) {
    if let Ok(mut filler) = new_filler(rt.alloc()) {
        check_pieces(rt, &mut filler, &mut sinks);
    }
    let (rows, notes) = calls;
    assert!(rt;
        rows == 0 || sinks.rows.calls == rows,
        "{} rows",
        sinks.rows.calls
    );
    assert!(rt;
        notes == 0 || sinks.notes.calls == notes,
        "{} messages",
        sinks.notes.calls
    );
}

fn failing_at(row: u64, note: u64, wanted: Result<(), Fault>) -> Sinks {
    Sinks {
        rows: CountingSink::new(row),
        notes: CountingSink::new(note),
        wanted,
    }
}

#[test]
fn each_row_and_message_may_fail(rt: HostRuntime) {
    check(&rt, failing_at(0, 0, Ok(())), (ROWS, MESSAGES));
    for row in 1..ROWS + 1 {
        check(&rt, failing_at(row, 0, Err(Fault::WriteText)), (row, 0));
    }
    check(&rt, failing_at(0, 1, Err(Fault::WriteNotes)), (0, 1));
    check(&rt, failing_at(0, 2, Err(Fault::WriteNotes)), (0, 2));
}
