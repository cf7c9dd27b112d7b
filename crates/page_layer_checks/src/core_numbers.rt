//! Numbers whose messages fail; `page_roff_cases` has the others.

use crate::checks::check_bytes;
use crate::writers::narrow_writer;
use page_core::{Fault, Scale, TextNotes, number};
use std::process::Abort;

// Reads a number whose messages go to a writer with this room, and checks the answer, and what was written.
fn check_number(
    rt: &(impl Abort + AllocGlobal),
    text: &[u8],
    room: usize,
    want: Result<(i32, usize), Fault>,
    front: &[u8],
) {
    let mut out = narrow_writer(rt.alloc(), 9, room);
    let mut notes = TextNotes::new(&mut out, "f");
    let read = number(text, Scale::Basic, 3, 7, &mut notes);
    drop(notes);
    check_bytes(rt, out.got.as_slice(), front, "messages");
    assert_eq!(rt; read, want);
}

// Where a message fails the answer is its fault, and what was written is a front of the messages.
#[test]
fn a_failing_sink_gets_a_front(rt: HostRuntime) {
    let all =
        b"mandoc: f:3:7: ERROR: divide by zero\nmandoc: f:3:7: ERROR: argument is not numeric, using 0\nmandoc: f:3:7: ERROR: divide by zero\n".as_slice();
    for room in [0, 1, 20, 37, 60, 92, 100, 128, 129, 200] {
        if room < all.len() {
            check_number(&rt, b"7/0/(", room, Err(Fault::WriteNotes), &all[..room]);
        } else {
            check_number(&rt, b"7/0/(", room, Ok((0, 5)), all);
        }
    }
    check_number(&rt, b"1+2*3", 0, Ok((9, 5)), b"");
}
