//! The bytes of messages (mandoc(1), "DIAGNOSTICS").

ghost use Rattle.std.specs.Prelude.{◌≡◌, MatchResult, IfErr};
ghost use Rattle.page_core_base.specs.laws.Views.{message_of};
ghost use Rattle.page_core_streams.specs.laws.Views.{FailsBy, Writes, shown_bytes};
ghost use Rattle.page_core_streams.specs.Streams.{ErrsBy, Grows, GrowsInto, message_bytes, shown_detail};

use crate::targets::Target;
use crate::writing::put_all;
use itoa::Buffer;
use page_core_base::{Fault, Note, has_no_control};

/// Writes a message as `mandoc: FILE:LINE:COLUMN: LEVEL: TEXT`, then `: DETAIL` where there is one, and a line feed. Its fault is
/// [`Fault::WriteNotes`], where the writer failed; then a front of these bytes was written.
pub fn write_note<W: Target>(out: &mut W, file: &str, note: &Note) -> Result<(), Fault>
    ensures gives { MatchResult result
        (λ _. Grows (W.contents out.old) (W.contents out.new) (message_bytes file.now (message_of note.now)))
        (λ _. GrowsInto (W.contents out.old) (W.contents out.new) (message_bytes file.now (message_of note.now))) }
    ensures cause { ErrsBy W.counts result (W.failures out.old) (W.failures out.new) }
    ensures fault { IfErr result (λ fault. fault ≡ Fault.WriteNotes) }
{
    if put_note(out, file, note) {
        Ok(())
    } else {
        Err(Fault::WriteNotes)
    }
}

// Writes a message, and says whether that succeeded.
pub(crate) fn put_note<W: Target>(out: &mut W, file: &str, note: &Note) -> bool
    ensures writes { Writes result (W.contents out.old) (W.contents out.new)
        (message_bytes file.now (message_of note.now)) }
    ensures fails { FailsBy W.counts result (W.failures out.old) (W.failures out.new) }
{
    let mut line = Buffer::new();
    let mut column = Buffer::new();
    let place = ShownPlace {
        file: file.as_bytes(),
        line: line.format(note.line).as_bytes(),
        column: column.format(note.column).as_bytes(),
    };
    put_parts(
        out,
        place,
        note.kind.level().name().as_bytes(),
        note.kind.text().as_bytes(),
        shown_detail(note.detail.as_str().as_bytes()),
    )
}

// A detail as it is shown: with a control character but the tab it is not.
fn shown_detail(detail: &[u8]) -> &[u8]
    ensures { result.now ≡ shown_detail detail.now }
{
    if has_no_control(detail) { detail } else { b"" }
}

// A message's place as it is shown.
#[derive(Clone, Copy)]
struct ShownPlace<'a> {
    file: &'a [u8],
    line: &'a [u8],
    column: &'a [u8],
}

// Writes the parts of a message with what is between them.
fn put_parts<'a, W: Target>(
    out: &mut W,
    place: ShownPlace<'a>,
    level: &'a [u8],
    text: &'a [u8],
    detail: &'a [u8],
) -> bool
    ensures writes { Writes result (W.contents out.old) (W.contents out.new)
        (shown_bytes place.entry level.now text.now detail.now) }
    ensures fails { FailsBy W.counts result (W.failures out.old) (W.failures out.new) }
{
    let (file, line, column) = (place.file, place.line, place.column);
    let program: &'a [u8] = b"mandoc: ";
    let colon: &'a [u8] = b":";
    let gap: &'a [u8] = b": ";
    let before: &'a [u8] = if detail.is_empty() { b"" } else { b": " };
    let end: &'a [u8] = b"\n";
    put_all(
        out,
        &[
            program, file, colon, line, colon, column, gap, level, gap, text, before, detail, end,
        ],
    )
}
