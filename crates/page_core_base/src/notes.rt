//! Messages: what is reported of a page (mandoc(1), "DIAGNOSTICS").

ghost use Rattle.std.specs.Prelude.{◌≡◌, ◌≤◌, length};
ghost use Rattle.page_core_base.specs.laws.Views.{message_of};
ghost use Rattle.page_core_base.specs.Messages.{message_about, text_front};

use crate::{NoteKind, Place};
use arrayvec::ArrayString;

/// The bytes of a detail at most; a longer one is cut at a character's end.
pub const DETAIL: usize = 64;

/// A message about a line of a page.
#[derive(Clone, Copy, Debug, PartialEq, Eq)]
pub struct Note {
    pub kind: NoteKind,
    /// The number of the source line, from 1.
    pub line: u32,
    /// The byte in the line, from 1.
    pub column: u32,
    /// What the message is about; empty: nothing is shown.
    pub detail: ArrayString<64>,
}

impl Note {
    /// A message about a place, with a detail that is cut to [`DETAIL`] bytes at a character's end.
    pub fn about(kind: NoteKind, place: Place, detail: &[u8]) -> Note
        ensures { message_of result ≡ message_about kind place detail.now }
    {
        let mut text = ArrayString::new();
        text.push_str(text_front(detail, DETAIL));
        Note {
            kind,
            line: place.line,
            column: place.column,
            detail: text,
        }
    }
}

/// The front of a text of at most `most` bytes, up to a character's end.
#[tactic(auto, unfolding(crate::specs::Messages::text_front))]
pub fn text_front(text: &[u8], most: usize) -> &str
    ensures value { result.now ≡ text_front most text.now }
    ensures len { length result.now ≤ most }
{
    let front = &text[..most.min(text.len())];
    match std::str::from_utf8(front) {
        Ok(whole) => whole,
        Err(error) => std::str::from_utf8(&front[..error.valid_up_to()]).unwrap_or(""),
    }
}
