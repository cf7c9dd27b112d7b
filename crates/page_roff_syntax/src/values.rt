//! What an argument says, as far as a field has room for it (roff(7), "Macro syntax").

ghost use Rattle.std.specs.Prelude.{◌≡◌, ◌≤◌, length};
ghost use Rattle.page_core_base.specs.Messages.{text_front};
ghost use Rattle.page_roff_syntax.specs.Arguments.{argument_value};
ghost use Rattle.page_roff_syntax.specs.laws.Views.{argument_view};
ghost use Rattle.page_core_base.specs.Texts.{unpaired};

use crate::quotes::Argument;
use arrayvec::ArrayVec;
use page_core_base::{FIELD, after_byte, text_front, unpaired_front};

// The number of bytes of a text in which a pair of quotes is one quote.
fn unpaired_len(text: &[u8]) -> usize
    ensures value { result ≡ length (unpaired text.now) }
    ensures within { result ≤ length text.now }
{
    let mut len = 0;
    let mut rest = text;
    while !rest.is_empty() {
        rest = after_byte(rest[0], &rest[1..]);
        len += 1;
    }
    len
}

// The front of a text, up to a character's end.
fn copied_front(text: &[u8], room: usize) -> ArrayVec<u8, FIELD>
    requires { room ≤ FIELD }
    ensures { result.items ≡ text_front room text.now }
{
    let mut front = ArrayVec::new();
    let _ = front.try_extend_from_slice(text_front(text, room).as_bytes());
    front
}

impl<'a> Argument<&'a [u8]> {
    /// The number of bytes of what it says: in a quoted argument a pair of quotes is one.
    pub fn value_len(&self) -> usize
        ensures value { result ≡ length (argument_value (argument_view self.now)) }
        ensures within { result ≤ length self.now.text.now }
    {
        if self.is_quoted() {
            unpaired_len(self.text)
        } else {
            self.text.len()
        }
    }

    /// The front of what it says, at most `room` bytes, up to a character's end.
    pub fn value_front(&self, room: usize) -> ArrayVec<u8, FIELD>
        requires { room ≤ FIELD }
        ensures { result.items ≡ text_front room (argument_value (argument_view self.now)) }
    {
        if self.is_quoted() {
            let front = unpaired_front::<FIELD>(self.text);
            copied_front(front.as_slice(), room)
        } else {
            copied_front(self.text, room)
        }
    }
}
