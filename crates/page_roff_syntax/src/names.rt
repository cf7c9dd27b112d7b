//! The name that an argument is (roff(7), "Macro syntax", "ds", "nr", "de").

ghost use Rattle.std.specs.Prelude.{◌≡◌, ◌≤◌, length, take};
ghost use Rattle.page_roff_syntax.specs.laws.Views.{argument_view};
ghost use Rattle.page_roff_syntax.specs.Arguments.{argument_name};
ghost use Rattle.page_roff_syntax.specs.Arguments as arguments;

use crate::quotes::Argument;
use arrayvec::ArrayVec;
use page_core_base::{NAME, unpaired_front};

/// As many bytes of a name as make a difference: one more than names may have.
pub const NAME_ROOM: usize = NAME + 1;

/// They are those of the definition.
pub fn name_room_law()
    ensures { NAME_ROOM ≡ arguments.NAME_ROOM }
{}

/// The front of a name.
pub type Name = ArrayVec<u8, NAME_ROOM>;

// The front of a text.
fn front_of(text: &[u8]) -> &[u8]
    ensures value { result.now ≡ take NAME_ROOM text.now }
    ensures short { length result.now ≤ NAME_ROOM }
{
    if text.len() <= NAME_ROOM {
        text
    } else {
        &text[..NAME_ROOM]
    }
}

// The front of a name as it is written.
fn written_name(text: &[u8]) -> Name
    ensures { result.items ≡ take NAME_ROOM text.now }
{
    let mut name = ArrayVec::new();
    let _ = name.try_extend_from_slice(front_of(text));
    name
}

impl<'a> Argument<&'a [u8]> {
    /// The name that it is.
    pub fn name(&self) -> Name
        ensures { result.items ≡ argument_name (argument_view self.now) }
    {
        if self.is_quoted() {
            unpaired_front(self.text)
        } else {
            written_name(self.text)
        }
    }
}
