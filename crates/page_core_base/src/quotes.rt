//! Quoted arguments (man(7), "Macro syntax"): a pair of quotes is one quote.

ghost use Rattle.std.specs.Prelude.{◌≡◌, ◌≤◌, ◌∷◌, length, take};
ghost use Rattle.page_core_base.specs.Texts.{unpaired};

use arrayvec::ArrayVec;

/// What follows a byte in a quoted argument: of a pair of quotes the second is passed over.
pub fn after_byte(byte: u8, after: &[u8]) -> &[u8]
    ensures value { unpaired (byte ∷ after.now) ≡ byte ∷ unpaired result.now }
    ensures within { length result.now ≤ length after.now }
{
    match after {
        [next, rest @ ..] if byte == b'"' && *next == b'"' => rest,
        _ => after,
    }
}

/// The front of what a quoted argument says, of at most `ROOM` bytes.
#[inline(never)]
pub fn unpaired_front<const ROOM: usize>(text: &[u8]) -> ArrayVec<u8, ROOM>
    ensures { result.items ≡ take ROOM (unpaired text.now) }
{
    let mut front = ArrayVec::new();
    let mut rest = text;
    while !rest.is_empty() && !front.is_full() {
        let byte = rest[0];
        front.push(byte);
        rest = after_byte(byte, &rest[1..]);
    }
    front
}
