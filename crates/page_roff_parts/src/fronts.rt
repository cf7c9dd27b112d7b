//! The bytes at a text's front that are copied (roff(7), "Escape sequences").

ghost use Rattle.std.specs.Prelude.{◌≡◌, ◌<◌, ◌≤◌, Bool, length, get_or, take, drop, None, IsTrue};
ghost use Rattle.memchr.specs.Find.{IsFirstByte, is_byte};
ghost use Rattle.page_core_base.specs.Bytes.{begins_escape};
ghost use Rattle.page_roff_parts.specs.machine.Verbatim.{IsKnown, IsFront};
ghost use Rattle.page_roff_parts.specs.Parts.{call_cut, copies, seen};
ghost use Rattle.page_roff_syntax.specs.Delimiters.{width_len};

use crate::endings::after;
use crate::parts::is_doubled;
use crate::verbatim::{is_verbatim, may_call};
use memchr::memchr;
use page_roff_syntax::{begins_escape, character_len};

// Whether a text begins with the bracket that opens a name.
fn begins_name(text: &[u8]) -> bool
    ensures { IsTrue result → (0 < length text.now) × (get_or text.now 0 0 ≡ 91) }
{
    !text.is_empty() && text[0] == b'['
}

// Whether an interpolation with this letter is known to have no end before this rest: a name in brackets of which none closes, and a width.
fn has_no_end(letter: u8, rest: &[u8], is_unclosed: bool, is_lone: bool) -> bool
    requires known { IsKnown is_unclosed rest.now }
    requires lone { IsTrue is_lone → width_len rest.now ≡ 0 }
    ensures { (copy : Bool) → IsTrue result → call_cut copy letter rest.now ≡ None }
{
    if letter == b'w' {
        return is_lone || begins_escape(rest);
    }
    if letter == b'*' || letter == b'n' {
        return is_unclosed && begins_name(rest);
    }
    !may_call(letter)
}

/// How many bytes a backslash at a text's front and the character after it have, where they are known to be copied; or 0. It may be known
/// that no bracket closes in the text, and that a width there has no end.
#[inline(always)]
pub(crate) fn pair_len(text: &[u8], copy: bool, is_unclosed: bool, is_lone: bool) -> usize
    requires escape { IsTrue (begins_escape text.now) }
    requires known { IsKnown is_unclosed text.now }
    requires lone { IsTrue is_lone → width_len (drop 2 text.now) ≡ 0 }
    ensures pair { 0 < result → copies (take result text.now) (drop result text.now) ≡ seen copy text.now }
    ensures within { result ≤ length text.now }
{
    if text.len() < 2 {
        return 0;
    }
    if is_doubled(copy, text[1]) {
        return 0;
    }
    if !has_no_end(text[1], after(text, 2), is_unclosed, is_lone) {
        return 0;
    }
    1 + character_len(after(text, 1))
}

// The bytes of a text for which it is worth it to look at all of them first.
const LONG: usize = 256;

// Whether all of a long text is copied, for which there is room.
fn is_whole(text: &[u8], copy: bool, fits: usize) -> bool
    ensures front { IsTrue result → IsFront copy (length text.now) text.now }
    ensures fits { IsTrue result → length text.now ≤ fits }
{
    LONG <= text.len() && text.len() <= fits && is_verbatim(text, copy)
}

// Where a text's first backslash is. Behind a pair it is often the next byte or the one after that.
#[inline(always)]
fn backslash_place(text: &[u8]) -> Option<usize>
    ensures { IsFirstByte (is_byte 92) text.now result }
{
    match text {
        [b'\\', ..] => Some(0),
        [_, b'\\', ..] => Some(1),
        _ => memchr(b'\\', text),
    }
}

/// How many bytes at a text's front are copied as they are, up to this many: runs without a backslash and pairs that are no interpolation.
#[inline(always)]
pub(crate) fn front_len(text: &[u8], copy: bool, is_unclosed: bool, fits: usize) -> usize
    requires { IsKnown is_unclosed text.now }
    ensures front { IsFront copy result text.now }
    ensures within { result ≤ length text.now }
    ensures fits { result ≤ fits }
{
    if is_whole(text, copy, fits) {
        return text.len();
    }
    let mut at = 0;
    while let Some(place) = backslash_place(after(text, at)) {
        let end = at + place;
        if fits < end {
            return at;
        }
        let len = pair_len(after(text, end), copy, is_unclosed, false);
        if len == 0 || fits - end < len {
            return end;
        }
        at = end + len;
    }
    if fits < text.len() {
        return at;
    }
    text.len()
}
