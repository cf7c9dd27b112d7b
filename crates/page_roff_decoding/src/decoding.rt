//! The decoded text of a line (mandoc(1), -K).
ghost use Rattle.std.specs.Prelude.{◌≡◌, ◌-◌, ◌+◌, ◌<◌, ◌≤◌, ◌++◌, length, take, true, nat_le, nat_lt, if◌then◌else◌};
ghost use Rattle.std.specs.List.{list_all};
ghost use Rattle.page_core_base.specs.Texts.{IsLine};
ghost use Rattle.page_roff_decoding.specs.Decoding.{line_limit, characters, bytes_of, all_bytes, is_printable, line_characters};
ghost use Rattle.page_roff_decoding.specs.machine.Fronts.{as_character, width_of};

use crate::characters::Front;
use crate::texts::text_within;
use page_core_base::{BoundedText, Encoding, LINE};

// Appends the text at the front of some bytes, as far as it fits; how many bytes that are.
#[tactic(auto, using(crate::specs::laws::Views::line_limit_is))]
fn put_text(decoded: &mut BoundedText<LINE>, bytes: &[u8]) -> usize
    ensures within { result ≤ length bytes.now }
    ensures fits { result ≤ line_limit - length decoded.old }
    ensures text { list_all is_printable (take result bytes.now) ≡ true }
    ensures after { decoded.new ≡ decoded.old ++ take result bytes.now }
{
    let len = text_within(bytes, LINE - decoded.bytes().len());
    if len > 0 {
        let _ = decoded.add(&bytes[..len]);
    }
    len
}

// Appends the character at the front of `text`, where it fits; whether it does.
#[inline(always)]
#[tactic(auto, unfolding(crate::specs::Decoding::line_limit))]
fn put_front(decoded: &mut BoundedText<LINE>, front: Front, text: &[u8]) -> bool
    requires { width_of front ≤ length text.now }
    ensures fits { result
        ≡ nat_le (length (bytes_of (as_character front text.now))) (line_limit - length decoded.old) }
    ensures after { decoded.new
        ≡ (if result then decoded.old ++ bytes_of (as_character front text.now) else decoded.old) }
{
    match front {
        Front::Same(len) => decoded.add(&text[..len]),
        Front::Latin1(byte) => decoded.add(&[192 + byte / 64, 128 + byte % 64]),
        Front::Bad(_) => decoded.add_byte(b'?'),
    }
}

/// Decodes a text, as far as it fits; whether less than all of it does.
#[inline(never)]
pub fn decode(decoded: &mut BoundedText<LINE>, text: &[u8], encoding: Encoding) -> bool
    ensures after { decoded.new ≡ all_bytes (line_characters encoding text.now) }
    ensures passed { result
        ≡ nat_lt (length (line_characters encoding text.now)) (length (characters encoding text.now)) }
    ensures line { IsLine decoded.new }
{
    decoded.clear();
    let mut at = 0;
    while at < text.len() {
        at += put_text(decoded, &text[at..]);
        if at < text.len() {
            let rest = &text[at..];
            let front = Front::of(rest, encoding);
            if !put_front(decoded, front, rest) {
                return true;
            }
            at += front.width();
        }
    }
    false
}
