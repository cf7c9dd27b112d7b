//! Rows as they are written: `?` takes the place of a control character, which an index from elsewhere may hold (whatis(1)).

ghost use Rattle.std.specs.Prelude.{◌≡◌, ◌++◌, ℕ, List, MatchOption};
ghost use Rattle.std.specs.List.{flat_map, list_any};
ghost use Rattle.page_core_streams.specs.Streams.{GrowsInto};
ghost use Rattle.page_core_streams.specs.laws.Views.{FailsBy, GrowsUpTo, StopsBy, Writes};
ghost use Rattle.page_engine_index.specs.Written.{at_byte, ends_control, held_back, is_hidden, own_byte, visible, visible_from};
ghost use Rattle.page_engine_index.specs.machine.Steps.{is_special};

use page_core_streams::{Target, put_all};

/// The first byte of the characters U+0080 to U+00BF. Those up to U+009F are control characters.
const LEAD: u8 = 0xC2;

/// Writes the parts of a row, and says whether that succeeded; else a front of it was written.
pub(crate) fn put_row<W: Target>(out: &mut W, parts: &[&[u8]]) -> bool
    ensures writes { Writes result (W.contents out.old) (W.contents out.new) (visible (flat_map (λ part. part.now) parts.now)) }
    ensures fails { FailsBy W.counts result (W.failures out.old) (W.failures out.new) }
{
    if are_special(parts) {
        return put_visible(out, parts);
    }
    put_all(out, parts)
}

// Whether some part is written in another way than as it is.
fn are_special(parts: &[&[u8]]) -> bool
    ensures { result ≡ list_any (λ part. list_any is_special part.now) parts.now }
{
    parts.iter().any(|part| is_special(*part))
}

// Whether a part has a byte that is written in another way than as it is, or that may be.
fn is_special(part: &[u8]) -> bool
    ensures { result ≡ list_any is_special part.now }
{
    part.iter().any(|byte| *byte == LEAD || is_hidden(*byte))
}

// Whether a byte is a control character, and no line feed.
fn is_hidden(byte: u8) -> bool
    ensures { result ≡ is_hidden byte }
{
    byte.is_ascii_control() && byte != b'\n'
}

// Writes parts, byte by byte.
fn put_visible<W: Target>(out: &mut W, parts: &[&[u8]]) -> bool
    ensures writes { Writes result (W.contents out.old) (W.contents out.new) (visible (flat_map (λ part. part.now) parts.now)) }
    ensures fails { FailsBy W.counts result (W.failures out.old) (W.failures out.new) }
{
    let mut held = false;
    for part in parts {
        match put_part(out, held, *part) {
            Some(more) => held = more,
            None => return false,
        }
    }
    put_held(out, held)
}

// Writes a part, and says whether its last byte is held back.
fn put_part<W: Target>(out: &mut W, held: bool, part: &[u8]) -> Option<bool>
    ensures writes { (rest : List ℕ) → MatchOption result
        (GrowsInto (W.contents out.old) (W.contents out.new) (visible_from held (part.now ++ rest)))
        (λ more. GrowsUpTo (W.contents out.old) (W.contents out.new) (visible_from held (part.now ++ rest)) (visible_from more rest)) }
    ensures fails { StopsBy W.counts result (W.failures out.old) (W.failures out.new) }
{
    let mut held = held;
    for byte in part {
        if !put_byte(out, held, *byte) {
            return None;
        }
        held = *byte == LEAD;
    }
    Some(held)
}

// Writes a byte, after the one that is held back.
fn put_byte<W: Target>(out: &mut W, held: bool, byte: u8) -> bool
    ensures writes { Writes result (W.contents out.old) (W.contents out.new) (at_byte held byte) }
    ensures fails { FailsBy W.counts result (W.failures out.old) (W.failures out.new) }
{
    if ends_control(held, byte) {
        return out.put(b"?");
    }
    if put_held(out, held) {
        return put_own(out, byte);
    }
    false
}

// Whether a byte ends a control character whose first one is held back.
fn ends_control(held: bool, byte: u8) -> bool
    ensures { result ≡ ends_control held byte }
{
    held && matches!(byte, 0x80..=0x9F)
}

// Writes the byte that is held back.
fn put_held<W: Target>(out: &mut W, held: bool) -> bool
    ensures writes { Writes result (W.contents out.old) (W.contents out.new) (held_back held) }
    ensures fails { FailsBy W.counts result (W.failures out.old) (W.failures out.new) }
{
    if held { out.put(&[LEAD]) } else { true }
}

// Writes a byte, unless it is to be held back.
fn put_own<W: Target>(out: &mut W, byte: u8) -> bool
    ensures writes { Writes result (W.contents out.old) (W.contents out.new) (own_byte byte) }
    ensures fails { FailsBy W.counts result (W.failures out.old) (W.failures out.new) }
{
    match byte {
        LEAD => true,
        _ if is_hidden(byte) => out.put(b"?"),
        _ => out.put(&[byte]),
    }
}
