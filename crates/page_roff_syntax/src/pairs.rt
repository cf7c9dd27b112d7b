//! Whether there are pairs of a backslash and another byte in a text.

ghost use Rattle.std.specs.Prelude.{◌≡◌, ◌↔◌, ◌<◌, ◌+◌, false, length, IsTrue};
ghost use Rattle.page_roff_syntax.specs.machine.Closed.{is_pair, LacksPair, LacksPairFrom};

use std::simd::prelude::*;

// The places that are tested at a time.
const LANES: usize = 16;

// Whether a backslash and one of two bytes begin at one of the `LANES` places from here on.
#[inline(always)]
fn has_pair_at(text: &[u8], at: usize, one: u8, other: u8) -> bool
    requires { at + LANES < length text.now }
    ensures { result ≡ false ↔ LacksPairFrom at LANES one other text.now }
{
    let firsts = u8x16::from_slice(&text[at..]).simd_eq(u8x16::splat(b'\\'));
    let seconds = u8x16::from_slice(&text[at + 1..]);
    let keys = seconds.simd_eq(u8x16::splat(one)) | seconds.simd_eq(u8x16::splat(other));
    (firsts & keys).to_bitmask() != 0
}

// Whether two bytes are a backslash and one of two bytes.
fn is_pair(first: u8, second: u8, one: u8, other: u8) -> bool
    ensures { result ≡ is_pair first second one other }
{
    first == b'\\' && (second == one || second == other)
}

// Whether a text has no such pair, a byte at a time.
fn lacks_pair_short(text: &[u8], one: u8, other: u8) -> bool
    ensures { IsTrue result ↔ LacksPair one other text.now }
{
    let mut at = 1;
    while at < text.len() {
        if is_pair(text[at - 1], text[at], one, other) {
            return false;
        }
        at += 1;
    }
    true
}

/// Whether a text has no pair of a backslash and one of two bytes. Most texts with backslashes have none.
#[inline(always)]
pub fn lacks_pair(text: &[u8], one: u8, other: u8) -> bool
    ensures { IsTrue result ↔ LacksPair one other text.now }
{
    if text.len() <= LANES {
        return lacks_pair_short(text, one, other);
    }
    let last = text.len() - LANES - 1;
    let mut at = 0;
    while at < last {
        if has_pair_at(text, at, one, other) {
            return false;
        }
        at += LANES;
    }
    !has_pair_at(text, last, one, other)
}
