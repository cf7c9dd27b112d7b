//! How far a text goes on as words of printable ASCII, with one blank before each and no hyphen, many bytes at a time (roff(7), "LANGUAGE SYNTAX").

ghost use Rattle.std.specs.Prelude.{◌≡◌, ◌≤◌, ◌<◌, ◌+◌, ◌==◌, length, slice_index, if◌then◌else◌, true};
ghost use Rattle.std.specs.Simd.Lanes.{mask_l, zip2};
ghost use Rattle.page_scopes_words.specs.machine.Letters.{GoesOn, ends_run, ends_run_at};

use std::simd::prelude::*;

// The bytes that are tested at a time.
const LANES: usize = 16;

// What ends a run besides blanks, hyphens, escapes and bytes that are not printable ASCII: in a quoted argument a quote, else nothing more.
fn mark(quoted: bool) -> u8
    ensures { result ≡ (if quoted then 34 else 92) }
{
    if quoted { b'"' } else { b'\\' }
}

// The bytes of a vector that end a run, as the bits of a number; the other vector has the byte after each.
#[inline(always)]
fn ends(quoted: bool, bytes: u8x16, next: u8x16) -> u64
    ensures { result ≡ mask_l (zip2 (ends_run quoted) bytes next) }
{
    let escapes = bytes.simd_eq(u8x16::splat(b'\\')) | bytes.simd_eq(u8x16::splat(mark(quoted)));
    let strange = bytes.simd_lt(u8x16::splat(b' ')) | bytes.simd_gt(u8x16::splat(b'~'));
    let others = strange | escapes;
    let blanks = bytes.simd_eq(u8x16::splat(b' ')) & next.simd_eq(u8x16::splat(b' '));
    (bytes.simd_eq(u8x16::splat(b'-')) | (others | blanks)).to_bitmask()
}

// How many of the `LANES` places from this one on come before one at which a run ends.
#[inline(always)]
fn vector_len(quoted: bool, text: &[u8], at: usize) -> usize
    requires { at + LANES < length text.now }
    ensures within { result ≤ LANES }
    ensures goes { GoesOn quoted text.now at (at + result) }
    ensures ends { result < LANES → ends_run_at quoted text.now (at + result) ≡ true }
{
    let next = u8x16::from_slice(&text[at + 1..]);
    let found = ends(quoted, u8x16::from_slice(&text[at..]), next);
    if found == 0 {
        return LANES;
    }
    found.trailing_zeros() as usize
}

// How many bytes at the front of a text of more than `LANES` bytes are seen to go on, by vectors. The last one may overlap the one before; no
// look is taken at the text's last byte.
#[inline(always)]
fn vectors_len(quoted: bool, text: &[u8]) -> usize
    requires { LANES < length text.now }
    ensures within { result < length text.now }
    ensures goes { GoesOn quoted text.now 0 result }
    ensures ends { result + 1 < length text.now → ends_run_at quoted text.now result ≡ true }
{
    let last = text.len() - LANES - 1;
    let mut at = 0;
    while at < last {
        let len = vector_len(quoted, text, at);
        if len < LANES {
            return at + len;
        }
        at += LANES;
    }
    last + vector_len(quoted, text, last)
}

// Whether a run ends at a place. Most bytes are above blanks and quotes, so that two looks are enough.
#[inline(always)]
fn ends_at(quoted: bool, text: &[u8], at: usize) -> bool
    requires { at < length text.now }
    ensures { result ≡ ends_run_at quoted text.now at }
{
    let byte = text[at];
    if byte > b'"' {
        return byte == b'-' || byte == b'\\' || byte > b'~';
    }
    if byte == b' ' {
        return at + 1 == text.len() || text[at + 1] == b' ';
    }
    byte < b' ' || (quoted && byte == b'"')
}

/// How many bytes come before the first at which a run of words ends.
#[inline(always)]
pub fn going_len(quoted: bool, text: &[u8]) -> usize
    ensures within { result ≤ length text.now }
    ensures goes { GoesOn quoted text.now 0 result }
    ensures ends { result < length text.now → ends_run_at quoted text.now result ≡ true }
{
    let mut at = 0;
    if text.len() > LANES {
        at = vectors_len(quoted, text);
        if at + 1 < text.len() {
            return at;
        }
    }
    while at < text.len() && !ends_at(quoted, text, at) {
        at += 1;
    }
    at
}

// The last blank among the bytes up to a place, at most `LANES` of them, or the first of these where there is none.
#[inline(always)]
fn near_blank(text: &[u8], place: usize) -> usize
    requires { (LANES ≤ length text.now) × (place < length text.now) }
    ensures { result ≤ place }
{
    let start = place.saturating_sub(LANES - 1);
    let blanks = u8x16::from_slice(&text[start..]).simd_eq(u8x16::splat(b' '));
    let found = blanks.to_bitmask() << (63 - (place - start));
    if found == 0 {
        return start;
    }
    place.saturating_sub(found.leading_zeros() as usize)
}

/// The last blank up to a place, or the text's front. Most blanks are near.
#[inline(always)]
pub fn blank_before(text: &[u8], place: usize) -> usize
    requires { place < length text.now }
    ensures within { result ≤ place }
    ensures blank { 0 < result → slice_index text.now result ≡ 32 }
{
    if text.len() >= LANES {
        let near = near_blank(text, place);
        if near == 0 || text[near] == b' ' {
            return near;
        }
    }
    let mut at = place;
    while at > 0 && text[at] != b' ' {
        at -= 1;
    }
    at
}
