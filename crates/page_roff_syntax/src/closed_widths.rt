//! Which widths of a text have an end (roff(7), `\w`). Each is searched for up to the text's end where it has none, and a text of nothing but
//! such widths would be read for each of them; here it is read once, from its end to its front, and the characters outside pairs are noted.

ghost use Rattle.std.specs.Prelude.{◌≡◌, ◌+◌, ◌<◌, ◌≤◌, length, get_or, drop, true, false, IsTrue};
ghost use Rattle.page_roff_syntax.specs.Delimiters.{width_len};
ghost use Rattle.page_roff_syntax.specs.machine.Closed.{AreMarked, AreMet, Grows, code_of, goes_on, is_met, is_noted};

use crate::delimiters::{character_len, is_outside};

// The code points whose bits are in one number.
const BITS: usize = 64;

/// The numbers that have a bit for each code point.
pub const MET_WORDS: usize = 0x11_0000 / 64;

// A byte of a text, or 0 after its end.
#[inline(always)]
fn byte_at(text: &[u8], at: usize) -> usize
    ensures value { result ≡ get_or text.now at 0 }
    ensures bound { result < 256 }
{
    if at < text.len() {
        text[at] as usize
    } else {
        0
    }
}

// The code point of a text's first character.
#[inline(always)]
fn code_of(text: &[u8]) -> usize
    ensures { result ≡ code_of text.now }
{
    let first = byte_at(text, 0);
    if first < 0x80 {
        return first;
    }
    let second = byte_at(text, 1) % 64;
    if first < 0xE0 {
        return first % 32 * 64 + second;
    }
    let third = byte_at(text, 2) % 64;
    if first < 0xF0 {
        return (first % 16 * 64 + second) * 64 + third;
    }
    let fourth = byte_at(text, 3) % 64;
    ((first % 8 * 64 + second) * 64 + third) * 64 + fourth
}

// Whether a byte goes on with a character.
#[inline(always)]
fn goes_on(byte: u8) -> bool
    ensures { result ≡ goes_on byte }
{
    0x80 <= byte && byte < 0xC0
}

// Whether a text's first character may be noted. In UTF-8 each may that is no backslash.
#[inline(always)]
fn is_noted(text: &[u8]) -> bool
    requires { 0 < length text.now }
    ensures { result ≡ is_noted text.now }
{
    !goes_on(text[0]) && text[character_len(text) - 1] != b'\\'
}

// Whether a character was met. One that has no bit may have been.
#[inline(always)]
fn is_met(met: &[u64], code: usize) -> bool
    ensures { result ≡ is_met met.now code }
{
    met.len() <= code / BITS || (met[code / BITS] >> (code % BITS)) & 1 == 1
}

// Notes a character.
#[inline(always)]
fn meet(met: &mut [u64], code: usize)
    ensures met { is_met met.new code ≡ true }
    ensures grows { Grows met.old met.new }
{
    if code / BITS < met.len() {
        met[code / BITS] |= 1 << (code % BITS);
    }
}

// Whether a width whose delimiter is at a place may have an end, by the characters that were met behind it. This one is noted with them.
fn may_close(met: &mut [u64], text: &[u8], at: usize) -> bool
    requires within { at < length text.now }
    requires met { AreMet met.old text.now (at + 1) }
    ensures met { AreMet met.new text.now at }
    ensures lone { result ≡ false → width_len (drop at text.now) ≡ 0 }
{
    let rest = &text[at..];
    if !is_noted(rest) {
        return true;
    }
    let code = code_of(rest);
    let may_close = is_met(met, code);
    if is_outside(text, at) {
        meet(met, code);
    }
    may_close
}

/// Marks of each byte of a text, beside it, whether it may begin the delimiter of a width that has an end: 0 where it doesn't. What was met
/// before only makes this less sharp.
#[inline(never)]
pub fn mark_closed(text: &[u8], met: &mut [u64], marks: &mut [u8])
    requires { length text.now ≤ length marks.old }
    ensures marked { AreMarked marks.new text.now 0 }
    ensures len { length marks.new ≡ length marks.old }
{
    let mut at = text.len();
    while 0 < at {
        at -= 1;
        marks[at] = may_close(met, text, at) as u8;
    }
}

/// Whether it is known by a text's marks that a width whose delimiter would be at a place has no end.
#[inline(always)]
pub fn is_lone(text: &[u8], marks: &[u8], at: usize) -> bool
    requires { AreMarked marks.now text.now 0 }
    ensures { IsTrue result → width_len (drop at text.now) ≡ 0 }
{
    at < text.len() && at < marks.len() && marks[at] == 0
}
