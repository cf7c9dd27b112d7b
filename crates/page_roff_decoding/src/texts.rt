//! Passing over printable bytes, a vector at a time.
ghost use Rattle.std.specs.Prelude.{◌≡◌, ◌+◌, ◌≤◌, length, drop, take, map, true};
ghost use Rattle.std.specs.List.{prefix_len, list_all};
ghost use Rattle.std.specs.Simd.Lanes.{mask_l};
ghost use Rattle.page_roff_decoding.specs.Decoding.{is_printable};
ghost use Rattle.page_roff_decoding.specs.machine.Fronts.{is_text as spec_is_text, is_stop};

use crate::characters::is_printable;
use std::simd::prelude::*;

/// The bytes that are tested at a time.
pub const LANES: usize = 32;

// How far the last printable byte of ASCII is above the first, the blank.
const PRINTABLE_SPAN: u8 = b'~' - b' ';

// Whether a byte is a printable one of ASCII or a tab, and no backslash.
fn is_text(byte: u8) -> bool
    ensures { result ≡ spec_is_text byte }
{
    is_printable(byte) && byte != b'\\'
}

/// The bytes of a vector that are no text, as the bits of a number.
#[inline(always)]
pub fn stops(bytes: u8x32) -> u64
    ensures { result ≡ mask_l (map is_stop bytes) }
{
    let others = bytes.simd_ne(u8x32::splat(b'\t'));
    let backslashes = bytes.simd_eq(u8x32::splat(b'\\'));
    let outside = (bytes - u8x32::splat(b' ')).simd_gt(u8x32::splat(PRINTABLE_SPAN));
    ((outside & others) | backslashes).to_bitmask()
}

// Where the text ends that begins at a place, a byte at a time.
fn text_end(bytes: &[u8], from: usize) -> usize
    requires { from ≤ length bytes.now }
    ensures { result ≡ from + prefix_len spec_is_text (drop from bytes.now) }
{
    let mut at = from;
    while at < bytes.len() && is_text(bytes[at]) {
        at += 1;
    }
    at
}

/// How many bytes at the front are text, printable ones and no backslashes.
#[inline(always)]
pub fn text_len(bytes: &[u8]) -> usize
    ensures value { result ≡ prefix_len spec_is_text bytes.now }
    ensures within { result ≤ length bytes.now }
{
    let mut at = 0;
    while bytes.len() - at >= LANES {
        let found = stops(u8x32::from_slice(&bytes[at..]));
        if found != 0 {
            return at + found.trailing_zeros() as usize;
        }
        at += LANES;
    }
    text_end(bytes, at)
}

/// How many bytes at the front are text, of those for which there is room.
pub fn text_within(bytes: &[u8], room: usize) -> usize
    ensures within { result ≤ length bytes.now }
    ensures room { result ≤ room }
    ensures text { list_all is_printable (take result bytes.now) ≡ true }
{
    if bytes.is_empty() || !is_text(bytes[0]) {
        return 0;
    }
    text_len(bytes).min(room)
}
