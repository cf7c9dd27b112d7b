//! Raw lines in which no comment, no end of a block and no interpolation begins: most lines are such (roff(7), "Escape sequences").

ghost use Rattle.std.specs.Prelude.{◌≡◌, ◌+◌, ◌<◌, length, map, false, IsTrue};
ghost use Rattle.std.specs.Simd.Lanes.{mask_l};
ghost use Rattle.page_core_base.specs.laws.Views.{is_backslash, is_key, IsFreeLine};
ghost use Rattle.page_roff_effects.specs.machine.Acting.{IsFreeFrom};

use std::simd::prelude::*;

// The places that are tested at a time.
const LANES: usize = 16;

// Whether a byte after a backslash begins a comment, ends a block or may begin an interpolation.
fn is_key(byte: u8) -> bool
    ensures { result ≡ is_key byte }
{
    matches!(byte, b'"' | b'#' | b'}' | b'*' | b'n' | b'$' | b'w')
}

// The backslashes of a vector, as the bits of a number.
#[inline(always)]
fn backslashes(bytes: u8x16) -> u64
    ensures { result ≡ mask_l (map is_backslash bytes) }
{
    bytes.simd_eq(u8x16::splat(b'\\')).to_bitmask()
}

// The bytes of a vector that say something after a backslash, as the bits of a number.
#[inline(always)]
fn keys(bytes: u8x16) -> u64
    ensures { result ≡ mask_l (map is_key bytes) }
{
    let comments = bytes.simd_eq(u8x16::splat(b'"')) | bytes.simd_eq(u8x16::splat(b'#'));
    let ends = bytes.simd_eq(u8x16::splat(b'}'));
    let strings = bytes.simd_eq(u8x16::splat(b'*'));
    let registers = bytes.simd_eq(u8x16::splat(b'n'));
    let arguments = bytes.simd_eq(u8x16::splat(b'$'));
    let widths = bytes.simd_eq(u8x16::splat(b'w'));
    (comments | (ends | (strings | (registers | (arguments | widths))))).to_bitmask()
}

// Whether a backslash before such a byte is at one of the `LANES` places from this one on.
#[inline(always)]
fn has_key_from(line: &[u8], at: usize) -> bool
    requires { at + LANES < length line.now }
    ensures { result ≡ false → IsFreeFrom at LANES line.now }
{
    let starts = backslashes(u8x16::from_slice(&line[at..]));
    if starts == 0 {
        return false;
    }
    starts & keys(u8x16::from_slice(&line[at + 1..])) != 0
}

// Whether a line of more than `LANES` bytes is free. The last vector may overlap the one before.
fn is_free_long(line: &[u8]) -> bool
    requires { LANES < length line.now }
    ensures { IsTrue result → IsFreeLine line.now }
{
    let last = line.len() - LANES - 1;
    let mut at = 0;
    while at < last {
        if has_key_from(line, at) {
            return false;
        }
        at += LANES;
    }
    !has_key_from(line, last)
}

// Whether a line is free, a byte at a time.
fn is_free_short(line: &[u8]) -> bool
    ensures { IsTrue result → IsFreeLine line.now }
{
    let mut at = 1;
    while at < line.len() {
        if line[at - 1] == b'\\' && is_key(line[at]) {
            return false;
        }
        at += 1;
    }
    true
}

/// Whether a line is seen to be free: no comment, no end of a block and no interpolation begins in it.
pub(crate) fn is_free(line: &[u8]) -> bool
    ensures { IsTrue result → IsFreeLine line.now }
{
    if line.len() <= LANES {
        is_free_short(line)
    } else {
        is_free_long(line)
    }
}
