//! Passing over the bytes of a page that stand for themselves, a vector at a time.
ghost use Rattle.std.specs.Prelude.{◌≡◌, ℕ, ◌+◌, ◌<◌, ◌≤◌, length, take, slice_index, true, false};
ghost use Rattle.std.specs.List.{list_all};
ghost use Rattle.page_roff_decoding.specs.Decoding.{is_printable};
ghost use Rattle.page_roff_lines.specs.machine.Open.{BeginsPair, IsFine, IsFreeTo, IsText, is_quiet, ends_run as spec_ends_run, stays as spec_stays};
ghost use Rattle.page_core_base.specs.laws.Views.{IsFreeLine};

use crate::Mode;
use crate::open::{BACKSLASH, HASH, NEWLINE, QUOTE};
use memchr::{memchr, memchr2};
use page_roff_decoding::{LANES, is_printable, stops, text_len};
use std::simd::prelude::*;

// How many bytes come before the first line feed or backslash.
fn run_len(chunk: &[u8]) -> usize
    ensures within { result ≤ length chunk.now }
    ensures run { (k : ℕ) → k < result → spec_ends_run Mode.Plain (slice_index chunk.now k) ≡ false }
{
    memchr2(NEWLINE, BACKSLASH, chunk).unwrap_or(chunk.len())
}

/// How many bytes come before the first line feed.
pub fn comment_run(chunk: &[u8]) -> usize
    ensures within { result ≤ length chunk.now }
    ensures run { (k : ℕ) → k < result → spec_ends_run Mode.Comment (slice_index chunk.now k) ≡ false }
{
    memchr(NEWLINE, chunk).unwrap_or(chunk.len())
}

// How many bytes come before the first line feed or backslash, and whether they are known to be printable.
#[inline(always)]
fn plain_run(chunk: &[u8]) -> (usize, bool)
    ensures within { result.0 ≤ length chunk.now }
    ensures run { (k : ℕ) → k < result.0 → spec_ends_run Mode.Plain (slice_index chunk.now k) ≡ false }
    ensures printable { result.1 ≡ true → list_all is_printable (take result.0 chunk.now) ≡ true }
{
    let len = text_len(chunk);
    if len == chunk.len() || chunk[len] == NEWLINE || chunk[len] == BACKSLASH {
        return (len, true);
    }
    (len + run_len(&chunk[len..]), false)
}

// Whether a byte stays with the backslash before it, and begins no comment with it.
fn stays(byte: u8) -> bool
    ensures { result ≡ spec_stays byte }
{
    is_printable(byte) && byte != QUOTE && byte != HASH
}

// Whether a chunk begins with a backslash and a byte that stays with it.
fn begins_pair(chunk: &[u8]) -> bool
    ensures { result ≡ true → BeginsPair chunk.now }
{
    if chunk.len() < 2 || chunk[0] != BACKSLASH {
        return false;
    }
    stays(chunk[1])
}

// The bytes that do more after a backslash than an escape of a finished line does, and the backslash itself: a set of bits for each 64 bytes.
const LOUD: [u64; 4] = [
    1 << b'"' | 1 << b'#' | 1 << b'$' | 1 << b'*',
    1 << (b'\\' - 64) | 1 << (b'n' - 64) | 1 << (b'w' - 64) | 1 << (b'}' - 64),
    0,
    0,
];

// Whether a byte after a backslash begins no comment, no end of a block and no interpolation with it, and is no backslash.
#[inline(always)]
fn is_quiet(byte: u8) -> bool
    ensures { result ≡ is_quiet byte }
{
    LOUD[(byte / 64) as usize] >> (byte % 64) & 1 == 0
}

// How far text and pairs go on, whether they are known to be free, and whether more of them may follow.
#[derive(Clone, Copy)]
struct Reach {
    len: usize,
    free: bool,
    goes_on: bool,
}

// Reads on through the text and the pairs of one vector, after bytes that may be known to be free.
#[inline(always)]
fn through_vector(chunk: &[u8], from: usize, mut free: bool) -> Reach
    requires room { from + 32 ≤ length chunk.now }
    requires text { IsFine (take from chunk.now) }
    requires free { free ≡ true → IsFreeTo from chunk.now }
    ensures within { result.len ≤ length chunk.now }
    ensures text { IsFine (take result.len chunk.now) }
    ensures free { result.free ≡ true → IsFreeTo result.len chunk.now }
    ensures further { result.goes_on ≡ true → from < result.len }
{
    let mut at = from;
    let mut left = LANES;
    let mut found = stops(u8x32::from_slice(&chunk[at..]));
    while found != 0 {
        let len = found.trailing_zeros() as usize;
        at += len;
        if !begins_pair(&chunk[at..]) {
            return Reach {
                len: at,
                free,
                goes_on: false,
            };
        }
        free &= is_quiet(chunk[at + 1]);
        at += 2;
        if left <= len + 2 {
            return Reach {
                len: at,
                free,
                goes_on: true,
            };
        }
        left -= len + 2;
        found >>= len + 2;
    }
    Reach {
        len: at + left,
        free,
        goes_on: true,
    }
}

// How many bytes at the front are text and pairs, as far as whole vectors go, after so many that are known to be, and to be free; and whether all
// are known to be free.
#[inline(always)]
fn fine_from(chunk: &[u8], from: usize) -> (usize, bool)
    requires within { from ≤ length chunk.now }
    requires text { IsFine (take from chunk.now) }
    requires free { IsFreeTo from chunk.now }
    ensures within { result.0 ≤ length chunk.now }
    ensures text { IsFine (take result.0 chunk.now) }
    ensures free { result.1 ≡ true → IsFreeTo result.0 chunk.now }
{
    let mut at = from;
    let mut free = true;
    while chunk.len() - at >= LANES {
        let reach = through_vector(chunk, at, free);
        at = reach.len;
        free = reach.free;
        if !reach.goes_on {
            return (at, free);
        }
    }
    (at, free)
}

/// How many bytes at the front are text and pairs, all printable, pairs as far as whole vectors go, and whether they are known to be free.
#[inline(always)]
pub fn fine_len(chunk: &[u8]) -> (usize, bool)
    ensures within { result.0 ≤ length chunk.now }
    ensures text { IsFine (take result.0 chunk.now) }
    ensures free { result.1 ≡ true → IsFreeLine (take result.0 chunk.now) }
{
    let len = text_len(chunk);
    if !begins_pair(&chunk[len..]) {
        return (len, true);
    }
    fine_from(chunk, len)
}

// How many bytes are read at once after text and pairs, with these, and whether they are known to be printable.
#[inline(never)]
fn run_after(chunk: &[u8], from: usize) -> (usize, bool)
    requires within { from ≤ length chunk.now }
    requires text { IsFine (take from chunk.now) }
    ensures within { result.0 ≤ length chunk.now }
    ensures text { IsText (take result.0 chunk.now) }
    ensures printable { result.1 ≡ true → list_all is_printable (take result.0 chunk.now) ≡ true }
{
    let (len, mut printable) = plain_run(&chunk[from..]);
    let mut at = from + len;
    while begins_pair(&chunk[at..]) {
        at += 2;
        let (len, is_printable) = plain_run(&chunk[at..]);
        at += len;
        printable = printable && is_printable;
    }
    (at, printable)
}

/// How many bytes at the front of a chunk are read at once where text is read, backslashes with the bytes that stay with them among
/// them, and whether they are known to be printable.
#[inline(always)]
pub fn paired_run(chunk: &[u8]) -> (usize, bool)
    ensures within { result.0 ≤ length chunk.now }
    ensures text { IsText (take result.0 chunk.now) }
    ensures printable { result.1 ≡ true → list_all is_printable (take result.0 chunk.now) ≡ true }
{
    let (len, _) = fine_len(chunk);
    if len < chunk.len() && chunk[len] == NEWLINE {
        return (len, true);
    }
    run_after(chunk, len)
}
