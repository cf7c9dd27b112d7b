//! Plain texts: their bytes are read, and put into the open row, as a whole.

ghost use Rattle.std.specs.Prelude.{◌≡◌, ◌≤◌, ◌<◌, ◌+◌, length, take, drop, true};
ghost use Rattle.page_core_base.specs.laws.Views.{LaysOut};
ghost use Rattle.page_fill_rows.specs.OpenRows as shown;
ghost use Rattle.page_fill_rows.specs.machine.Plain as plain;
ghost use Rattle.page_fill_rows.specs.machine.Sheets as sheet;

use crate::open_rows::OpenRow;
use page_core_base::{Cell, Font, Place, RowOut};
use std::simd::prelude::*;

// The characters of a plain text that are put together, be there room for them or not.
const PART: usize = 64;

// The bytes that are searched for a blank at a time.
const LANES: usize = 16;

// Where the letters after the last blank among the first bytes of a vector begin; 0 if there is no blank.
#[inline(always)]
fn vector_start(bytes: u8x16, count: usize) -> usize
    requires { count ≤ LANES }
    ensures value { result ≡ plain.word_start (take count bytes) }
    ensures bound { result ≤ count }
{
    let blanks = bytes.simd_eq(u8x16::splat(b' ')).to_bitmask() & ((1 << count) - 1);
    (u64::BITS - blanks.leading_zeros()) as usize
}

// Where the letters after the last blank before an end begin, byte by byte from there.
#[inline(always)]
fn start_by_bytes(text: &[u8], end: usize) -> usize
    requires { end ≤ length text.now }
    ensures value { result ≡ plain.word_start (take end text.now) }
    ensures bound { result ≤ end }
{
    let mut start = end;
    while 0 < start && text[start - 1] != b' ' {
        start -= 1;
    }
    start
}

/// Where the letters after the last blank before an end begin; 0 if there is no blank.
pub fn word_start(text: &[u8], end: usize) -> usize
    requires { end ≤ length text.now }
    ensures value { result ≡ plain.word_start (take end text.now) }
    ensures bound { result ≤ end }
{
    if text.len() < LANES {
        return start_by_bytes(text, end);
    }
    let front = end.saturating_sub(LANES);
    let start = vector_start(u8x16::from_slice(&text[front..]), end - front);
    if 0 < start {
        return front + start;
    }
    start_by_bytes(text, front)
}

// How many bytes of a vector come before its first blank.
#[inline(always)]
fn vector_end(bytes: u8x16) -> usize
    ensures value { result ≡ plain.word_end bytes }
    ensures bound { result ≤ LANES }
{
    let blanks = bytes.simd_eq(u8x16::splat(b' ')).to_bitmask();
    if blanks == 0 {
        return LANES;
    }
    blanks.trailing_zeros() as usize
}

// How many bytes come before the first blank, where none is before a start.
#[inline(always)]
fn end_by_bytes(text: &[u8], start: usize) -> usize
    requires within { start ≤ length text.now }
    requires front { plain.word_end text.now ≡ start + plain.word_end (drop start text.now) }
    ensures { result ≡ plain.word_end text.now }
{
    let mut end = start;
    while end < text.len() && text[end] != b' ' {
        end += 1;
    }
    end
}

/// How many bytes come before the first blank.
pub fn word_end(text: &[u8]) -> usize
    ensures value { result ≡ plain.word_end text.now }
    ensures bound { result ≤ length text.now }
{
    let mut start = 0;
    if text.len() >= LANES {
        start = vector_end(u8x16::from_slice(text));
        if start < LANES {
            return start;
        }
    }
    end_by_bytes(text, start)
}

/// Puts the characters of a plain text: of a long one, those for which a row has room together.
pub fn put_plain<O: RowOut>(row: &mut OpenRow, bytes: &[u8], font: Font, place: Place, out: &mut O)
    requires { plain.is_printable_ascii bytes.now ≡ true }
    ensures { LaysOut O.left out.old (sheet.letters row.old
        (shown.cells_of font bytes.now) place) out.new row.new }
{
    let mut rest = bytes;
    while rest.len() > PART {
        let (part, later) = rest.split_at(row.part_len(rest.len()));
        put_part(row, part, font, place, out);
        rest = later;
    }
    put_part(row, rest, font, place, out);
}

// Puts the characters of a part of a plain text: all of them together if the row has room for them.
fn put_part<O: RowOut>(row: &mut OpenRow, bytes: &[u8], font: Font, place: Place, out: &mut O)
    requires { plain.is_printable_ascii bytes.now ≡ true }
    ensures { LaysOut O.left out.old (sheet.letters row.old
        (shown.cells_of font bytes.now) place) out.new row.new }
{
    if !bytes.is_empty() && row.has_room(bytes.len()) {
        row.add_plain(bytes, font);
        return;
    }
    put_bytes(row, bytes, font, place, out);
}

/// Puts cells of bytes, each a character.
pub(crate) fn put_bytes<O: RowOut>(
    row: &mut OpenRow,
    bytes: &[u8],
    font: Font,
    place: Place,
    out: &mut O,
)
    ensures { LaysOut O.left out.old (sheet.letters row.old
        (shown.cells_of font bytes.now) place) out.new row.new }
{
    for byte in bytes {
        let cell = Cell {
            c: *byte as char,
            font,
        };
        row.put_letter(cell, place, out);
    }
}
