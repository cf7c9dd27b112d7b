//! The bytes of rows of ASCII (mandoc(1), "ASCII Output").

ghost use Rattle.std.specs.Prelude.{◌≡◌, ◌+◌, ◌*◌, ◌≤◌, ◌==◌, List, ◌++◌, length, take, true, false};
ghost use Rattle.std.specs.List.{flat_map, list_all};
ghost use Rattle.page_core_base.specs.laws.Views.{AreAscii, cells_in};
ghost use Rattle.page_core_base.specs.Rows.{trimmed};
ghost use Rattle.page_core_base.specs.declared.cells.Font.{Font};
ghost use Rattle.page_core_streams.specs.machine.PlainCells.{is_roman};
ghost use Rattle.page_core_streams.specs.Streams.{cell_bytes_of};

use crate::cells::{font_bits, write_ascii};
use page_core_base::{BLANK_GROUP, Font, LONG_ROW};

/// The characters of a row that are written at a time: a number that the compiler knows, so that it needs no loop over them.
pub(crate) const TEXT_GROUP: usize = 32;

// The characters of a group that are looked at together where they are not all in roman: a number that the compiler knows.
const PART: usize = 4;

// Whether all fonts are roman. They are joined bit by bit: one test at the end costs less than one at each of them.
#[inline(always)]
fn are_roman(fonts: &[Font]) -> bool
    ensures { result ≡ list_all is_roman fonts.now }
{
    let mut bits = 0u8;
    for font in fonts {
        bits |= font_bits(*font);
    }
    bits == 0
}

// Writes as many characters as they are from `start` on, and answers where they end. All are read before they are written.
#[inline(always)]
fn write_roman<const COUNT: usize>(bytes: &mut [u8], start: usize, text: &[u8]) -> usize
    requires room { start + COUNT ≤ length bytes.old }
    requires count { length text.now ≡ COUNT }
    ensures front { take result bytes.new ≡ take start bytes.old ++ text.now }
    ensures end { result ≡ start + COUNT }
{
    let mut part = [0u8; COUNT];
    part.copy_from_slice(text);
    let end = start + COUNT;
    bytes[start..end].copy_from_slice(&part);
    end
}

// Writes the bytes of characters one by one from `start` on, and answers where they end.
#[inline(always)]
fn write_each(bytes: &mut [u8], start: usize, text: &[u8], fonts: &[Font]) -> usize
    requires ascii { AreAscii text.now fonts.now false }
    requires room { start + 5 * length text.now ≤ length bytes.old }
    ensures front { take result bytes.new ≡ take start bytes.old ++ flat_map cell_bytes_of (cells_in text.now fonts.now) }
    ensures end { result ≤ start + 5 * length text.now }
{
    let mut end = start;
    for i in 0..text.len() {
        end = write_ascii(bytes, end, text[i], fonts[i]);
    }
    end
}

// Writes the bytes of characters from `start` on, and answers where they end: quickly each part of which all fonts are roman.
#[inline(always)]
fn write_parts(bytes: &mut [u8], start: usize, text: &[u8], fonts: &[Font]) -> usize
    requires ascii { AreAscii text.now fonts.now false }
    requires room { start + 5 * length text.now ≤ length bytes.old }
    ensures front { take result bytes.new ≡ take start bytes.old ++ flat_map cell_bytes_of (cells_in text.now fonts.now) }
    ensures end { result ≤ start + 5 * length text.now }
{
    let mut end = start;
    let mut i = 0;
    while text.len() - i >= PART {
        let next = i + PART;
        end = if are_roman(&fonts[i..next]) {
            write_roman::<PART>(bytes, end, &text[i..next])
        } else {
            write_each(bytes, end, &text[i..next], &fonts[i..next])
        };
        i = next;
    }
    write_each(bytes, end, &text[i..], &fonts[i..])
}

/// Writes the bytes of the first characters, at most a group, from `start` on, and answers where they end: quickly where there is a group that is
/// all in roman. Then the whole of it is written, and what is after the first characters means nothing.
#[inline(always)]
pub(crate) fn write_first(
    bytes: &mut [u8],
    start: usize,
    text: &[u8],
    fonts: &[Font],
    count: usize,
) -> usize
    requires ascii { AreAscii text.now fonts.now false }
    requires room { start + 5 * TEXT_GROUP ≤ length bytes.old }
    requires within { (count ≤ length text.now) × (count ≤ TEXT_GROUP) }
    ensures front { take result bytes.new ≡ take start bytes.old ++ flat_map cell_bytes_of (cells_in (take count text.now) (take count fonts.now)) }
    ensures end { result ≤ start + 5 * count }
{
    if text.len() >= TEXT_GROUP && are_roman(&fonts[..TEXT_GROUP]) {
        let _end = write_roman::<TEXT_GROUP>(bytes, start, &text[..TEXT_GROUP]);
        return start + count;
    }
    write_parts(bytes, start, &text[..count], &fonts[..count])
}

// Whether a few characters are blanks. All of them are read.
#[inline(always)]
fn are_spaces(text: &[u8]) -> bool
    ensures { result ≡ list_all (λ c. c == 32) text.now }
{
    let mut all = true;
    for c in text {
        all &= *c == b' ';
    }
    all
}

// How many characters there are before the groups of blanks at the end of a long row.
fn len_before_groups(text: &[u8]) -> usize
    ensures same { (fonts : List Font) → length fonts ≡ length text.now → trimmed (cells_in text.now fonts) ≡ trimmed (cells_in (take result text.now) fonts) }
    ensures within { result ≤ length text.now }
{
    let mut len = text.len();
    if len < LONG_ROW {
        return len;
    }
    while len >= BLANK_GROUP && are_spaces(&text[len - BLANK_GROUP..len]) {
        len -= BLANK_GROUP;
    }
    len
}

/// How many characters there are before the blanks at the end of a row, of which it is known whether there is nothing else.
pub(crate) fn shown_len(text: &[u8], is_blank: bool) -> usize
    ensures same { (fonts : List Font) → AreAscii text.now fonts is_blank → trimmed (cells_in text.now fonts) ≡ cells_in (take result text.now) (take result fonts) }
    ensures within { result ≤ length text.now }
{
    if is_blank {
        return 0;
    }
    let mut len = len_before_groups(text);
    while len > 0 && text[len - 1] == b' ' {
        len -= 1;
    }
    len
}
