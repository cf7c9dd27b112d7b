//! The bytes of cells (mandoc(1), "ASCII Output").

ghost use Rattle.std.specs.Prelude.{◌≡◌, ◌+◌, ◌*◌, ◌<◌, ◌≤◌, [], ◌∷◌, ◌++◌, length, take, true, encode_utf8};
ghost use Rattle.std.specs.List.{flat_map, list_all};
ghost use Rattle.page_core_base.specs.Rows.{trimmed};
ghost use Rattle.page_core_streams.specs.machine.PlainCells.{is_plain, is_roman};
ghost use Rattle.page_core_streams.specs.Streams.{cell_bytes_of};

use arrayvec::ArrayVec;
use page_core_base::{BLANK_GROUP, Cell, Font, LONG_ROW, are_blank};

// The bytes of a cell at most.
const CELL_BYTES: usize = 16;

// What is between a character and its mark.
const BACKSPACE: u8 = 8;

/// The bytes that a cell is printed as: a bold character over itself, an italic one over an underscore; a blank is never marked (mandoc(1), "ASCII Output").
pub fn cell_bytes(cell: Cell) -> ArrayVec<u8, 16>
    ensures { result.items ≡ cell_bytes_of cell }
{
    let mut places = [0u8; CELL_BYTES];
    let end = write_cells(&mut places, 0, &[cell]);
    let mut bytes = ArrayVec::new();
    let _fits = bytes.try_extend_from_slice(&places[..end]);
    bytes
}

// A number that is 0 for roman alone.
#[inline(always)]
pub(crate) fn font_bits(font: Font) -> u8
    ensures zero { result ≡ 0 → is_roman font ≡ true }
    ensures roman { is_roman font ≡ true → result ≡ 0 }
{
    font as u8
}

// Whether each cell is printed as one byte.
#[inline(always)]
fn are_plain(cells: &[Cell]) -> bool
    ensures { result ≡ list_all is_plain cells.now }
{
    // All characters and all fonts are joined bit by bit: two tests at the end cost less than two at each cell.
    let mut characters = 0u32;
    let mut fonts = 0u8;
    for cell in cells {
        characters |= cell.c as u32;
        fonts |= font_bits(cell.font);
    }
    fonts == 0 && characters < 128
}

// The byte that a plain cell is printed as.
#[inline(always)]
fn plain_byte(cell: Cell) -> u8
    requires { is_plain cell ≡ true }
    ensures { cell_bytes_of cell ≡ result ∷ [] }
{
    cell.c as u8
}

// Writes plain cells from `start` on, and answers where they end.
#[inline(always)]
fn write_plain(bytes: &mut [u8], start: usize, cells: &[Cell]) -> usize
    requires plain { list_all is_plain cells.now ≡ true }
    requires room { start + length cells.now ≤ length bytes.old }
    ensures front { take result bytes.new ≡ take start bytes.old ++ flat_map cell_bytes_of cells.now }
    ensures end { result ≡ start + length cells.now }
{
    let mut end = start;
    for cell in cells {
        bytes[end] = plain_byte(*cell);
        end += 1;
    }
    end
}

/// Writes the bytes of a few cells from `start` on, and answers where they end: quickly where all of them are plain.
#[inline(always)]
pub(crate) fn write_group(bytes: &mut [u8], start: usize, cells: &[Cell]) -> usize
    requires { start + 16 * length cells.now ≤ length bytes.old }
    ensures front { take result bytes.new ≡ take start bytes.old ++ flat_map cell_bytes_of cells.now }
    ensures end { result ≤ start + 16 * length cells.now }
{
    if are_plain(cells) {
        return write_plain(bytes, start, cells);
    }
    write_cells(bytes, start, cells)
}

/// Writes the bytes of a group of cells from `start` on, and answers where they end: quickly where all of them are plain, or those of a half.
#[inline(always)]
pub(crate) fn write_mixed(bytes: &mut [u8], start: usize, cells: &[Cell]) -> usize
    requires { start + 16 * length cells.now ≤ length bytes.old }
    ensures front { take result bytes.new ≡ take start bytes.old ++ flat_map cell_bytes_of cells.now }
    ensures end { result ≤ start + 16 * length cells.now }
{
    if are_plain(cells) {
        return write_plain(bytes, start, cells);
    }
    let (front, back) = cells.split_at(cells.len() / 2);
    let middle = write_group(bytes, start, front);
    write_group(bytes, middle, back)
}

/// Writes the bytes of cells from `start` on, and answers where they end.
#[inline(always)]
pub(crate) fn write_cells(bytes: &mut [u8], start: usize, cells: &[Cell]) -> usize
    requires { start + 16 * length cells.now ≤ length bytes.old }
    ensures front { take result bytes.new ≡ take start bytes.old ++ flat_map cell_bytes_of cells.now }
    ensures end { result ≤ start + 16 * length cells.now }
{
    let mut end = start;
    for cell in cells {
        end = if cell.c.is_ascii() {
            write_ascii(bytes, end, cell.c as u8, cell.font)
        } else {
            write_wide(bytes, end, *cell)
        };
    }
    end
}

/// Writes each byte that a character of ASCII in a font may have, with no branch, and answers where those that it has end. Italic fonts alone have bit 1.
#[inline(always)]
pub(crate) fn write_ascii(bytes: &mut [u8], start: usize, c: u8, font: Font) -> usize
    requires ascii { c < 128 }
    requires room { start + 5 ≤ length bytes.old }
    ensures front { take result bytes.new ≡ take start bytes.old ++ cell_bytes_of (record { c = c; font = font }) }
    ensures end { result ≤ start + 5 }
{
    let font = if c == b' ' { Font::R } else { font };
    bytes[start] = b'_';
    bytes[start + 1] = BACKSPACE;
    let place = start + (font as usize & 2);
    bytes[place] = c;
    bytes[place + 1] = BACKSPACE;
    bytes[place + 2] = c;
    let len = match font {
        Font::R => 1,
        Font::B | Font::I => 3,
        Font::BI => 5,
    };
    start + len
}

// Writes the bytes of a cell that is not of ASCII.
fn write_wide(bytes: &mut [u8], start: usize, cell: Cell) -> usize
    requires wide { 128 ≤ cell.c }
    requires room { start + 16 ≤ length bytes.old }
    ensures front { take result bytes.new ≡ take start bytes.old ++ cell_bytes_of cell }
    ensures end { result ≤ start + 16 }
{
    match cell.font {
        Font::R => write_char(bytes, start, cell.c),
        Font::B => write_twice(bytes, start, cell.c),
        Font::I => {
            let start = write_low_line(bytes, start);
            write_char(bytes, start, cell.c)
        }
        Font::BI => {
            let start = write_low_line(bytes, start);
            write_twice(bytes, start, cell.c)
        }
    }
}

// Writes an underscore and a backspace.
fn write_low_line(bytes: &mut [u8], start: usize) -> usize
    requires { start + 2 ≤ length bytes.old }
    ensures front { take result bytes.new ≡ take start bytes.old ++ 95 ∷ 8 ∷ [] }
    ensures end { result ≡ start + 2 }
{
    bytes[start] = b'_';
    bytes[start + 1] = BACKSPACE;
    start + 2
}

// Writes a character, a backspace and the character again.
fn write_twice(bytes: &mut [u8], start: usize, c: char) -> usize
    requires { start + 9 ≤ length bytes.old }
    ensures front { take result bytes.new ≡ take start bytes.old ++ (encode_utf8 c ++ 8 ∷ encode_utf8 c) }
    ensures end { result ≤ start + 9 }
{
    let middle = write_char(bytes, start, c);
    bytes[middle] = BACKSPACE;
    write_char(bytes, middle + 1, c)
}

// Writes a character of any number of bytes.
#[inline(never)]
fn write_char(bytes: &mut [u8], start: usize, c: char) -> usize
    requires { start + 4 ≤ length bytes.old }
    ensures front { take result bytes.new ≡ take start bytes.old ++ encode_utf8 c }
    ensures end { result ≤ start + 4 }
{
    let mut buffer = [0u8; 4];
    let mut end = start;
    for byte in c.encode_utf8(&mut buffer).as_bytes() {
        bytes[end] = *byte;
        end += 1;
    }
    end
}

// How many cells there are before the groups of blanks at the end of a long row.
fn len_before_groups(cells: &[Cell]) -> usize
    ensures same { trimmed cells.now ≡ trimmed (take result cells.now) }
    ensures within { result ≤ length cells.now }
{
    if cells.len() < LONG_ROW {
        return cells.len();
    }
    let mut len = cells.len();
    while len >= BLANK_GROUP && are_blank(&cells[len - BLANK_GROUP..len]) {
        len -= BLANK_GROUP;
    }
    len
}

/// The cells without the blanks at their end.
pub(crate) fn without_blanks_at_end(cells: &[Cell]) -> &[Cell]
    ensures { result.now ≡ trimmed cells.now }
{
    let mut len = len_before_groups(cells);
    while len > 0 && cells[len - 1].c == ' ' {
        len -= 1;
    }
    &cells[..len]
}
