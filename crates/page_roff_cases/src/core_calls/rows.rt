//! Rows and cells as bytes. A call is a margin, letters for fonts (`B`, `I`, `X` for both, else roman), the last for all that follow, and a text.

use page_core::{Cell, Font, RowSink, TextRows, cell_bytes};
use page_core_base::{are_blank, put_ascii};
use page_test_streams::{are_ascii, font_named, show_rows, shown};
use std::alloc::{AllocError, Global};

// A margin, letters for fonts and a text.
fn parts_of(text: &str) -> (u32, &str, &str) {
    let (margin, text) = text.split_once(' ').unwrap_or((text, ""));
    let (letters, text) = text.split_once(' ').unwrap_or((text, ""));
    (margin.parse().unwrap_or(0), letters, text)
}

/// Shows the cell of each character of a text.
pub(crate) fn show_cells(rt: &HostRuntime, text: &str) {
    let (letter, text) = text.split_once(' ').unwrap_or((text, ""));
    let font = font_named(letter.as_bytes().first().copied());
    let _ = print!(rt; " -> ");
    for c in text.chars() {
        let bytes = cell_bytes(Cell { c, font });
        let _ = print!(rt; "{}|", shown(bytes.as_slice()));
    }
}

/// Shows a row whose cells are in one font.
pub(crate) fn show_row(rt: &HostRuntime, text: &str) {
    let (margin, letters, text) = parts_of(text);
    let font = font_named(letters.as_bytes().first().copied());
    let mut cells = Vec::new(rt.alloc());
    for c in text.chars() {
        let _ = cells.push(Cell { c, font });
    }
    let mut out = Vec::new(rt.alloc());
    let mut rows = TextRows::new(&mut out);
    let _ = rows.row(margin, cells.as_slice());
    drop(rows);
    show_rows(rt, shown(out.as_slice()));
}

/// Shows a row that is given as its characters and fonts; and whether it is another one where it is said of a row of blanks that it is one.
pub(crate) fn show_ascii_row(rt: &HostRuntime, text: &str) {
    let (margin, letters, text) = parts_of(text);
    let alloc = rt.alloc();
    let Ok(fonts) = fonts_of(alloc, letters.as_bytes(), text.len()) else {
        return;
    };
    let row = ascii_row(alloc, margin, text.as_bytes(), fonts.as_slice(), false);
    let known = ascii_row(alloc, margin, text.as_bytes(), fonts.as_slice(), true);
    if let (Ok(row), Ok(known)) = (row, known) {
        show_rows(rt, shown(row.as_slice()));
        if row.as_slice() != known.as_slice() {
            let _ = print!(rt; " another");
        }
    }
}

// The fonts of letters, so many, of which the last is for all that follow.
fn fonts_of(alloc: Global, letters: &[u8], count: usize) -> Result<Vec<Font>, AllocError> {
    let mut fonts = Vec::new(alloc);
    for at in 0..count {
        let letter = letters.get(at).or(letters.last());
        fonts.push(font_named(letter.copied()))?;
    }
    Ok(fonts)
}

// The bytes of a row of ASCII. Where it is known, it is said of a row of blanks that it is one.
fn ascii_row(
    alloc: Global,
    margin: u32,
    text: &[u8],
    fonts: &[Font],
    is_known: bool,
) -> Result<Vec<u8>, AllocError> {
    let mut out = Vec::new(alloc);
    if !are_ascii(text) || fonts.len() != text.len() {
        return Ok(out);
    }
    let mut places = Vec::with_capacity(alloc, text.len())?;
    put_ascii(&mut places, text, fonts);
    let is_blank = is_known && are_blank(places.as_slice());
    let mut rows = TextRows::new(&mut out);
    let _ = rows.ascii_row(margin, text, fonts, is_blank, &mut places);
    drop(rows);
    Ok(out)
}
