//! Places of a row in which there are printable characters of ASCII alone, each with its font.

ghost use Rattle.std.specs.Prelude.{◌≡◌, ◌+◌, ◌-◌, ◌*◌, ◌<◌, ◌≤◌, [], ◌∷◌, length, take, drop, set, replicate, IfOk, true, vec_capacity};
ghost use Rattle.page_core_base.specs.laws.Views.{CameRows, cells_in};
ghost use Rattle.page_core_base.specs.laws.Views as cells_laws;
ghost use Rattle.page_core_base.specs.Rows.{is_blank_row, row_of};
ghost use Rattle.page_fill_cells.specs.Cells as cells;
ghost use Rattle.page_fill_cells.specs.machine.BlankRuns.{put_at};

use crate::blank_runs::is_blank_text;
use crate::cell_places::{move_to_front, put_cells_in};
use page_core_base::{CELLS, Cell, Font, RowOut};
use std::alloc::{AllocError, Global};
use std::marker::Model;

/// Places of printable characters of ASCII, [`CELLS`] of them: their bytes and their fonts are apart, so that a text is copied as it is.
#[derive(Drop)]
pub(crate) struct AsciiPlaces {
    bytes: Vec<u8>,
    fonts: Vec<Font>,
}

impl Model for AsciiPlaces {
    ghost use Rattle.std.specs.Prelude.{◌≡◌, List, length, true};
    ghost use Rattle.page_core_base.specs.laws.Views.{cells_in, is_printable_ascii};
    ghost use Rattle.page_core_base.specs.declared.cells.Cell.{Cell};
    ghost use Rattle.page_core_base.specs.declared.limits.TheConstants.{CELLS};

    ghost Value = { List Cell };

    ghost view = { λ p. cells_in p.bytes.items p.fonts.items };

    ghost invariant = { λ p. (length p.bytes.items ≡ CELLS) × (length p.fonts.items ≡ CELLS) × (is_printable_ascii p.bytes.items ≡ true) };
}

// Puts bytes at a start and after it, all in one font.
fn put_text(bytes: &mut [u8], fonts: &mut [Font], start: usize, text: &[u8], font: Font)
    requires { (start + length text.now ≤ length bytes.old) × (length fonts.old ≡ length bytes.old) }
    ensures bytes { bytes.new ≡ put_at bytes.old start text.now }
    ensures fonts { fonts.new ≡ put_at fonts.old start (replicate (length text.now) font) }
{
    let end = start + text.len();
    bytes[start..end].copy_from_slice(text);
    fonts[start..end].fill(font);
}

// Puts letters at a start and after it, each in the font beside it.
fn put_letters(bytes: &mut [u8], fonts: &mut [Font], start: usize, letters: &[u8], own: &[Font])
    requires within { (start + length letters.now ≤ length bytes.old) × (length fonts.old ≡ length bytes.old) }
    requires own { length own.now ≡ length letters.now }
    ensures bytes { bytes.new ≡ put_at bytes.old start letters.now }
    ensures fonts { fonts.new ≡ put_at fonts.old start own.now }
{
    let end = start + letters.len();
    bytes[start..end].copy_from_slice(letters);
    fonts[start..end].copy_from_slice(own);
}

// Puts a count of blanks at a start and after it, all in one font.
fn put_blanks(bytes: &mut [u8], fonts: &mut [Font], start: usize, count: usize, font: Font)
    requires { (start + count ≤ length bytes.old) × (length fonts.old ≡ length bytes.old) }
    ensures bytes { bytes.new ≡ put_at bytes.old start (replicate count 32) }
    ensures fonts { fonts.new ≡ put_at fonts.old start (replicate count font) }
{
    let end = start + count;
    bytes[start..end].fill(b' ');
    fonts[start..end].fill(font);
}

// Puts a byte in its font at a place.
fn put_byte(bytes: &mut [u8], fonts: &mut [Font], place: usize, byte: u8, font: Font)
    requires { (place < length bytes.old) × (length fonts.old ≡ length bytes.old) }
    ensures bytes { bytes.new ≡ set bytes.old place byte }
    ensures fonts { fonts.new ≡ set fonts.old place font }
{
    bytes[place] = byte;
    fonts[place] = font;
}

impl AsciiPlaces {
    /// Places of blanks.
    pub(crate) fn new(alloc: Global) -> Result<AsciiPlaces, AllocError>
        ensures { IfOk result (λ p. length p ≡ CELLS) }
    {
        let mut bytes = Vec::with_capacity(alloc, CELLS)?;
        bytes.resize(CELLS, b' ')?;
        let mut fonts = Vec::with_capacity(alloc, CELLS)?;
        fonts.resize(CELLS, Font::R)?;
        Ok(AsciiPlaces { bytes, fonts })
    }

    /// The same places.
    pub(crate) fn copy(&self, alloc: Global) -> Result<AsciiPlaces, AllocError>
        ensures { IfOk result (λ p. p ≡ self.now) }
    {
        Ok(AsciiPlaces {
            bytes: Vec::from_slice(alloc, &self.bytes)?,
            fonts: Vec::from_slice(alloc, &self.fonts)?,
        })
    }

    /// Puts a character in its font at a place.
    pub(crate) fn put(&mut self, place: usize, byte: u8, font: Font)
        requires { (place < length self.old) × (cells_laws.is_printable byte ≡ true) }
        ensures value { self.new ≡ set self.old place (cells.cell_of font byte) }
        ensures len { length self.new ≡ length self.old }
    {
        put_byte(&mut self.bytes, &mut self.fonts, place, byte, font);
    }

    /// Puts a text in a font at a start and after it.
    pub(crate) fn put_text(&mut self, start: usize, text: &[u8], font: Font)
        requires plain { cells_laws.is_printable_ascii text.now ≡ true }
        requires room { start + length text.now ≤ length self.old }
        ensures value { self.new ≡ put_at self.old start (cells.cells_of font text.now) }
        ensures len { length self.new ≡ length self.old }
    {
        put_text(&mut self.bytes, &mut self.fonts, start, text, font);
    }

    /// Puts letters at a start and after it, each in the font beside it.
    pub(crate) fn put_letters(&mut self, start: usize, letters: &[u8], fonts: &[Font])
        requires plain { cells_laws.is_printable_ascii letters.now ≡ true }
        requires fonts { length fonts.now ≡ length letters.now }
        requires room { start + length letters.now ≤ length self.old }
        ensures value { self.new ≡ put_at self.old start (cells_in letters.now fonts.now) }
        ensures len { length self.new ≡ length self.old }
    {
        put_letters(&mut self.bytes, &mut self.fonts, start, letters, fonts);
    }

    /// Puts a count of blanks in a font at a start and after it.
    pub(crate) fn put_blanks(&mut self, start: usize, count: usize, font: Font)
        requires { start + count ≤ length self.old }
        ensures value { self.new ≡ put_at self.old start (replicate count (cells.cell_of font 32)) }
        ensures len { length self.new ≡ length self.old }
    {
        put_blanks(&mut self.bytes, &mut self.fonts, start, count, font);
    }

    /// What is from a start up to an end comes to the front.
    pub(crate) fn move_to_front(&mut self, start: usize, end: usize)
        requires { (start ≤ end) × (end ≤ length self.old) }
        ensures value { self.new ≡ put_at self.old 0 (take (end - start) (drop start self.old)) }
        ensures len { length self.new ≡ length self.old }
    {
        move_to_front(&mut self.bytes, start, end);
        move_to_front(&mut self.fonts, start, end);
    }

    /// Whether none of the first characters prints anything.
    pub(crate) fn is_blank(&self, end: usize) -> bool
        requires { end ≤ length self.now }
        ensures { result ≡ is_blank_row (row_of 0 (take end self.now)) }
    {
        is_blank_text(&self.bytes[..end])
    }

    /// The columns of the first characters: one each.
    pub(crate) fn columns(&self, end: usize) -> u32
        requires { end ≤ length self.now }
        ensures value { result ≡ cells.columns (take end self.now) }
        ensures bound { result ≤ 3 * end }
    {
        // (what these places have decides it)
        let _ = &self.bytes;
        end as u32
    }

    /// Puts the cells of the first characters in the first of other places.
    pub(crate) fn copy_cells(&self, end: usize, places: &mut [Cell])
        requires { (end ≤ length self.now) × (end ≤ length places.old) }
        ensures { take end places.new ≡ take end self.now }
    {
        put_cells_in(places, 0, &self.bytes[..end], &self.fonts[..end]);
    }

    /// Gives the first characters as a row, of blanks alone or not, with room for its cells.
    pub(crate) fn give<O: RowOut>(
        &self,
        end: usize,
        margin: u32,
        is_blank: bool,
        room: &mut Vec<Cell>,
        out: &mut O,
    )
        requires within { end ≤ length self.now }
        requires blank { is_blank ≡ true → is_blank_row (row_of margin (take end self.now)) ≡ true }
        requires room { CELLS ≤ vec_capacity room.old }
        ensures gives { CameRows O.left out.old (row_of margin (take end self.now) ∷ []) [] out.new }
        ensures room { vec_capacity room.new ≡ vec_capacity room.old }
    {
        out.give_ascii(
            margin,
            &self.bytes[..end],
            &self.fonts[..end],
            is_blank,
            room,
        );
    }
}
