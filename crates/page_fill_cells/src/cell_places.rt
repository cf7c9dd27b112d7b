//! Cells in places that are reserved for good: a loop over the bytes of a text writes its cells and nothing else.

ghost use Rattle.std.specs.Prelude.{◌≡◌, ◌+◌, ◌-◌, ◌≤◌, length, take, drop, replicate};
ghost use Rattle.page_core_base.specs.laws.Views.{cells_in};
ghost use Rattle.page_fill_cells.specs.Cells as cells;
ghost use Rattle.page_fill_cells.specs.machine.BlankRuns.{put_at};

use page_core_base::{Cell, Font};
use std::mem;

/// Puts a cell of each byte at a start and after it.
pub(crate) fn put_cells(places: &mut [Cell], start: usize, bytes: &[u8], font: Font)
    requires { start + length bytes.now ≤ length places.old }
    ensures { places.new ≡ put_at places.old start (cells.cells_of font bytes.now) }
{
    for i in 0..bytes.len() {
        let cell = Cell {
            c: bytes[i] as char,
            font,
        };
        let _place = mem::replace(&mut places[start + i], cell);
    }
}

/// Puts a cell of each byte, in the font beside it, at a start and after it.
pub(crate) fn put_cells_in(places: &mut [Cell], start: usize, bytes: &[u8], fonts: &[Font])
    requires room { start + length bytes.now ≤ length places.old }
    requires fonts { length fonts.now ≡ length bytes.now }
    ensures { places.new ≡ put_at places.old start (cells_in bytes.now fonts.now) }
{
    for i in 0..bytes.len() {
        let cell = Cell {
            c: bytes[i] as char,
            font: fonts[i],
        };
        let _place = mem::replace(&mut places[start + i], cell);
    }
}

/// Puts a count of blanks at a start and after it.
pub(crate) fn put_blanks(places: &mut [Cell], start: usize, count: usize, font: Font)
    requires { start + count ≤ length places.old }
    ensures { places.new ≡ put_at places.old start (replicate count (cells.cell_of font 32)) }
{
    let blank = Cell { c: ' ', font };
    for i in 0..count {
        let _place = mem::replace(&mut places[start + i], blank);
    }
}

/// What is in places from a start up to an end comes to the front.
pub(crate) fn move_to_front<T: Copy>(places: &mut [T], start: usize, end: usize)
    requires { (start ≤ end) × (end ≤ length places.old) }
    ensures { places.new ≡ put_at places.old 0 (take (end - start) (drop start places.old)) }
{
    for i in 0..end - start {
        places[i] = places[start + i];
    }
}
