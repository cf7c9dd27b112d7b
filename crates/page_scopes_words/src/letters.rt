//! Letters that were read, each in its font.

ghost use Rattle.std.specs.Prelude.{◌≡◌, ◌≤◌, ◌<◌, ◌+◌, false, true, [], ◌∷◌, ◌++◌, length, take, replicate};
ghost use Rattle.page_core_base.specs.laws.Views.{Came, is_printable_ascii};
ghost use Rattle.page_core_base.specs.declared.cells.Font.TheVariants.{R};
ghost use Rattle.page_scopes_words.specs.machine.Letters.{GivesLetters, letters_in, put_at};

use crate::letter_fonts::{ROOM, equal_fonts};
use page_core_base::{Font, PieceOut};
use std::marker::Model;

/// Letters that were read, each in its font, at most [`ROOM`].
#[derive(Drop)]
pub struct Letters {
    text: [u8; 256],
    fonts: [Font; 256],
    // How many there are, which are printable ASCII: what is after them means nothing.
    len: usize,
}

impl Model for Letters {
    ghost use Rattle.std.specs.Prelude.{◌≡◌, ◌≤◌, true, List, length, take};
    ghost use Rattle.page_core_base.specs.laws.Views.{cells_in, is_printable_ascii};
    ghost use Rattle.page_core_base.specs.declared.cells.Cell.{Cell};

    ghost Value = { List Cell };

    ghost view = { λ l. take l.len (cells_in l.text l.fonts) };

    ghost invariant = { λ l. (l.len ≤ 256) × (length l.text ≡ 256) × (length l.fonts ≡ 256) × (is_printable_ascii (take l.len l.text) ≡ true) };
}

// How many fonts, or letters, are put at a time, where there is room for them.
const GROUP: usize = 16;

// Puts a count of one font at a start and after it.
#[inline(always)]
fn fill_fonts(fonts: &mut [Font], start: usize, font: Font, count: usize)
    requires { start + count ≤ length fonts.old }
    ensures { fonts.new ≡ put_at fonts.old start (replicate count font) }
{
    fonts[start..start + count].fill(font);
}

// `fill_fonts`, or more of it, where there is room. Few are put as a whole group, for which the compiler needs no loop: those after the count mean
// nothing.
#[inline(always)]
fn put_fonts(fonts: &mut [Font], start: usize, font: Font, count: usize)
    requires { start + count ≤ length fonts.old }
    ensures front { take (start + count) fonts.new ≡ take start fonts.old ++ replicate count font }
    ensures len { length fonts.new ≡ length fonts.old }
{
    if count <= GROUP && start + GROUP <= fonts.len() {
        fill_fonts(fonts, start, font, GROUP);
    } else {
        fill_fonts(fonts, start, font, count);
    }
}

// Puts bytes at a start and after it, all in one font; what is after them means nothing.
#[inline(always)]
fn put_letters(text: &mut [u8], fonts: &mut [Font], start: usize, font: Font, bytes: &[u8])
    requires { (start + length bytes.now ≤ length text.old) × (length fonts.old ≡ length text.old) }
    ensures text { text.new ≡ put_at text.old start bytes.now }
    ensures fonts { take (start + length bytes.now) fonts.new ≡ take start fonts.old ++ replicate (length bytes.now) font }
    ensures len { length fonts.new ≡ length fonts.old }
{
    let end = start + bytes.len();
    text[start..end].copy_from_slice(bytes);
    put_fonts(fonts, start, font, bytes.len());
}

impl Letters {
    /// No letters.
    #[inline(always)]
    pub fn new() -> Letters
        ensures { result ≡ [] }
    {
        Letters {
            text: [0; 256],
            fonts: [Font::R; 256],
            len: 0,
        }
    }

    /// How many there are.
    #[inline(always)]
    pub fn len(&self) -> usize
        ensures value { result ≡ length self.now }
        ensures bound { result ≤ ROOM }
    {
        self.len
    }

    /// Takes all but the first letters away.
    #[inline(always)]
    pub fn cut(&mut self, len: usize)
        requires { len ≤ length self.old }
        ensures { self.new ≡ take len self.old }
    {
        self.len = len;
    }

    /// Adds letters in one font, if there is room: whether there is.
    #[inline(always)]
    pub fn add(&mut self, font: Font, bytes: &[u8]) -> bool
        requires { is_printable_ascii bytes.now ≡ true }
        ensures added { result ≡ true → self.new ≡ self.old ++ letters_in font bytes.now }
        ensures kept { result ≡ false → self.new ≡ self.old }
    {
        let end = self.len + bytes.len();
        if end > ROOM {
            return false;
        }
        put_letters(&mut self.text, &mut self.fonts, self.len, font, bytes);
        self.len = end;
        true
    }

    /// Gives them as words, each with a blank before it, the first one after a count of blanks instead: whether these were taken.
    #[inline(always)]
    pub fn give<O: PieceOut>(&self, out: &mut O, blanks: u32) -> bool
        ensures { GivesLetters blanks self.now result (Came O.left) out.old out.new }
    {
        if self.len == 0 {
            return false;
        }
        out.give_words(blanks, &self.text[1..self.len], &self.fonts[1..self.len])
    }
}

/// Gives letters in one font as words, the first one after a count of blanks: whether these were taken.
#[inline(always)]
pub fn give_after_blanks<O: PieceOut>(out: &mut O, blanks: u32, font: Font, text: &[u8]) -> bool
    requires room { length text.now ≤ ROOM }
    requires ascii { is_printable_ascii text.now ≡ true }
    ensures { GivesLetters blanks (record { c = 32; font = R } ∷ letters_in font text.now) result (Came O.left) out.old out.new }
{
    out.give_words(blanks, text, equal_fonts(font, text.len()))
}
