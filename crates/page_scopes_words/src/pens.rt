//! What is known between two tokens of a text (roff(7), `\f` and `\c`).

ghost use Rattle.std.specs.Prelude.{◌≡◌, ◌<◌, ◌+◌, ◌^◌, [], ◌∷◌, length};
ghost use Rattle.page_core_escapes.specs.Tokens.{plain, token_bytes};
ghost use Rattle.page_core_escapes.specs.laws.Views.{token_view};
ghost use Rattle.page_scopes_words.specs.Words.{body_after, gap_after, has_gap_cells, indented_pen, pen_after, white_after, word_begun, word_ended};
ghost use Rattle.page_scopes_words.specs.machine.Letters.{resting};

use crate::fonts::{Fonts, fonts_after};
use crate::settings::Setting;
use crate::tokens::{is_glue, token_prints};
use page_core_escapes::Token;

/// How a text is read.
#[derive(Clone, Copy)]
pub struct TextStyle {
    /// A pair of quotes is one quote.
    pub is_quoted: bool,
    /// Blanks and tabs are kept.
    pub is_literal: bool,
    /// The text is a whole line.
    pub is_line: bool,
}

/// What is known between two tokens of a text.
#[derive(Clone, Copy)]
pub struct Pen {
    pub fonts: Setting<Fonts>,
    /// The column of the next byte.
    pub column: u32,
    /// The count of blanks before the next word.
    pub gap: u32,
    /// There is a word before, since the line's last break.
    pub is_after_word: bool,
    /// A cell was given.
    pub has_cell: bool,
    /// The text so far ends in `\c`.
    pub is_cut: bool,
    /// The text so far ends in a blank or a tab.
    pub ends_blank: bool,
    /// A row may end after a hyphen between two letters of a word.
    pub splits: bool,
}

impl Pen {
    /// Goes on after a token of a word.
    #[inline(always)]
    pub fn pass(&mut self, token: &Token<'_>)
        requires { self.old.column + length (token_bytes (token_view token.now)) < 2 ^ 32 }
        ensures { self.new ≡ pen_after self.old (token_view token.now) }
    {
        self.fonts = fonts_after(token, self.fonts);
        self.column += token.len() as u32;
        self.has_cell = self.has_cell || token_prints(token);
        self.is_cut = is_glue(token);
    }

    /// A word begins, without a cell.
    pub fn begin_word(&mut self)
        ensures { self.new ≡ word_begun self.old }
    {
        self.has_cell = false;
        self.is_cut = false;
    }

    /// A word ends, with a blank after it.
    pub fn end_word(&mut self, before: &Pen)
        ensures { self.new ≡ word_ended before.now self.old }
    {
        self.gap = 1;
        self.is_after_word = true;
        self.has_cell = before.has_cell || self.has_cell;
        self.ends_blank = false;
    }

    /// Whether the blanks before the next word are cells.
    pub fn has_gap_cells(&self, style: TextStyle) -> bool
        ensures { result ≡ has_gap_cells style self.now }
    {
        style.is_literal && (self.is_after_word && self.gap > 0)
    }

    /// Goes on after the blanks before a word.
    pub fn pass_gap(&mut self, style: TextStyle)
        ensures { self.new ≡ gap_after style self.old }
    {
        self.has_cell = self.has_cell || self.has_gap_cells(style);
    }

    /// Goes on after a word that prints itself.
    #[inline(always)]
    pub fn pass_plain(&mut self, word: &[u8])
        requires { self.old.column + length word.now < 2 ^ 32 }
        ensures { self.new ≡ body_after self.old (plain word.now ∷ []) }
    {
        self.column += word.len() as u32;
        self.gap = 1;
        self.is_after_word = true;
        self.has_cell = true;
        self.is_cut = false;
        self.ends_blank = false;
    }

    /// Goes on after words of so many bytes, which leave these fonts.
    #[inline(always)]
    pub fn rest_after(&mut self, fonts: Setting<Fonts>, len: u32)
        requires { self.old.column + len < 2 ^ 32 }
        ensures { self.new ≡ resting fonts (self.old.column + len) }
    {
        *self = Pen {
            fonts,
            column: self.column + len,
            gap: 1,
            is_after_word: true,
            has_cell: true,
            is_cut: false,
            ends_blank: false,
            splits: true,
        };
    }

    /// Goes on after white space.
    #[inline(always)]
    pub fn pass_white(&mut self, style: TextStyle, white: &[u8])
        requires { self.old.column + length white.now < 2 ^ 32 }
        ensures { self.new ≡ white_after style self.old white.now }
    {
        self.column += white.len() as u32;
        self.gap = if style.is_literal { 0 } else { self.gap.max(1) };
        self.has_cell = self.has_cell || style.is_literal;
        self.is_cut = false;
        self.ends_blank = true;
    }

    /// Goes on after the white space at a text line's front, which is cells of its first word.
    pub fn indent(&mut self, white: &[u8])
        requires { self.old.column + length white.now < 2 ^ 32 }
        ensures { self.new ≡ indented_pen self.old white.now }
    {
        self.column += white.len() as u32;
        self.has_cell = true;
    }
}
