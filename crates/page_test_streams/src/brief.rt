//! A short notation of pieces and messages.

use crate::names::{font_mark, kind_name};
use crate::shown_sinks::{Notation, ShownBy};
use page_core_base::{Font, Note, Piece};
use std::alloc::Global;

/// The short notation of what scopes and their words give.
///
/// A text is in brackets, a tab is `T`, each with its font before it unless that is R, a glyph is its name and a
/// character `c`. Blanks are their count, with `t` for a tab. A break is `/`, the end of a kept row `=`, `p1` a paragraph,
/// `s1` blank rows, `{7 11}` margins, `L` and `F` the literal and the fill mode, `<4;` a tag, `>` its end, `H` a heading and
/// `C8` a column. A message is between `!` and `;`, with its place where places are asked for, and its detail.
#[derive(Drop)]
pub struct Brief {
    text: Vec<u8>,
    has_places: bool,
}

impl Brief {
    /// Nothing was given yet.
    pub fn new(alloc: Global, has_places: bool) -> Brief {
        Brief {
            text: Vec::new(alloc),
            has_places,
        }
    }

    /// The text.
    pub fn text(&self) -> &[u8] {
        self.text.as_slice()
    }

    /// Adds to the text.
    pub fn add(&mut self, bytes: &[u8]) {
        let _ = self.text.extend_from_slice(bytes);
    }

    /// Adds a number, of which the last four digits are shown.
    pub fn add_number(&mut self, number: u32) {
        for unit in [1000, 100, 10, 1] {
            if number >= unit || unit == 1 {
                self.add(&[b'0' + (number / unit % 10) as u8]);
            }
        }
    }

    // Adds a name, and a number.
    fn add_with(&mut self, name: &str, number: u32) {
        self.add(name.as_bytes());
        self.add_number(number);
    }

    // Adds a text in a font.
    fn add_text(&mut self, text: &[u8], font: Font) {
        self.add(font_mark(font).as_bytes());
        self.add(b"[");
        self.add(text);
        self.add(b"]");
    }

    // Adds what is shown before a text in a font.
    fn add_in(&mut self, font: Font, name: &[u8]) {
        self.add(font_mark(font).as_bytes());
        self.add(name);
    }

    // Adds margins.
    fn add_margins(&mut self, first: u32, rest: u32) {
        self.add_with("{", first);
        self.add_with(" ", rest);
        self.add(b"}");
    }

    // Adds what is no text and no blank.
    fn add_other(&mut self, piece: Piece<&[u8]>) {
        match piece {
            Piece::Split => self.add(b"|"),
            Piece::Break => self.add(b"/"),
            Piece::RowEnd => self.add(b"="),
            Piece::Para(rows) => self.add_with("p", rows),
            Piece::Space(rows) => self.add_with("s", rows),
            Piece::Indent { first, rest } => self.add_margins(first, rest),
            Piece::Literal(on) => self.add(if on { b"L" } else { b"F" }),
            Piece::Tag { hang, .. } => {
                self.add_with("<", hang);
                self.add(b";");
            }
            Piece::TagEnd => self.add(b">"),
            Piece::Heading => self.add(b"H"),
            Piece::Column(column) => self.add_with("C", column),
            _ => self.add(b"?"),
        }
    }
}

impl Notation for Brief {
    fn show_piece(&mut self, piece: Piece<&[u8]>) {
        match piece {
            Piece::Text { text, font, .. } => self.add_text(text, font),
            Piece::Glyph { name, font, .. } => self.add_in(font, name),
            Piece::Char { font, .. } => self.add_in(font, b"c"),
            Piece::Tab { font, .. } => self.add_in(font, b"T"),
            Piece::Blank { count, has_tab } => {
                self.add_number(count);
                self.add(if has_tab { b"t" } else { b"" });
            }
            _ => self.add_other(piece),
        }
    }

    fn show_message(&mut self, note: &Note) {
        self.add(b"!");
        self.add(kind_name(note.kind).as_bytes());
        if self.has_places {
            self.add_with(" ", note.line);
            self.add_with(":", note.column);
        }
        if !note.detail.is_empty() {
            self.add(b" ");
            self.add(note.detail.as_str().as_bytes());
        }
        self.add(b";");
    }
}

/// Shows what it is given in the short notation.
pub type Shown = ShownBy<Brief>;

impl ShownBy<Brief> {
    /// Nothing was given yet.
    pub fn new(alloc: Global, has_places: bool) -> Shown {
        ShownBy {
            notation: Brief::new(alloc, has_places),
        }
    }

    /// The text.
    pub fn text(&self) -> &[u8] {
        self.notation.text()
    }

    /// Adds to the text.
    pub fn add(&mut self, bytes: &[u8]) {
        self.notation.add(bytes);
    }

    /// Adds a number, of which the last four digits are shown.
    pub fn add_number(&mut self, number: u32) {
        self.notation.add_number(number);
    }
}
