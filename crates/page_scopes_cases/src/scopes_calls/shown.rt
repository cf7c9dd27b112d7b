//! Pieces and messages as text: those of a line, each after a blank. `<` is a word's text with a letter for its font, `_` blanks, and `!` a
//! message with its column and detail.

use page_core_base::{Font, Note, Piece};
use page_test_streams::{Notation, ShownBy, shown};
use std::alloc::Global;

/// The notation of a line.
#[derive(Drop)]
pub(crate) struct LineText {
    text: String,
    alloc: Global,
}

/// Shows what it is given in a line.
pub(crate) type Shown = ShownBy<LineText>;

/// Nothing was given yet.
pub(crate) fn nothing(alloc: Global) -> Shown {
    ShownBy {
        notation: LineText {
            text: String::new(alloc),
            alloc,
        },
    }
}

impl LineText {
    /// The text.
    pub(crate) fn text(&self) -> &str {
        self.text.as_str()
    }

    // Adds a text.
    fn add(&mut self, text: &str) {
        let _ = self.text.push_str(text);
    }

    // Adds a number, and a mark in front of it.
    fn add_number(&mut self, mark: &str, number: u32) {
        if let Ok(text) = format!(in self.alloc; "{mark}{number}") {
            self.add(text.as_str());
        }
    }

    // Adds a word's part, with its font.
    fn add_part(&mut self, text: &str, font: Font) {
        self.add(" <");
        self.add(text);
        self.add(font_mark(font));
    }

    // Adds a character of a word, with its font.
    fn add_char(&mut self, c: char, font: Font) {
        self.add(" <");
        let _ = self.text.push(c);
        self.add(font_mark(font));
    }
}

// The mark of a font.
fn font_mark(font: Font) -> &'static str {
    match font {
        Font::R => "",
        Font::I => "/I",
        Font::B => "/B",
        Font::BI => "/BI",
    }
}

// The name of a piece without a number.
fn piece_name(piece: &Piece<&[u8]>) -> &'static str {
    match piece {
        Piece::Glue => " Glue",
        Piece::Split => " Split",
        Piece::Break => " Break",
        Piece::RowEnd => " RowEnd",
        Piece::Literal(true) => " Literal",
        Piece::Literal(false) => " Filled",
        Piece::TagEnd => " TagEnd",
        Piece::Heading => " Heading",
        _ => " ?",
    }
}

impl Notation for LineText {
    fn show_piece(&mut self, piece: Piece<&[u8]>) {
        match piece {
            Piece::Text { text, font, .. } => self.add_part(shown(text), font),
            Piece::Glyph { name, font, .. } => {
                self.add(" glyph");
                self.add_part(shown(name), font);
            }
            Piece::Char { c, font, .. } => self.add_char(c, font),
            Piece::Tab { font, .. } => self.add_part("tab", font),
            Piece::Blank { count, .. } => self.add_number(" _", count),
            Piece::Para(count) => self.add_number(" Para ", count),
            Piece::Space(count) => self.add_number(" Space ", count),
            Piece::Indent { first, rest } => {
                self.add_number(" Indent ", first);
                self.add_number(",", rest);
            }
            Piece::Tag { hang, .. } => self.add_number(" Tag ", hang),
            Piece::Column(column) => self.add_number(" Column ", column),
            _ => self.add(piece_name(&piece)),
        }
    }

    fn show_message(&mut self, note: &Note) {
        self.add(" !");
        self.add(note.kind.text());
        self.add_number(" at ", note.column);
        if !note.detail.as_str().is_empty() {
            self.add(": ");
            self.add(note.detail.as_str());
        }
    }
}
