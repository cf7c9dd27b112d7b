//! A sink of pieces that keeps the headings of a page.

ghost use Rattle.std.proofs.Common.{refl};

use page_core::{Fault, Note, NoteSink, Output, Piece, PieceSink, Place, Printed, printed_glyph};
use std::alloc::{AllocError, Global};
use std::mem;

/// A heading: its text, the line where that begins, and its margin, which is 0 for a section.
#[derive(Drop)]
pub(crate) struct Heading {
    pub(crate) text: String,
    pub(crate) line: u32,
    pub(crate) margin: u32,
}

/// The headings so far, and the row that is open: its text, the line where that begins, and its margin.
#[derive(Drop)]
pub(crate) struct Outline {
    alloc: Global,
    pub(crate) headings: Vec<Heading>,
    text: String,
    line: u32,
    margin: u32,
}

impl Outline {
    /// Nothing was given yet.
    pub(crate) fn new(alloc: Global) -> Outline {
        Outline {
            alloc,
            headings: Vec::new(alloc),
            text: String::new(alloc),
            line: 0,
            margin: 0,
        }
    }

    // Takes a piece: the texts of a row, until one ends it. A row that ends as a heading is kept.
    fn take(&mut self, piece: Piece<&[u8]>) -> Result<(), AllocError> {
        match piece {
            Piece::Text { text, place, .. } => {
                self.begin(place);
                self.text
                    .push_str(std::str::from_utf8(text).unwrap_or("?"))?;
            }
            Piece::Char { c, place, .. } => self.put(c, place)?,
            Piece::Glyph { name, place, .. } => self.put(char_of(name), place)?,
            Piece::Blank { .. } if !self.text.is_empty() => self.text.push(' ')?,
            Piece::Indent { first, .. } => self.margin = first,
            Piece::Heading if !self.text.is_empty() => {
                let next = String::new(self.alloc);
                let text = mem::replace(&mut self.text, next);
                let (line, margin) = (self.line, self.margin);
                self.headings.push(Heading { text, line, margin })?;
            }
            Piece::Break | Piece::RowEnd | Piece::Para(_) | Piece::Space(_) => self.text.clear(),
            _ => {}
        }
        Ok(())
    }

    // Adds a character at a place.
    fn put(&mut self, c: char, place: Place) -> Result<(), AllocError> {
        self.begin(place);
        self.text.push(c)
    }

    // The row begins at a place, where it has no text yet.
    fn begin(&mut self, place: Place) {
        if self.text.is_empty() {
            self.line = place.line;
        }
    }
}

// The character of a glyph's name.
fn char_of(name: &[u8]) -> char {
    match printed_glyph(Output::Utf8, name) {
        Printed::Char(c) => c,
        _ => '?',
    }
}

impl NoteSink for Outline {
    ghost gave = { λ _ _ _. Unit {0} };

    ghost within = { λ _ _ _. Unit {0} };

    ghost failed = { λ _. 0 };

    ghost Loans = { Unit {0} };

    ghost loans = { λ _. tt };

    ghost is_out = { λ _. Unit {0} };

    ghost laws = { record {
      none = λ _. tt;
      more = λ _ _ _ _ _ _ _. tt;
      after = λ _ _ _ _ _ _ _. tt;
      before = λ _ _ _ _ _. tt;
    } };

    ghost whole = { λ _ _ _ _. tt };

    fn note(&mut self, _note: &Note) -> Result<(), Fault> {
        Ok(())
    }

    fn put_out(&mut self) -> Result<(), Fault> {
        Ok(())
    }
}

impl PieceSink for Outline {
    ghost use Rattle.page_core_base.specs.laws.Views.{IsPieceFault};

    ghost took = { λ _ _ _. Unit {0} };

    ghost broke = { λ _ fault _ _. IsPieceFault fault 0 0 0 0 };

    ghost row_failed = { λ _. 0 };

    ghost items = { λ _. record {
      none = λ _. tt;
      more = λ _ _ _ _ _ _ _. tt;
      after = λ _ _ _ _ _ _ broke. broke;
      before = λ _ _ _ _ broke. broke;
    } };

    ghost messages = { λ _ _ _ _. tt };

    ghost message_fault = { λ _ _ _ _ rose. rose };

    ghost quiet = { λ _ _ _ _. (refl, refl) };

    ghost causes = { λ _ _ _ _ broke. broke };

    // Where there is no memory, the sink takes no more.
    fn piece(&mut self, piece: Piece<&[u8]>) -> Result<(), Fault> {
        match self.take(piece) {
            Ok(()) => Ok(()),
            Err(_) => Err(Fault::Failed),
        }
    }
}
