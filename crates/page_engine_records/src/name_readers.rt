//! A reader of pieces, which keeps the text of a page's section NAME (man(7), `SH`; mdoc(7), `Sh`).

ghost use Rattle.std.specs.Prelude.{◌≡◌, ℕ, List, true, IfOk, chars, refl};
ghost use Rattle.page_core_base.specs.Texts.{characters_of};
ghost use Rattle.page_core_base.specs.laws.Views.{piece_of};
ghost use Rattle.page_core_tables.specs.laws.Views.{printed_view};
ghost use Rattle.page_scopes_words.specs.Words.{plain_printed};
ghost use Rattle.page_engine_records.specs.machine.NameTexts.{has_ended, read, reader_at, taken, with_character, with_characters, with_heading, with_paragraph, with_top_heading, reader-items, reader-messages, reader-notes, reader-well};

use crate::texts::{TEXT, add_byte};
use page_core_base::{BoundedText, Fault, Note, NoteKind, NoteSink, Output, Piece, PieceSink};
use page_core_tables::{Printed, printed_char, printed_glyph};
use std::alloc::{AllocError, Global};

/// Where the pieces to come are to the section NAME.
#[derive(Clone, Copy)]
pub enum Side {
    Before,
    Inside,
    After,
}

/// Reads pieces, and keeps the text of the section NAME.
#[derive(Drop)]
pub struct NameReader {
    pub(crate) side: Side,
    /// Where a row begins, in columns.
    pub(crate) margin: u32,
    pub(crate) text: BoundedText<TEXT>,
    /// A blank is before the next character.
    pub(crate) is_apart: bool,
    /// How much of the text came before the last paragraph.
    pub(crate) before: usize,
}

impl NameReader {
    /// A reader that has read nothing.
    pub(crate) fn new(alloc: Global, side: Side) -> Result<NameReader, AllocError>
        ensures { IfOk result (λ reader. reader ≡ reader_at side) }
    {
        Ok(NameReader {
            side,
            margin: 0,
            text: BoundedText::new(alloc)?,
            is_apart: false,
            before: 0,
        })
    }

    /// Whether the section has ended, so that nothing is read any more.
    pub(crate) fn has_ended(&self) -> bool
        ensures { result ≡ has_ended self.now }
    {
        matches!(self.side, Side::After)
    }

    // Takes a character, if it is one of ASCII.
    fn take_char(&mut self, c: char)
        ensures { self.new ≡ with_character self.old c }
    {
        if !c.is_ascii() {
            return;
        }
        if self.is_apart && !self.text.bytes().is_empty() {
            add_byte(&mut self.text, b' ');
        }
        add_byte(&mut self.text, c as u8);
        self.is_apart = false;
    }

    // Whether no character changes what is kept: the text has all bytes that it may have, and no blank waits.
    fn is_full(&self) -> bool
        ensures { result ≡ true → (cs : List ℕ) → with_characters self.now cs ≡ self.now }
    {
        if self.is_apart {
            return false;
        }
        self.text.bytes().len() == TEXT
    }

    // Takes the characters of a spelling.
    fn take_spelling(&mut self, spelling: &str)
        ensures { self.new ≡ with_characters self.old spelling.now }
    {
        for byte in spelling.as_bytes() {
            self.take_char(*byte as char);
        }
    }

    // Takes what a character or a glyph prints.
    fn take_printed(&mut self, printed: Printed<'_>)
        ensures { self.new ≡ with_characters self.old (printed_view printed.entry).characters }
    {
        match printed {
            Printed::Char(c) => self.take_char(c),
            Printed::Spelling(spelling) => self.take_spelling(spelling),
            Printed::NoSpelling(_) | Printed::NoGlyph(_) => self.take_spelling("<?>"),
        }
    }

    // Takes what the characters of a text print, as long as there is room for more.
    fn take_text(&mut self, text: &str)
        ensures { self.new ≡ with_characters self.old (plain_printed Output.Ascii (chars text.now)) }
    {
        for c in text.chars() {
            if self.is_full() {
                return;
            }
            self.take_printed(printed_char(Output::Ascii, c));
        }
    }

    // Takes what the characters of bytes print; bytes that are not UTF-8 have none.
    fn take_bytes(&mut self, bytes: &[u8])
        ensures { self.new ≡ with_characters self.old (plain_printed Output.Ascii (characters_of bytes.now)) }
    {
        if self.is_full() {
            return;
        }
        if let Ok(text) = str::from_utf8(bytes) {
            self.take_text(text);
        }
    }

    // Takes the front of a paragraph.
    fn take_paragraph(&mut self)
        ensures { self.new ≡ with_paragraph self.old.side self.old }
    {
        match self.side {
            Side::Before => {
                self.text.truncate(0);
                self.is_apart = false;
            }
            Side::Inside => {
                self.is_apart = true;
                self.before = self.text.bytes().len();
            }
            Side::After => {}
        }
    }

    // Takes the end of a heading at the page's left edge.
    fn take_top_heading(&mut self)
        ensures { self.new ≡ with_top_heading self.old.side self.old }
    {
        match self.side {
            Side::Before => {
                if self.text.bytes() == b"NAME".as_slice() {
                    self.side = Side::Inside;
                    self.text.truncate(0);
                    self.is_apart = false;
                    self.before = 0;
                }
            }
            Side::Inside => {
                self.text.truncate(self.before);
                self.side = Side::After;
            }
            Side::After => {}
        }
    }

    // Takes the end of a heading.
    fn take_heading(&mut self)
        ensures { self.new ≡ with_heading self.old }
    {
        if self.margin == 0 {
            self.take_top_heading();
        } else {
            self.is_apart = true;
        }
    }

    // Takes a piece.
    fn take(&mut self, piece: Piece<&[u8]>)
        ensures { self.new ≡ taken self.old (piece_of piece.entry) }
    {
        match piece {
            Piece::Text { text, .. } => self.take_bytes(text),
            Piece::Glyph { name, .. } => self.take_printed(printed_glyph(Output::Ascii, name)),
            Piece::Char { c, .. } => self.take_printed(printed_char(Output::Ascii, c)),
            Piece::Tab { .. } => self.take_char(' '),
            Piece::Glue => self.is_apart = false,
            Piece::Para(_) => self.take_paragraph(),
            Piece::Heading => self.take_heading(),
            Piece::Indent { first, .. } => self.margin = first,
            Piece::Split | Piece::Literal(_) | Piece::Tag { .. } => {}
            Piece::Blank { .. }
            | Piece::Break
            | Piece::RowEnd
            | Piece::Space(_)
            | Piece::TagEnd
            | Piece::Column(_) => self.is_apart = true,
        }
    }
}

impl NoteSink for NameReader {
    // Messages are no text.
    ghost gave = { λ s xs t. t ≡ s };

    ghost within = { λ s xs t. t ≡ s };

    ghost failed = { λ _. 0 };

    ghost Loans = { Unit {0} };

    ghost loans = { λ _. tt };

    ghost is_out = { λ _. Unit {0} };

    ghost laws = { reader-notes };

    ghost whole = { λ s t xs same. same };

    fn note(&mut self, _note: &Note) -> Result<(), Fault> {
        Ok(())
    }

    fn takes(&self, _kind: NoteKind) -> bool {
        false
    }

    fn put_out(&mut self) -> Result<(), Fault> {
        Ok(())
    }
}

impl PieceSink for NameReader {
    ghost took = { λ s xs t. t ≡ read s xs };

    ghost broke = { λ s fault xs t. ⊥ };

    ghost row_failed = { λ _. 0 };

    ghost items = { reader-items };

    ghost messages = { reader-messages };

    ghost message_fault = { λ s t xs same rose. reader-well rose };

    ghost quiet = { λ s t xs took. (refl, refl) };

    ghost causes = { λ s t fault xs broke. absurd broke };

    #[tactic(auto, unfolding(crate::specs::machine::NameTexts::read, crate::specs::machine::NameTexts::read_piece))]
    fn piece(&mut self, piece: Piece<&[u8]>) -> Result<(), Fault> {
        if !self.has_ended() {
            self.take(piece);
        }
        Ok(())
    }
}
