//! Pieces: what a page's scopes give to be filled, in the order of the page.

ghost use Rattle.std.specs.Prelude.{◌≡◌, ◌≤◌, ℕ, List, true, [], ◌∷◌, length, replicate, MatchResult};
ghost use Rattle.page_core_base.specs.laws.Views.{IsSink, IsPieceFault, FailsByPieces, Emits, all_noted, piece_of, TakesKept, TakesWords, is_printable_ascii};
ghost use Rattle.page_core_base.specs.Messages.{Rose, Message};
ghost use Rattle.page_core_base.specs.declared.faults.Fault.{Fault};
ghost use Rattle.page_core_base.specs.Rows.{Item, shown};
ghost use Rattle.page_core_base.specs.declared.blank_texts.TheConstants.{BLANK_TEXT};
ghost use Rattle.page_core_base.specs.declared.pieces.Piece.TheVariants.{Text};

use crate::{Fault, Font, NoteSink, Place, blank_text};

/// What follows a tag that is too long for its hang.
#[derive(Clone, Copy)]
pub enum TagForm {
    /// The tag's row ends.
    Row,
    /// One blank and the text.
    Hang,
    /// This number of blanks and the text, whatever the tag's columns are.
    Inset(u32),
}

/// What is filled; `W` is a text. Columns are counted from the left edge of the page for margins, and from the margin else.
#[derive(Clone, Copy)]
pub enum Piece<W> {
    /// Characters of the open word, in a font. A blank among them is a cell where no row is broken.
    Text { text: W, font: Font, place: Place },
    /// The glyph of a name, in the open word.
    Glyph { name: W, font: Font, place: Place },
    /// A character in the open word.
    Char { c: char, font: Font, place: Place },
    /// A tab in the open word.
    Tab { font: Font, place: Place },
    /// The open word ends, and this count of blanks comes before the next one; one of them may be a tab.
    Blank { count: u32, has_tab: bool },
    /// The next text goes on with the open word, without the blanks that wait.
    Glue,
    /// The open word may be parted here, without a blank: the row may end before what follows.
    Split,
    /// The row ends.
    Break,
    /// The row of a line that is kept as it is ends; a blank row where it has no cell.
    RowEnd,
    /// A paragraph: the row ends, and blank rows are written until there are so many of them; none after a heading's row.
    Para(u32),
    /// The row ends, and this count of blank rows is written.
    Space(u32),
    /// The margin of the row that begins next, and of the rows after it.
    Indent { first: u32, rest: u32 },
    /// Rows are kept as they are, with their blanks and tabs, or filled.
    Literal(bool),
    /// The words that follow are a tag, with a hang in columns.
    Tag { hang: u32, form: TagForm },
    /// The tag ends.
    TagEnd,
    /// The row ends as a heading's row, if it has a cell.
    Heading,
    /// The next text is at this column from the margin, or one blank after what passes that.
    Column(u32),
}

/// Takes pieces, and the messages between them. Rows are made of pieces, so it fails as a sink of rows and one of messages do.
pub trait PieceSink: NoteSink {
    // These pieces and messages came, and no other; a front of them came, and then this fault.
    ghost took: { Self → List Item → Self → Type 0 };

    ghost broke: { Self → Fault → List Item → Self → Type 0 };

    // How often rows have failed, up to the greatest number.
    ghost row_failed: { Self → ℕ };

    /// Takes a piece. Its faults are [`Fault::WriteText`] where rows failed, [`Fault::WriteNotes`] where messages did, and
    /// [`Fault::Failed`] where the sink takes no more.
    fn piece(&mut self, piece: Piece<&[u8]>) -> Result<(), Fault>
        ensures gives { Emits result took broke self.old (shown (piece_of piece.entry) ∷ []) self.new }
        ensures faults { FailsByPieces result (row_failed self.old) (row_failed self.new) (Self.failed self.old) (Self.failed self.new) }
        ensures same { Self.loans self.new ≡ Self.loans self.old };

    /// Takes as many texts of a count of blanks that are cells, at most [`BLANK_TEXT`](crate::BLANK_TEXT) of them in each.
    fn take_blanks(
        &mut self,
        count: usize,
        times: usize,
        font: Font,
        place: Place,
    ) -> Result<(), Fault>
        requires { count ≤ BLANK_TEXT }
        ensures gives { Emits result took broke self.old (replicate times (shown (Text (replicate count 32) font place))) self.new }
        ensures faults { FailsByPieces result (row_failed self.old) (row_failed self.new) (Self.failed self.old) (Self.failed self.new) }
        ensures same { Self.loans self.new ≡ Self.loans self.old }
    {
        let text = blank_text(count);
        for _i in 0..times {
            self.piece(Piece::Text { text, font, place })?;
        }
        Ok(())
    }

    /// Takes words at once, the first after a count of blanks and each other after one. Each byte of the text is a letter of them, in the font
    /// beside it, or the one blank between two of them. Says whether it took them; else nothing changes. Of any other text nothing is promised. A
    /// sink that says nothing of it takes none. Its faults are those of [`PieceSink::piece`].
    fn take_words(&mut self, blanks: u32, text: &[u8], fonts: &[Font]) -> Result<bool, Fault>
        requires fonts { length fonts.now ≡ length text.now }
        requires ascii { is_printable_ascii text.now ≡ true }
        ensures takes { MatchResult result (λ taken. TakesWords blanks text.now fonts.now taken took self.old self.new)
            (λ fault. TakesWords blanks text.now fonts.now true (λ s items t. broke s fault items t) self.old self.new) }
        ensures faults { FailsByPieces result (row_failed self.old) (row_failed self.new) (Self.failed self.old) (Self.failed self.new) }
        ensures same { Self.loans self.new ≡ Self.loans self.old }
    {
        let _ = blanks;
        let _ = text;
        let _ = fonts;
        Ok(false)
    }

    /// Takes characters in a font at once, each of which is a cell of a row that is kept as it is. Says whether it took them; else nothing changes.
    /// A sink that says nothing of it takes none. Its faults are those of [`PieceSink::piece`].
    fn take_kept(&mut self, text: &[u8], font: Font) -> Result<bool, Fault>
        ensures takes { MatchResult result (λ taken. TakesKept text.now font taken took self.old self.new)
            (λ fault. TakesKept text.now font true (λ s items t. broke s fault items t) self.old self.new) }
        ensures faults { FailsByPieces result (row_failed self.old) (row_failed self.new) (Self.failed self.old) (Self.failed self.new) }
        ensures same { Self.loans self.new ≡ Self.loans self.old }
    {
        let _ = text;
        let _ = font;
        Ok(false)
    }

    ghost items: { (f : Fault) → IsSink took (λ s xs t. broke s f xs t) };

    // What comes by `note` are items too.
    ghost messages: { (s t : Self) (xs : List Message) → Self.gave s xs t → took s (all_noted xs) t };

    ghost message_fault: { (s t : Self) (xs : List Message) → Self.within s xs t
        → Rose (Self.failed s) (Self.failed t) → broke s Fault.WriteNotes (all_noted xs) t };

    // Nothing failed where all items came, and a fault has its cause.
    ghost quiet: { (s t : Self) (xs : List Item) → took s xs t
        → (row_failed t ≡ row_failed s) × (Self.failed t ≡ Self.failed s) };

    ghost causes: { (s t : Self) (f : Fault) (xs : List Item) → broke s f xs t
        → IsPieceFault f (row_failed s) (row_failed t) (Self.failed s) (Self.failed t) };
}
