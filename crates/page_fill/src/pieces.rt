//! Pieces, one by one, over two sinks.

ghost use Rattle.std.specs.Prelude.{◌≡◌, ◌≤◌, replicate, IfOk};
ghost use Rattle.page_core_base.specs.laws.Views.{Gets, LaysOut, piece_of};
ghost use Rattle.page_core_base.specs.declared.blank_texts.TheConstants.{BLANK_TEXT};
ghost use Rattle.page_core_base.specs.declared.pieces.Piece.TheVariants.{Text};
ghost use Rattle.page_fill.specs.laws.Views.{UsesSinks, under};
ghost use Rattle.page_fill.specs.machine.Fill as fill;

use crate::edges::{FillEdge, NO_WORD};
use page_core_base::{
    BLANK_TEXT, Fault, Font, NoteSink, Output, Piece, Place, RowOut, RowSink, Settings,
};
use page_fill_rows::{OpenRow, RowLatch};
use std::alloc::{AllocError, Global};

// Takes a piece, and gives the rows and messages that it settles.
#[inline(always)]
#[tactic(auto, unfolding(crate::specs::machine::Fill::laid_piece))]
fn take_piece<O: RowOut>(edge: &mut FillEdge, piece: Piece<&[u8]>, out: &mut O)
    ensures { LaysOut O.left out.old (fill.laid_piece edge.old (piece_of piece.entry)) out.new edge.new }
{
    match piece {
        Piece::Text { text, font, place } => edge.bytes(text, font, place, out),
        Piece::Glyph { name, font, place } => edge.glyph(name, font, place, out),
        Piece::Char { c, font, place } => edge.character(c, font, place, out),
        Piece::Tab { font, place } => edge.tab(font, place, out),
        Piece::Split => edge.part_word(),
        Piece::Break => edge.end_row(out),
        Piece::RowEnd => edge.end_line(out),
        Piece::Para(count) => edge.paragraph(count, out),
        Piece::Space(count) => edge.space(count, out),
        Piece::TagEnd => edge.end_tag(out),
        Piece::Heading => edge.heading(out),
        Piece::Blank { count, has_tab } => edge.word.end(count, has_tab),
        Piece::Glue => edge.word = edge.word.glued(),
        Piece::Indent { first, rest } => edge.sheet.set_margins(first, rest),
        Piece::Literal(is_literal) => edge.sheet.set_literal(is_literal),
        Piece::Tag { hang, form } => edge.begin_tag(hang, form),
        Piece::Column(column) => edge.column(column),
    }
}

impl FillEdge {
    /// Below the header of a page of these settings, with one blank row. It reserves all memory that is ever held.
    pub fn new(alloc: Global, settings: &Settings) -> Result<FillEdge, AllocError>
        ensures { IfOk result (λ e. e ≡ fill.start settings.now) }
    {
        let sheet = OpenRow::new(alloc, settings.width)?;
        Ok(FillEdge {
            sheet,
            word: NO_WORD,
            tag: None,
            set_in: None,
            output: settings.output,
        })
    }

    /// This edge on a page of another width in columns and another output. It reserves all memory that is ever held.
    pub fn copy(&self, alloc: Global, width: u32, output: Output) -> Result<FillEdge, AllocError>
        ensures { IfOk result (λ e. e ≡ under width output self.now) }
    {
        let sheet = self.sheet.copy(alloc, width)?;
        Ok(FillEdge {
            sheet,
            word: self.word,
            tag: self.tag,
            set_in: self.set_in,
            output,
        })
    }

    /// Takes a piece, and gives the rows and messages that it settles. Its faults are those of the sinks.
    #[inline(always)]
    pub fn piece<R: RowSink, N: NoteSink>(
        &mut self,
        piece: Piece<&[u8]>,
        rows: &mut R,
        notes: &mut N,
    ) -> Result<(), Fault>
        ensures gets { Gets result R.gave R.within N.gave N.within rows.old rows.new notes.old notes.new
            (fill.laid_piece self.old (piece_of piece.entry)) }
        ensures edge { self.new ≡ (fill.laid_piece self.old (piece_of piece.entry)).edge }
        ensures sinks { UsesSinks result R.failed R.loans N.failed N.loans rows.old rows.new notes.old notes.new }
    {
        let mut latch = RowLatch::new(rows, notes);
        take_piece(self, piece, &mut latch);
        latch.done()
    }

    /// Takes as many texts of a count of blanks that are cells, at most [`BLANK_TEXT`] of them in each. Its faults are those of the sinks.
    pub fn take_blanks<R: RowSink, N: NoteSink>(
        &mut self,
        count: usize,
        times: usize,
        font: Font,
        place: Place,
        rows: &mut R,
        notes: &mut N,
    ) -> Result<(), Fault>
        requires { count ≤ BLANK_TEXT }
        ensures gets { Gets result R.gave R.within N.gave N.within rows.old rows.new notes.old notes.new
            (fill.laid self.old (replicate times (Text (replicate count 32) font place))) }
        ensures edge { self.new ≡ (fill.laid self.old (replicate times (Text (replicate count 32) font place))).edge }
        ensures sinks { UsesSinks result R.failed R.loans N.failed N.loans rows.old rows.new notes.old notes.new }
    {
        let mut latch = RowLatch::new(rows, notes);
        self.blank_texts(count, times, font, place, &mut latch);
        latch.done()
    }

    /// Ends the open row. Its faults are those of the sinks.
    pub fn end<R: RowSink, N: NoteSink>(&mut self, rows: &mut R, notes: &mut N) -> Result<(), Fault>
        ensures gets { Gets result R.gave R.within N.gave N.within rows.old rows.new notes.old notes.new
            (fill.ended self.old) }
        ensures sinks { UsesSinks result R.failed R.loans N.failed N.loans rows.old rows.new notes.old notes.new }
    {
        let mut latch = RowLatch::new(rows, notes);
        self.end_row(&mut latch);
        latch.done()
    }
}
