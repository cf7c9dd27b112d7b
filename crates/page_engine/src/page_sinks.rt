//! What lies below the lines of a page: the filler, and the sinks of rows and messages.

ghost use Rattle.std.specs.Borrow.{GName};
ghost use Rattle.page_engine.specs.laws.Views.{filter-sink, filter-whole, shown-sink, shown-whole};
ghost use Rattle.page_engine.specs.machine.PageSinks.{PageSinkGave, PageSinkWithin, message-sink, message-whole, message-fault, PageSinkTook, PageSinkBroke, page-sink};

use crate::level_filters::LevelFilter;
use crate::shown::Shown;
use page_core_base::{Fault, Font, Note, NoteSink, Piece, PieceSink, Place, RowSink};
use page_fill::PieceFiller;

/// Fills pieces, and passes rows and messages on: rows unless the output is lint, messages by their level.
#[derive(Drop)]
pub struct PageSink<'f, 'r, 'n, R, N> {
    pub(crate) filler: &'f mut PieceFiller,
    pub(crate) rows: Shown<'r, R>,
    pub(crate) notes: LevelFilter<'n, N>,
}

impl<R: RowSink, N: NoteSink> NoteSink for PageSink<'_, '_, '_, R, N> {
    ghost gave = { PageSinkGave ⟦<Shown<'static, R> as RowSink>⟧.gave ⟦<Shown<'static, R> as RowSink>⟧.failed
        ⟦<LevelFilter<'static, N> as NoteSink>⟧.gave ⟦<LevelFilter<'static, N> as NoteSink>⟧.failed
        (λ s. s.filler.now) (λ s. s.rows) (λ s. s.notes) };

    ghost within = { PageSinkWithin ⟦<Shown<'static, R> as RowSink>⟧.within ⟦<LevelFilter<'static, N> as NoteSink>⟧.within
        (λ s. s.filler.now) (λ s. s.rows) (λ s. s.notes) };

    ghost failed = { λ s. N.failed s.notes.notes.now };

    ghost Loans = { GName × GName × GName × R.Loans × N.Loans };

    ghost loans = { λ s. (
      s.filler.ghost_name,
      s.rows.rows.ghost_name,
      s.notes.notes.ghost_name,
      R.loans s.rows.rows.now,
      N.loans s.notes.notes.now,
    ) };

    ghost is_out = { λ _. Unit {0} };

    ghost laws = { message-sink ⟦<Shown<'static, R> as RowSink>⟧.gave ⟦<Shown<'static, R> as RowSink>⟧.within
        ⟦<Shown<'static, R> as RowSink>⟧.failed ⟦<LevelFilter<'static, N> as NoteSink>⟧.gave
        ⟦<LevelFilter<'static, N> as NoteSink>⟧.within ⟦<LevelFilter<'static, N> as NoteSink>⟧.failed
        (shown-sink R.gave R.within R.laws (λ s. s.rows.now) (λ s. s.is_silent))
        (filter-sink N.gave N.within N.laws (λ s. s.notes.now) (λ s. s.least) (λ s. s.worst))
        (λ s. s.filler.now) (λ s. s.rows) (λ s. s.notes) };

    ghost whole = { message-whole ⟦<Shown<'static, R> as RowSink>⟧.gave ⟦<Shown<'static, R> as RowSink>⟧.within
        ⟦<Shown<'static, R> as RowSink>⟧.failed ⟦<LevelFilter<'static, N> as NoteSink>⟧.gave
        ⟦<LevelFilter<'static, N> as NoteSink>⟧.within ⟦<LevelFilter<'static, N> as NoteSink>⟧.failed
        (shown-whole R.gave R.within R.whole (λ s. s.rows.now) (λ s. s.is_silent))
        (filter-whole N.gave N.within N.whole (λ s. s.notes.now) (λ s. s.least) (λ s. s.worst))
        (λ s. s.filler.now) (λ s. s.rows) (λ s. s.notes) };

    #[tactic(auto, unfolding(page_fill::specs::machine::Words::laid_items))]
    fn note(&mut self, note: &Note) -> Result<(), Fault> {
        self.notes.note(note)
    }

    // It has no buffer: a run has those of its sinks put out.
    fn put_out(&mut self) -> Result<(), Fault> {
        Ok(())
    }
}

impl<R: RowSink, N: NoteSink> PieceSink for PageSink<'_, '_, '_, R, N> {
    ghost took = { PageSinkTook ⟦<Shown<'static, R> as RowSink>⟧.gave ⟦<Shown<'static, R> as RowSink>⟧.failed
        ⟦<LevelFilter<'static, N> as NoteSink>⟧.gave ⟦<LevelFilter<'static, N> as NoteSink>⟧.failed
        (λ s. s.filler.now) (λ s. s.rows) (λ s. s.notes) };

    ghost broke = { PageSinkBroke ⟦<Shown<'static, R> as RowSink>⟧.within ⟦<Shown<'static, R> as RowSink>⟧.failed
        ⟦<LevelFilter<'static, N> as NoteSink>⟧.within ⟦<LevelFilter<'static, N> as NoteSink>⟧.failed
        (λ s. s.filler.now) (λ s. s.rows) (λ s. s.notes) };

    ghost row_failed = { λ s. R.failed s.rows.rows.now };

    ghost items = { page-sink ⟦<Shown<'static, R> as RowSink>⟧.gave ⟦<Shown<'static, R> as RowSink>⟧.within
        ⟦<Shown<'static, R> as RowSink>⟧.failed ⟦<LevelFilter<'static, N> as NoteSink>⟧.gave
        ⟦<LevelFilter<'static, N> as NoteSink>⟧.within ⟦<LevelFilter<'static, N> as NoteSink>⟧.failed
        (shown-sink R.gave R.within R.laws (λ s. s.rows.now) (λ s. s.is_silent))
        (filter-sink N.gave N.within N.laws (λ s. s.notes.now) (λ s. s.least) (λ s. s.worst))
        (λ s. s.filler.now) (λ s. s.rows) (λ s. s.notes) };

    ghost messages = { λ s t xs gave. gave };

    ghost message_fault = { message-fault ⟦<Shown<'static, R> as RowSink>⟧.within ⟦<Shown<'static, R> as RowSink>⟧.failed
        ⟦<LevelFilter<'static, N> as NoteSink>⟧.within ⟦<LevelFilter<'static, N> as NoteSink>⟧.failed
        (λ s. s.filler.now) (λ s. s.rows) (λ s. s.notes) };

    ghost quiet = { λ s t xs took. (took.1.rows, took.1.notes) };

    ghost causes = { λ s t fault xs broke. broke.0 };

    // The filler's own `piece` is inlined, so that a piece of a known kind costs no copy and no match.
    #[inline(always)]
    #[tactic(auto, unfolding(page_fill::specs::machine::Words::laid_items))]
    fn piece(&mut self, piece: Piece<&[u8]>) -> Result<(), Fault> {
        self.filler.piece(piece, &mut self.rows, &mut self.notes)
    }

    fn take_blanks(
        &mut self,
        count: usize,
        times: usize,
        font: Font,
        place: Place,
    ) -> Result<(), Fault> {
        self.filler.held_law();
        self.filler
            .take_blanks(count, times, font, place, &mut self.rows, &mut self.notes)
    }

    #[inline(always)]
    fn take_words(&mut self, blanks: u32, text: &[u8], fonts: &[Font]) -> Result<bool, Fault> {
        if !self.filler.takes_words(blanks, text) {
            return Ok(false);
        }
        if text.is_empty() {
            return Ok(true);
        }
        self.filler.held_law();
        self.filler
            .words(blanks, text, fonts, &mut self.rows, &mut self.notes)?;
        Ok(true)
    }

    #[inline(always)]
    fn take_kept(&mut self, text: &[u8], font: Font) -> Result<bool, Fault> {
        self.filler.held_law();
        Ok(self.filler.take_kept(text, font))
    }
}
