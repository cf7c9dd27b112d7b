//! A sink that passes on rows unless the output is lint.

ghost use Rattle.std.specs.Prelude.{◌≡◌};
ghost use Rattle.std.specs.Borrow.{GName};
ghost use Rattle.page_engine.specs.Page.{is_silent};
ghost use Rattle.page_engine.specs.laws.Views.{ShownGave, ShownWithin, shown-sink, shown-whole};

use page_core_base::{Cell, Fault, Font, Output, RowSink};

/// Passes on rows, or none (mandoc(1), -T lint).
#[derive(Drop)]
pub struct Shown<'a, R> {
    pub(crate) rows: &'a mut R,
    pub(crate) is_silent: bool,
}

/// Whether an output has no rows.
pub(crate) fn is_silent(output: Output) -> bool
    ensures { result ≡ is_silent output }
{
    match output {
        Output::Ascii | Output::Utf8 => false,
        Output::Lint => true,
    }
}

impl<R: RowSink> RowSink for Shown<'_, R> {
    ghost gave = { ShownGave R.gave (λ s. s.rows.now) (λ s. s.is_silent) };

    ghost within = { ShownWithin R.within (λ s. s.rows.now) (λ s. s.is_silent) };

    ghost failed = { λ s. R.failed s.rows.now };

    ghost Loans = { GName × R.Loans };

    ghost loans = { λ s. (s.rows.ghost_name, R.loans s.rows.now) };

    ghost is_out = { λ s. R.is_out s.rows.now };

    ghost laws = { shown-sink R.gave R.within R.laws (λ s. s.rows.now) (λ s. s.is_silent) };

    ghost whole = { shown-whole R.gave R.within R.whole (λ s. s.rows.now) (λ s. s.is_silent) };

    #[tactic(auto, unfolding(crate::specs::Page::shown_rows))]
    fn row(&mut self, margin: u32, cells: &[Cell]) -> Result<(), Fault> {
        if self.is_silent {
            return Ok(());
        }
        self.rows.row(margin, cells)
    }

    #[tactic(auto, unfolding(crate::specs::Page::shown_rows))]
    fn blank_row(&mut self, margin: u32, cells: &[Cell]) -> Result<(), Fault> {
        if self.is_silent {
            return Ok(());
        }
        self.rows.blank_row(margin, cells)
    }

    #[tactic(auto, unfolding(crate::specs::Page::shown_rows))]
    fn ascii_row(
        &mut self,
        margin: u32,
        bytes: &[u8],
        fonts: &[Font],
        is_blank: bool,
        places: &mut Vec<Cell>,
    ) -> Result<(), Fault> {
        if self.is_silent {
            return Ok(());
        }
        self.rows.ascii_row(margin, bytes, fonts, is_blank, places)
    }

    fn put_out(&mut self) -> Result<(), Fault> {
        self.rows.put_out()
    }
}
