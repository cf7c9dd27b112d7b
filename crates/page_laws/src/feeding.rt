//! A list of lines, given to a page.

ghost use Rattle.std.specs.Prelude.{◌≡◌, ◌+◌, ◌-◌, ◌^◌, ◌≤◌, All, OnErr, length};
ghost use Rattle.page_core_base.specs.Texts.{IsLine};
ghost use Rattle.page_engine.specs.Edges.{Edge};
ghost use Rattle.page_engine.specs.laws.States.{IsOpenAt};
ghost use Rattle.page_engine.specs.laws.Views.{sinks, AreWell};
ghost use Rattle.page_laws.specs.Fed.{lines_given, FeedsAll};

use page_core_base::{Fault, NoteSink, RowSink};
use page_engine::{Page, count_law, cut_law, line_by_line_law};

/// A line and its number.
#[derive(Clone, Copy)]
pub struct Numbered<'a> {
    pub number: u32,
    pub text: &'a [u8],
}

/// Gives lines to a page, one after another. The rows and messages that come are exactly those that the whole list settles, and the page is at the
/// edge after it. Only a sink that fails stops it.
pub fn feed_lines<R: RowSink, N: NoteSink>(
    page: &mut Page,
    lines: &[Numbered<'_>],
    rows: &mut R,
    notes: &mut N,
) -> Result<(), Fault>
    requires texts { All (λ line. IsLine line.text.now) lines.now }
    requires room { page.old.counts.source + length lines.now ≤ 2 ^ 31 - 1 }
    ensures feeds { (e : Edge) → IsOpenAt page.old e →
        FeedsAll result (sinks R.gave R.within R.failed N.gave N.within N.failed)
        rows.old rows.new notes.old notes.new e (lines_given lines.now) page.new }
    ensures works { (e : Edge) → IsOpenAt page.old e →
        AreWell (sinks R.gave R.within R.failed N.gave N.within N.failed) rows.old rows.new notes.old notes.new
        → OnErr result ⊥ }
    ensures rows_same { R.loans rows.new ≡ R.loans rows.old }
    ensures notes_same { N.loans notes.new ≡ N.loans notes.old }
{
    cut_law();
    count_law();
    line_by_line_law();
    for line in lines {
        page.feed_line(line.text, line.number, rows, notes)?;
    }
    Ok(())
}
