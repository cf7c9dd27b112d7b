//! A sink that passes on messages by their level.

ghost use Rattle.std.specs.Prelude.{◌≡◌};
ghost use Rattle.std.specs.Borrow.{GName};
ghost use Rattle.page_engine.specs.Page.{is_reported_level, worse};
ghost use Rattle.page_engine.specs.laws.Views.{FilterGave, FilterWithin, filter-sink, filter-whole};

use page_core_base::{Fault, Level, Note, NoteKind, NoteSink};

/// Passes on the messages at or above a level, and keeps the worst level of these (mandoc(1), -W).
#[derive(Drop)]
pub struct LevelFilter<'a, N> {
    pub(crate) notes: &'a mut N,
    pub(crate) least: Option<Level>,
    pub(crate) worst: Option<Level>,
}

// Whether messages of a level are given.
fn is_reported(least: Option<Level>, level: Level) -> bool
    ensures { result ≡ is_reported_level least level }
{
    match least {
        None => false,
        Some(least) => !level.is_below(least),
    }
}

// The greater of the worst level so far and another.
fn worse(worst: Option<Level>, level: Level) -> Option<Level>
    ensures { result ≡ worse worst level }
{
    match worst {
        Some(worst) if !worst.is_below(level) => Some(worst),
        _ => Some(level),
    }
}

impl<N: NoteSink> NoteSink for LevelFilter<'_, N> {
    ghost gave = { FilterGave N.gave (λ s. s.notes.now) (λ s. s.least) (λ s. s.worst) };

    ghost within = { FilterWithin N.within (λ s. s.notes.now) (λ s. s.least) };

    ghost failed = { λ s. N.failed s.notes.now };

    ghost Loans = { GName × N.Loans };

    ghost loans = { λ s. (s.notes.ghost_name, N.loans s.notes.now) };

    ghost is_out = { λ s. N.is_out s.notes.now };

    ghost laws = { filter-sink N.gave N.within N.laws (λ s. s.notes.now) (λ s. s.least) (λ s. s.worst) };

    ghost whole = { filter-whole N.gave N.within N.whole (λ s. s.notes.now) (λ s. s.least) (λ s. s.worst) };

    #[tactic(auto, unfolding(crate::specs::Page::reported, crate::specs::Page::worst_of))]
    fn note(&mut self, note: &Note) -> Result<(), Fault> {
        let level = note.kind.level();
        if !is_reported(self.least, level) {
            return Ok(());
        }
        self.notes.note(note)?;
        self.worst = worse(self.worst, level);
        Ok(())
    }

    // A message at or above the level counts for the worst one, whatever the sink below does with it.
    #[tactic(auto, unfolding(crate::specs::Page::reported, crate::specs::Page::worst_of))]
    fn takes(&self, kind: NoteKind) -> bool {
        is_reported(self.least, kind.level())
    }

    #[tactic(auto, unfolding(crate::specs::Page::reported, crate::specs::Page::worst_of))]
    fn put_out(&mut self) -> Result<(), Fault> {
        self.notes.put_out()
    }
}
