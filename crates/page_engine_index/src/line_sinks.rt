//! Sinks that take lines of text, and a writer as one.

ghost use Rattle.std.specs.Prelude.{◌≡◌, ℕ, List, [], ◌∷◌};
ghost use Rattle.std.specs.Borrow.{GName};
ghost use Rattle.std.specs.List.{flat_map};
ghost use Rattle.page_core_base.specs.laws.Views.{IsSink, Gives, FailsAs};
ghost use Rattle.page_core_streams.specs.laws.Views.{count_of, adds-sink, adds-whole};
ghost use Rattle.page_core_streams.specs.Streams.{Adds, AddsInto};
ghost use Rattle.page_engine_index.specs.Written.{visible};

use crate::visible_rows::put_row;
use page_core_base::Fault;
use page_core_streams::Target;

/// Takes lines of text.
pub trait LineSink {
    // These lines came, and no other; a front of them came, perhaps with a part of the next.
    ghost gave: { Self → List (List ℕ) → Self → Type 0 };

    ghost within: { Self → List (List ℕ) → Self → Type 0 };

    // How often the sink has failed, up to the greatest number.
    ghost failed: { Self → ℕ };

    // The loans that the sink holds, which stay.
    ghost Loans: { Type 0 };

    ghost loans: { Self → Loans };

    /// Takes a line in its parts, with the line feed. Its fault is [`Fault::WriteText`].
    fn line(&mut self, parts: &[&[u8]]) -> Result<(), Fault>
        ensures gives { Gives result gave within self.old (flat_map (λ part. part.now) parts.now ∷ []) self.new }
        ensures fault { FailsAs Fault.WriteText result (failed self.old) (failed self.new) }
        ensures same { loans self.new ≡ loans self.old };

    ghost laws: { IsSink gave within };

    ghost whole: { (s t : Self) (xs : List (List ℕ)) → gave s xs t → within s xs t };
}

/// Writes lines, with `?` for each control character but the line feed.
#[derive(Drop)]
pub struct TextLines<'a, W> {
    out: &'a mut W,
    failures: u64,
}

impl<'a, W: Target> TextLines<'a, W> {
    /// A sink over a writer.
    pub fn new(out: &'a mut W) -> TextLines<'a, W>
        ensures loan { result.out.ghost_name ≡ out.entry.ghost_name }
        ensures out { result.out.now ≡ out.entry.now }
        ensures failures { result.failures ≡ 0 }
    {
        TextLines { out, failures: 0 }
    }
}

impl<W: Target> LineSink for TextLines<'_, W> {
    ghost gave = { Adds (λ s. W.contents s.out.now) visible };

    ghost within = { AddsInto (λ s. W.contents s.out.now) visible };

    ghost failed = { λ s. count_of W.counts (W.failures s.out.now) s.failures };

    ghost Loans = { GName };

    ghost loans = { λ s. s.out.ghost_name };

    ghost laws = { adds-sink (λ s. W.contents s.out.now) visible };

    ghost whole = { adds-whole (λ s. W.contents s.out.now) visible };

    fn line(&mut self, parts: &[&[u8]]) -> Result<(), Fault> {
        if put_row(self.out, parts) {
            return Ok(());
        }
        self.failures = self.failures.saturating_add(1);
        Err(Fault::WriteText)
    }
}
