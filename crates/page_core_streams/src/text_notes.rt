//! Messages as lines of a writer.

ghost use Rattle.std.specs.Prelude.{◌≡◌};
ghost use Rattle.std.specs.Borrow.{GName};
ghost use Rattle.page_core_streams.specs.laws.Views.{AddsBy, AddsIntoBy, adds-by-sink, adds-by-whole, count_of};
ghost use Rattle.page_core_streams.specs.Streams.{message_bytes};

use crate::message_bytes::put_note;
use crate::targets::Target;
use page_core_base::{Fault, Note, NoteSink};

/// Writes messages as lines about a file.
#[derive(Drop)]
pub struct TextNotes<'a, 'f, W> {
    out: &'a mut W,
    file: &'f str,
    failures: u64,
}

impl<'a, 'f, W: Target> TextNotes<'a, 'f, W> {
    /// A sink over a writer, for messages about a file.
    pub fn new(out: &'a mut W, file: &'f str) -> TextNotes<'a, 'f, W>
        ensures loan { result.out.ghost_name ≡ out.entry.ghost_name }
        ensures out { result.out.now ≡ out.entry.now }
        ensures file { result.file.now ≡ file.now }
        ensures failures { result.failures ≡ 0 }
    {
        TextNotes {
            out,
            file,
            failures: 0,
        }
    }
}

impl<W: Target> NoteSink for TextNotes<'_, '_, W> {
    ghost gave = { AddsBy (λ s. W.contents s.out.now) (λ s. s.file.now) message_bytes };

    ghost within = { AddsIntoBy (λ s. W.contents s.out.now) (λ s. s.file.now) message_bytes };

    ghost failed = { λ s. count_of W.counts (W.failures s.out.now) s.failures };

    ghost Loans = { GName };

    ghost loans = { λ s. s.out.ghost_name };

    ghost is_out = { λ s. W.is_out s.out.now };

    ghost laws = { adds-by-sink (λ s. W.contents s.out.now) (λ s. s.file.now) message_bytes };

    ghost whole = { adds-by-whole (λ s. W.contents s.out.now) (λ s. s.file.now) message_bytes };

    fn note(&mut self, note: &Note) -> Result<(), Fault> {
        if put_note(self.out, self.file, note) {
            return Ok(());
        }
        self.failures = self.failures.saturating_add(1);
        Err(Fault::WriteNotes)
    }

    fn put_out(&mut self) -> Result<(), Fault> {
        if self.out.put_out() {
            return Ok(());
        }
        self.failures = self.failures.saturating_add(1);
        Err(Fault::WriteNotes)
    }
}
