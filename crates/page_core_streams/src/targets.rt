//! What bytes are written to: any writer, and one whose failures are counted.

ghost use Rattle.std.specs.Prelude.{◌≡◌, ℕ, Bool, true, List, [], Option};
ghost use Rattle.page_core_streams.specs.laws.Views.{Writes, FailsBy};

use crate::writing::write_bytes;
use std::io::Write;

/// What bytes are written to. Each writer is one, whose failures are not counted; of a [`CountedWriter`] they are, which holds a call to its reasons.
pub trait Target {
    // The bytes that it holds, where they are known.
    ghost contents: { Self → Option (List ℕ) };

    // Whether its failures are counted, and how often it has failed.
    ghost counts: { Bool };

    ghost failures: { Self → ℕ };

    // Nothing waits in a buffer, as far as that is known.
    ghost is_out: { Self → Type 0 };

    /// Writes all bytes, and says whether that succeeded; else a front of them was written.
    fn put(&mut self, bytes: &[u8]) -> bool
        ensures writes { Writes result (contents self.old) (contents self.new) bytes.now }
        ensures fails { FailsBy counts result (failures self.old) (failures self.new) };

    /// Puts out what waits in a buffer, and says whether that succeeded.
    fn put_out(&mut self) -> bool
        ensures writes { Writes result (contents self.old) (contents self.new) [] }
        ensures fails { FailsBy counts result (failures self.old) (failures self.new) }
        ensures out { result ≡ true → is_out self.new };
}

impl<W: Write> Target for W {
    ghost use Rattle.std.specs.Prelude.{false, ⊤};

    ghost contents = { λ s. W.contents s };

    ghost counts = { false };

    ghost failures = { λ _. 0 };

    ghost is_out = { λ _. ⊤ };

    fn put(&mut self, bytes: &[u8]) -> bool {
        write_bytes(self, bytes)
    }

    fn put_out(&mut self) -> bool {
        self.flush().is_ok()
    }
}

/// A writer whose failures are counted, up to 2^64 - 1.
#[derive(Drop)]
pub struct CountedWriter<'a, W> {
    writer: &'a mut W,
    failures: u64,
}

impl<'a, W: Write> CountedWriter<'a, W> {
    /// Over a writer.
    pub fn new(writer: &'a mut W) -> CountedWriter<'a, W>
        ensures loan { result.writer.ghost_name ≡ writer.entry.ghost_name }
        ensures writer { result.writer.now ≡ writer.entry.now }
        ensures failures { result.failures ≡ 0 }
    {
        CountedWriter {
            writer,
            failures: 0,
        }
    }
}

impl<W: Write> Target for CountedWriter<'_, W> {
    ghost use Rattle.std.specs.Prelude.{true, ⊤};

    ghost contents = { λ s. W.contents s.writer.now };

    ghost counts = { true };

    ghost failures = { λ s. s.failures };

    ghost is_out = { λ _. ⊤ };

    fn put(&mut self, bytes: &[u8]) -> bool {
        if write_bytes(self.writer, bytes) {
            return true;
        }
        self.failures = self.failures.saturating_add(1);
        false
    }

    fn put_out(&mut self) -> bool {
        if self.writer.flush().is_ok() {
            return true;
        }
        self.failures = self.failures.saturating_add(1);
        false
    }
}

/// Takes bytes, and keeps none: it never fails.
#[derive(Clone, Copy)]
pub struct Nowhere;

impl Target for Nowhere {
    ghost use Rattle.std.specs.Prelude.{None, true, ⊤};

    ghost contents = { λ _. None };

    ghost counts = { true };

    ghost failures = { λ _. 0 };

    ghost is_out = { λ _. ⊤ };

    fn put(&mut self, bytes: &[u8]) -> bool {
        let _ = bytes;
        true
    }

    fn put_out(&mut self) -> bool {
        true
    }
}
