//! What bytes are read from: any reader, and a source, whose calls and failures are counted.

ghost use Rattle.std.specs.Prelude.{◌≡◌, ◌<◌, Bool, length};
ghost use Rattle.page_core_streams.specs.laws.Views.{HasReadIf};

use crate::{Counted, Reading, SliceSource, Source};
use std::io::{ErrorKind, Read};

/// What bytes are read from. Each reader is one, whose calls are not counted; of [`Counted`] and [`SliceSource`] they are, which holds a call to its reasons.
pub trait Input {
    ghost use Rattle.page_core_streams.specs.Streams.{SourceState};

    // Whether its calls are counted; the bytes to come, where they are known, and the counts.
    ghost counts: { Bool };

    ghost state: { Self → SourceState };

    /// Reads bytes to the front of a buffer.
    fn read_part(&mut self, buffer: &mut [u8]) -> Reading
        requires { 0 < length buffer.old }
        ensures reads { HasReadIf counts result (state self.old) (state self.new) buffer.new };
}

impl<I: Read> Input for I {
    ghost use Rattle.std.specs.Prelude.{false};
    ghost use Rattle.page_core_streams.specs.Streams.{SourceState};
    ghost use Rattle.page_core_streams.specs.laws.Views.{source_state};

    ghost counts = { false };

    ghost state = { λ s. source_state (I.remaining s) 0 0 0 0 };

    fn read_part(&mut self, buffer: &mut [u8]) -> Reading {
        match self.read(buffer) {
            Ok(0) => Reading::End,
            Ok(count) => Reading::Bytes(count),
            Err(error) if error.kind() == ErrorKind::Interrupted => Reading::Bytes(0),
            Err(_) => Reading::Failure,
        }
    }
}

impl<I: Input> Input for Counted<'_, I> {
    ghost use Rattle.std.specs.Prelude.{true};
    ghost use Rattle.page_core_streams.specs.Streams.{SourceState};
    ghost use Rattle.page_core_streams.specs.laws.Views.{state_of};

    ghost counts = { true };

    ghost state = { λ s. state_of I.counts (I.state s.input.now) s.failures s.calls s.given s.empty };

    fn read_part(&mut self, buffer: &mut [u8]) -> Reading {
        Source::read(self, buffer)
    }
}

impl Input for SliceSource<'_> {
    ghost use Rattle.std.specs.Prelude.{Some, true};
    ghost use Rattle.page_core_streams.specs.Streams.{SourceState};
    ghost use Rattle.page_core_streams.specs.laws.Views.{source_state};

    ghost counts = { true };

    ghost state = { λ s. source_state (Some s.rest.now) 0 s.calls s.given 0 };

    fn read_part(&mut self, buffer: &mut [u8]) -> Reading {
        Source::read(self, buffer)
    }
}
