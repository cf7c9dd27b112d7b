//! Sources of bytes: a reader and a slice as one.

ghost use Rattle.std.specs.Prelude.{◌≡◌, ◌<◌, length};
ghost use Rattle.std.specs.Borrow.{GName};
ghost use Rattle.page_core_streams.specs.Streams.{SourceState};
ghost use Rattle.page_core_streams.specs.laws.Views.{HasRead};

use crate::inputs::Input;

/// The bytes of a page or an index at most.
pub const BYTES: u32 = 2_147_483_647;

/// The read calls of a run at most.
pub const READS: u32 = 4_294_967_295;

/// What a read call gave.
pub enum Reading {
    /// The end.
    End,
    /// This number of bytes; none where the call was interrupted.
    Bytes(usize),
    /// A failure.
    Failure,
}

/// Gives bytes, and counts what it gave.
pub trait Source {
    ghost use Rattle.page_core_streams.specs.Streams.{SourceState};

    // The bytes to come, where they are known, and the counts of failures, of calls, of the bytes given and of empty calls.
    ghost state: { Self → SourceState };

    // The loans that the source holds, which stay.
    ghost Loans: { Type 0 };

    ghost loans: { Self → Loans };

    /// Reads bytes to the front of a buffer.
    fn read(&mut self, buffer: &mut [u8]) -> Reading
        requires { 0 < length buffer.old }
        ensures reads { HasRead result (state self.old) (state self.new) buffer.new }
        ensures same { loans self.new ≡ loans self.old };
}

/// A reader as a source: counts its calls, its failures, its bytes and its empty calls, each up to 2^64 - 1. Of an input that counts, those are its counts.
#[derive(Drop)]
pub struct Counted<'a, I> {
    input: &'a mut I,
    failures: u64,
    calls: u64,
    given: u64,
    empty: u64,
}

impl<'a, I: Input> Counted<'a, I> {
    /// A source over an input, such as a reader.
    pub fn new(input: &'a mut I) -> Counted<'a, I>
        ensures loan { result.input.ghost_name ≡ input.entry.ghost_name }
        ensures input { result.input.now ≡ input.entry.now }
        ensures failures { result.failures ≡ 0 }
        ensures calls { result.calls ≡ 0 }
        ensures given { result.given ≡ 0 }
        ensures empty { result.empty ≡ 0 }
    {
        Counted {
            input,
            failures: 0,
            calls: 0,
            given: 0,
            empty: 0,
        }
    }
}

impl<I: Input> Source for Counted<'_, I> {
    ghost use Rattle.page_core_streams.specs.Streams.{SourceState};
    ghost use Rattle.page_core_streams.specs.laws.Views.{state_of};
    ghost use Rattle.std.specs.Borrow.{GName};

    ghost state = { λ s. state_of I.counts (I.state s.input.now) s.failures s.calls s.given s.empty };

    ghost Loans = { GName };

    ghost loans = { λ s. s.input.ghost_name };

    fn read(&mut self, buffer: &mut [u8]) -> Reading {
        let given = self.given;
        self.calls = self.calls.saturating_add(1);
        match self.input.read_part(buffer) {
            Reading::End => Reading::End,
            Reading::Bytes(0) => {
                self.empty = self.empty.saturating_add(1);
                Reading::Bytes(0)
            }
            Reading::Bytes(count) => {
                self.given = given.saturating_add(count as u64);
                Reading::Bytes(count)
            }
            Reading::Failure => {
                self.failures = self.failures.saturating_add(1);
                Reading::Failure
            }
        }
    }
}

/// Bytes in memory as a source: no call fails, and each gives a byte up to the end.
#[derive(Drop)]
pub struct SliceSource<'a> {
    rest: &'a [u8],
    calls: u64,
    given: u64,
}

impl<'a> SliceSource<'a> {
    /// A source over bytes.
    pub fn new(bytes: &'a [u8]) -> SliceSource<'a>
        ensures rest { result.rest.now ≡ bytes.entry.now }
        ensures calls { result.calls ≡ 0 }
        ensures given { result.given ≡ 0 }
    {
        SliceSource {
            rest: bytes,
            calls: 0,
            given: 0,
        }
    }
}

impl Source for SliceSource<'_> {
    ghost use Rattle.std.specs.Prelude.{Some};
    ghost use Rattle.page_core_streams.specs.Streams.{SourceState};
    ghost use Rattle.page_core_streams.specs.laws.Views.{source_state};

    ghost state = { λ s. source_state (Some s.rest.now) 0 s.calls s.given 0 };

    ghost Loans = { Unit {0} };

    ghost loans = { λ _. tt };

    fn read(&mut self, buffer: &mut [u8]) -> Reading {
        let given = self.given;
        self.calls = self.calls.saturating_add(1);
        let count = self.rest.len().min(buffer.len());
        if count == 0 {
            return Reading::End;
        }
        let (chunk, rest) = self.rest.split_at(count);
        buffer[..count].copy_from_slice(chunk);
        self.rest = rest;
        self.given = given.saturating_add(count as u64);
        Reading::Bytes(count)
    }
}
