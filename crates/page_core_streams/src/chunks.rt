//! The bytes of a source chunk by chunk, up to the limits of a run.

ghost use Rattle.std.specs.Prelude.{◌≡◌, ◌≤◌, ◌^◌, ℕ, List, [], length};
ghost use Rattle.page_core_streams.specs.laws.Views.{AreRead, IsFewer, ReadsOn, chunk_of};
ghost use Rattle.page_core_streams.specs.Streams.{SourceState};

use crate::sources::{BYTES, READS, Reading, Source};
use page_core_base::Fault;

// The bytes of a chunk at most.
const CHUNK: usize = 16_384;

/// Reads a source to its end, one chunk after another.
#[derive(Drop)]
pub struct Chunks {
    // The read calls and the bytes that may still be.
    calls_left: u32,
    bytes_left: u32,
    // The bytes of the last chunk, at the front of the buffer.
    len: usize,
    buffer: [u8; CHUNK],
}

impl Chunks {
    /// Before the first chunk.
    pub fn new() -> Chunks
        ensures { (s : SourceState) → AreRead s s result [] }
    {
        Chunks {
            calls_left: READS,
            bytes_left: BYTES,
            len: 0,
            buffer: [0; CHUNK],
        }
    }

    /// Reads the next chunk, and answers whether there was one; it may be empty, where the call was interrupted. [`Fault::Read`] comes where the
    /// source failed, and [`Fault::TooLong`] where it has more than [`BYTES`] bytes, or was read [`READS`] times.
    pub fn read<S: Source>(&mut self, source: &mut S) -> Result<bool, Fault>
        ensures reads { (a : SourceState) (bytes : List ℕ) → AreRead a (S.state source.old) self.old bytes
            → ReadsOn result a (S.state source.new) self.new bytes }
        ensures fewer { IsFewer result self.old self.new }
        ensures same { S.loans source.new ≡ S.loans source.old }
    {
        if self.calls_left == 0 {
            return Err(Fault::TooLong);
        }
        self.calls_left -= 1;
        let room = self.bytes_left as usize;
        // Where there is no room, one byte more shows that there are too many.
        let most = room.clamp(1, CHUNK);
        match source.read(&mut self.buffer[..most]) {
            Reading::End => Ok(false),
            Reading::Failure => Err(Fault::Read),
            Reading::Bytes(count) => {
                if count > room {
                    return Err(Fault::TooLong);
                }
                self.bytes_left -= count as u32;
                self.len = count;
                Ok(true)
            }
        }
    }

    /// The bytes of the chunk that was read last.
    pub fn chunk(&self) -> &[u8]
        requires { self.now.len ≤ 2 ^ 14 }
        ensures value { result.now ≡ chunk_of self.now }
        ensures small { length result.now ≤ 2 ^ 14 }
    {
        &self.buffer[..self.len]
    }
}
