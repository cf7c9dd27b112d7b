//! Bytes that wait for a writer.

ghost use Rattle.std.specs.Prelude.{◌≡◌, ◌≤◌, ℕ, List, [], length, take, drop, true, false};
ghost use Rattle.std.specs.Io.KnownBytes.{append_known};
ghost use Rattle.std.specs.List.{flat_map};
ghost use Rattle.page_core_streams.specs.laws.Views.{Writes};
ghost use Rattle.page_core_streams.specs.Streams.{Grows};
ghost use Rattle.mandoc_formats.specs.Formats.{HasFailed};

use arrayvec::ArrayVec;
use page_core_streams::{Target, put_all};
use std::io::{ErrorKind, Write};

/// How often a write is tried.
const TRIES: u32 = 1_000_000;

/// What keeps bytes before it writes them.
pub trait Buffered: Target {
    // The bytes that wait. They are the last ones that it holds.
    ghost waits: { Self → List ℕ };

    /// Puts out what waits, and says whether that succeeded: then nothing waits.
    fn put_all_out(&mut self) -> bool
        ensures same { Grows (Self.contents self.old) (Self.contents self.new) [] }
        ensures empty { result ≡ true → waits self.new ≡ [] }
        ensures failed { result ≡ false → HasFailed Self.counts Self.failures };

    /// Puts out what waits and writes texts after it, or a front of them: no more bytes wait than before.
    fn put_through(&mut self, texts: &[&[u8]]) -> bool
        ensures failed { result ≡ false → HasFailed Self.counts Self.failures }
        ensures writes { Writes result (Self.contents self.old) (Self.contents self.new) (flat_map (λ text. text.now) texts.now) };
}

/// A writer, and at most 4,096 bytes that wait for it.
#[derive(Drop)]
pub struct Waiting<W> {
    out: W,
    bytes: ArrayVec<u8, 4096>,
}

// Writes a front of bytes, and answers how many: all, where nothing fails.
fn write_front<W: Write>(out: &mut W, bytes: &[u8]) -> usize
    ensures within { result ≤ length bytes.now }
    ensures grows { Grows (W.contents out.old) (W.contents out.new) (take result bytes.now) }
{
    let mut sent = 0;
    for _ in 0..TRIES {
        if sent == bytes.len() {
            return sent;
        }
        match out.write(&bytes[sent..]) {
            Ok(count) if count > 0 => sent += count,
            Err(error) if error.kind() == ErrorKind::Interrupted => {}
            _ => return sent,
        }
    }
    sent
}

impl<W: Write> Waiting<W> {
    /// Nothing waits for a writer yet.
    pub fn new(out: W) -> Waiting<W>
        ensures out { result.out ≡ out }
        ensures bytes { result.bytes.items ≡ [] }
    {
        Waiting {
            out,
            bytes: ArrayVec::new(),
        }
    }

    /// The writer, which does not get what still waits.
    pub fn into_inner(self) -> W
        ensures { result ≡ self.out }
    {
        self.out
    }

    // Writes what waits, and says whether that succeeded; else a front of it was written, and the rest still waits.
    fn send(&mut self) -> bool
        ensures same { Grows (append_known (W.contents self.old.out) self.old.bytes.items) (append_known (W.contents self.new.out) self.new.bytes.items) [] }
        ensures empty { result ≡ true → self.new.bytes.items ≡ [] }
    {
        let sent = write_front(&mut self.out, self.bytes.as_slice());
        let is_sent = sent == self.bytes.len();
        if is_sent {
            self.bytes.clear();
        } else {
            keep_rest(&mut self.bytes, sent);
        }
        is_sent
    }
}

// Forgets bytes that were sent.
#[cold]
fn keep_rest(bytes: &mut ArrayVec<u8, 4096>, sent: usize)
    requires { sent ≤ length bytes.old.items }
    ensures { bytes.new.items ≡ drop sent bytes.old.items }
{
    let mut rest = ArrayVec::new();
    if rest
        .try_extend_from_slice(&bytes.as_slice()[sent..])
        .is_ok()
    {
        *bytes = rest;
    }
}

impl<W: Write> Target for Waiting<W> {
    ghost contents = { λ s. append_known (W.contents s.out) s.bytes.items };

    ghost counts = { false };

    ghost failures = { λ _. 0 };

    ghost is_out = { λ s. s.bytes.items ≡ [] };

    fn put(&mut self, bytes: &[u8]) -> bool {
        if bytes.len() > self.bytes.remaining_capacity() && !self.send() {
            return false;
        }
        if self.bytes.try_extend_from_slice(bytes).is_ok() {
            return true;
        }
        self.bytes.is_empty() && self.out.put(bytes)
    }

    fn put_out(&mut self) -> bool {
        self.send() && self.out.flush().is_ok()
    }
}

impl<W: Write> Buffered for Waiting<W> {
    ghost waits = { λ s. s.bytes.items };

    #[tactic(auto, using(crate::proofs::Turns::uncounted))]
    fn put_all_out(&mut self) -> bool {
        self.send() && self.out.flush().is_ok()
    }

    #[tactic(auto, using(crate::proofs::Turns::uncounted))]
    fn put_through(&mut self, texts: &[&[u8]]) -> bool {
        self.send() && put_all(&mut self.out, texts)
    }
}
