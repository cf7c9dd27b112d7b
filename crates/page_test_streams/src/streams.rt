//! A reader and a writer that take some bytes at a time, and fail where they are to.

use std::alloc::{AllocError, Global};
use std::io::{self, ErrorKind, Read, Write};

/// Gives bytes, at most a number of them a call.
#[derive(Drop)]
pub struct Chunks<'a> {
    /// How many calls there were.
    pub calls: usize,
    /// Whether each call of an odd number is interrupted, and gives nothing.
    pub is_interrupted: bool,
    bytes: &'a [u8],
    size: usize,
    fails: Option<usize>,
}

impl<'a> Chunks<'a> {
    /// Bytes, of which at most `size` come a call. The call after `fails` of them is an error, as each later one is.
    pub fn new(bytes: &'a [u8], size: usize, fails: Option<usize>) -> Chunks<'a> {
        Chunks {
            calls: 0,
            is_interrupted: false,
            bytes,
            size,
            fails,
        }
    }
}

impl Read for Chunks<'_> {
    fn read(&mut self, buffer: &mut [u8]) -> io::Result<usize> {
        let before = self.calls;
        self.calls = before.saturating_add(1);
        if self.fails.is_some_and(|calls| calls <= before) {
            return Err(io::Error::from(ErrorKind::ConnectionReset));
        }
        if self.is_interrupted && before % 2 == 0 {
            return Err(io::Error::from(ErrorKind::Interrupted));
        }
        let count = self.bytes.len().min(self.size).min(buffer.len());
        let (chunk, rest) = self.bytes.split_at(count);
        buffer[..count].copy_from_slice(chunk);
        self.bytes = rest;
        Ok(count)
    }
}

/// Where a writer fails, once: it would take all that came after that.
#[derive(Clone, Copy)]
pub enum Fails {
    Never,
    /// At the call after this count of them, by an error.
    After(usize),
    /// At the call after this count of them, which takes no byte.
    TakesNothing(usize),
    /// Past this count of bytes.
    Past(usize),
}

/// Keeps what is written, at most a number of bytes a call.
#[derive(Drop)]
pub struct Store {
    /// What was written.
    pub kept: Vec<u8>,
    /// How many calls there were.
    pub calls: usize,
    /// Whether a call failed.
    pub has_failed: bool,
    size: usize,
    fails: Fails,
}

impl Store {
    /// A store of which each call takes at most `size` bytes.
    pub fn new(alloc: Global, size: usize, fails: Fails) -> Store {
        Store {
            kept: Vec::new(alloc),
            calls: 0,
            has_failed: false,
            size,
            fails,
        }
    }

    /// A store that wants no memory for its first `room` bytes.
    pub fn with_room(alloc: Global, room: usize, fails: Fails) -> Result<Store, AllocError> {
        let kept = Vec::with_capacity(alloc, room)?;
        Ok(Store {
            kept,
            calls: 0,
            has_failed: false,
            size: usize::MAX,
            fails,
        })
    }

    /// Forgets what was written, and keeps the room.
    pub fn clear(&mut self) {
        self.kept.clear();
        self.calls = 0;
        self.has_failed = false;
    }

    // How many bytes the call that is under way takes at most.
    fn room(&self) -> usize {
        if self.has_failed {
            return usize::MAX;
        }
        match self.fails {
            Fails::After(calls) if calls < self.calls => 0,
            Fails::TakesNothing(calls) if calls < self.calls => 0,
            Fails::Past(count) => count.saturating_sub(self.kept.len()),
            _ => usize::MAX,
        }
    }
}

impl Write for Store {
    fn write(&mut self, bytes: &[u8]) -> io::Result<usize> {
        self.calls = self.calls.saturating_add(1);
        let room = self.room();
        if room == 0 {
            self.has_failed = true;
            return match self.fails {
                Fails::TakesNothing(_) => Ok(0),
                _ => Err(io::Error::from(ErrorKind::BrokenPipe)),
            };
        }
        let count = bytes.len().min(self.size).min(room);
        self.kept.extend_from_slice(&bytes[..count])?;
        Ok(count)
    }

    fn flush(&mut self) -> io::Result<()> {
        Ok(())
    }
}
