//! What is written: a writer that has little room, messages and cells.

use arrayvec::ArrayString;
use page_core::{Cell, Font, Note, NoteKind};
use std::alloc::{AllocError, Global};
use std::io;
use std::io::{ErrorKind, Write};

// A writer that takes at most `most` bytes at a call, after this number of calls that are interrupted. Once it has no room it fails, by an
// error or by taking no byte.
#[derive(Drop)]
pub(crate) struct Narrow {
    pub(crate) got: Vec<u8>,
    pub(crate) most: usize,
    pub(crate) room: usize,
    pub(crate) interruptions: u32,
    pub(crate) takes_none: bool,
}

impl Write for Narrow {
    fn write(&mut self, buf: &[u8]) -> io::Result<usize> {
        if self.interruptions > 0 {
            self.interruptions -= 1;
            return Err(io::Error::from(ErrorKind::Interrupted));
        }
        let count = buf.len().min(self.most).min(self.room);
        if count == 0 && !self.takes_none {
            return Err(io::Error::from(ErrorKind::BrokenPipe));
        }
        self.got.extend_from_slice(&buf[..count])?;
        self.room -= count;
        Ok(count)
    }

    fn flush(&mut self) -> io::Result<()> {
        Ok(())
    }
}

// A writer that takes `most` bytes at a call, and `room` in all.
pub(crate) fn narrow_writer(alloc: Global, most: usize, room: usize) -> Narrow {
    Narrow {
        got: Vec::new(alloc),
        most,
        room,
        interruptions: 0,
        takes_none: false,
    }
}

pub(crate) fn note(kind: NoteKind, line: u32, column: u32, detail: &str) -> Note {
    let mut kept = ArrayString::new();
    let _ = kept.try_push_str(detail);
    Note {
        kind,
        line,
        column,
        detail: kept,
    }
}

pub(crate) fn cells(alloc: Global, text: &str, font: Font) -> Result<Vec<Cell>, AllocError> {
    let mut cells = Vec::new(alloc);
    for c in text.chars() {
        cells.push(Cell { c, font })?;
    }
    Ok(cells)
}
