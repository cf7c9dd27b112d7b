//! Where the rows and the messages of a page go, and what of it is shown as it comes.

use page_core::Fault;
use page_test_streams::{Fails, Store};
use std::alloc::Global;

/// What is shown as it comes.
#[derive(Clone, Copy)]
pub(crate) enum Shows<'a> {
    Nothing,
    Text(&'a HostRuntime),
    /// Each line's number before what it gives.
    Lines(&'a HostRuntime),
}

/// Rows and messages, and how much of both was shown.
#[derive(Drop)]
pub(crate) struct Streams<'a> {
    pub(crate) rows: Store,
    pub(crate) messages: Store,
    shows: Shows<'a>,
    rows_shown: usize,
    messages_shown: usize,
}

impl<'a> Streams<'a> {
    /// Streams that fail so, with memory for a count of bytes each.
    pub(crate) fn new(
        alloc: Global,
        room: usize,
        fails: (Fails, Fails),
        shows: Shows<'a>,
    ) -> Option<Streams<'a>> {
        let rows = Store::with_room(alloc, room, fails.0).ok()?;
        let messages = Store::with_room(alloc, room, fails.1).ok()?;
        Some(Streams {
            rows,
            messages,
            shows,
            rows_shown: 0,
            messages_shown: 0,
        })
    }

    /// Forgets what was written, and keeps the room.
    pub(crate) fn clear(&mut self) {
        self.rows.clear();
        self.messages.clear();
        self.rows_shown = 0;
        self.messages_shown = 0;
    }

    /// Whether others got the same.
    pub(crate) fn are(&self, others: &Streams) -> bool {
        self.rows.kept == others.rows.kept && self.messages.kept == others.messages.kept
    }

    /// Shows what a line gave.
    pub(crate) fn show_line(&mut self, number: u32) {
        if let Shows::Lines(rt) = self.shows {
            let _ = println!(rt; "-- line {number}");
        }
        self.show();
    }

    /// Shows the rows and then the messages that came since the last time.
    pub(crate) fn show(&mut self) {
        if let Shows::Text(rt) | Shows::Lines(rt) = self.shows {
            let rows = text_after(&self.rows, self.rows_shown);
            let messages = text_after(&self.messages, self.messages_shown);
            let _ = print!(rt; "{rows}{messages}");
        }
        self.rows_shown = self.rows.kept.len();
        self.messages_shown = self.messages.kept.len();
    }

    /// The fault of the stream of which a write failed, if one did.
    pub(crate) fn fault(&self) -> Option<Fault> {
        if self.rows.has_failed {
            Some(Fault::WriteText)
        } else if self.messages.has_failed {
            Some(Fault::WriteNotes)
        } else {
            None
        }
    }

    /// How often each was written to.
    pub(crate) fn calls(&self) -> (usize, usize) {
        (self.rows.calls, self.messages.calls)
    }
}

// What a store has after its front.
fn text_after(store: &Store, front: usize) -> &str {
    match store.kept.as_slice().get(front..) {
        Some(bytes) => std::str::from_utf8(bytes).unwrap_or("not UTF-8"),
        None => "",
    }
}
