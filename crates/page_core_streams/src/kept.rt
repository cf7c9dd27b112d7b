//! Sinks that keep what they are given.

ghost use Rattle.std.specs.Prelude.{◌≡◌, [], ◌∷◌, Some, map};
ghost use Rattle.page_core_base.specs.laws.Views.{message_of};
ghost use Rattle.page_core_base.specs.Rows.{row_of};
ghost use Rattle.page_core_streams.specs.Streams.{Adds, AddsInto};
ghost use Rattle.page_core_streams.specs.laws.Views.{adds-sink, adds-whole};

use page_core_base::{Cell, Fault, Note, NoteSink, RowSink};
use std::alloc::Global;
use std::marker::Model;

/// A row that is kept.
#[derive(Drop)]
pub struct Row {
    margin: u32,
    cells: Vec<Cell>,
}

impl Model for Row {
    ghost use Rattle.page_core_base.specs.Rows.{LaidRow, row_of};

    ghost Value = { LaidRow };

    ghost view = { λ r. row_of r.margin r.cells.items };
}

impl Row {
    /// A row of a margin, in columns, and cells.
    pub fn new(margin: u32, cells: Vec<Cell>) -> Row
        ensures { result ≡ row_of margin cells.items }
    {
        Row { margin, cells }
    }

    /// The margin in columns.
    pub fn margin(&self) -> u32
        ensures { result ≡ self.now.margin }
    {
        self.margin
    }

    /// The cells.
    pub fn cells(&self) -> &[Cell]
        ensures { result.now ≡ self.now.cells }
    {
        self.cells.as_slice()
    }
}

/// Keeps rows.
#[derive(Drop)]
pub struct KeptRows {
    pub rows: Vec<Row>,
    alloc: Global,
    failures: u64,
}

impl KeptRows {
    /// A sink with no rows.
    pub fn new(alloc: Global) -> KeptRows
        ensures rows { result.rows.items ≡ [] }
        ensures failures { result.failures ≡ 0 }
    {
        KeptRows {
            rows: Vec::new(alloc),
            alloc,
            failures: 0,
        }
    }
}

impl RowSink for KeptRows {
    ghost gave = { Adds (λ s. Some s.rows.items) (λ row. row ∷ []) };

    ghost within = { AddsInto (λ s. Some s.rows.items) (λ row. row ∷ []) };

    ghost failed = { λ s. s.failures };

    ghost Loans = { Unit {0} };

    ghost loans = { λ _. tt };

    ghost is_out = { λ _. Unit {0} };

    ghost laws = { adds-sink (λ s. Some s.rows.items) (λ row. row ∷ []) };

    ghost whole = { adds-whole (λ s. Some s.rows.items) (λ row. row ∷ []) };

    fn row(&mut self, margin: u32, cells: &[Cell]) -> Result<(), Fault> {
        if let Ok(kept) = Vec::from_slice(self.alloc, cells) {
            if self.rows.push(Row::new(margin, kept)).is_ok() {
                return Ok(());
            }
        }
        self.failures = self.failures.saturating_add(1);
        Err(Fault::WriteText)
    }

    fn put_out(&mut self) -> Result<(), Fault> {
        Ok(())
    }
}

/// Keeps messages.
#[derive(Drop)]
pub struct KeptNotes {
    pub notes: Vec<Note>,
    failures: u64,
}

impl KeptNotes {
    /// A sink with no messages.
    pub fn new(alloc: Global) -> KeptNotes
        ensures notes { result.notes.items ≡ [] }
        ensures failures { result.failures ≡ 0 }
    {
        KeptNotes {
            notes: Vec::new(alloc),
            failures: 0,
        }
    }
}

impl NoteSink for KeptNotes {
    ghost gave = { Adds (λ s. Some (map message_of s.notes.items)) (λ note. note ∷ []) };

    ghost within = { AddsInto (λ s. Some (map message_of s.notes.items)) (λ note. note ∷ []) };

    ghost failed = { λ s. s.failures };

    ghost Loans = { Unit {0} };

    ghost loans = { λ _. tt };

    ghost is_out = { λ _. Unit {0} };

    ghost laws = { adds-sink (λ s. Some (map message_of s.notes.items)) (λ note. note ∷ []) };

    ghost whole = { adds-whole (λ s. Some (map message_of s.notes.items)) (λ note. note ∷ []) };

    fn note(&mut self, note: &Note) -> Result<(), Fault> {
        if self.notes.push(*note).is_ok() {
            return Ok(());
        }
        self.failures = self.failures.saturating_add(1);
        Err(Fault::WriteNotes)
    }

    fn put_out(&mut self) -> Result<(), Fault> {
        Ok(())
    }
}
