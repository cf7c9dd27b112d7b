//! Callers of the runs: with any reader and writers, and with those that are known never to fail.
//!
//! A call whose failures are counted can be held to its reasons: over streams that never fail it never reports that one did.

ghost use Rattle.std.specs.Prelude.{◌≡◌, Err, OnErr};

use page_core_base::{Fault, Note, Settings};
use page_core_streams::{Nowhere, write_note};
use page_engine::{Outcome, Record, Show, SliceSource, run_bytes, run_page, whatis};
use page_engine_records::name_record;
use std::alloc::Global;
use std::io::{Read, Write};

/// Any reader and any writers are taken as they are.
pub fn any<I: Read, W: Write, V: Write>(
    alloc: Global,
    reader: &mut I,
    out: &mut W,
    notes: &mut V,
    settings: &Settings,
) -> Result<Outcome, Fault> {
    run_page(alloc, reader, out, notes, "page", settings)
}

/// Over bytes in memory, and writers that never fail, no read and no write is said to have failed.
pub fn quiet(alloc: Global, bytes: &[u8], settings: &Settings) -> Result<Outcome, Fault>
    ensures read { result ≡ Err Fault.Read → ⊥ }
    ensures text { result ≡ Err Fault.WriteText → ⊥ }
    ensures notes { result ≡ Err Fault.WriteNotes → ⊥ }
{
    let mut source = SliceSource::new(bytes);
    let mut out = Nowhere;
    let mut notes = Nowhere;
    run_page(alloc, &mut source, &mut out, &mut notes, "page", settings)
}

/// A page in memory, with writers that never fail.
pub fn quiet_bytes(alloc: Global, bytes: &[u8], settings: &Settings) -> Result<Outcome, Fault>
    ensures text { result ≡ Err Fault.WriteText → ⊥ }
    ensures notes { result ≡ Err Fault.WriteNotes → ⊥ }
{
    let mut out = Nowhere;
    let mut notes = Nowhere;
    run_bytes(alloc, bytes, &mut out, &mut notes, "page", settings)
}

/// The record of a page in memory.
pub fn quiet_record(
    alloc: Global,
    bytes: &[u8],
    settings: &Settings,
) -> Result<Option<Record>, Fault>
    ensures { result ≡ Err Fault.Read → ⊥ }
{
    let mut source = SliceSource::new(bytes);
    name_record(alloc, &mut source, settings)
}

/// A search in an index in memory, with a writer that never fails.
pub fn quiet_search(alloc: Global, index: &[u8], words: &[&str]) -> Result<u64, Fault>
    ensures read { result ≡ Err Fault.Read → ⊥ }
    ensures text { result ≡ Err Fault.WriteText → ⊥ }
{
    let mut source = SliceSource::new(index);
    let mut out = Nowhere;
    whatis(alloc, &mut source, &mut out, words, None, Show::Entry)
}

/// A message to a writer that never fails is written.
pub fn quiet_note(note: &Note) -> Result<(), Fault>
    ensures { OnErr result ⊥ }
{
    let mut out = Nowhere;
    write_note(&mut out, "page", note)
}
