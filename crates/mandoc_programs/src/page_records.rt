//! The records of pages, unless they are compressed (makewhatis(8), DESCRIPTION).

ghost use Rattle.std.specs.Prelude.{◌≡◌, ◌≤◌, ◌<◌, length, take, IfSome};
ghost use Rattle.std.specs.Io.KnownBytes.{Consumes, IsAtEnd, prepend_known};
ghost use Rattle.mandoc_programs.specs.Compressed.{begins_blocks, is_bzip2, is_compressed};
ghost use Rattle.mandoc_programs.specs.Indexes.{IsFoundIn, IsPlain, ReadsPage};

use page_core_base::{Fault, Settings};
use page_core_streams::{Input, Reading};
use page_engine_index::Record;
use page_engine_records::name_record;
use std::alloc::Global;
use std::io::Read;

/// How many bytes tell a page that is compressed.
const HEAD: usize = 10;

/// How often a read is tried.
const TRIES: u32 = 1_000_000;

/// What is found in a file among the pages.
#[derive(Drop)]
pub enum Found {
    /// A page with this record.
    Record(Record),
    /// A page without one.
    Nothing,
    /// A page that is compressed.
    Compressed,
}

/// Reads a page, up to its end, unless it is compressed.
pub(crate) fn find_record<I: Read>(alloc: Global, input: &mut I) -> Result<Found, Fault>
    ensures { IsFoundIn (I.remaining input.old) result }
{
    let settings = plain();
    let mut head = [0; HEAD];
    let Some(count) = read_head(input, &mut head) else {
        return Err(Fault::Read);
    };
    let head = &head[..count];
    if is_compressed(head) {
        return Ok(Found::Compressed);
    }
    match read_after(alloc, head, input, &settings) {
        Ok(Some(record)) => Ok(Found::Record(record)),
        Ok(None) => Ok(Found::Nothing),
        Err(fault) => Err(fault),
    }
}

// Reads the first bytes of a page: as many as there is room for, or all; none: a read fails.
fn read_head<I: Read>(input: &mut I, head: &mut [u8]) -> Option<usize>
    ensures { IfSome result (λ count. (count ≤ length head.new)
        × Consumes (I.remaining input.old) (I.remaining input.new) (take count head.new)
        × (count < length head.new → IsAtEnd (I.remaining input.new))) }
{
    let mut count = 0;
    for _ in 0..TRIES {
        if count == head.len() {
            return Some(count);
        }
        match input.read_part(&mut head[count..]) {
            Reading::End => return Some(count),
            Reading::Bytes(more) => count += more,
            Reading::Failure => return None,
        }
    }
    None
}

// Reads the record of a page of which these bytes were read.
fn read_after<I: Read>(
    alloc: Global,
    head: &[u8],
    input: &mut I,
    settings: &Settings,
) -> Result<Option<Record>, Fault>
    requires { IsPlain settings.now }
    ensures { ReadsPage (prepend_known head.now (I.remaining input.old)) result }
{
    let mut page = head.chain(input);
    name_record(alloc, &mut page, settings)
}

// The settings of a run with no options.
fn plain() -> Settings
    ensures { IsPlain result }
{
    Settings::new()
}

// Whether a page that begins so is compressed, by gzip, xz, bzip2 or zstd.
#[tactic(auto, unfolding(crate::specs::Compressed::is_compressed))]
fn is_compressed(bytes: &[u8]) -> bool
    ensures { result ≡ is_compressed bytes.now }
{
    bytes.starts_with(b"\x1F\x8B")
        || bytes.starts_with(b"\xFD7zXZ\0")
        || is_bzip2(bytes)
        || bytes.starts_with(b"(\xB5/\xFD")
}

// Whether it is by bzip2.
fn is_bzip2(bytes: &[u8]) -> bool
    ensures { result ≡ is_bzip2 bytes.now }
{
    bytes.starts_with(b"BZh") && begins_blocks(&bytes[3..])
}

// Whether bytes begin with the size of blocks, and the first of them or, where there is none, their end.
fn begins_blocks(bytes: &[u8]) -> bool
    ensures { result ≡ begins_blocks bytes.now }
{
    match bytes.split_first() {
        Some((size, rest)) => {
            matches!(*size, b'1'..=b'9')
                && (rest.starts_with(b"1AY&SY") || rest.starts_with(b"\x17rE8P\x90"))
        }
        None => false,
    }
}
