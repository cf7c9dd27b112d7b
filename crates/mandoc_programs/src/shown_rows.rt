//! Names of files as rows (whatis(1), `-w`).

ghost use Rattle.std.specs.Prelude.{◌≡◌, ◌++◌, length};
ghost use Rattle.std.specs.Borrow.{GName};
ghost use Rattle.std.specs.List.{flat_map};
ghost use Rattle.page_core_streams.specs.Streams.{Adds, AddsInto};
ghost use Rattle.page_core_streams.specs.laws.Views.{Writes, adds-sink, adds-whole};
ghost use Rattle.mandoc_formats.specs.Formats.{shown};
ghost use Rattle.mandoc_programs.specs.Searches.{shown_parts, shown_row};

use mandoc_formats::put_name;
use page_core_base::Fault;
use page_core_streams::Target;
use page_engine_index::LineSink;

/// Writes lines, each the name of a file, as messages have it. What is no text is written as it is.
#[derive(Drop)]
pub(crate) struct ShownRows<'a, W> {
    out: &'a mut W,
    failures: u64,
}

impl<'a, W: Target> ShownRows<'a, W> {
    /// A sink over a writer.
    pub(crate) fn new(out: &'a mut W) -> ShownRows<'a, W>
        ensures loan { result.out.ghost_name ≡ out.entry.ghost_name }
        ensures out { result.out.now ≡ out.entry.now }
        ensures failures { result.failures ≡ 0 }
    {
        ShownRows { out, failures: 0 }
    }
}

impl<W: Target> LineSink for ShownRows<'_, W> {
    ghost gave = { Adds (λ s. W.contents s.out.now) shown_row };

    ghost within = { AddsInto (λ s. W.contents s.out.now) shown_row };

    ghost failed = { λ s. s.failures };

    ghost Loans = { GName };

    ghost loans = { λ s. s.out.ghost_name };

    ghost laws = { adds-sink (λ s. W.contents s.out.now) shown_row };

    ghost whole = { adds-whole (λ s. W.contents s.out.now) shown_row };

    fn line(&mut self, parts: &[&[u8]]) -> Result<(), Fault> {
        if put_row(self.out, parts) {
            return Ok(());
        }
        self.failures = self.failures.saturating_add(1);
        Err(Fault::WriteText)
    }
}

// Writes a row. One that is not given as a name and its end is refused.
fn put_row<W: Target>(out: &mut W, parts: &[&[u8]]) -> bool
    ensures { Writes result (W.contents out.old) (W.contents out.new) (shown_row (flat_map (λ part. part.now) parts.now)) }
{
    if parts.len() == 2 && parts[1].len() == 1 {
        return put_name_row(out, parts[0], parts[1]);
    }
    false
}

// Writes a name and the end of its row.
#[tactic(auto, using(mandoc_formats::proofs::Turns::writes_on, mandoc_formats::proofs::Turns::ended_before))]
fn put_name_row<W: Target>(out: &mut W, name: &[u8], end: &[u8]) -> bool
    ensures { Writes result (W.contents out.old) (W.contents out.new) (shown_parts (length name.now) name.now ++ end.now) }
{
    if put_parts(out, name) {
        return out.put(end);
    }
    false
}

// Writes a name.
fn put_parts<W: Target>(out: &mut W, name: &[u8]) -> bool
    ensures { Writes result (W.contents out.old) (W.contents out.new) (shown_parts (length name.now) name.now) }
{
    for part in name.utf8_chunks() {
        if !put_part(out, part.valid(), part.invalid()) {
            return false;
        }
    }
    true
}

// Writes a text as a name, and then what is no text.
#[tactic(auto, using(mandoc_formats::proofs::Turns::writes_on, mandoc_formats::proofs::Turns::ended_before))]
fn put_part<W: Target>(out: &mut W, text: &str, other: &[u8]) -> bool
    ensures { Writes result (W.contents out.old) (W.contents out.new) (shown text.now ++ other.now) }
{
    if put_name(out, text) {
        return out.put(other);
    }
    false
}
