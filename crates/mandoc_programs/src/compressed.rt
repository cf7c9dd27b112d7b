//! The line about pages that are compressed, which an index passes over (makewhatis(8)).

ghost use Rattle.std.specs.Prelude.{◌≡◌, [], false};
ghost use Rattle.page_core_streams.specs.laws.Views.{Writes};
ghost use Rattle.mandoc_formats.specs.Formats.{HasFailed, Tells, line_end, shown};
ghost use Rattle.mandoc_programs.specs.Indexes.{compressed_in, compressed_line, compressed_text};

use crate::pages::Tally;
use itoa::Buffer;
use mandoc_formats::{Buffered, put_front};
use page_core_base::Fault;

/// Says how many pages of a directory are compressed, if some are.
pub(crate) fn report_compressed<V: Buffered>(err: &mut V, dir: &str, given: Result<Tally, Fault>)
    ensures { Tells (HasFailed V.counts V.failures) (V.contents err.old) (V.contents err.new) (compressed_in (shown dir.now) given) }
{
    if let Ok(tally) = given {
        put_compressed(err, dir, tally.compressed);
    }
}

// Writes the line about pages that are compressed.
#[tactic(auto, using(mandoc_formats::proofs::Turns::writes_on, mandoc_formats::proofs::Turns::ended_before))]
fn put_compressed<V: Buffered>(err: &mut V, dir: &str, count: u64) -> bool
    ensures failed { result ≡ false → HasFailed V.counts V.failures }
    ensures writes { Writes result (V.contents err.old) (V.contents err.new) (compressed_line (shown dir.now) count) }
{
    if count == 0 {
        return true;
    }
    if put_front(err, dir) {
        return put_count(err, count);
    }
    false
}

// Writes the end of that line.
fn put_count<V: Buffered>(err: &mut V, count: u64) -> bool
    ensures failed { result ≡ false → HasFailed V.counts V.failures }
    ensures writes { Writes result (V.contents err.old) (V.contents err.new) (line_end [] (compressed_text count)) }
{
    if count == 1 {
        return err.put_through(&[b": 1 compressed page passed over\n"]);
    }
    let mut digits = Buffer::new();
    let digits = digits.format(count);
    err.put_through(&[b": ", digits.as_bytes(), b" compressed pages passed over\n"])
}
