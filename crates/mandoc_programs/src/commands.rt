//! What a command line asks for, done (mandoc(1), makewhatis(8), whatis(1)).

ghost use Rattle.std.specs.Prelude.{◌≡◌, ◌⊎◌, ◌<◌, []};
ghost use Rattle.page_core_streams.specs.Streams.{Grows};
ghost use Rattle.mandoc_formats.specs.Formats.{HasFailed, causes};
ghost use Rattle.mandoc_programs.specs.Indexes.{IsSaid};
ghost use Rattle.mandoc_programs.specs.Commands.{IsRun, ReadsInput, Run};
ghost use Rattle.mandoc_programs.specs.Searches.{index_causes};

use crate::folders::Folders;
use crate::index_places::IndexPlaces;
use crate::indexing::makewhatis;
use crate::searching::search;
use mandoc_command::Command;
use mandoc_formats::{Buffered, Finds, format_all};
use page_core_streams::Input;
use std::alloc::Global;

/// Does what a command asks for, and answers its status (mandoc(1), EXIT STATUS): pages to format are found among `files`, and indexes and the
/// pages of directories among `regular` ones.
pub fn run_command<
    F: Finds,
    R: Finds + Folders,
    P: IndexPlaces,
    I: Input,
    W: Buffered,
    V: Buffered,
>(
    files: &F,
    regular: &R,
    places: &mut P,
    alloc: Global,
    command: &Command,
    input: &mut I,
    out: &mut W,
    err: &mut V,
) -> u8
    ensures came { (run : Run) × IsRun (F.finds files.now) (R.finds regular.now) (R.sees regular.now) (HasFailed V.counts V.failures) (HasFailed W.counts W.failures)
        (causes I.counts W.counts V.counts I.state W.failures V.failures) (causes F.File.counts W.counts V.counts F.File.state W.failures V.failures)
        (index_causes ⟦<<R as Finds>::File as Input>⟧.counts W.counts ⟦<<R as Finds>::File as Input>⟧.state W.failures) command.now (I.state input.old).remaining run
        × Grows (W.contents out.old) (W.contents out.new) run.out × Grows (V.contents err.old) (V.contents err.new) run.err
        × Grows (P.put places.old) (P.put places.new) run.put × (result ≡ run.status) }
    ensures put_out { W.waits out.old ≡ [] → result < 6 → W.waits out.new ≡ [] }
    ensures said { V.waits err.old ≡ [] → result < 6 → IsSaid (V.waits err.new) (HasFailed V.counts V.failures) }
    ensures input { ReadsInput command.now ⊎ (input.new ≡ input.old) }
{
    match command {
        Command::Format(format) => format_all(files, alloc, format, input, out, err),
        Command::Makewhatis(asked) => makewhatis(regular, places, alloc, asked, out, err),
        Command::Whatis(asked) => search(regular, alloc, asked, out, err),
    }
}
