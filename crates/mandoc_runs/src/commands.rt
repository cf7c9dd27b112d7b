//! What a command line asks for, done over the system's files (mandoc(1), makewhatis(8), whatis(1)).

ghost use Rattle.std.specs.Prelude.{◌≡◌, ◌⊎◌};
ghost use Rattle.mandoc_programs.specs.Commands.{Ran, ReadsInput};

use crate::host_files::{IndexFiles, RegularFiles};
use crate::unfinished::LockedFiles;
use mandoc_command::Command;
use mandoc_formats::Waiting;
use page_core_streams::{Input, Target};
use std::alloc::Global;
use std::io::{Read, Write};

/// Does what a command asks for, and answers its status (mandoc(1), EXIT STATUS) and both streams.
pub fn run_command<R: LockedFiles, I: Read, W: Write, V: Write>(
    rt: &R,
    alloc: Global,
    command: &Command,
    input: &mut I,
    out: W,
    err: V,
) -> (u8, W, V)
    ensures ran { Ran ⟦<I as Input>⟧.state ⟦<R::File as Input>⟧.state ⟦<Waiting<W> as Target>⟧.failures ⟦<Waiting<V> as Target>⟧.failures command.now (I.remaining input.old)
        result.0 (W.contents out) (W.contents result.1) (V.contents err) (V.contents result.2) }
    ensures input { ReadsInput command.now ⊎ (input.new ≡ input.old) }
{
    let mut out = Waiting::new(out);
    let mut err = Waiting::new(err);
    let status = mandoc_programs::run_command(
        rt,
        &RegularFiles { files: rt },
        &mut IndexFiles {
            files: rt,
            names: None,
        },
        alloc,
        command,
        input,
        &mut out,
        &mut err,
    );
    (status, out.into_inner(), err.into_inner())
}
