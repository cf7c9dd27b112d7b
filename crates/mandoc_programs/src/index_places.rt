//! Where the indexes of directories are put (makewhatis(8), FILES).

use std::alloc::{AllocError, Global};
use std::io::Write;

/// What indexes are written into, each in a file of its own, until it takes its name.
pub trait IndexPlaces {
    type File: Write + Drop;

    ghost use Rattle.std.specs.Prelude.{ℕ, List, [], Option, IfOk, IfSome};
    ghost use Rattle.page_core_streams.specs.Streams.{Grows};
    ghost use Rattle.mandoc_programs.specs.Indexes.{Index, IsBegun, PutsIn};

    // The indexes that took their names, in their order, where these are known; and the directory of the one that was begun last.
    ghost put: { Self → Option (List Index) };

    ghost begun: { Self → Option (List ℕ) };

    /// Begins the index of a directory in a file that is empty; none where no such file can be made.
    fn begin(&mut self, alloc: Global, dir: &str) -> Result<Option<Self::File>, AllocError>
        ensures same { Grows (put self.old) (put self.new) [] }
        ensures begun { IfOk result (λ file. IfSome file (λ index. IsBegun (put self.new) (begun self.new) dir.now (Self.File.contents index))) };

    /// Gives the index that was begun last, once it is whole, its name, and says whether that succeeded; else what had the name still has it.
    fn put_in_place(&mut self, file: Self::File) -> bool
        ensures { PutsIn result (put self.old) (put self.new) (begun self.old) (Self.File.contents file) };

    /// Removes an index that can't be finished.
    fn give_up(&mut self, file: Self::File)
        ensures { Grows (put self.old) (put self.new) [] };
}
