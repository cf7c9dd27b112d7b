//! Where the pages of directories are found.

use std::alloc::Global;
use std::io::{self, Read};

/// What lists folders of pages, and opens their files.
pub trait Folders {
    type File: Read + Drop;

    ghost use Rattle.std.specs.Prelude.{ℕ, List, Ok, Err, map, option_map, string_bytes, MatchResult};
    ghost use Rattle.std.specs.IoError.{error_kind, raw_os_error};
    ghost use Rattle.mandoc_programs.specs.Sights.{Sight, is_dir, listed, opened};

    // What may be seen under a name.
    ghost sees: { Self → List ℕ → Sight → Type 0 };

    /// Whether a name is that of a directory.
    fn is_dir(&self, name: &str) -> bool
        ensures { sees self.now name.now (is_dir result) };

    /// The names of what lies in a folder, in any order. A name that isn't text can't be in an index, and is left out.
    fn list(&self, alloc: Global, name: &str) -> io::Result<Vec<String>>
        ensures { MatchResult result
            (λ names. sees self.now name.now (listed (Ok (map string_bytes names.items))))
            (λ error. sees self.now name.now (listed (Err (error_kind error)))) };

    /// Opens a file that can be read without waiting for another program; none where what has the name is a folder, a device or a pipe.
    fn open(&self, name: &str) -> io::Result<Option<Self::File>>
        ensures { MatchResult result
            (λ file. sees self.now name.now (opened (Ok (option_map Self.File.remaining file))))
            (λ error. sees self.now name.now (opened (Err (raw_os_error error)))) };
}
