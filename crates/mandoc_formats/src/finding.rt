//! Where pages are found.

use page_core_streams::Input;
use std::fs::{self, Files};

/// What opens files by their names.
pub trait Finds {
    type File: Input + Drop;

    ghost use Rattle.std.specs.Prelude.{ℕ, List, Option, option_map};

    // What may be found under a name: a file, with the bytes that it has, where these are known; or none that can be opened.
    ghost finds: { Self → List ℕ → Option (Option (List ℕ)) → Type 0 };

    /// Opens the file that has a name.
    fn find(&self, name: &str) -> Option<Self::File>
        ensures { finds self.now name.now (option_map (λ file. (Self.File.state file).remaining) result) };
}

impl<R: Files> Finds for R {
    ghost use Rattle.std.specs.Prelude.{⊤};

    type File = R::File;

    ghost finds = { λ _ _ _. ⊤ };

    fn find(&self, name: &str) -> Option<R::File> {
        fs::open(self, name).ok()
    }
}
