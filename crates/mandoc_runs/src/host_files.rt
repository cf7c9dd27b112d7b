//! The files of pages and indexes, as the system has them (stat(2), open(2)).

use crate::unfinished::{LockedFiles, begin_index, put_index, remove_own};
use mandoc_formats::Finds;
use mandoc_programs::{Folders, IndexPlaces};
use std::alloc::{AllocError, Global};
use std::fs::{self, Files, Metadata, OpenFile};
use std::io::{self, ErrorKind};

/// Files of which those alone are found that can be read without waiting for another program.
#[derive(Clone, Copy)]
pub struct RegularFiles<'a, R> {
    pub files: &'a R,
}

impl<R: Files> Finds for RegularFiles<'_, R> {
    ghost use Rattle.std.specs.Prelude.{⊤};

    type File = R::File;

    ghost finds = { λ _ _ _. ⊤ };

    fn find(&self, name: &str) -> Option<R::File> {
        self.open(name).unwrap_or(None)
    }
}

impl<R: Files> Folders for RegularFiles<'_, R> {
    ghost use Rattle.std.specs.Prelude.{⊤};

    type File = R::File;

    ghost sees = { λ _ _ _. ⊤ };

    fn is_dir(&self, name: &str) -> bool {
        fs::metadata(self.files, name).is_ok_and(|found| found.is_dir())
    }

    fn list(&self, alloc: Global, name: &str) -> io::Result<Vec<String>> {
        let entries = match fs::read_dir(&(self.files, alloc), name) {
            // (a link to what isn't there is no folder that is missing)
            Err(error) if error.kind() == ErrorKind::NotFound => {
                fs::symlink_metadata(self.files, name)?;
                return Err(io::Error::from(ErrorKind::NotADirectory));
            }
            found => found?,
        };
        let mut names = Vec::new(alloc);
        for entry in entries {
            match entry {
                Ok(entry) => names.push(String::from_str(alloc, entry.file_name())?)?,
                Err(error) if error.kind() == ErrorKind::InvalidFilename => {}
                Err(error) => return Err(error),
            }
        }
        Ok(names)
    }

    fn open(&self, name: &str) -> io::Result<Option<R::File>> {
        // (looked at before it is opened, since opening a pipe waits, and afterwards, since another one may have taken the name)
        if is_other(fs::metadata(self.files, name)) {
            return Ok(None);
        }
        let file = fs::open(self.files, name)?;
        let is_page = !is_other(file.metadata());
        Ok(is_page.then_some(file))
    }
}

// Whether something is known to be no file.
fn is_other(found: io::Result<Metadata>) -> bool {
    found.is_ok_and(|metadata| !metadata.is_file())
}

/// The indexes of directories, and the names of the one that is made: while it is, and afterwards.
#[derive(Drop)]
pub struct IndexFiles<'a, R> {
    pub files: &'a R,
    pub names: Option<(String, String)>,
}

impl<R: LockedFiles> IndexPlaces for IndexFiles<'_, R> {
    ghost use Rattle.std.specs.Prelude.{None};

    type File = R::File;

    ghost put = { λ _. None };

    ghost begun = { λ _. None };

    fn begin(&mut self, alloc: Global, dir: &str) -> Result<Option<R::File>, AllocError> {
        let unfinished = format!(in alloc; "{dir}/whatis.tmp")?;
        let name = format!(in alloc; "{dir}/whatis.idx")?;
        let begun = begin_index(self.files, unfinished.as_str(), name.as_str());
        self.names = Some((unfinished, name));
        Ok(begun.ok())
    }

    // The file is closed, and so no longer locked, once that is done.
    fn put_in_place(&mut self, file: R::File) -> bool {
        let Some((unfinished, name)) = &self.names else {
            return false;
        };
        let put = put_index(self.files, &file, unfinished.as_str(), name.as_str());
        if put.is_err() {
            remove_own(self.files, &file, unfinished.as_str());
        }
        put.is_ok()
    }

    fn give_up(&mut self, file: R::File) {
        if let Some((unfinished, _)) = &self.names {
            remove_own(self.files, &file, unfinished.as_str());
        }
    }
}
