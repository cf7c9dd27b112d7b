//! The files of a folder, of which one call fails.

use mandoc_runs::LockedFiles;
use std::alloc::Allocator;
use std::cell::Cell;
use std::fs::{Files, Metadata, OpenFile, OpenOptions, Permissions, TryLockError};
use std::io::{self, ErrorKind, Read, Seek, SeekFrom, Write};

/// A call that can fail.
#[derive(Clone, Copy, PartialEq, Eq)]
pub enum Call {
    /// A file is opened that is read.
    Open,
    /// A file is read.
    Read,
    /// A folder is opened.
    List,
    /// Names in a folder are read.
    Names,
    /// A file is made.
    Create,
    /// A file is locked.
    Lock,
    /// A file is given a mode.
    Mode,
    /// A file is written.
    Write,
    /// What was written is put out.
    Flush,
    /// What was written is brought to the disk.
    Sync,
    /// A file is given another name.
    Rename,
    /// Rows or messages are written, or put out after that.
    Print,
    /// Rows or messages are put out, and none were written. (This one fails only where it is named, since nothing is lost by it.)
    PutNone,
    /// It is looked at what has a name. (This one fails only where it is named, since most programs go on after it.)
    Look,
    /// It is looked at what has a name, be it a link.
    LookAtLink,
}

/// Which call fails, and how many of its kind come before it.
#[derive(Drop)]
pub struct Failure {
    /// The kind of call; none: each counts.
    call: Option<Call>,
    before: Cell<u32>,
    has_come: Cell<bool>,
}

impl Failure {
    /// The failure of a call of this kind, or of any, after this number of them.
    pub fn new(call: Option<Call>, before: u32) -> Failure {
        Failure {
            call,
            before: Cell::new(before),
            has_come: Cell::new(false),
        }
    }

    /// Whether the call has failed.
    pub fn has_come(&self) -> bool {
        self.has_come.get()
    }

    /// Counts a call, and fails it if it is the one.
    pub fn at(&self, call: Call) -> io::Result<()> {
        let counts = match self.call {
            Some(wanted) => wanted == call,
            None => !matches!(call, Call::Look | Call::PutNone),
        };
        if self.has_come.get() || !counts {
            return Ok(());
        }
        if let Some(left) = self.before.get().checked_sub(1) {
            self.before.set(left);
            return Ok(());
        }
        self.has_come.set(true);
        Err(io::Error::from(ErrorKind::Other))
    }
}

/// The files of a folder, of which one call fails: each path is one in this folder.
#[derive(Drop)]
pub struct FailingFiles<'a, R> {
    pub rt: &'a R,
    pub dir: &'a str,
    pub failure: &'a Failure,
}

impl<R: AllocGlobal> FailingFiles<'_, R> {
    // The path of a file of these.
    fn path(&self, name: &str) -> io::Result<String> {
        let path = format!(in self.rt.alloc(); "{}/{name}", self.dir)?;
        Ok(path)
    }
}

/// A file of these.
#[derive(Drop)]
pub struct FailingFile<'a, F> {
    file: F,
    failure: &'a Failure,
}

/// The names in a folder of these.
#[derive(Drop)]
pub struct FailingNames<'a, D> {
    names: D,
    failure: &'a Failure,
}

impl<D: Read> Read for FailingNames<'_, D> {
    fn read(&mut self, buffer: &mut [u8]) -> io::Result<usize> {
        self.failure.at(Call::Names)?;
        self.names.read(buffer)
    }
}

impl<F: Read> Read for FailingFile<'_, F> {
    fn read(&mut self, buffer: &mut [u8]) -> io::Result<usize> {
        self.failure.at(Call::Read)?;
        self.file.read(buffer)
    }
}

impl<F: Write> Write for FailingFile<'_, F> {
    fn write(&mut self, bytes: &[u8]) -> io::Result<usize> {
        self.failure.at(Call::Write)?;
        self.file.write(bytes)
    }

    fn flush(&mut self) -> io::Result<()> {
        self.failure.at(Call::Flush)?;
        self.file.flush()
    }
}

impl<F: Seek> Seek for FailingFile<'_, F> {
    fn seek(&mut self, to: SeekFrom) -> io::Result<u64> {
        self.file.seek(to)
    }
}

impl<F: OpenFile> OpenFile for FailingFile<'_, F> {
    fn metadata(&self) -> io::Result<Metadata> {
        self.file.metadata()
    }

    fn set_len(&self, size: u64) -> io::Result<()> {
        self.file.set_len(size)
    }

    fn sync_all(&self) -> io::Result<()> {
        self.failure.at(Call::Sync)?;
        self.file.sync_all()
    }

    fn sync_data(&self) -> io::Result<()> {
        self.file.sync_data()
    }

    fn set_permissions(&self, permissions: Permissions) -> io::Result<()> {
        self.failure.at(Call::Mode)?;
        self.file.set_permissions(permissions)
    }
}

impl<'a, R: LockedFiles + AllocGlobal> LockedFiles for FailingFiles<'a, R> {
    fn try_lock(&self, file: &FailingFile<'a, R::File>) -> Result<(), TryLockError> {
        match self.failure.at(Call::Lock) {
            Ok(()) => self.rt.try_lock(&file.file),
            Err(error) => Err(TryLockError::Error(error)),
        }
    }
}

// What the program does not call is not supported.
impl<'a, R: Files + AllocGlobal> Files for FailingFiles<'a, R> {
    type File = FailingFile<'a, R::File>;

    type Dir = FailingNames<'a, R::Dir>;

    fn open_file(&self, how: &OpenOptions, path: &str) -> io::Result<FailingFile<'a, R::File>> {
        // (an unfinished index where there is one already would be another run's)
        if path.ends_with("whatis.tmp") && how.asks_create() && !how.asks_create_new() {
            return Err(io::Error::from(ErrorKind::Unsupported));
        }
        self.failure.at(if how.asks_create() || how.asks_create_new() {
            Call::Create
        } else {
            Call::Open
        })?;
        let path = self.path(path)?;
        Ok(FailingFile {
            file: self.rt.open_file(how, path.as_str())?,
            failure: self.failure,
        })
    }

    fn open_dir(&self, path: &str) -> io::Result<FailingNames<'a, R::Dir>> {
        self.failure.at(Call::List)?;
        let path = self.path(path)?;
        Ok(FailingNames {
            names: self.rt.open_dir(path.as_str())?,
            failure: self.failure,
        })
    }

    fn rename(&self, from: &str, to: &str) -> io::Result<()> {
        self.failure.at(Call::Rename)?;
        let from = self.path(from)?;
        let to = self.path(to)?;
        self.rt.rename(from.as_str(), to.as_str())
    }

    fn metadata(&self, path: &str) -> io::Result<Metadata> {
        self.failure.at(Call::Look)?;
        let path = self.path(path)?;
        self.rt.metadata(path.as_str())
    }

    fn remove_file(&self, path: &str) -> io::Result<()> {
        let path = self.path(path)?;
        self.rt.remove_file(path.as_str())
    }

    fn create_dir(&self, path: &str) -> io::Result<()> {
        let path = self.path(path)?;
        self.rt.create_dir(path.as_str())
    }

    fn symlink_metadata(&self, path: &str) -> io::Result<Metadata> {
        self.failure.at(Call::LookAtLink)?;
        let path = self.path(path)?;
        self.rt.symlink_metadata(path.as_str())
    }

    fn copy(&self, _from: &str, _to: &str) -> io::Result<u64> {
        Err(io::Error::from(ErrorKind::Unsupported))
    }

    fn remove_dir(&self, _path: &str) -> io::Result<()> {
        Err(io::Error::from(ErrorKind::Unsupported))
    }

    fn remove_dir_all<B: Allocator>(&self, _alloc: B, _path: &str) -> io::Result<()> {
        Err(io::Error::from(ErrorKind::Unsupported))
    }
}
