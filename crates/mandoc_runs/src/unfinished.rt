//! The unfinished index of a directory, which one run at a time has for itself (makewhatis(8), FILES).
//!
//! Its file is made anew and locked, and stays locked until it has the name of the index or is removed. Only a run that holds the lock of the
//! file that has the name may take that name from it, so runs of this program never take it from one another.

ghost use Rattle.std.specs.Prelude.{◌≡◌};
ghost use Rattle.mandoc_runs.specs.IndexModes.{kept_mode};

use std::fs::{self, File, Files, OpenFile, Permissions, TryLockError};
use std::io::{self, ErrorKind};
use std::os::unix::fs::{MetadataExt, PermissionsExt};

/// Files that a run can lock for itself.
pub trait LockedFiles: Files {
    /// Locks a file until it is closed, and fails at once where it is locked already (flock(2)).
    fn try_lock(&self, file: &Self::File) -> Result<(), TryLockError>;
}

impl LockedFiles for HostRuntime {
    fn try_lock(&self, file: &File) -> Result<(), TryLockError> {
        file.try_lock()
    }
}

/// Begins an index that is to take a name, in a file with the permissions of what has the name.
pub fn begin_index<R: LockedFiles>(rt: &R, unfinished: &str, name: &str) -> io::Result<R::File> {
    let file = create_locked(rt, unfinished)?;
    match keep_mode(rt, &file, name) {
        Ok(()) => Ok(file),
        Err(error) => {
            remove_own(rt, &file, unfinished);
            Err(error)
        }
    }
}

// Makes a file that is not there yet, and locks it. What has its name, as the file of a run that was killed or a link, is removed, and never
// written to.
//
// It fails at once where another run has locked what has the name, or takes the name meanwhile.
fn create_locked<R: LockedFiles>(rt: &R, name: &str) -> io::Result<R::File> {
    remove_stale(rt, name)?;
    let file = File::create_new(rt, name)?;
    match lock(rt, &file, name) {
        Ok(()) => Ok(file),
        // (it has the name as one that nobody holds: a run that came meanwhile removes it)
        Err(TryLockError::WouldBlock) => Err(io::Error::from(ErrorKind::WouldBlock)),
        Err(TryLockError::Error(error)) => {
            remove_own(rt, &file, name);
            Err(error)
        }
    }
}

/// Gives an open file another name, once its bytes are known to be on the disk (fsync(2)), unless the name that it has is another one's by now.
pub fn put_index<R: Files>(rt: &R, file: &R::File, unfinished: &str, name: &str) -> io::Result<()> {
    file.sync_all()?;
    if !is_name_of(rt, file, unfinished)? {
        return Err(io::Error::from(ErrorKind::NotFound));
    }
    fs::rename(rt, unfinished, name)
}

/// Removes a file that is open, unless its name is another one's by now.
pub fn remove_own<R: Files>(rt: &R, file: &R::File, name: &str) {
    if is_name_of(rt, file, name).unwrap_or(false) {
        let _ = fs::remove_file(rt, name);
    }
}

// Whether a name is that of a file that is open.
fn is_name_of<R: Files>(rt: &R, file: &R::File, name: &str) -> io::Result<bool> {
    let opened = file.metadata()?;
    let named = fs::symlink_metadata(rt, name)?;
    Ok(opened.dev() == named.dev() && opened.ino() == named.ino())
}

// Gives an open file the permissions of the one whose place it is to take, where that one is a file of the same owner, who is the user that
// this run works for.
fn keep_mode<R: Files>(rt: &R, file: &R::File, name: &str) -> io::Result<()> {
    let old = match fs::symlink_metadata(rt, name) {
        Err(error) if error.kind() == ErrorKind::NotFound => return Ok(()),
        found => found?,
    };
    let new = file.metadata()?;
    match kept_mode(old.is_file() && old.uid() == new.uid(), old.mode()) {
        Some(mode) => file.set_permissions(Permissions::from_mode(mode)),
        None => Ok(()),
    }
}

// What is kept of the mode of an old index: its permissions, and no bit by which a file is run as another user.
fn kept_mode(is_own_file: bool, mode: u32) -> Option<u32>
    ensures { result ≡ kept_mode is_own_file mode }
{
    is_own_file.then_some(mode & 0o777)
}

// Removes what has a name, if it is no file that another run has locked.
fn remove_stale<R: LockedFiles>(rt: &R, name: &str) -> io::Result<()> {
    match fs::symlink_metadata(rt, name) {
        Ok(found) if found.is_file() => remove_stale_file(rt, name),
        Ok(_) => fs::remove_file(rt, name),
        Err(error) if error.kind() == ErrorKind::NotFound => Ok(()),
        Err(error) => Err(error),
    }
}

// Removes a file that no run has locked. It is locked meanwhile, so that only one run removes it.
fn remove_stale_file<R: LockedFiles>(rt: &R, name: &str) -> io::Result<()> {
    let file = fs::open(rt, name)?;
    lock(rt, &file, name)?;
    fs::remove_file(rt, name)
}

// Locks an open file. Where its name is another one's by now, the file is no longer of use, as if it were locked.
fn lock<R: LockedFiles>(rt: &R, file: &R::File, name: &str) -> Result<(), TryLockError> {
    rt.try_lock(file)?;
    match is_name_of(rt, file, name) {
        Ok(true) => Ok(()),
        Ok(false) => Err(TryLockError::WouldBlock),
        Err(error) => Err(TryLockError::Error(error)),
    }
}
