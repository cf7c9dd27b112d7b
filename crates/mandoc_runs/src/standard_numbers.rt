//! The numbers of the standard streams, kept from files that are written (open(2)).

use std::fs::{self, Files};
use std::io;

/// The device that is empty (null(4)).
pub const NULL_DEVICE: &str = "/dev/null";

/// Takes the three lowest numbers that are free, until what it answers is dropped. A file that is opened after it never has the number of a
/// standard stream, so nothing that is printed on a stream that was closed goes into it. The empty device is opened for reading alone: what is
/// printed there is refused, as before.
pub fn hold_standard_numbers<R: Files>(rt: &R) -> io::Result<(R::File, R::File, R::File)> {
    let first = fs::open(rt, NULL_DEVICE)?;
    let second = fs::open(rt, NULL_DEVICE)?;
    Ok((first, second, fs::open(rt, NULL_DEVICE)?))
}
