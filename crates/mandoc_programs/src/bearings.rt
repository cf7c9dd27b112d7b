//! What a fault at a page, or at a folder of pages, means for the index that is made (makewhatis(8), DIAGNOSTICS).

ghost use Rattle.std.specs.Prelude.{◌≡◌};
ghost use Rattle.mandoc_programs.specs.Bearings.{bearing_of_file, bearing_of_folder, bearing_of_page};

use page_core_base::Fault;
use std::io::ErrorKind;

/// The error numbers of memory that is refused, and of numbers of files, to the system or to the program (errno(3)).
const ENOMEM: i32 = 12;

const ENFILE: i32 = 23;

const EMFILE: i32 = 24;

/// What a fault means for the index that is made.
#[derive(Clone, Copy)]
pub enum Bearing {
    /// It is none: the index has all that is there.
    NoFault,
    /// What is there is left out of the index, which has the others.
    LeavesOut,
    /// It may pass, and what is there isn't known: the old index stays.
    KeepsOld,
}

/// What it means that a folder can't be listed.
pub fn bearing_of_folder(kind: ErrorKind) -> Bearing
    ensures { result ≡ bearing_of_folder kind }
{
    match kind {
        ErrorKind::NotFound => Bearing::NoFault,
        _ => Bearing::KeepsOld,
    }
}

/// What it means that a page can't be opened, by the number of the error.
pub fn bearing_of_file(number: Option<i32>) -> Bearing
    ensures { result ≡ bearing_of_file number }
{
    match number {
        Some(ENOMEM | ENFILE | EMFILE) => Bearing::KeepsOld,
        _ => Bearing::LeavesOut,
    }
}

/// What it means that a page ends by a fault.
pub fn bearing_of_page(fault: Fault) -> Bearing
    ensures { result ≡ bearing_of_page fault }
{
    match fault {
        Fault::Memory => Bearing::KeepsOld,
        _ => Bearing::LeavesOut,
    }
}
