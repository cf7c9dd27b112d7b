//! Faults: why a call gave up.

use crate::SettingFault;
use thiserror::Error;

/// Why a call gave up. The texts are those that the program prints after a file's name.
#[derive(Clone, Copy, Debug, PartialEq, Eq, Error)]
pub enum Fault {
    /// Memory was wanted and refused.
    #[error("out of memory")]
    Memory,
    /// The reader failed.
    #[error("cannot read")]
    Read,
    /// The writer or sink of rows failed.
    #[error("cannot write")]
    WriteText,
    /// The writer or sink of messages failed.
    #[error("cannot write")]
    WriteNotes,
    /// The input passes a bound on bytes, lines or read calls.
    #[error("input too large")]
    TooLong,
    /// The settings are refused.
    #[error(transparent)]
    Settings(SettingFault),
    /// An earlier call failed.
    #[error("failed before")]
    Failed,
    /// The page has ended.
    #[error("ended before")]
    Ended,
    /// A line of an index is bad; the line's number.
    #[error("line {0}: bad index")]
    BadIndex(u32),
}
