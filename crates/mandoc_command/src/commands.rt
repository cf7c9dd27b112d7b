//! Commands, and why a command line is refused (mandoc(1), SYNOPSIS).

use crate::Texts;
use page_core_base::Settings;
use thiserror::Error;

/// Pages to format.
#[derive(Drop)]
pub struct Format {
    /// How they are formatted.
    pub settings: Settings,
    /// Their files; none: the page is read from the standard input.
    pub files: Texts,
}

/// Indexes to make of pages (makewhatis(8)).
#[derive(Drop)]
pub struct Makewhatis {
    /// The records are printed, and no index is written.
    pub prints: bool,
    /// The directories of the pages, one at least.
    pub dirs: Texts,
}

/// Words to look for in an index (whatis(1)).
#[derive(Drop)]
pub struct Whatis {
    /// The directory of the index; none: the current one.
    pub dir: Option<String>,
    /// The section that is wanted; none: each.
    pub section: Option<String>,
    /// The files of the pages are shown, and not what they are about.
    pub shows_files: bool,
    /// The words, one at least, and none of them empty.
    pub words: Texts,
}

/// What a command line asks for.
#[derive(Drop)]
pub enum Command {
    /// To format pages.
    Format(Format),
    /// To make indexes of pages.
    Makewhatis(Makewhatis),
    /// To look for words in an index.
    Whatis(Whatis),
}

/// Why a command line is refused. The texts are those that the program prints.
#[derive(Clone, Copy, Debug, PartialEq, Eq, Error)]
pub enum Refusal {
    /// A word is none that the program knows, or a value is refused.
    #[error("bad command line")]
    Words = 1,
    /// Memory was wanted and refused.
    #[error("out of memory")]
    Memory = 2,
}
