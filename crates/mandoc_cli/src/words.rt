//! The words of the command line, as the system gives them.

use mandoc_command::Refusal;
use mandoc_formats::SYSTEM_FAILURE;
use std::env;
use std::io::{ErrorKind, Write};
use std::rt::Env;

/// The status at a bad command line (mandoc(1), EXIT STATUS).
const BAD_COMMAND: u8 = 5;

/// The words after the program's name.
///
/// A word that is no UTF-8 makes a bad command line: no option has such a value, and a file is opened by a name that is text.
pub fn words_given<R: Env + AllocGlobal>(rt: &R) -> Result<Vec<String>, Refusal> {
    match env::args(rt) {
        Ok(words) => words
            .skip(1)
            .collect(rt.alloc())
            .map_err(|_| Refusal::Memory),
        Err(error) => Err(refusal_by(error.kind())),
    }
}

// Why a command line is refused whose words can't be read.
fn refusal_by(kind: ErrorKind) -> Refusal {
    match kind {
        ErrorKind::InvalidData => Refusal::Words,
        _ => Refusal::Memory,
    }
}

/// Says why a command line is refused, and answers the status.
pub fn refuse<V: Write>(err: &mut V, refusal: Refusal) -> u8 {
    let _ = writeln!(err, "mandoc: {refusal}");
    match refusal {
        Refusal::Words => BAD_COMMAND,
        Refusal::Memory => SYSTEM_FAILURE,
    }
}
