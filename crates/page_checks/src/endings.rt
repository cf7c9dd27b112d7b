//! How a page ends whose lines come one by one.
//!
//! What takes its lines is a parameter here, so that the state of a page, or of roff, which is large, is in few proofs.

ghost use Rattle.std.specs.Prelude.{◌≡◌, ◌≤◌, length, false};

use crate::cuts::Lack;
use crate::lines::{BYTES, Feed, Lines};
use page_core::Fault;
use page_engine::Outcome;
use std::alloc::{AllocError, Global};

/// How a page ended.
#[derive(Clone, Copy)]
pub struct Ending {
    pub result: Result<Outcome, Fault>,
    /// The fault of each further call.
    pub later: Option<Fault>,
    /// Whether nothing was reported of how its lines are cut, which these streams do not get.
    pub is_plain: bool,
    /// What memory lacked for at a cut, if for anything.
    pub lack: Option<Lack>,
    /// Whether there was memory after the end.
    pub has_memory: bool,
}

impl Ending {
    /// The end where there is nothing that takes lines.
    pub fn without_lines(fault: Fault) -> Ending {
        Ending {
            result: Err(fault),
            later: None,
            is_plain: false,
            lack: None,
            has_memory: true,
        }
    }
}

/// Feeds all lines and the end of a page. What takes them was made last, and memory is wanted only after the end: so where an allocation is refused
/// between the two, it is one of what takes the lines.
pub fn run<F: Feed + Drop>(alloc: Global, bytes: &[u8], mut lines: Lines, mut feed: F) -> Ending
    requires short { length bytes.now ≤ BYTES }
    requires ready { lines.cutter.ready ≡ false }
    requires consumed { lines.cutter.point.line.consumed ≡ 0 }
{
    let result = lines.feed_all(&mut feed, bytes);
    let outcome = feed.outcome();
    let later = feed.later();
    let own: Result<Vec<u8>, AllocError> = Vec::with_capacity(alloc, 1);
    Ending {
        result: result.map(|()| outcome),
        later,
        is_plain: lines.are_plain(),
        lack: feed.lack(),
        has_memory: own.is_ok(),
    }
}
