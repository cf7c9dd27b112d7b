//! Room on the stack, which is made before memory is taken for the first time.
//!
//! Where all memory is taken, the allocator may take what lies below the stack, and keep it: then the stack can't grow any more. Each case makes sure of
//! its stack from where it is called, and some are called a little deeper than the first one.

use page_test_streams::Scarcity;
use std::alloc::Global;

// The calls that lie between the program's start and the deepest case, at most, and the bytes of each.
const CALLS: u32 = 64;

const PART: usize = 4_096;

// Makes sure of the stack that a case wants, below so many more calls. Which byte of a part it reads depends on what those below it answer, so that no
// compiler can do without one of them.
#[inline(never)]
fn deepen(alloc: Global, calls: u32, above: &[u8; PART]) -> usize {
    let mut part = *above;
    part[calls as usize % PART] = 1;
    if calls == 0 {
        return usize::from(Scarcity::new(alloc).is_some());
    }
    let below = deepen(alloc, calls - 1, &part);
    below.saturating_add(part[below % PART] as usize)
}

/// Makes sure of the stack for all cases. It answers whether there was memory for that.
pub(crate) fn has_stack_room(alloc: Global) -> bool {
    deepen(alloc, CALLS, &[0; PART]) > 0
}
