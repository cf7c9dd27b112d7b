//! Memory that is taken, so that it is refused to all else of this process, and given back by steps.
//!
//! Blocks that are reserved and never written cost address space alone. So a program may take all that there is, in ever smaller blocks, and
//! what it then gives back is all that a call can get. A step of 1,040 bytes is more than the allocator's short lists take, so steps that
//! lie side by side are joined: where a call is made after each step, each growth of more than a step is the first one that is
//! refused at some step.
//!
//! What is given back at last may lie in pieces from then on: a program that refuses memory to several calls begins with the one whose growths are the
//! largest.
//!
//! Where the allocator finds no other room it takes what lies right below the stack, which then can't grow any more. So the stack is made larger first, by
//! far more than a run over a page wants, and stays so: memory is refused to what is called by the function that made this.
//!
//! This is for Linux with the GNU C library, and takes some 100 MB of memory at 24 GB of it, for a quarter of a second. `is_cheap` says where it is not for use.

use std::alloc::Global;

// More blocks than there are.
const BLOCKS: usize = 400_000;

// The steps by which memory is given back, and the bytes of each.
const STEPS: usize = 8_192;

const STEP: usize = 1_040;

// The stack that is made sure of for calls: so many parts, and the bytes of each. A run over a page takes a tenth of it.
const PARTS: u32 = 256;

const PART: usize = 4_096;

// Makes the stack larger by a part, and by so many more. It answers how many parts it has filled: which byte of a part it reads depends on what
// those after it answer, so that no compiler can do without one of them.
#[inline(never)]
fn grow_stack(parts: u32, above: &[u8; PART]) -> usize {
    let mut part = *above;
    part[parts as usize % PART] = 1;
    if parts == 0 {
        return 1;
    }
    let below = grow_stack(parts - 1, &part);
    below.saturating_add(part[below % PART] as usize)
}

/// Memory that is kept from all else.
#[derive(Drop)]
pub struct Scarcity {
    alloc: Global,
    blocks: Vec<Vec<u8>>,
    steps: Vec<Vec<u8>>,
}

impl Scarcity {
    /// Keeps nothing yet but the steps, which lie side by side, and makes the stack larger.
    pub fn new(alloc: Global) -> Option<Scarcity> {
        if grow_stack(PARTS, &[0; PART]) <= PARTS as usize {
            return None;
        }
        let blocks = Vec::with_capacity(alloc, BLOCKS).ok()?;
        let steps = Vec::with_capacity(alloc, STEPS).ok()?;
        let mut made = Scarcity {
            alloc,
            blocks,
            steps,
        };
        made.take_steps();
        Some(made)
    }

    // Takes the steps that are not kept, as far as there is memory.
    fn take_steps(&mut self) {
        'steps: for _ in self.steps.len()..STEPS {
            let Ok(step) = Vec::with_capacity(self.alloc, STEP) else {
                break 'steps;
            };
            if self.steps.push(step).is_err() {
                break 'steps;
            }
        }
    }

    // Takes blocks of a size until none is left.
    fn take(&mut self, size: usize) {
        'blocks: for _ in self.blocks.len()..BLOCKS {
            let Ok(block) = Vec::with_capacity(self.alloc, size) else {
                break 'blocks;
            };
            if self.blocks.push(block).is_err() {
                break 'blocks;
            }
        }
    }

    /// Takes all memory that is left, in ever smaller blocks. It answers whether not a byte is left.
    pub fn take_all(&mut self) -> bool {
        let mut size = 1usize << 46;
        'sizes: for _ in 0..44u32 {
            self.take(size);
            size /= 2;
        }
        let byte: Result<Vec<u8>, _> = Vec::with_capacity(self.alloc, 1);
        byte.is_err()
    }

    /// Gives a step back. It answers whether there was one.
    pub fn give_step(&mut self) -> bool {
        self.steps.pop().is_some()
    }

    /// Gives everything back.
    pub fn give_all(&mut self) {
        self.blocks.clear();
        self.steps.clear();
    }
}
