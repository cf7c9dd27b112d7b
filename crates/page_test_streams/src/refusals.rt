//! A call that is made while memory is refused to it, each growth of it in turn.

use crate::scarcity::Scarcity;
use std::alloc::Global;
use std::fs::{self, Files};

/// How often a call is made once it had all memory that it wants.
const WHOLE: usize = 8;

/// More steps than there are.
const STEPS: usize = 10_000;

/// How a call ended.
#[derive(Clone, Copy, PartialEq, Eq)]
pub enum Ended {
    /// Memory was refused to it, and that changed nothing.
    Refused,
    /// As with ample memory.
    Whole,
    Otherwise,
}

/// A call that wants memory. What it gives, it gives into room that it has.
pub trait Scarce {
    /// Makes the call once, from its start, and compares: want of memory with nothing read and nothing written, or all that it gives with
    /// ample memory.
    fn once(&mut self, alloc: Global) -> Ended;
}

/// Whether memory that is taken and not written costs next to nothing: not where the system makes each page of memory a huge one.
pub fn is_cheap<R: Files>(rt: &R, alloc: Global) -> bool {
    match fs::read_to_string(&(rt, alloc), "/sys/kernel/mm/transparent_hugepage/enabled") {
        Ok(text) => !text.contains("[always]"),
        Err(_) => true,
    }
}

/// In which way a call is not right where memory is refused to it, if in any.
pub fn scarce_difference<S: Scarce>(alloc: Global, call: &mut S) -> Option<&'static str> {
    let Some(mut memory) = Scarcity::new(alloc) else {
        return Some("scarce");
    };
    let way = refused_difference(alloc, &mut memory, call);
    memory.give_all();
    way
}

// `scarce_difference`, where nothing is taken yet.
fn refused_difference<S: Scarce>(
    alloc: Global,
    memory: &mut Scarcity,
    call: &mut S,
) -> Option<&'static str> {
    if call.once(alloc) != Ended::Whole {
        return Some("with ample memory");
    }
    if !memory.take_all() {
        return Some("scarce");
    }
    if stands_refusals(alloc, memory, call) {
        None
    } else {
        Some("where memory is refused")
    }
}

// Whether a call is each step of memory: first it is refused, at last it is whole. Where the steps lie in pieces, it is given all at last.
fn stands_refusals<S: Scarce>(alloc: Global, memory: &mut Scarcity, call: &mut S) -> bool {
    let mut refused = 0usize;
    let mut whole = 0usize;
    for _ in 0..STEPS {
        match call.once(alloc) {
            Ended::Refused => refused = refused.saturating_add(1),
            Ended::Whole => whole = whole.saturating_add(1),
            Ended::Otherwise => return false,
        }
        if whole >= WHOLE {
            return refused > 0;
        }
        if !memory.give_step() {
            memory.give_all();
        }
    }
    false
}
