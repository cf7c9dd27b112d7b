//! A page, or roff, that goes on after a line from what is held of it, in place of itself.

use crate::lines::Feed;
use page_core::Fault;
use page_engine::Outcome;
use page_test_streams::Scarcity;
use std::alloc::Global;

/// More steps of memory than there are.
const STEPS: usize = 10_000;

/// After which lines it goes on from what is held.
#[derive(Clone, Copy)]
pub enum Cuts {
    Never,
    /// After each, twice.
    Always,
    /// After the line of a number, where a line has it. Where memory lacks for that, it goes on as it is.
    After(u32),
    /// After the first line of this number or a greater one, in the same way.
    From(u32),
}

/// What memory lacked for.
#[derive(Clone, Copy, PartialEq, Eq)]
pub enum Lack {
    PuttingDown,
    GoingOn,
}

/// What can be put down between two lines, and go on from there.
pub trait PutDown: Feed {
    /// What is held between two lines.
    type Held: Drop;

    /// What is held, in memory of its own.
    fn put_down(&self, alloc: Global) -> Result<Self::Held, Fault>;

    /// It goes on from this, or is as it was and hands this back.
    fn go_on(&mut self, alloc: Global, held: Self::Held) -> Result<(), (Self::Held, Fault)>;
}

/// Takes lines, and goes on after some of them from what is held.
#[derive(Drop)]
pub struct CutFeed<F> {
    pub feed: F,
    pub alloc: Global,
    pub cuts: Cuts,
    /// Whether it went on from what is held after a line of `Cuts::After` or `Cuts::From`, or was to.
    pub is_cut: bool,
    /// What memory lacked for, if for anything.
    pub lack: Option<Lack>,
    /// What takes all memory before each line, each cut and the end, if it is to, and at a cut gives back a step more each time that memory lacks.
    pub memory: Option<Scarcity>,
}

// It goes on from this.
fn go_on<F: PutDown>(alloc: Global, feed: &mut F, held: F::Held) -> Result<(), Fault> {
    match feed.go_on(alloc, held) {
        Ok(()) => Ok(()),
        Err((_, fault)) => Err(fault),
    }
}

// It goes on from what is held of it, and then from what is held of what goes on: the second has to be what the first one was.
fn cut_twice<F: PutDown>(alloc: Global, feed: &mut F) -> Result<(), Fault> {
    let held = feed.put_down(alloc)?;
    go_on(alloc, feed, held)?;
    let held = feed.put_down(alloc)?;
    go_on(alloc, feed, held)
}

// Gives a step of memory back, or all of it where there is no step left.
fn give_more(memory: &mut Scarcity) {
    if !memory.give_step() {
        memory.give_all();
    }
}

// Puts it down with no memory, and then with a step more each time. It answers what is held, and whether memory lacked.
fn put_down_by_steps<F: PutDown>(
    alloc: Global,
    memory: &mut Scarcity,
    feed: &F,
) -> Result<(F::Held, bool), Fault> {
    memory.take_all();
    for lacks in 0..STEPS {
        match feed.put_down(alloc) {
            Ok(held) => return Ok((held, lacks > 0)),
            Err(Fault::Memory) => give_more(memory),
            Err(fault) => return Err(fault),
        }
    }
    Err(Fault::Memory)
}

// It goes on from this with no memory, and then with a step more each time, always from what was handed back. It answers whether memory lacked.
fn go_on_by_steps<F: PutDown>(
    alloc: Global,
    memory: &mut Scarcity,
    feed: &mut F,
    held: F::Held,
) -> Result<bool, Fault> {
    let mut held = held;
    memory.take_all();
    for lacks in 0..STEPS {
        match feed.go_on(alloc, held) {
            Ok(()) => return Ok(lacks > 0),
            Err((back, Fault::Memory)) => {
                held = back;
                give_more(memory);
            }
            Err((_, fault)) => return Err(fault),
        }
    }
    Err(Fault::Memory)
}

impl<F: PutDown + Drop> CutFeed<F> {
    fn take_memory(&mut self) {
        if let Some(memory) = &mut self.memory {
            memory.take_all();
        }
    }

    // It goes on from what is held of it, by steps of memory where it is to.
    fn cut(&mut self) -> Result<(), Fault> {
        self.is_cut = true;
        let Some(memory) = &mut self.memory else {
            return self.cut_or_stay();
        };
        let (held, lacked) = put_down_by_steps(self.alloc, memory, &self.feed)?;
        if go_on_by_steps(self.alloc, memory, &mut self.feed, held)? && lacked {
            self.lack = Some(Lack::GoingOn);
        }
        Ok(())
    }

    // It goes on from what is held of it, or as it is where memory lacks for that.
    fn cut_or_stay(&mut self) -> Result<(), Fault> {
        match self.feed.put_down(self.alloc) {
            Ok(held) => self.go_on_or_stay(held),
            Err(Fault::Memory) => {
                self.lack = Some(Lack::PuttingDown);
                Ok(())
            }
            Err(fault) => Err(fault),
        }
    }

    // It goes on from this. Where memory lacks, what came back is tried once more, and it stays as it is where memory lacks then too.
    fn go_on_or_stay(&mut self, held: F::Held) -> Result<(), Fault> {
        match self.feed.go_on(self.alloc, held) {
            Ok(()) => Ok(()),
            Err((held, Fault::Memory)) => {
                self.lack = Some(Lack::GoingOn);
                match go_on(self.alloc, &mut self.feed, held) {
                    Err(Fault::Memory) => Ok(()),
                    other => other,
                }
            }
            Err((_, fault)) => Err(fault),
        }
    }
}

impl<F: PutDown + Drop> Feed for CutFeed<F> {
    fn line(&mut self, text: &[u8], number: u32) -> Result<(), Fault> {
        self.take_memory();
        self.feed.line(text, number)?;
        match self.cuts {
            Cuts::Always => cut_twice(self.alloc, &mut self.feed),
            Cuts::After(line) if line == number => self.cut(),
            Cuts::From(line) if line <= number && !self.is_cut => self.cut(),
            _ => Ok(()),
        }
    }

    fn end(&mut self) -> Result<(), Fault> {
        self.take_memory();
        self.feed.end()
    }

    fn outcome(&self) -> Outcome {
        self.feed.outcome()
    }

    fn later(&mut self) -> Option<Fault> {
        self.feed.later()
    }

    fn lack(&self) -> Option<Lack> {
        self.lack
    }
}
