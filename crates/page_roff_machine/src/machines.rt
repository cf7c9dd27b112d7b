//! The machine that runs the lines of a page (roff(7), "LANGUAGE SYNTAX"): its macros, conditionals, loops and regions.

ghost use Rattle.std.specs.Prelude.{◌≡◌, ◌+◌, ◌*◌, ◌<◌, ◌≤◌, ◌^◌, true, IfOk, length, sum_by};
ghost use Rattle.page_core_base.specs.laws.Views.{line_view, IsFreeLine, Came};
ghost use Rattle.page_core_base.specs.Texts.{IsLine};
ghost use Rattle.page_core_base.specs.declared.limits.TheConstants.{ARGS, BODY, CALLS, LINE};
ghost use Rattle.page_roff_blocks.specs.laws.Views.{PlaceFits};
ghost use Rattle.page_roff_effects.specs.laws.Views.{MemoryFits};
ghost use Rattle.page_roff_machine.specs.machine.Machines.{Advances, BeginsOrTakes, IsNew, Resumes, is_idle, end_memory, end_notes, place_of};
ghost use Rattle.page_roff_machine.specs.machine.Moving.{IsPassed};

use crate::budgeted_actions::BudgetedActions;
use crate::runners::Runner;
use page_core_base::{NoteOut, Output, Taken};
use page_roff_blocks::{Budget, Standing};
use page_roff_effects::{Actions, AtOnce, Remembered};
use page_roff_stack::InputStack;
use std::alloc::{AllocError, Global};
use std::marker::Model;

/// The machine that runs a page, a source line at a time. All memory is reserved by [`Machine::new`] and [`Machine::at`].
///
/// [`Machine::begin`] takes a source line; [`Machine::advance`] is then called until it answers that the source line is done.
#[derive(Drop)]
pub struct Machine {
    runner: Runner,
}

impl Model for Machine {
    ghost use Rattle.page_roff_machine.specs.machine.Machines.{Machine};

    ghost Value = { Machine };

    ghost use Rattle.page_roff_machine.specs.machine.Stepping.{machine_of, IsSound};

    ghost view = { λ m. machine_of m.runner };

    ghost invariant = { λ m. IsSound m.runner };
}

impl Machine {
    /// Before the first line of a page.
    pub fn new(alloc: Global, output: Output) -> Result<Machine, AllocError>
        ensures { IfOk result (IsNew output) }
    {
        Ok(Machine {
            runner: Runner {
                stack: InputStack::new(alloc)?,
                doing: BudgetedActions {
                    actions: Actions::new(alloc, output)?,
                    budget: Budget::new(),
                },
            },
        })
    }

    /// Between two lines of a page, where it is so, with what is remembered and the number of lines that were taken.
    pub fn at(
        alloc: Global,
        output: Output,
        standing: &Standing,
        remembered: &Remembered,
        taken: u64,
    ) -> Result<Machine, AllocError>
        requires passed { standing.now.levels.in_loop ≡ true → IsPassed standing.now.region }
        requires skips { standing.now.levels.skipped < 2 ^ 62 }
        requires count { taken ≤ 2 ^ 62 }
        ensures { IfOk result (Resumes output standing.now remembered.now taken) }
    {
        let stack = InputStack::at(alloc, standing)?;
        let actions = Actions::at(alloc, output, remembered)?;
        Ok(Machine {
            runner: Runner {
                stack,
                doing: BudgetedActions {
                    actions,
                    budget: Budget::at(taken),
                },
            },
        })
    }

    /// Where the innermost source is.
    pub fn standing(&self) -> Standing
        ensures { result ≡ place_of self.now }
    {
        self.runner.stack.standing()
    }

    /// What is remembered, in memory of its own.
    pub fn remembered(&self, alloc: Global) -> Result<Remembered, AllocError>
        ensures { IfOk result (λ remembered. remembered ≡ self.now.actions.memory) }
    {
        self.runner.doing.actions.remembered(alloc)
    }

    /// In a loop that is collected no region is run. Nothing is done: each step keeps to it.
    pub fn passed_law(&self)
        ensures { (place_of self.now).levels.in_loop ≡ true → IsPassed (place_of self.now).region }
    {
        let _ = &self.runner;
    }

    /// Whether the source line is done, or none came.
    pub fn is_idle(&self) -> bool
        ensures { result ≡ is_idle self.now }
    {
        self.runner.stack.is_idle()
    }

    /// A source line of this number comes, which may be known to be free, after the last one is done. It has a budget of its own. If it is
    /// taken as it is written, it is lent and done; else [`Machine::advance`] runs what is left of it.
    pub fn begin<'l>(&mut self, line: &'l [u8], number: u32, free: bool) -> Option<Taken<'l>>
        requires idle { is_idle self.old ≡ true }
        requires line { IsLine line.now }
        requires free { free ≡ true → IsFreeLine line.now }
        requires skips { self.old.stack.top.cursor.levels.skipped < 2 ^ 62 }
        requires count { self.old.budget.taken ≤ 2 ^ 62 }
        ensures { BeginsOrTakes result line.now number self.old self.new }
    {
        match self.runner.take_at_once(line, number, free) {
            AtOnce::Line(taken) => Some(taken),
            AtOnce::Call => None,
            AtOnce::Nothing => {
                self.runner.stack.set_line(line);
                self.runner.doing.actions.leave();
                self.runner.doing.actions.begin_line(number);
                self.runner.doing.budget.renew();
                None
            }
        }
    }

    /// Keeps a line that was lent, as the one that was taken last.
    pub fn keep(&mut self, taken: Taken<'_>)
        requires { length taken.text.now ≤ LINE }
        ensures { self.new ≡ record self.old { actions = record self.old.actions { line = line_view taken.entry } } }
    {
        self.runner.doing.actions.keep(taken);
    }

    /// Runs on until a line is taken, or until the source line is done: whether a line was taken.
    pub fn advance<O: NoteOut>(&mut self, out: &mut O) -> bool
        ensures { Advances O.left self.old out.old result self.new out.new }
    {
        self.runner.run(out)
    }

    /// Lends the line that was taken last.
    pub fn line(&self) -> Taken<'_>
        ensures line { line_view result ≡ self.now.actions.line }
        ensures short { length result.text.now ≤ LINE }
    {
        self.runner.doing.actions.line()
    }

    /// The page ends: an open region, or an open loop, is reported.
    pub fn end<O: NoteOut>(&mut self, out: &mut O)
        ensures came { Came O.left out.old (end_notes self.old) out.new }
        ensures stack { self.new.stack ≡ self.old.stack }
        ensures budget { self.new.budget ≡ self.old.budget }
        ensures output { self.new.actions.setting ≡ self.old.actions.setting }
        ensures memory { self.new.actions.memory ≡ end_memory self.old }
    {
        let region = self.runner.stack.region();
        let in_loop = self.runner.stack.levels().in_loop();
        self.runner
            .doing
            .actions
            .finish(region, in_loop, false, out);
    }

    /// The number of lines that were taken: source lines, and those that were read again.
    pub fn taken(&self) -> u64
        ensures { result ≡ self.now.budget.taken }
    {
        self.runner.doing.budget.taken()
    }

    /// How many interpolations were made.
    pub fn expansions(&self) -> u64
        ensures { result ≡ self.now.actions.memory.expansions }
    {
        self.runner.doing.actions.expansions()
    }

    /// Where the innermost source is, what is remembered, and what is held of the macros and loops that run are within their limits. Nothing
    /// is done: the input stack and the actions show it.
    pub fn caps_law(&self)
        ensures place { PlaceFits (place_of self.now) }
        ensures memory { MemoryFits self.now.actions.memory }
        ensures count { length self.now.stack.texts ≤ CALLS }
        ensures bytes { sum_by length self.now.stack.texts ≤ CALLS * (BODY + ARGS) }
    {
        self.runner.stack.caps_law();
        self.runner.doing.actions.caps_law();
    }
}
