//! The steps of the machine: what comes next is done, and the input stack moves on.

ghost use Rattle.std.specs.Prelude.{◌≡◌, ◌≤◌, ◌^◌, true, false, None, length};
ghost use Rattle.page_core_base.specs.Texts.{IsLine};
ghost use Rattle.page_core_base.specs.laws.Views.{IsFreeLine};
ghost use Rattle.page_core_base.specs.declared.limits.TheConstants.{ARGS};
ghost use Rattle.page_roff_blocks.specs.laws.Views as levels;
ghost use Rattle.page_roff_effects.specs.declared.commands.ProductKind.TheVariants as kinds;
ghost use Rattle.page_roff_effects.specs.machine.Acting.{IsCallable};
ghost use Rattle.page_roff_stack.specs.machine.Stacks.{next_of, part_in, is_part, is_line, may_end, is_nothing};
ghost use Rattle.page_roff_machine.specs.machine.Doing.{IsIn};
ghost use Rattle.page_roff_machine.specs.machine.Machines.{Advances, IsOutside, TakesAtOnceIf, page_after};
ghost use Rattle.page_roff_machine.specs.machine.Moving.{Collects, Decides, Moves, Closes, Shifts, Repeats, Suits, CanBegin, called, passes_block, progress_as, way_after, with_arguments_of};
ghost use Rattle.page_roff_machine.specs.machine.Stepping.{IsSound, IsMeasured, Steps, machine_of};

use crate::acts::{Act, Progress};
use crate::budgeted_actions::BudgetedActions;
use arrayvec::ArrayVec;
use page_core_base::{ARGS, NoteOut};
use page_roff_blocks::{Answer, Ended, LinePart, Opening, Pass, Reached, Way};
use page_roff_effects::{AtOnce, ProductKind};
use page_roff_stack::{InputStack, Movement, Next};

/// The sources that run, and what their parts do.
#[derive(Drop)]
pub(crate) struct Runner {
    pub(crate) stack: InputStack,
    pub(crate) doing: BudgetedActions,
}

// What came of a part, as a step.
fn progress_of(product: ProductKind) -> Progress
    ensures { result ≡ progress_as product }
{
    match product {
        ProductKind::Line => Progress::Line,
        ProductKind::Nothing | ProductKind::Call | ProductKind::Loop => Progress::More,
    }
}

// Arguments that are packed, in memory of their own.
fn copy_of(packed: &[u8]) -> ArrayVec<u8, ARGS>
    requires { length packed.now ≤ ARGS }
    ensures { result.items ≡ packed.now }
{
    let mut copy = ArrayVec::new();
    let _ = copy.try_extend_from_slice(packed);
    copy
}

impl Runner {
    // What of a line that begins belongs to the loop that is collected, if one is.
    fn collect_line<O: NoteOut>(&mut self, out: &mut O)
        requires { is_line (next_of self.old.stack) ≡ true }
        ensures { Collects O.left self.old out.old self.new out.new }
    {
        let levels = self.stack.levels();
        if !levels.in_loop() {
            return;
        }
        let open_blocks = levels.skipped();
        let Next::Line(line) = self.stack.peek() else {
            unreachable!()
        };
        self.doing.collect(open_blocks, line, out);
    }

    // A line begins.
    fn begin_line<O: NoteOut>(&mut self, out: &mut O)
        requires sound { IsSound self.old }
        requires line { is_line (next_of self.old.stack) ≡ true }
        ensures { Steps O.left self.old out.old Progress.More self.new out.new }
    {
        let is_page = self.stack.is_page();
        self.doing.begin_line(is_page, out);
        self.collect_line(out);
        self.stack.go(Movement::Line);
    }

    // Whether a block comes that is passed over. What of its line belongs to a loop is not looked for.
    fn passes_block(&self, reached: Reached) -> bool
        ensures { result ≡ passes_block reached (next_of self.now.stack) }
    {
        match reached {
            Reached::PassedOver => self.stack.opens_block(),
            Reached::First | Reached::Remainder => false,
        }
    }

    // Does what comes next after the beginning of a line, without changing the stack: it answers how the stack then acts.
    fn act<O: NoteOut>(&mut self, out: &mut O) -> Act
        requires sound { IsSound self.old }
        requires begun { is_line (next_of self.old.stack) ≡ false }
        requires left { is_nothing (next_of self.old.stack) ≡ false }
        ensures { Decides O.left self.old out.old result self.new out.new }
    {
        let reached = self.stack.reached();
        if self.passes_block(reached) {
            return Act::Move(Movement::Part(Pass::Block(None)));
        }
        let may_run = self.stack.may_call();
        match self.stack.whole_line() {
            Some(text) => Act::Leaf(self.doing.leaf(reached, may_run, text, out)),
            None => self.act_on_part(reached, out),
        }
    }

    // Decides what comes next, as `act` does, where it is not a whole line, and not a block that is passed over.
    fn act_on_part<O: NoteOut>(&mut self, reached: Reached, out: &mut O) -> Act
        requires sound { IsSound self.old }
        requires begun { is_line (next_of self.old.stack) ≡ false }
        requires left { is_nothing (next_of self.old.stack) ≡ false }
        requires reached { reached ≡ levels.reached self.old.stack.top.cursor }
        ensures { Decides O.left self.old out.old result self.new out.new }
    {
        let bit = self.stack.levels().bit();
        let may_run = self.stack.may_call();
        match self.stack.read_part() {
            None => self.act_between_lines(out),
            Some(LinePart::Leaf(text)) => Act::Leaf(self.doing.leaf(reached, may_run, text, out)),
            Some(LinePart::Guard(head)) => {
                let value = self.doing.answer(reached, &head.branch, bit, out);
                let answer = head.branch.answered(bit, value);
                Act::Move(Movement::Part(Pass::Guard(answer)))
            }
            Some(LinePart::Block(Opening::Conditional(head))) => {
                let value = self.doing.answer(reached, &head.branch, bit, out);
                Act::Block(head.branch.answered(bit, value), head.column)
            }
            Some(LinePart::Block(Opening::Loop(head))) => {
                let is_run = self.doing.open_loop(reached, &head, out);
                Act::Move(Movement::Part(Pass::Loop(is_run)))
            }
            Some(LinePart::Loop(head)) => {
                Act::Leaf(self.doing.pass_loop(reached, may_run, &head, out))
            }
            Some(LinePart::End) => Act::BlockEnd,
            Some(LinePart::Region(head)) => {
                Act::Move(Movement::Region(self.doing.open_region(reached, &head, out)))
            }
        }
    }

    // Decides what comes next, as `act` does, between two lines.
    fn act_between_lines<O: NoteOut>(&mut self, out: &mut O) -> Act
        requires sound { IsSound self.old }
        requires begun { is_line (next_of self.old.stack) ≡ false }
        requires left { is_nothing (next_of self.old.stack) ≡ false }
        requires done { part_in (next_of self.old.stack) ≡ None }
        ensures { Decides O.left self.old out.old result self.new out.new }
    {
        let is_page = self.stack.is_page();
        let in_loop = self.stack.levels().in_loop();
        match self.stack.peek() {
            Next::Part(_) | Next::Line(_) | Next::Nothing => unreachable!(),
            Next::RegionLine {
                region,
                line,
                is_end: true,
            } => {
                self.doing.end_region(is_page, in_loop, region, line, out);
                Act::Move(Movement::RegionEnd)
            }
            Next::RegionLine {
                region,
                line,
                is_end: false,
            } => Act::RegionLine(self.doing.read_line(is_page, in_loop, region, line, out)),
            Next::Turn {
                region,
                has_begun,
                condition,
            } => {
                self.doing.finish(has_begun, region, in_loop, out);
                if self.doing.turn(condition, out) {
                    Act::Move(Movement::Turn)
                } else {
                    Act::SourceEnd
                }
            }
            Next::SourceEnd { region, has_begun } => {
                self.doing.finish(has_begun, region, in_loop, out);
                Act::SourceEnd
            }
        }
    }

    // The arguments are those of the innermost source from now on.
    fn take_arguments(&mut self)
        ensures { self.new ≡ with_arguments_of self.old.stack.top.kind self.old }
    {
        match self.stack.arguments() {
            Some(packed) => self.doing.actions.enter(packed),
            None => self.doing.actions.leave(),
        }
    }

    // Calls the macro that was taken last.
    #[inline(never)]
    fn call(&mut self)
        requires { CanBegin kinds.Call self.old.stack self.old.doing }
        ensures { self.new ≡ called self.old }
    {
        let actions = &self.doing.actions;
        self.stack
            .call(actions.called_body(), actions.called_arguments());
        self.take_arguments();
    }

    // Runs the loop that came last, with the arguments of the source in which it is.
    #[inline(never)]
    fn repeat(&mut self)
        requires { CanBegin kinds.Loop self.old.stack self.old.doing }
        ensures { Repeats self.old self.new }
    {
        match self.stack.arguments() {
            Some(packed) => {
                let packed = copy_of(packed);
                self.stack
                    .repeat(self.doing.actions.called_body(), Some(packed.as_slice()));
            }
            None => self.stack.repeat(self.doing.actions.called_body(), None),
        }
    }

    // Goes past a line that heads nothing or a loop without a block, into the macro that it calls or into the loop.
    fn pass_leaf(&mut self, product: ProductKind)
        requires setting { IsIn self.old.stack.top.kind self.old.doing }
        requires suits { CanBegin product self.old.stack self.old.doing }
        ensures { Shifts self.old (Act.Leaf product) (progress_as product) self.new }
    {
        self.stack.go(Movement::Part(Pass::Leaf));
        match product {
            ProductKind::Call => self.call(),
            ProductKind::Loop => self.repeat(),
            ProductKind::Nothing => {}
            ProductKind::Line => {}
        }
    }

    // How a block is entered whose head leaves this, if it was run.
    fn way(&self, answer: Option<Answer>) -> Way
        ensures { result ≡ way_after answer self.now.stack.top.cursor }
    {
        match answer {
            Some(answer) => self.stack.levels().way(answer.value),
            None => Way::Skips,
        }
    }

    // Goes into the block of a conditional.
    fn enter_block<O: NoteOut>(&mut self, answer: Option<Answer>, column: u32, out: &mut O)
        requires setting { IsIn self.old.stack.top.kind self.old.doing }
        requires suits { is_part (next_of self.old.stack) ≡ true }
        ensures { Moves O.left self.old out.old (Act.Block answer column) Progress.More self.new out.new }
    {
        let way = self.way(answer);
        self.stack.go(Movement::Part(Pass::Block(answer)));
        match way {
            Way::Exceeds => self.doing.actions.refuse(column, out),
            Way::Runs => {}
            Way::Skips => {}
        }
    }

    // The loop that was collected is whole: it runs, if it can.
    #[inline(never)]
    fn close_loop<O: NoteOut>(&mut self, out: &mut O)
        requires { IsIn self.old.stack.top.kind self.old.doing }
        ensures { Closes O.left self.old out.old self.new out.new }
    {
        let may_run = self.stack.may_call();
        match self.doing.close_loop(may_run, out) {
            ProductKind::Loop => self.repeat(),
            _ => {}
        }
    }

    // Goes out of a block or of a loop. What a body that runs leaves open is given up with it, without a message.
    fn leave_block<O: NoteOut>(&mut self, out: &mut O)
        requires { IsIn self.old.stack.top.kind self.old.doing }
        ensures { Moves O.left self.old out.old Act.BlockEnd Progress.More self.new out.new }
    {
        let is_page = self.stack.is_page();
        let ended = self.stack.levels().ended();
        self.stack.go(Movement::Part(Pass::End));
        match ended {
            Ended::Block => {}
            Ended::Loop => self.close_loop(out),
            Ended::Nothing => self.doing.report_unopened(is_page, out),
        }
    }

    // Goes back to the source around the innermost one.
    fn end_source(&mut self)
        requires { may_end (next_of self.old.stack) ≡ true }
        ensures { Shifts self.old Act.SourceEnd Progress.More self.new }
    {
        self.stack.end_source();
        self.take_arguments();
    }

    // The stack moves on.
    fn go<O: NoteOut>(&mut self, act: Act, out: &mut O) -> Progress
        requires setting { IsIn self.old.stack.top.kind self.old.doing }
        requires suits { Suits act self.old.stack self.old.doing }
        ensures { Moves O.left self.old out.old act result self.new out.new }
    {
        match act {
            Act::Move(movement) => self.stack.go(movement),
            Act::Leaf(product) => {
                self.pass_leaf(product);
                return progress_of(product);
            }
            Act::Block(answer, column) => self.enter_block(answer, column, out),
            Act::BlockEnd => self.leave_block(out),
            Act::RegionLine(product) => {
                self.stack.go(Movement::RegionLine);
                return progress_of(product);
            }
            Act::SourceEnd => self.end_source(),
        }
        Progress::More
    }

    // Makes one step after the beginning of a line.
    #[inline(never)]
    fn step_on<O: NoteOut>(&mut self, out: &mut O) -> Progress
        requires sound { IsSound self.old }
        requires begun { is_line (next_of self.old.stack) ≡ false }
        requires left { is_nothing (next_of self.old.stack) ≡ false }
        ensures { Steps O.left self.old out.old result self.new out.new }
    {
        let act = self.act(out);
        self.go(act, out)
    }

    // Makes one step. The first and the last one of a source line are asked for first: each line has them.
    fn step<O: NoteOut>(&mut self, out: &mut O) -> Progress
        requires { IsSound self.old }
        ensures { Steps O.left self.old out.old result self.new out.new }
    {
        if self.stack.begins_line() {
            self.begin_line(out);
            return Progress::More;
        }
        if self.stack.is_idle() {
            return Progress::Done;
        }
        self.step_on(out)
    }
}

impl Runner {
    // Whether a line of the page would begin outside of macros, loops, regions and skipped blocks.
    fn is_outside(&self) -> bool
        ensures { result ≡ true → IsOutside self.now.stack }
    {
        self.stack.is_page()
            && self.stack.region().is_none()
            && !self.stack.levels().in_loop()
            && self.stack.levels().skipped() == 0
    }

    // Enters the macro that was called on a line of the page, without the steps through that line.
    fn enter_call(&mut self)
        requires idle { is_nothing (next_of self.old.stack) ≡ true }
        requires skips { self.old.stack.top.cursor.levels.skipped ≡ 0 }
        requires fits { IsCallable true self.old.doing.actions.call }
        ensures { self.new ≡ called (page_after self.old) }
    {
        self.stack.pass_page_line();
        self.call();
    }

    /// Takes a source line of this number, which may be known to be free, at once, after the last one is done, if it calls a macro or is
    /// left to the set of macros, as it is written; says which of these it did. If it did neither, the actions may know the number.
    pub(crate) fn take_at_once<'l>(&mut self, line: &'l [u8], number: u32, free: bool) -> AtOnce<'l>
        requires idle { is_nothing (next_of self.old.stack) ≡ true }
        requires line { IsLine line.now }
        requires free { free ≡ true → IsFreeLine line.now }
        requires count { self.old.doing.budget.taken ≤ 2 ^ 62 }
        ensures { TakesAtOnceIf result line.now number self.old self.new }
    {
        if !self.is_outside() {
            return AtOnce::Nothing;
        }
        self.doing.actions.begin_line(number);
        let at_once = self.doing.actions.take_at_once(line, free);
        match at_once {
            AtOnce::Nothing => {}
            AtOnce::Line(_) => self.doing.budget.begin(),
            AtOnce::Call => {
                self.doing.budget.begin();
                self.enter_call();
            }
        }
        at_once
    }
}

impl Runner {
    // Makes steps until a line is taken, or until the source line is done, from after the first step of a line on.
    fn run_on<O: NoteOut>(&mut self, out: &mut O) -> bool
        requires { IsMeasured self.old }
        ensures sound { IsSound self.new }
        ensures advances { Advances O.left (machine_of self.old) out.old result
            (machine_of self.new) out.new }
    {
        loop {
            match self.step(out) {
                Progress::More => {}
                Progress::Line => return true,
                Progress::Done => return false,
            }
        }
    }

    /// Makes steps until a line is taken, or until the source line is done.
    pub(crate) fn run<O: NoteOut>(&mut self, out: &mut O) -> bool
        requires { IsSound self.old }
        ensures sound { IsSound self.new }
        ensures advances { Advances O.left (machine_of self.old) out.old result
            (machine_of self.new) out.new }
    {
        match self.step(out) {
            Progress::More => self.run_on(out),
            Progress::Line => true,
            Progress::Done => false,
        }
    }
}
