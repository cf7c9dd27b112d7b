//! What the parts of sources do, under the budget of re-read lines (mandoc(1), "input stack limit exceeded, infinite loop?").

ghost use Rattle.std.specs.Prelude.{◌≡◌, ◌≤◌, ◌<◌, ◌^◌, ◌&&◌, true, false, not, length};
ghost use Rattle.page_core_base.specs.declared.limits.TheConstants.{LINE};
ghost use Rattle.page_roff_blocks.specs.laws.Views.{branch_view, loop_head_view, FitsBranch};
ghost use Rattle.page_roff_syntax.specs.laws.Views.{region_view, opened_view};
ghost use Rattle.page_roff_machine.specs.machine.Doing.{Does, Answers, Makes, IsAt, IsIn, HasRoom, state_after, line_after, done_as, charged_in, begun_in, met_in, value_in, answer_in, region_in, leaf_in, opened_in, closed_in, passed_in, kept_in, collected_in, turned_in, read_in, read_kept_in, ended_in, ended_kept_in, unopened_in, finished_in};
ghost use Rattle.page_roff_effects.specs.machine.Acting.{IfCalled, IsCallable, IfRepeated, IsRepeatable};
ghost use Rattle.page_roff_effects.specs.declared.commands.ProductKind.TheVariants as kinds;

use page_core_base::NoteOut;
use page_roff_blocks::{Branch, Budget, Reached, loop_text};
use page_roff_effects::{Actions, ProductKind};
use page_roff_heads::LoopHead;
use page_roff_syntax::{OpenRegion, RegionHead};

/// What the parts of sources do, under the budget of the source line.
#[derive(Drop)]
pub(crate) struct BudgetedActions {
    pub(crate) actions: Actions,
    pub(crate) budget: Budget,
}

impl BudgetedActions {
    // One re-read line comes. With the one beyond the budget all else of the source line is given up.
    fn charge<O: NoteOut>(&mut self, out: &mut O)
        ensures { Does O.left self.old out.old (charged_in self.old) self.new out.new }
    {
        if self.budget.charge() {
            self.actions.exhaust(out);
        }
    }

    /// A raw line begins, of the page or of a body that runs.
    pub(crate) fn begin_line<O: NoteOut>(&mut self, is_page: bool, out: &mut O)
        requires { HasRoom is_page self.old.budget }
        ensures { Makes O.left self.old out.old (IsAt is_page self.old) (begun_in self.old) self.new
            state_after out.new }
    {
        if is_page {
            self.budget.begin();
        } else {
            self.charge(out);
        }
    }

    // Answers whether a part that is reached runs.
    fn meet<O: NoteOut>(&mut self, reached: Reached, out: &mut O) -> bool
        ensures { Answers O.left self.old out.old (met_in self.old reached) result self.new out.new }
    {
        match reached {
            Reached::PassedOver => false,
            Reached::First => !self.budget.gave_up(),
            Reached::Remainder => {
                self.charge(out);
                !self.budget.gave_up()
            }
        }
    }

    // The value of a head that is run, at a level with this bit.
    fn value<O: NoteOut>(&mut self, branch: &Branch<&[u8]>, bit: bool, out: &mut O) -> bool
        requires { FitsBranch (branch_view branch.now) }
        ensures { Answers O.left self.old out.old (value_in self.old (branch_view branch.now) bit) result
            self.new out.new }
    {
        match branch {
            Branch::If(condition) => self.actions.test(condition, out),
            Branch::IfElse(condition) => self.actions.test(condition, out),
            Branch::Else => bit,
        }
    }

    /// The head of a conditional comes, reached like this, at a level with this bit. Answers its value; none where it is not run.
    pub(crate) fn answer<O: NoteOut>(
        &mut self,
        reached: Reached,
        branch: &Branch<&[u8]>,
        bit: bool,
        out: &mut O,
    ) -> Option<bool>
        requires { FitsBranch (branch_view branch.now) }
        ensures { Answers O.left self.old out.old
            (answer_in self.old (branch_view branch.now) bit reached) result
            self.new out.new }
    {
        if self.meet(reached, out) {
            Some(self.value(branch, bit, out))
        } else {
            None
        }
    }

    /// Answers whether the head of a region that is reached runs.
    pub(crate) fn open_region<O: NoteOut>(
        &mut self,
        reached: Reached,
        head: &RegionHead<&[u8]>,
        out: &mut O,
    ) -> bool
        ensures { Answers O.left self.old out.old (region_in self.old (region_view head.now) reached) result
            self.new out.new }
    {
        let is_run = self.meet(reached, out);
        self.actions.open_region(head, is_run, out);
        is_run
    }

    /// The head of a loop comes, reached like this. Answers whether the loop is run: then it is collected from here on.
    pub(crate) fn open_loop<O: NoteOut>(
        &mut self,
        reached: Reached,
        head: &LoopHead<&[u8]>,
        out: &mut O,
    ) -> bool
        ensures { Answers O.left self.old out.old (opened_in self.old (loop_head_view head.now) reached) result
            self.new out.new }
    {
        if self.meet(reached, out) {
            self.actions.open_loop(head, out);
            true
        } else {
            false
        }
    }

    /// The loop that is collected is whole; `may_run` says whether one more source may run. Answers which kind of thing comes of it, and lends
    /// that thing from then on.
    pub(crate) fn close_loop<O: NoteOut>(&mut self, may_run: bool, out: &mut O) -> ProductKind
        ensures done { Makes O.left self.old out.old (λ kind. IsIn kind self.old)
            (closed_in self.old may_run) self.new (done_as result) out.new }
        ensures repeats { IfRepeated result (IsRepeatable may_run self.new.actions.call.body) }
    {
        let is_run = !self.budget.gave_up();
        self.actions.close_loop(may_run, is_run, out)
    }

    /// A loop without a block comes, reached like this; `may_run` says whether one more source may run. Answers which kind of thing comes of
    /// it, and lends that thing from then on.
    pub(crate) fn pass_loop<O: NoteOut>(
        &mut self,
        reached: Reached,
        may_run: bool,
        head: &LoopHead<&[u8]>,
        out: &mut O,
    ) -> ProductKind
        ensures done { Makes O.left self.old out.old (λ kind. IsIn kind self.old)
            (passed_in self.old may_run (loop_head_view head.now) reached) self.new (done_as result) out.new }
        ensures repeats { IfRepeated result (IsRepeatable may_run self.new.actions.call.body) }
    {
        if self.open_loop(reached, head, out) {
            self.close_loop(may_run, out)
        } else {
            ProductKind::Nothing
        }
    }

    // A text belongs to the loop that is collected.
    fn keep<O: NoteOut>(&mut self, text: &[u8], out: &mut O)
        ensures { Does O.left self.old out.old (kept_in self.old text.now) self.new out.new }
    {
        let is_run = !self.budget.gave_up();
        self.actions.collect_line(is_run, text, out);
    }

    /// A line begins in the loop that is collected, in which this many blocks are open.
    pub(crate) fn collect<O: NoteOut>(&mut self, open_blocks: u64, line: &[u8], out: &mut O)
        requires room { open_blocks < 2 ^ 63 }
        requires short { length line.now ≤ LINE }
        ensures { Does O.left self.old out.old (collected_in self.old open_blocks line.now) self.new out.new }
    {
        match loop_text(line, open_blocks) {
            Some(text) => self.keep(text, out),
            None => {}
        }
    }

    /// A turn of a loop comes, with its condition. Answers whether it runs.
    pub(crate) fn turn<O: NoteOut>(&mut self, condition: &[u8], out: &mut O) -> bool
        requires { length condition.now ≤ LINE }
        ensures { Answers O.left self.old out.old (turned_in self.old condition.now) result self.new out.new }
    {
        self.charge(out); // a turn is a re-read line
        if self.budget.gave_up() {
            false
        } else {
            self.actions.turn(condition, out)
        }
    }

    /// A line that heads nothing comes, reached like this; `may_call` says whether one more macro may run. Answers which kind of thing comes of
    /// it, and lends that thing from then on.
    pub(crate) fn leaf<O: NoteOut>(
        &mut self,
        reached: Reached,
        may_call: bool,
        text: &[u8],
        out: &mut O,
    ) -> ProductKind
        requires { length text.now ≤ LINE }
        ensures done { Makes O.left self.old out.old (λ kind. IsIn kind self.old)
            (leaf_in self.old may_call text.now reached) self.new (done_as result) out.new }
        ensures call { IfCalled result (IsCallable may_call self.new.actions.call) }
    {
        if self.meet(reached, out) {
            self.actions.leaf(may_call, text, out)
        } else {
            ProductKind::Nothing
        }
    }

    // Whether the open region is still run.
    fn runs(&self, region: &OpenRegion) -> bool
        ensures { result ≡ (region.now.is_run && not self.now.budget.gave_up) }
    {
        region.is_run() && !self.budget.gave_up()
    }

    // A line of a region comes. Answers which kind of thing comes of it, and lends that thing from then on.
    fn read<O: NoteOut>(
        &mut self,
        is_page: bool,
        region: &OpenRegion,
        line: &[u8],
        out: &mut O,
    ) -> ProductKind
        requires room { HasRoom is_page self.old.budget }
        requires short { length line.now ≤ LINE }
        ensures done { Makes O.left self.old out.old (IsAt is_page self.old) (read_in self.old region.now line.now)
            self.new (line_after result) out.new }
        ensures none { region.now.is_run ≡ false → result ≡ kinds.Nothing }
    {
        self.begin_line(is_page, out);
        let is_run = self.runs(region);
        self.actions.read_line(region, is_run, line, out)
    }

    /// A line of a region comes, in a loop that is collected or not. Answers which kind of thing comes of it, and lends that thing from then on.
    pub(crate) fn read_line<O: NoteOut>(
        &mut self,
        is_page: bool,
        in_loop: bool,
        region: &OpenRegion,
        line: &[u8],
        out: &mut O,
    ) -> ProductKind
        requires room { HasRoom is_page self.old.budget }
        requires short { length line.now ≤ LINE }
        requires passed { in_loop ≡ true → region.now.is_run ≡ false }
        ensures { Makes O.left self.old out.old (IsAt is_page self.old)
            (read_kept_in self.old in_loop region.now line.now) self.new (line_after result) out.new }
    {
        let product = self.read(is_page, region, line, out);
        if in_loop {
            self.keep(line, out);
            ProductKind::Nothing
        } else {
            product
        }
    }

    // The line that ends a region comes.
    fn end<O: NoteOut>(&mut self, is_page: bool, region: &OpenRegion, out: &mut O)
        requires { HasRoom is_page self.old.budget }
        ensures { Makes O.left self.old out.old (IsAt is_page self.old)
            (ended_in self.old region.now) self.new
            state_after out.new }
    {
        self.begin_line(is_page, out);
        let is_run = self.runs(region);
        self.actions.end_region(region, is_run, out);
    }

    /// The line that ends a region comes, in a loop that is collected or not.
    pub(crate) fn end_region<O: NoteOut>(
        &mut self,
        is_page: bool,
        in_loop: bool,
        region: &OpenRegion,
        line: &[u8],
        out: &mut O,
    )
        requires { HasRoom is_page self.old.budget }
        ensures { Makes O.left self.old out.old (IsAt is_page self.old)
            (ended_kept_in self.old in_loop region.now line.now) self.new
            state_after out.new }
    {
        self.end(is_page, region, out);
        if in_loop {
            self.keep(line, out);
        }
    }

    // Whether a source was given up, with what it leaves open.
    fn is_silent(&self, is_page: bool) -> bool
        ensures { result ≡ (not is_page && self.now.budget.gave_up) }
    {
        !is_page && self.budget.gave_up()
    }

    /// The end of a block comes where none is open. One that is left of a macro which was given up has no message.
    pub(crate) fn report_unopened<O: NoteOut>(&mut self, is_page: bool, out: &mut O)
        ensures { Makes O.left self.old out.old (IsAt is_page self.old) (unopened_in self.old) self.new
            state_after out.new }
    {
        if !self.is_silent(is_page) {
            self.actions.report_unopened(out);
        }
    }

    /// The innermost source, or a turn of it, ends, if it was begun: in an open region or not, in a loop that is collected or not.
    pub(crate) fn finish<O: NoteOut>(
        &mut self,
        has_begun: bool,
        region: Option<&OpenRegion>,
        in_loop: bool,
        out: &mut O,
    )
        ensures { Does O.left self.old out.old
            (finished_in self.old has_begun (opened_view region.entry) in_loop) self.new out.new }
    {
        if has_begun {
            let gave_up = self.budget.gave_up();
            self.actions.finish(region, in_loop, gave_up, out);
        }
    }
}
