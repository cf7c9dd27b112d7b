//! Heads and lines of loops (roff(7), "while").

ghost use Rattle.std.specs.Prelude.{Some};
ghost use Rattle.page_roff_blocks.specs.laws.Views.{loop_head_view};
ghost use Rattle.page_roff_effects.specs.machine.Acting.{Does, Gives, IfRepeated, IsRepeatable};
ghost use Rattle.page_roff_effects.specs.Regions as loops;

use crate::actions::{Actions, report_at};
use crate::commands::ProductKind;
use crate::regions::report_long_body;
use page_core_base::{Limit, NoteKind, NoteOut};
use page_roff_heads::LoopHead;

impl Actions {
    // Adds a raw line to what is collected, if that passed no limit.
    fn keep_line<O: NoteOut>(&mut self, line: &[u8], out: &mut O)
        ensures { Does O.left self.old out.old
            (loops.longer self.old.memory.body line.now self.old.memory) self.new out.new }
    {
        if self.body.text().is_some() && !self.body.add_line(line) {
            report_long_body(self.number, out);
        }
    }

    /// A loop that is run begins, with what of its head's line belongs to it.
    #[tactic(auto, unfolding(crate::specs::Regions::loop_outcome))]
    pub fn open_loop<O: NoteOut>(&mut self, head: &LoopHead<&[u8]>, out: &mut O)
        ensures { Does O.left self.old out.old
            (loops.loop_outcome (loop_head_view head.now) self.old.memory) self.new out.new }
    {
        self.body.begin(b"");
        self.keep_line(head.condition, out);
        if let Some(line) = head.body {
            self.keep_line(line, out);
        }
    }

    /// A raw line of a loop comes, which is still run or was given up.
    #[tactic(auto, unfolding(crate::specs::Regions::collect_outcome))]
    pub fn collect_line<O: NoteOut>(&mut self, is_run: bool, line: &[u8], out: &mut O)
        ensures { Does O.left self.old out.old
            (loops.collect_outcome is_run line.now self.old.memory) self.new out.new }
    {
        if is_run {
            self.keep_line(line, out);
        }
    }

    // Lends what was collected, if one more loop may run.
    fn repeat<O: NoteOut>(&mut self, may_call: bool, out: &mut O) -> ProductKind
        ensures gives { Gives O.left self.old out.old
            (loops.repeats_text may_call self.old.memory.body self.old.memory) result self.new out.new }
        ensures repeats { IfRepeated result (IsRepeatable may_call self.new.call.body) }
    {
        let Some(text) = self.body.text() else {
            return ProductKind::Nothing;
        };
        if !may_call {
            report_at(
                NoteKind::Loop,
                self.number,
                1,
                Limit::Calls.name().as_bytes(),
                out,
            );
            return ProductKind::Nothing;
        }
        self.call.set_body(text);
        ProductKind::Loop
    }

    /// A loop is whole, which is still run or was given up, where one more source may run or not. What comes of it is lent from then on.
    #[tactic(auto, unfolding(crate::specs::Regions::close_outcome))]
    pub fn close_loop<O: NoteOut>(
        &mut self,
        may_call: bool,
        is_run: bool,
        out: &mut O,
    ) -> ProductKind
        ensures gives { Gives O.left self.old out.old
            (loops.close_outcome is_run may_call self.old.memory) result self.new out.new }
        ensures repeats { IfRepeated result (IsRepeatable may_call self.new.call.body) }
    {
        let product = if is_run {
            self.repeat(may_call, out)
        } else {
            ProductKind::Nothing
        };
        self.body.clear();
        product
    }
}
