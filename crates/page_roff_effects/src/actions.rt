//! What the parts of a source do, with what is remembered from part to part (roff(7), "LANGUAGE SYNTAX").

ghost use Rattle.std.specs.Prelude.{◌≡◌, ◌≤◌, [], ◌∷◌, false, length, IfOk, None, Some};
ghost use Rattle.page_core_base.specs.laws.Views.{line_view, Came};
ghost use Rattle.page_core_base.specs.declared.limits.TheConstants.{ARGS, LINE};
ghost use Rattle.page_roff_heads.specs.laws.Views.{condition_view, test_view, FitsTest};
ghost use Rattle.page_roff_values.specs.Values.{arguments_in};
ghost use Rattle.page_roff_values.specs.machine.Rest.{surroundings_of};
ghost use Rattle.page_roff_values.specs.Values as laying;
ghost use Rattle.page_roff_effects.specs.machine.Acting as acting;
ghost use Rattle.page_roff_effects.specs.laws.Views.{MemoryFits};
ghost use Rattle.page_roff_effects.specs.machine.Acting.{measured, Does, Tests, Expands, ExpandsOrKeeps, turn_answer};
ghost use Rattle.page_roff_effects.specs.States.{answer_of, budget_outcome, block_outcome, end_of_block_outcome};
ghost use Rattle.page_core_base.specs.Messages.{message_about};

use crate::memories::Remembered;
use page_core_base::{ARGS, Limit, Note, NoteKind, NoteOut, Output, Place, Taken};
use page_roff_definitions::{BodyBuffer, CallBuffer, LineBuffer};
use page_roff_heads::{Condition, read_condition};
use page_roff_names::Names;
use page_roff_syntax::plain_len;
use page_roff_values::{CallArguments, Environment, Expansion, holds};
use std::alloc::{AllocError, Global};
use std::marker::Model;

/// Definitions, the body of the open region or loop, and the line and the call that were taken last. All memory is reserved at the start.
#[derive(Drop)]
pub struct Actions {
    pub(crate) names: Names,
    pub(crate) arguments: CallArguments,
    pub(crate) output: Output,
    pub(crate) expansion: Expansion,
    pub(crate) body: BodyBuffer,
    pub(crate) line: LineBuffer,
    pub(crate) call: CallBuffer,
    pub(crate) number: u32,
    pub(crate) expansions: u64,
}

impl Model for Actions {
    ghost use Rattle.page_roff_effects.specs.machine.Acting.{Acting};

    ghost Value = { Acting };

    ghost view = { λ a. record {
      setting = record { output = a.output; arguments = a.arguments };
      memory = record { definitions = a.names; body = a.body; number = a.number; expansions = a.expansions };
      finished = a.expansion;
      line = a.line;
      call = a.call;
    } };
}

/// Expands a line from its beginning.
pub(crate) fn expand_line<O: NoteOut>(
    text: &[u8],
    number: u32,
    env: &Environment<'_>,
    line: &mut Expansion,
    out: &mut O,
)
    ensures { Expands O.left out.old out.new line.new
        (laying.expanded (surroundings_of env.now) number text.now) }
{
    line.begin(number);
    line.expand_more(env, text, 0, out);
}

/// Reports a message about a column of a source line.
pub(crate) fn report_at<O: NoteOut>(
    kind: NoteKind,
    line: u32,
    column: u32,
    detail: &[u8],
    out: &mut O,
)
    ensures { Came O.left out.old (message_about kind
        (record { line = line; column = column }) detail.now ∷ []) out.new }
{
    out.report(&Note::about(kind, Place { line, column }, detail));
}

// The arguments of no macro, a line of which nothing is expanded, and what was taken last, before anything is.
fn new_buffers(
    alloc: Global,
) -> Result<(CallArguments, Expansion, LineBuffer, CallBuffer), AllocError>
    ensures { IfOk result (λ r. r.0 ≡ None) }
{
    let arguments = CallArguments::new(alloc)?;
    let expansion = Expansion::new(alloc)?;
    let line = LineBuffer::new(alloc)?;
    let call = CallBuffer::new(alloc)?;
    Ok((arguments, expansion, line, call))
}

impl Actions {
    // The actions with these names and this body, before the first line of a page.
    fn with_names(
        alloc: Global,
        output: Output,
        names: Names,
        body: BodyBuffer,
    ) -> Result<Actions, AllocError>
        ensures { IfOk result (acting.Remembers output (record { definitions = names; body = body; number = 0; expansions = 0 })) }
    {
        let (arguments, expansion, line, call) = new_buffers(alloc)?;
        Ok(Actions {
            names,
            arguments,
            output,
            expansion,
            body,
            line,
            call,
            number: 0,
            expansions: 0,
        })
    }

    /// Before the first line of a page.
    pub fn new(alloc: Global, output: Output) -> Result<Actions, AllocError>
        ensures { IfOk result (acting.IsNew output) }
    {
        let names = Names::new(alloc)?;
        let body = BodyBuffer::new(alloc)?;
        Actions::with_names(alloc, output, names, body)
    }

    /// The actions between two lines of a page, for an output, with what is remembered of it. All memory is reserved here.
    pub fn at(alloc: Global, output: Output, remembered: &Remembered) -> Result<Actions, AllocError>
        ensures { IfOk result (acting.Remembers output remembered.now) }
    {
        let names = remembered.names.copy(alloc)?;
        let body = remembered.body.copy(alloc)?;
        let mut actions = Actions::with_names(alloc, output, names, body)?;
        actions.number = remembered.number;
        actions.expansions = remembered.expansions;
        Ok(actions)
    }

    /// What is remembered, in memory of its own.
    pub fn remembered(&self, alloc: Global) -> Result<Remembered, AllocError>
        ensures { IfOk result (λ remembered. remembered ≡ self.now.memory) }
    {
        let names = self.names.copy(alloc)?;
        let body = self.body.copy(alloc)?;
        Ok(Remembered {
            names,
            body,
            number: self.number,
            expansions: self.expansions,
        })
    }

    /// A source line of this number begins.
    pub fn begin_line(&mut self, number: u32)
        ensures { self.new ≡ acting.with_number number self.old }
    {
        self.number = number;
    }

    /// A macro with these arguments, each followed by a line feed, is the innermost one that runs.
    pub fn enter(&mut self, packed: &[u8])
        requires { length packed.now ≤ ARGS }
        ensures { self.new ≡ acting.with_arguments (Some (arguments_in packed.now)) self.old }
    {
        self.arguments.set(packed);
    }

    /// No macro runs.
    pub fn leave(&mut self)
        ensures { self.new ≡ acting.with_arguments None self.old }
    {
        self.arguments.leave();
    }

    /// How many interpolations were made.
    pub fn expansions(&self) -> u64
        ensures { result ≡ self.now.memory.expansions }
    {
        self.expansions
    }

    /// Keeps a line that was lent, as the one that was taken last.
    pub fn keep(&mut self, taken: Taken<'_>)
        requires { length taken.text.now ≤ LINE }
        ensures { self.new ≡ record self.old { line = line_view taken.entry } }
    {
        self.line
            .set(taken.form, taken.text, taken.line, taken.name_end);
    }

    /// Lends the line that was taken last, of at most [`LINE`](page_core_base::LINE) bytes.
    pub fn line(&self) -> Taken<'_>
        ensures line { line_view result ≡ self.now.line }
        ensures short { length result.text.now ≤ LINE }
    {
        self.line.taken()
    }

    /// Lends the body of the macro that was called last, at most `BODY` bytes after [`ProductKind::Call`], or the text of the loop that came
    /// last, at most as many after [`ProductKind::Loop`].
    pub fn called_body(&self) -> &[u8]
        ensures { result.now ≡ self.now.call.body }
    {
        self.call.body()
    }

    /// Lends the arguments of the macro that was called last, each with a line feed after it.
    pub fn called_arguments(&self) -> &[u8]
        ensures { result.now ≡ self.now.call.packed }
    {
        self.call.packed()
    }

    /// Expands a line, in copy mode or not.
    pub(crate) fn expand<O: NoteOut>(&mut self, copy: bool, text: &[u8], out: &mut O)
        ensures after { self.new ≡ acting.with_finished (acting.line_laid copy text.now self.old) self.old }
        ensures came { Came O.left out.old (acting.line_laid copy text.now self.old).notes out.new }
    {
        let env = Environment {
            copy,
            names: &self.names,
            arguments: &self.arguments,
            output: self.output,
        };
        expand_line(text, self.number, &env, &mut self.expansion, out);
        let count = self.expansion.count();
        self.expansions = self.expansions.saturating_add(count as u64);
    }

    /// Expands a line. Answers whether the line itself is what it gives: then it is not copied.
    pub(crate) fn expand_or_keep<O: NoteOut>(&mut self, text: &[u8], out: &mut O) -> bool
        requires { length text.now ≤ LINE }
        ensures { ExpandsOrKeeps O.left false self.old out.old text.now result self.new out.new }
    {
        let env = Environment {
            copy: false,
            names: &self.names,
            arguments: &self.arguments,
            output: self.output,
        };
        if self.expansion.expand(&env, text, self.number, out) {
            return true;
        }
        let count = self.expansion.count();
        self.expansions = self.expansions.saturating_add(count as u64);
        false
    }

    /// `expand_or_keep` in copy mode or not, where a line without a backslash is what it gives.
    pub(crate) fn expand_unless_plain<O: NoteOut>(
        &mut self,
        copy: bool,
        text: &[u8],
        out: &mut O,
    ) -> bool
        requires { length text.now ≤ LINE }
        ensures { ExpandsOrKeeps O.left copy self.old out.old text.now result self.new out.new }
    {
        if plain_len(text) == text.len() {
            return true;
        }
        self.expand(copy, text, out);
        false
    }

    /// Whether a condition holds.
    #[tactic(auto, unfolding(crate::specs::States::answer_of))]
    pub fn test<O: NoteOut>(&mut self, condition: &Condition<&[u8]>, out: &mut O) -> bool
        requires { FitsTest (test_view condition.now.test) }
        ensures { Tests O.left self.old out.old
            (answer_of (measured self.old.setting) (condition_view condition.now) self.old.memory) result self.new out.new }
    {
        let env = Environment {
            copy: false,
            names: &self.names,
            arguments: &self.arguments,
            output: self.output,
        };
        let answer = holds(condition, self.number, &env, &mut self.expansion, out);
        let count = self.expansion.count();
        self.expansions = self.expansions.saturating_add(count as u64);
        answer
    }

    /// Whether the condition of a turn of a loop holds, of which the first byte is in column 1.
    pub fn turn<O: NoteOut>(&mut self, condition: &[u8], out: &mut O) -> bool
        requires { length condition.now ≤ LINE }
        ensures { Tests O.left self.old out.old
            (turn_answer (measured self.old.setting) condition.now self.old.memory) result self.new out.new }
    {
        let (condition, _) = read_condition(condition, 1);
        self.test(&condition, out)
    }

    /// A re-read line comes beyond the budget.
    #[tactic(auto, unfolding(crate::specs::States::budget_outcome))]
    pub fn exhaust<O: NoteOut>(&mut self, out: &mut O)
        ensures { Does O.left self.old out.old (budget_outcome self.old.memory) self.new out.new }
    {
        report_at(
            NoteKind::Loop,
            self.number,
            1,
            Limit::Reread.name().as_bytes(),
            out,
        );
    }

    /// A true block comes beyond the limit of open ones; the name of its head is in a column.
    #[tactic(auto, unfolding(crate::specs::States::block_outcome))]
    pub fn refuse<O: NoteOut>(&mut self, column: u32, out: &mut O)
        ensures { Does O.left self.old out.old (block_outcome column self.old.memory) self.new out.new }
    {
        report_at(
            NoteKind::Limit,
            self.number,
            column,
            Limit::Conds.name().as_bytes(),
            out,
        );
    }

    /// The end of a block comes where none is open.
    #[tactic(auto, unfolding(crate::specs::States::end_of_block_outcome))]
    pub fn report_unopened<O: NoteOut>(&mut self, out: &mut O)
        ensures { Does O.left self.old out.old (end_of_block_outcome self.old.memory) self.new out.new }
    {
        report_at(NoteKind::NotOpen, self.number, 1, b"\\}", out);
    }

    /// What is remembered is within its limits. Nothing is done: the names and the body show it.
    pub fn caps_law(&self)
        ensures { MemoryFits self.now.memory }
    {
        self.names.caps_law();
        self.body.caps_law();
    }
}
