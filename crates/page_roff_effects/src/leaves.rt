//! Lines that head nothing: text, requests, calls of macros (roff(7), "LANGUAGE SYNTAX" and "MACRO SYNTAX").

ghost use Rattle.std.specs.Prelude.{◌≡◌, ◌≤◌, ◌+◌, ◌++◌, length, drop, true, if◌then◌else◌};
ghost use Rattle.page_core_base.specs.declared.limits.TheConstants.{LINE};
ghost use Rattle.page_roff_syntax.specs.LineForms.{form_of};
ghost use Rattle.page_roff_syntax.specs.declared.line_forms.LineForm.TheVariants.{Control};
ghost use Rattle.page_core_base.specs.laws.Views.{Came};
ghost use Rattle.page_roff_effects.specs.machine.Acting.{control_view, measured, plain_form, text_given, Does, Gives, Takes, IfCalled, IsCallable};
ghost use Rattle.page_core_base.specs.declared.lines_taken.Form.TheVariants as forms;
ghost use Rattle.page_roff_effects.specs.Lines as leaves;
ghost use Rattle.page_roff_effects.specs.Lines.{leaf_outcome};
ghost use Rattle.page_roff_effects.specs.States.{gives_line};

use crate::actions::{Actions, report_at};
use crate::commands::{Command, ProductKind, body_or_nothing};
use page_core_base::{Form, LINE, Limit, NoteKind, NoteOut, Place};
use page_roff_definitions::{RequestLine, define, report_closings};
use page_roff_syntax::{DefinitionRequest, LineForm, begins_control, form_of, has_word, plain_len};
use page_roff_values::Expansion;

/// A control line with a name.
#[derive(Clone, Copy)]
pub(crate) struct ControlLine<'a> {
    pub(crate) name: &'a [u8],
    column: u32,
    // How many bytes go up to the end of the name.
    pub(crate) name_end: u32,
    // The line without its comment.
    pub(crate) text: &'a [u8],
}

/// A control line with its parts as they were read.
pub(crate) fn control_line<'a>(
    text: &'a [u8],
    name: &'a [u8],
    column: u32,
    rest: &'a [u8],
    rest_column: u32,
) -> ControlLine<'a>
    requires form { form_of text.now ≡ Control name.now column rest.now rest_column }
    requires short { length text.now ≤ LINE }
    ensures value { control_view result ≡ leaves.control_line text.now name.now column rest_column }
    ensures fits { result.name_end ≤ LINE }
    ensures short { length result.text.now ≤ LINE }
{
    let name_end = rest_column - 1;
    ControlLine {
        name,
        column,
        name_end,
        text: &text[..name_end as usize + rest.len()],
    }
}

/// The form of a line of plain text.
pub(crate) fn plain_form(text: &[u8]) -> Form
    ensures { result ≡ plain_form text.now }
{
    if has_word(text) {
        Form::Text
    } else {
        Form::Blank
    }
}

// What follows the name in a finished line.
fn rest_of(text: &[u8], name_end: u32) -> &[u8]
    requires name { name_end ≤ LINE }
    requires short { length text.now ≤ LINE }
    ensures value { result.now ≡ drop name_end text.now }
    ensures short { length result.now ≤ LINE }
    ensures room { name_end + length result.now ≤ LINE }
{
    &text[(name_end as usize).min(text.len())..]
}

// What a line gives: itself where it is plain, and else what is finished.
fn finished_text<'a>(is_plain: bool, text: &'a [u8], expansion: &'a Expansion) -> &'a [u8]
    requires { length text.now ≤ LINE }
    ensures value { result.now ≡ (if is_plain then text.now else expansion.now.text) }
    ensures short { length result.now ≤ LINE }
{
    if is_plain { text } else { expansion.text() }
}

// Reports a call beyond the limits.
fn report_refusals<O: NoteOut>(may_call: bool, fits: bool, place: Place, out: &mut O)
    ensures { Came O.left out.old (leaves.depth_notes may_call place
        ++ leaves.size_notes fits place) out.new }
{
    if !may_call {
        report_at(
            NoteKind::Loop,
            place.line,
            place.column,
            Limit::Calls.name().as_bytes(),
            out,
        );
    }
    if !fits {
        report_at(
            NoteKind::Limit,
            place.line,
            place.column,
            Limit::Args.name().as_bytes(),
            out,
        );
    }
}

impl Actions {
    // Takes the text line that is finished.
    fn take_finished(&mut self) -> ProductKind
        ensures { Takes self.old (gives_line forms.Text self.old.finished.text 0
            self.old.memory) result self.new }
    {
        self.line
            .set(Form::Text, self.expansion.text(), self.number, 0);
        ProductKind::Line
    }

    /// Takes a line as it is written.
    pub(crate) fn take_raw(&mut self, form: Form, text: &[u8]) -> ProductKind
        requires { length text.now ≤ LINE }
        ensures { Takes self.old (gives_line form text.now 0 self.old.memory) result self.new }
    {
        self.line.set(form, text, self.number, 0);
        ProductKind::Line
    }

    // Takes a control line that is finished, or is plain.
    fn take_control(&mut self, line: ControlLine<'_>, is_plain: bool) -> ProductKind
        requires { length line.text.now ≤ LINE }
        ensures { Takes self.old (gives_line forms.Control (text_given is_plain line.entry.text.now self.old) line.entry.name_end
            self.old.memory) result self.new }
    {
        let finished = finished_text(is_plain, line.text, &self.expansion);
        self.line
            .set(Form::Control, finished, self.number, line.name_end);
        ProductKind::Line
    }

    // Calls a macro with the arguments of the finished line: the line itself where it is plain.
    fn call<O: NoteOut>(
        &mut self,
        may_call: bool,
        line: ControlLine<'_>,
        is_plain: bool,
        out: &mut O,
    ) -> ProductKind
        requires name { line.name_end ≤ LINE }
        requires short { length line.text.now ≤ LINE }
        ensures { Gives O.left self.old out.old
            (leaves.does may_call Command.Call (control_view line.entry) (text_given is_plain line.entry.text.now self.old) self.old.memory)
            result self.new out.new }
    {
        let finished = finished_text(is_plain, line.text, &self.expansion);
        let rest = rest_of(finished, line.name_end);
        let place = Place {
            line: self.number,
            column: line.column,
        };
        let rest_place = Place {
            line: self.number,
            column: line.name_end + 1,
        };
        let packing = self.call.pack(rest, line.name_end + 1);
        if !packing.is_closed {
            report_closings(out, rest_place, rest);
        }
        report_refusals(may_call, packing.fits, place, out);
        if !(may_call && packing.fits) {
            return ProductKind::Nothing;
        }
        self.call.set_body(body_or_nothing(line.name, &self.names));
        ProductKind::Call
    }

    // Does what a request for definitions says.
    fn define<O: NoteOut>(
        &mut self,
        request: DefinitionRequest,
        line: ControlLine<'_>,
        is_plain: bool,
        out: &mut O,
    )
        requires name { line.name_end ≤ LINE }
        requires short { length line.text.now ≤ LINE }
        ensures { Does O.left self.old out.old
            (leaves.does true (Command.Define request) (control_view line.entry) (text_given is_plain line.entry.text.now self.old) self.old.memory)
            self.new out.new }
    {
        let finished = finished_text(is_plain, line.text, &self.expansion);
        let request_line = RequestLine {
            place: Place {
                line: self.number,
                column: line.column,
            },
            rest: rest_of(finished, line.name_end),
            rest_column: line.name_end + 1,
        };
        define(request, request_line, &mut self.names, out);
    }

    // Does what a control line says, once it is finished.
    fn run<O: NoteOut>(
        &mut self,
        may_call: bool,
        command: Command,
        line: ControlLine<'_>,
        is_plain: bool,
        out: &mut O,
    ) -> ProductKind
        requires name { line.name_end ≤ LINE }
        requires short { length line.text.now ≤ LINE }
        ensures { Gives O.left self.old out.old
            (leaves.does may_call command (control_view line.entry) (text_given is_plain line.entry.text.now self.old) self.old.memory)
            result self.new out.new }
    {
        match command {
            Command::Call => self.call(may_call, line, is_plain, out),
            Command::Define(request) => {
                self.define(request, line, is_plain, out);
                ProductKind::Nothing
            }
            Command::Ignore => ProductKind::Nothing,
            Command::Refuse => {
                report_at(
                    NoteKind::UnsuppRequest,
                    self.number,
                    line.column,
                    line.name,
                    out,
                );
                ProductKind::Nothing
            }
            Command::Pass => self.take_control(line, is_plain),
        }
    }

    // Expands a control line, and does what it says.
    #[tactic(auto, unfolding(crate::specs::Lines::control_outcome, crate::specs::Lines::command_outcome))]
    fn control<O: NoteOut>(
        &mut self,
        may_call: bool,
        line: ControlLine<'_>,
        out: &mut O,
    ) -> ProductKind
        requires name { line.name_end ≤ LINE }
        requires short { length line.text.now ≤ LINE }
        ensures { Gives O.left self.old out.old
            (leaves.control_outcome (measured self.old.setting) may_call (control_view line.entry) self.old.memory)
            result self.new out.new }
    {
        if line.name.is_empty() {
            return ProductKind::Nothing;
        }
        let command = Command::of(line.name, &mut self.names);
        let is_plain = self.expand_unless_plain(command.copies(), line.text, out);
        self.run(may_call, command, line, is_plain, out)
    }

    // Expands a text line, and takes it.
    fn text<O: NoteOut>(&mut self, text: &[u8], out: &mut O) -> ProductKind
        requires { length text.now ≤ LINE }
        ensures { Gives O.left self.old out.old
            (leaves.text_outcome (measured self.old.setting) text.now self.old.memory)
            result self.new out.new }
    {
        if self.expand_or_keep(text, out) {
            self.take_raw(Form::Text, text)
        } else {
            self.take_finished()
        }
    }

    /// Does what a raw line says that heads nothing, where one more macro may run or not. What comes of it is lent from then on.
    pub fn leaf<O: NoteOut>(&mut self, may_call: bool, text: &[u8], out: &mut O) -> ProductKind
        requires { length text.now ≤ LINE }
        ensures gives { Gives O.left self.old out.old
            (leaf_outcome (measured self.old.setting) may_call text.now self.old.memory)
            result self.new out.new }
        ensures call { IfCalled result (IsCallable may_call self.new.call) }
    {
        self.take_form(may_call, text, out)
    }

    // Does what a raw line of this form says.
    #[tactic(auto, unfolding(crate::specs::Lines::leaf_outcome))]
    fn take_form<O: NoteOut>(&mut self, may_call: bool, text: &[u8], out: &mut O) -> ProductKind
        requires { length text.now ≤ LINE }
        ensures { Gives O.left self.old out.old
            (leaf_outcome (measured self.old.setting) may_call text.now self.old.memory)
            result self.new out.new }
    {
        if !begins_control(text) && plain_len(text) == text.len() {
            return self.take_raw(plain_form(text), text);
        }
        match form_of(text) {
            LineForm::Comment => ProductKind::Nothing,
            LineForm::BlankLine => self.take_raw(Form::Blank, text),
            LineForm::Text(line) => self.text(line, out),
            LineForm::Control {
                name,
                column,
                rest,
                rest_column,
            } => self.control(
                may_call,
                control_line(text, name, column, rest, rest_column),
                out,
            ),
        }
    }
}
