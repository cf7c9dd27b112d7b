//! Lines that are taken at once, as they are written: most of a page is made of them (roff(7), "LANGUAGE SYNTAX" and "MACRO SYNTAX").

ghost use Rattle.std.specs.Prelude.{◌≡◌, ◌+◌, ◌≤◌, true, length, None, Some};
ghost use Rattle.page_core_base.specs.laws.Views.{line_view, IsFreeLine};
ghost use Rattle.page_core_base.specs.declared.limits.TheConstants.{LINE};
ghost use Rattle.page_roff_syntax.specs.LineForms.{form_of};
ghost use Rattle.page_roff_syntax.specs.laws.Views.{name_of};
ghost use Rattle.page_roff_effects.specs.machine.Acting.{measured, CallsIf, IsTaken, TakesIf};
ghost use Rattle.page_roff_effects.specs.Lines.{leaf_outcome};

use crate::actions::Actions;
use crate::commands::{body_or_nothing, is_called, is_ordinary};
use crate::free_lines::is_free;
use crate::leaves::plain_form;
use page_core_base::{Form, Taken};
use page_roff_syntax::{control_name, white_len};

/// What came of a line that was to be taken at once.
#[derive(Clone, Copy)]
pub enum AtOnce<'l> {
    /// Nothing: it is to be run.
    Nothing,
    /// The line, for the set of macros.
    Line(Taken<'l>),
    /// The call of a macro.
    Call,
}

impl Actions {
    // A free line that is no control line, as it is taken.
    #[tactic(auto, using(crate::proofs::AtOnceLemmas::free_leaf, crate::proofs::AtOnceLemmas::free_text))]
    fn free_text<'l>(&self, raw: &'l [u8]) -> Taken<'l>
        requires short { length raw.now ≤ LINE }
        requires free { IsFreeLine raw.now }
        requires text { name_of (form_of raw.now) ≡ None }
        ensures { IsTaken self.now raw.now (λ may_call. leaf_outcome (measured self.now.setting) may_call raw.now self.now.memory)
            (line_view result) self.now }
    {
        Taken {
            form: plain_form(raw),
            text: raw,
            line: self.number,
            name_end: 0,
        }
    }

    // Calls the macro of a name with the arguments in the rest of its line, of which the first byte is at a column, if no message comes of that.
    #[tactic(auto, using(crate::proofs::AtOnceLemmas::packs_call))]
    fn call_at_once<'l>(&mut self, name: &[u8], rest: &[u8], column: u32) -> AtOnce<'l>
        requires short { length rest.now ≤ LINE }
        requires room { column + length rest.now ≤ LINE + 1 }
        ensures { CallsIf result name.now rest.now column self.old self.new }
    {
        let packing = self.call.pack(rest, column);
        if !packing.fits || !packing.is_closed {
            return AtOnce::Nothing;
        }
        self.call.set_body(body_or_nothing(name, &self.names));
        AtOnce::Call
    }

    // Takes a free control line of a name that heads nothing, if it calls a macro or is left to the set of macros.
    #[tactic(auto, using(crate::proofs::AtOnceLemmas::free_named, crate::proofs::AtOnceLemmas::free_control, crate::proofs::AtOnceLemmas::takes_call))]
    fn take_free_control<'l>(&mut self, raw: &'l [u8], name: &[u8]) -> AtOnce<'l>
        requires short { length raw.now ≤ LINE }
        requires free { IsFreeLine raw.now }
        requires named { name_of (form_of raw.now) ≡ Some name.now }
        ensures { TakesIf result self.old raw.now (λ may_call. leaf_outcome (measured self.old.setting) may_call raw.now self.old.memory) self.new }
    {
        if name.is_empty() || !is_ordinary(name) {
            return AtOnce::Nothing;
        }
        let name_end = 1 + white_len(&raw[1..]) + name.len();
        if is_called(name, &mut self.names) {
            return self.call_at_once(name, &raw[name_end..], name_end as u32 + 1);
        }
        AtOnce::Line(Taken {
            form: Form::Control,
            text: raw,
            line: self.number,
            name_end: name_end as u32,
        })
    }

    /// Takes a raw line, which may be known to be free, if it is one part that calls a macro or is left to the set of macros, as it is
    /// written: it heads and defines nothing, and nothing in it is interpolated. Says which it was, and lends the line; the call is lent from then on.
    /// There is no message, and nothing else changes.
    pub fn take_at_once<'l>(&mut self, raw: &'l [u8], free: bool) -> AtOnce<'l>
        requires short { length raw.now ≤ LINE }
        requires free { free ≡ true → IsFreeLine raw.now }
        ensures { TakesIf result self.old raw.now (λ may_call. leaf_outcome (measured self.old.setting) may_call raw.now self.old.memory) self.new }
    {
        if !free && !is_free(raw) {
            return AtOnce::Nothing;
        }
        match control_name(raw) {
            Some(name) => self.take_free_control(raw, name),
            None => AtOnce::Line(self.free_text(raw)),
        }
    }
}
