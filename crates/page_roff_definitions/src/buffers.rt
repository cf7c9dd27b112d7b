//! What was taken last, in memory that is reserved once: a line, a call, the body of a region or a loop.

ghost use Rattle.std.specs.Prelude.{◌≡◌, ◌≤◌, length, false, IfOk, IfSome, None, Some};
ghost use Rattle.page_core_base.specs.laws.Views.{line_view};
ghost use Rattle.page_core_base.specs.declared.limits.TheConstants.{BODY, LINE};
ghost use Rattle.page_roff_definitions.specs.machine.Buffers.{no_line, AddsLine};
ghost use Rattle.page_roff_syntax.specs.laws.Views.{text_view};

use page_core_base::{BODY, BoundedText, Form, LINE, Taken};
use std::alloc::{AllocError, Global};
use std::marker::Model;

/// The finished line that was taken last.
#[derive(Drop)]
pub struct LineBuffer {
    form: Form,
    text: BoundedText<LINE>,
    line: u32,
    name_end: u32,
}

impl Model for LineBuffer {
    ghost use Rattle.page_core_base.specs.Texts.{TakenLine};

    ghost Value = { TakenLine };

    ghost view = { λ l. record { form = l.form; text = l.text; number = l.line; name_end = l.name_end } };
}

impl LineBuffer {
    /// No line yet. All memory is reserved here.
    pub fn new(alloc: Global) -> Result<LineBuffer, AllocError>
        ensures { IfOk result (λ r. r ≡ no_line) }
    {
        Ok(LineBuffer {
            form: Form::Text,
            text: BoundedText::new(alloc)?,
            line: 0,
            name_end: 0,
        })
    }

    /// Takes a line.
    pub fn set(&mut self, form: Form, text: &[u8], line: u32, name_end: u32)
        requires { length text.now ≤ LINE }
        ensures { self.new ≡ record { form = form; text = text.now; number = line; name_end = name_end } }
    {
        self.text.set(text);
        self.form = form;
        self.line = line;
        self.name_end = name_end;
    }

    /// Lends the line, of at most [`LINE`] bytes.
    pub fn taken(&self) -> Taken<'_>
        ensures line { line_view result ≡ self.now }
        ensures short { length result.text.now ≤ LINE }
    {
        Taken {
            form: self.form,
            text: self.text.bytes(),
            line: self.line,
            name_end: self.name_end,
        }
    }
}

/// The body that an open region has so far, where it defines a macro and no limit was passed, or the text of the loop that is collected.
#[derive(Drop)]
pub struct BodyBuffer {
    is_open: bool,
    text: BoundedText<BODY>,
}

impl Model for BodyBuffer {
    ghost use Rattle.std.specs.Prelude.{ℕ, List, Option, Some, None, if◌then◌else◌};

    ghost Value = { Option (List ℕ) };

    ghost view = { λ b. if b.is_open then Some b.text else None };
}

impl BodyBuffer {
    /// No body. All memory is reserved here.
    pub fn new(alloc: Global) -> Result<BodyBuffer, AllocError>
        ensures { IfOk result (λ r. r ≡ None) }
    {
        Ok(BodyBuffer {
            is_open: false,
            text: BoundedText::new(alloc)?,
        })
    }

    /// The same body, if there is one. All memory is reserved here.
    pub fn copy(&self, alloc: Global) -> Result<BodyBuffer, AllocError>
        ensures { IfOk result (λ r. r ≡ self.now) }
    {
        Ok(BodyBuffer {
            is_open: self.is_open,
            text: self.text.copy(alloc)?,
        })
    }

    /// There is no body.
    pub fn clear(&mut self)
        ensures { self.new ≡ None }
    {
        self.is_open = false;
    }

    /// A body that begins so.
    pub fn begin(&mut self, front: &[u8])
        requires { length front.now ≤ BODY }
        ensures { self.new ≡ Some front.now }
    {
        self.text.set(front);
        self.is_open = true;
    }

    /// What the body has so far, if there is one.
    pub fn text(&self) -> Option<&[u8]>
        ensures text { text_view result ≡ self.now }
        ensures short { IfSome result (λ body. length body.now ≤ BODY) }
    {
        if self.is_open {
            Some(self.text.bytes())
        } else {
            None
        }
    }

    /// Adds a line with its end to a body. Where that passes the limit, there is no body from then on.
    pub fn add_line(&mut self, line: &[u8]) -> bool
        ensures none { self.old ≡ None → (result ≡ false) × (self.new ≡ None) }
        ensures added { AddsLine self.old line.now result self.new }
    {
        if !self.is_open {
            return false;
        }
        self.is_open = self.text.add(line) && self.text.add_byte(b'\n');
        self.is_open
    }

    /// The body is within its limit. Nothing is done: what is added keeps to it.
    pub fn caps_law(&self)
        ensures { IfSome self.now (λ body. length body ≤ BODY) }
    {
        let _is_open = self.is_open;
        let _text = self.text.bytes();
    }
}
