//! A call of a macro (roff(7), "MACRO SYNTAX"): its arguments, packed, and the body that it runs.

ghost use Rattle.std.specs.Prelude.{◌≡◌, ℕ, true, ◌≤◌, ◌+◌, [], ◌∷◌, ◌++◌, length, IfOk};
ghost use Rattle.std.specs.Vec.{vec_len, vec_capacity};
ghost use Rattle.page_core_base.specs.declared.limits.TheConstants.{BODY, LINE};
ghost use Rattle.page_roff_syntax.specs.laws.Views.{argument_view};
ghost use Rattle.page_roff_syntax.specs.Arguments.{argument_value, arguments};
ghost use Rattle.page_core_base.specs.Texts.{unpaired};
ghost use Rattle.page_roff_definitions.specs.Definitions.{closing_notes, closings_notes, packed};
ghost use Rattle.page_roff_definitions.specs.machine.Buffers.{no_call, Packs};

use memchr::memchr;
use page_core_base::{ARGS, BODY, BoundedText, LINE, after_byte, append};
use page_roff_syntax::{Argument, Arguments, Quoting};
use std::alloc::{AllocError, Global};
use std::marker::Model;

// Puts the text of a quoted argument at the end, within what is reserved.
fn append_unpaired(text: &mut Vec<u8>, quoted: &[u8])
    requires { vec_len text.old + length quoted.now ≤ vec_capacity text.old }
    ensures items { text.new.items ≡ text.old.items ++ unpaired quoted.now }
    ensures short { vec_len text.new ≤ vec_len text.old + length quoted.now }
    ensures capacity { vec_capacity text.new ≡ vec_capacity text.old }
{
    let mut rest = quoted;
    while !rest.is_empty() {
        let byte = rest[0];
        text.push_reserved(byte);
        rest = after_byte(byte, &rest[1..]);
    }
}

// Puts an argument at the end, with a line feed after it.
fn append_argument(text: &mut Vec<u8>, argument: Argument<&[u8]>)
    requires { vec_len text.old + length argument.text.now + 1 ≤ vec_capacity text.old }
    ensures items { text.new.items ≡ text.old.items
        ++ (argument_value (argument_view argument.entry) ++ (10 ∷ [])) }
    ensures capacity { vec_capacity text.old ≤ vec_capacity text.new }
{
    if argument.is_quoted() && memchr(b'"', argument.text).is_some() {
        append_unpaired(text, argument.text);
    } else {
        append(text, argument.text);
    }
    text.push_reserved(b'\n');
}

/// What is known of arguments that were packed.
#[derive(Clone, Copy)]
pub struct Packing {
    /// Whether they are within the limit.
    pub fits: bool,
    /// Whether it is known that none of them lacks its last quote.
    pub is_closed: bool,
}

// Whether an argument too is known not to lack its last quote.
fn are_closed(is_closed: bool, argument: &Argument<&[u8]>) -> bool
    ensures before { result ≡ true → is_closed ≡ true }
    ensures none { result ≡ true → (line : ℕ) → closing_notes line (argument_view argument.now) ≡ [] }
{
    match argument.quoting {
        Quoting::Bare | Quoting::Closed => is_closed,
        Quoting::Unclosed => false,
    }
}

// Puts arguments at the end, each with a line feed after it, as long as they are within the limit.
fn append_arguments(text: &mut Vec<u8>, arguments: &mut Arguments<'_>) -> Packing
    requires { (text.old.items ≡ []) × (ARGS + LINE + 1 ≤ vec_capacity text.old) }
    ensures packed { Packs (packed arguments.old) result.fits text.new.items }
    ensures closed { result.is_closed ≡ true → (line : ℕ) → closings_notes line arguments.old ≡ [] }
    ensures capacity { ARGS + LINE + 1 ≤ vec_capacity text.new }
{
    let mut is_closed = true;
    while let Some(argument) = arguments.next_argument() {
        is_closed = are_closed(is_closed, &argument);
        append_argument(text, argument);
        if ARGS < text.len() {
            return Packing {
                fits: false,
                is_closed: false,
            };
        }
    }
    Packing {
        fits: true,
        is_closed,
    }
}

/// The call that was taken last.
#[derive(Drop)]
pub struct CallBuffer {
    body: BoundedText<BODY>,
    packed: Vec<u8>,
}

impl Model for CallBuffer {
    ghost use Rattle.std.specs.Prelude.{◌≤◌, ◌+◌};
    ghost use Rattle.std.specs.Vec.{vec_capacity};
    ghost use Rattle.page_core_base.specs.declared.limits.TheConstants.{ARGS, LINE};
    ghost use Rattle.page_roff_definitions.specs.machine.Buffers.{MacroCall};

    ghost Value = { MacroCall };

    ghost view = { λ c. record { body = c.body; packed = c.packed.items } };

    ghost invariant = { λ c. ARGS + LINE + 1 ≤ vec_capacity c.packed };
}

impl CallBuffer {
    /// No call yet. All memory is reserved here.
    pub fn new(alloc: Global) -> Result<CallBuffer, AllocError>
        ensures { IfOk result (λ r. r ≡ no_call) }
    {
        Ok(CallBuffer {
            body: BoundedText::new(alloc)?,
            packed: Vec::with_capacity(alloc, ARGS + LINE + 1)?,
        })
    }

    /// Takes the arguments of a call from the rest of its line, of which the first byte is at a column.
    pub fn pack(&mut self, rest: &[u8], column: u32) -> Packing
        requires short { length rest.now ≤ LINE }
        requires room { column + length rest.now ≤ LINE + 1 }
        ensures packed { Packs (packed (arguments column rest.now)) result.fits self.new.packed }
        ensures closed { result.is_closed ≡ true → (line : ℕ) → closings_notes line (arguments column rest.now) ≡ [] }
        ensures body { self.new.body ≡ self.old.body }
    {
        self.packed.clear();
        append_arguments(&mut self.packed, &mut Arguments::new(rest, column))
    }

    /// Takes the body of a call, or the text of a loop.
    pub fn set_body(&mut self, body: &[u8])
        requires { length body.now ≤ BODY }
        ensures { self.new ≡ record { body = body.now; packed = self.old.packed } }
    {
        self.body.set(body);
    }

    /// Lends the body.
    pub fn body(&self) -> &[u8]
        ensures { result.now ≡ self.now.body }
    {
        self.body.bytes()
    }

    /// Lends the arguments, each with a line feed after it.
    pub fn packed(&self) -> &[u8]
        ensures { result.now ≡ self.now.packed }
    {
        self.packed.as_slice()
    }
}
