//! A field of a header or a footer as text (man(7), `TH`; mdoc(7), `Dd`, `Dt`, `Os`).

ghost use Rattle.std.specs.Prelude.{◌≡◌, ◌≤◌, ◌<◌, ◌+◌, ◌-◌, [], ◌∷◌, ◌++◌, ◌==◌, length, drop, take};
ghost use Rattle.page_core_base.specs.declared.limits.TheConstants.{FIELD};
ghost use Rattle.page_roff_syntax.specs.laws.Views.{argument_view};
ghost use Rattle.page_engine_header.specs.Header as fields;
ghost use Rattle.page_engine_header.specs.Header.{first_field, or_else, said, said_len};
ghost use Rattle.page_core_base.specs.Limits.{FIELD as spec_FIELD};

use arrayvec::ArrayVec;
use page_core_base::FIELD;
use page_roff_syntax::{Argument, Arguments};
use std::marker::Model;

/// A field as text, of at most [`FIELD`] bytes.
#[derive(Drop)]
pub struct Field {
    text: ArrayVec<u8, 256>,
}

impl Model for Field {
    ghost use Rattle.std.specs.Prelude.{List, ℕ};

    ghost Value = { List ℕ };

    ghost view = { λ f. f.text.items };
}

// Adds a byte, if there is room; the room that is left.
fn add_byte(kept: &mut ArrayVec<u8, 256>, room: usize, byte: u8) -> usize
    requires { length kept.old.items + room ≤ 256 }
    ensures items { kept.new.items ≡ kept.old.items ++ take room (byte ∷ []) }
    ensures room { result ≡ room - 1 }
    ensures fits { length kept.new.items + result ≤ 256 }
{
    if room == 0 {
        return 0;
    }
    kept.push(byte);
    room - 1
}

// Adds what an argument says, as far as there is room for it, up to a character's end; the room that is left.
#[tactic(auto, using(page_scopes_words::proofs::RunEndLemmas::front_fits, crate::proofs::PrintingLemmas::front_within))]
fn add_argument(kept: &mut ArrayVec<u8, 256>, room: usize, argument: Argument<&[u8]>) -> usize
    requires { length kept.old.items + room ≤ 256 }
    ensures items { kept.new.items ≡ kept.old.items ++ said room (argument_view argument.entry) }
    ensures room { result ≡ room - said_len (argument_view argument.entry) }
    ensures fits { length kept.new.items + result ≤ 256 }
{
    let front = argument.value_front(room);
    let _ = kept.try_extend_from_slice(front.as_slice());
    room.saturating_sub(argument.value_len())
}

// Adds arguments, a blank before each, as far as there is room for them.
fn add_words(kept: &mut ArrayVec<u8, 256>, room: usize, arguments: &mut Arguments<'_>)
    requires { length kept.old.items + room ≤ 256 }
    ensures { kept.new.items ≡ kept.old.items ++ fields.words_text room arguments.old }
{
    let mut room = room;
    while let Some(argument) = arguments.next_argument() {
        room = add_byte(kept, room, b' ');
        room = add_argument(kept, room, argument);
    }
}

impl Field {
    /// The same field.
    pub(crate) fn copy(&self) -> Field
        ensures { result ≡ self.now }
    {
        Field::plain(self.text.as_slice())
    }

    /// A field of a text of at most 256 bytes.
    pub(crate) fn plain(text: &[u8]) -> Field
        requires { length text.now ≤ 256 }
        ensures { result ≡ text.now }
    {
        let mut kept = ArrayVec::new();
        let _ = kept.try_extend_from_slice(text);
        Field { text: kept }
    }

    /// A field of what an argument says, of which the first 256 bytes are kept, up to a character's end.
    pub(crate) fn of(argument: Argument<&[u8]>) -> Field
        ensures { result ≡ said spec_FIELD (argument_view argument.entry) }
    {
        let mut kept = ArrayVec::new();
        add_argument(&mut kept, FIELD, argument);
        Field { text: kept }
    }

    /// The field of the next argument; none: the empty field.
    pub(crate) fn next(arguments: &mut Arguments<'_>) -> Field
        ensures field { result ≡ first_field arguments.old }
        ensures rest { arguments.new ≡ drop 1 arguments.old }
    {
        match arguments.next_argument() {
            None => Field::plain(b""),
            Some(argument) => Field::of(argument),
        }
    }

    /// The field of all arguments, joined by one blank.
    pub(crate) fn joined(arguments: Arguments<'_>) -> Field
        ensures { result ≡ fields.joined arguments.entry }
    {
        let mut arguments = arguments;
        let mut kept = ArrayVec::new();
        if let Some(first) = arguments.next_argument() {
            let room = add_argument(&mut kept, FIELD, first);
            add_words(&mut kept, room, &mut arguments);
        }
        Field { text: kept }
    }

    // The field of a short text, and an argument in brackets after it.
    fn with_brackets(text: &[u8], argument: Argument<&[u8]>) -> Field
        requires { length text.now ≤ 64 }
        ensures { result ≡ text.now ++ fields.in_brackets (FIELD - length text.now) (argument_view argument.entry) }
    {
        let mut kept = ArrayVec::new();
        let _ = kept.try_extend_from_slice(text);
        let _ = kept.try_extend_from_slice(b" (");
        let room = add_argument(&mut kept, FIELD - text.len() - 2, argument);
        add_byte(&mut kept, room, b')');
        Field { text: kept }
    }

    /// The field of a short text, and the next argument in brackets after it, unless it is empty.
    pub(crate) fn bracketed(text: &[u8], arguments: &mut Arguments<'_>) -> Field
        requires { length text.now ≤ 64 }
        ensures { result ≡ fields.bracketed text.now arguments.old }
    {
        match arguments.next_argument() {
            Some(argument) if !argument.text.is_empty() => Field::with_brackets(text, argument),
            _ => Field::plain(text),
        }
    }

    /// This field, or another text of at most 256 bytes where it is empty.
    pub(crate) fn or_else(self, other: &[u8]) -> Field
        requires { length other.now ≤ 256 }
        ensures { result ≡ or_else self other.now }
    {
        if self.is_empty() {
            return Field::plain(other);
        }
        self
    }

    /// This field without the keyword of a date that is around it.
    pub(crate) fn without_keyword(&self) -> Field
        ensures { result ≡ fields.without_keyword self.now }
    {
        let text = self.text();
        let (front, end) = (keyword_len(text), keyword_end(text));
        if front >= end {
            return Field::plain(b"");
        }
        Field::plain(&text[front..end])
    }

    /// The bytes of the field.
    pub fn text(&self) -> &[u8]
        ensures text { result.now ≡ self.now }
        ensures within { length result.now ≤ 256 }
    {
        self.text.as_slice()
    }

    /// Whether the field has no bytes.
    pub(crate) fn is_empty(&self) -> bool
        ensures { result ≡ (length self.now == 0) }
    {
        self.text.is_empty()
    }
}

// The bytes of `$Mdocdate: ` at a text's front; none if it is not there.
fn keyword_len(text: &[u8]) -> usize
    ensures { result ≡ fields.keyword_len text.now }
{
    if text.starts_with(b"$Mdocdate: ") {
        11
    } else {
        0
    }
}

// Where ` $` begins that ends a text; else its end.
fn keyword_end(text: &[u8]) -> usize
    ensures value { result ≡ fields.keyword_end text.now }
    ensures within { result ≤ length text.now }
{
    if text.ends_with(b" $") {
        text.len() - 2
    } else {
        text.len()
    }
}
