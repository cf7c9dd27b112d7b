//! The arguments of the macro that runs (roff(7), "Macro syntax"), as the escape `\$` interpolates them.

ghost use Rattle.std.specs.Prelude.{◌≡◌, ◌+◌, ◌*◌, ◌≤◌, ◌<◌, ◌++◌, [], ◌∷◌, length, IfOk, None, Some, drop};
ghost use Rattle.std.specs.Vec.{vec_len, vec_capacity};
ghost use Rattle.page_roff_values.specs.Values.{arguments_in, argument_at, argument_of, joined, quoted, spaced, spaced_quoted, argument_count};
ghost use Rattle.page_roff_names.specs.laws.Views.{Lends};

use memchr::memchr;
use page_core_base::{ARGS, append};
use page_roff_parts::{Cut, after};
use std::alloc::{AllocError, Global};
use std::marker::Model;

/// The arguments of the innermost macro that runs, if one does, with the texts of all of them.
#[derive(Drop)]
pub struct CallArguments {
    is_inside: bool,
    count: usize,
    packed: Vec<u8>,
    joined: Vec<u8>,
    quoted: Vec<u8>,
}

impl Model for CallArguments {
    ghost use Rattle.std.specs.Prelude.{ℕ, List, Option, Some, None, ◌≡◌, if◌then◌else◌};
    ghost use Rattle.std.specs.Vec.{vec_capacity};
    ghost use Rattle.page_roff_values.specs.Values.{arguments_in};
    ghost use Rattle.page_roff_values.specs.machine.Held.{AreHeld};

    ghost Value = { Option (List (List ℕ)) };

    ghost view = { λ a. if a.is_inside then Some (arguments_in a.packed.items) else None };

    ghost invariant = { λ a. AreHeld a.count a.packed.items a.joined.items a.quoted.items
        (vec_capacity a.packed) (vec_capacity a.joined) (vec_capacity a.quoted) };
}

// Puts an argument at the end, with a blank before it.
fn append_spaced(text: &mut Vec<u8>, argument: &[u8])
    requires { vec_len text.old + length argument.now + 1 ≤ vec_capacity text.old }
    ensures items { text.new.items ≡ text.old.items ++ (32 ∷ argument.now) }
    ensures capacity { vec_capacity text.old ≤ vec_capacity text.new }
{
    text.push_reserved(b' ');
    append(text, argument);
}

// Puts an argument in quotes at the end, with a blank before it.
fn append_quoted(text: &mut Vec<u8>, argument: &[u8])
    requires { vec_len text.old + length argument.now + 3 ≤ vec_capacity text.old }
    ensures items { text.new.items ≡ text.old.items ++ (32 ∷ 34 ∷ (argument.now ++ (34 ∷ []))) }
    ensures capacity { vec_capacity text.old ≤ vec_capacity text.new }
{
    text.push_reserved(b' ');
    text.push_reserved(b'"');
    append(text, argument);
    text.push_reserved(b'"');
}

// The first argument, and the bytes of the others.
fn split_first(packed: &[u8]) -> Cut<'_>
    requires { 0 < length packed.now }
    ensures value { arguments_in packed.now ≡ result.front.now ∷ arguments_in result.rest.now }
    ensures fits { 0 < length result.rest.now
        → length result.front.now + length result.rest.now + 1 ≤ length packed.now }
    ensures less { length result.front.now + length result.rest.now ≤ length packed.now }
    ensures shorter { length result.rest.now < length packed.now }
{
    match memchr(b'\n', packed) {
        Some(end) => Cut {
            front: &packed[..end],
            rest: after(packed, end + 1),
        },
        None => Cut {
            front: packed,
            rest: after(packed, packed.len()),
        },
    }
}

// Makes the texts of all arguments, and answers how many there are.
fn append_all(packed: &[u8], joined: &mut Vec<u8>, quoted: &mut Vec<u8>) -> usize
    requires joined { (joined.old.items ≡ []) × (ARGS + 1 ≤ vec_capacity joined.old) }
    requires quoted { (quoted.old.items ≡ []) × (3 * (ARGS + 1) ≤ vec_capacity quoted.old) }
    requires short { length packed.now ≤ ARGS }
    ensures count { result ≡ length (arguments_in packed.now) }
    ensures joined { (joined.new.items ≡ spaced (arguments_in packed.now))
        × (vec_capacity joined.old ≤ vec_capacity joined.new) }
    ensures quoted { (quoted.new.items ≡ spaced_quoted (arguments_in packed.now))
        × (vec_capacity quoted.old ≤ vec_capacity quoted.new) }
{
    let mut count = 0;
    let mut rest = packed;
    while !rest.is_empty() {
        let first = split_first(rest);
        append_spaced(joined, first.front);
        append_quoted(quoted, first.front);
        rest = first.rest;
        count += 1;
    }
    count
}

// The argument of this number, from 0; nothing where there are fewer.
fn argument_at(packed: &[u8], number: usize) -> &[u8]
    ensures { result.now ≡ argument_at number (arguments_in packed.now) }
{
    let mut left = number;
    let mut rest = packed;
    while !rest.is_empty() {
        let first = split_first(rest);
        if left == 0 {
            return first.front;
        }
        left -= 1;
        rest = first.rest;
    }
    rest
}

// A text without its first byte.
fn after_first(text: &[u8]) -> &[u8]
    ensures { result.now ≡ drop 1 text.now }
{
    match text {
        [] => text,
        [_, rest @ ..] => rest,
    }
}

impl CallArguments {
    /// No macro runs. All memory is reserved here.
    pub fn new(alloc: Global) -> Result<CallArguments, AllocError>
        ensures { IfOk result (λ r. r ≡ None) }
    {
        Ok(CallArguments {
            is_inside: false,
            count: 0,
            packed: Vec::with_capacity(alloc, ARGS)?,
            joined: Vec::with_capacity(alloc, ARGS + 1)?,
            quoted: Vec::with_capacity(alloc, 3 * (ARGS + 1))?,
        })
    }

    /// No macro runs.
    pub fn leave(&mut self)
        ensures { self.new ≡ None }
    {
        self.is_inside = false;
    }

    /// A macro runs with these arguments, each followed by a line feed.
    pub fn set(&mut self, packed: &[u8])
        requires { length packed.now ≤ ARGS }
        ensures { self.new ≡ Some (arguments_in packed.now) }
    {
        self.packed.clear();
        self.joined.clear();
        self.quoted.clear();
        append(&mut self.packed, packed);
        self.count = append_all(packed, &mut self.joined, &mut self.quoted);
        self.is_inside = true;
    }

    /// How many arguments there are: the number register `.$`.
    pub fn count(&self) -> usize
        ensures value { result ≡ argument_count self.now }
        ensures bound { result ≤ ARGS }
    {
        if self.is_inside { self.count } else { 0 }
    }

    /// What stands for an escape `\$` as it is written: an argument, or all of them. None where another character follows, and outside a
    /// macro.
    pub fn argument(&self, escape: &[u8]) -> Option<&[u8]>
        ensures { Lends result (argument_of escape.now self.now) }
    {
        if !self.is_inside {
            return None;
        }
        match escape {
            [_, _, digit @ b'1'..=b'9'] => Some(argument_at(
                &self.packed,
                (*digit - b'1') as usize,
            )),
            [_, _, b'*'] => Some(after_first(&self.joined)),
            [_, _, b'@'] => Some(after_first(&self.quoted)),
            _ => None,
        }
    }
}
