//! The arguments of a control line (roff(7), "Macro syntax").

ghost use Rattle.std.specs.Prelude.{◌≡◌, ◌≤◌, ◌+◌, length, IfSome};
ghost use Rattle.std.specs.List.{prefix_len};
ghost use Rattle.page_roff_syntax.specs.Arguments.{is_blank, arguments, has_arguments};
ghost use Rattle.page_roff_syntax.specs.laws.Views.{ReadsFirst, ReadsNext};

use crate::quotes::{Argument, first_argument};
use page_core_base::LINE;
use std::marker::Model;

/// Reads the arguments of a control line, one after another. Contracts see the list of those still to be read.
#[derive(Drop)]
pub struct Arguments<'a> {
    rest: &'a [u8],
    column: u32,
}

impl<'a> Model for Arguments<'a> {
    ghost use Rattle.std.specs.Prelude.{ℕ, List};
    ghost use Rattle.page_roff_syntax.specs.declared.quotes.Argument.{Argument};

    ghost Value = { List (Argument (List ℕ)) };

    ghost use Rattle.std.specs.Prelude.{◌≤◌, ◌+◌, length};
    ghost use Rattle.page_core_base.specs.declared.limits.TheConstants.{LINE};
    ghost use Rattle.page_roff_syntax.specs.Arguments.{arguments};

    ghost view = { λ a. arguments a.column a.rest.now };

    ghost invariant = { λ a. (length a.rest.now ≤ LINE) × (a.column + length a.rest.now ≤ LINE + 1) };
}

/// The number of blanks at a text's front.
pub fn blank_len(text: &[u8]) -> usize
    ensures value { result ≡ prefix_len is_blank text.now }
    ensures within { result ≤ length text.now }
{
    text.iter().take_while(|byte| **byte == b' ').count()
}

/// Whether the rest of a control line has an argument.
pub fn has_arguments(rest: &[u8]) -> bool
    ensures { result ≡ has_arguments rest.now }
{
    blank_len(rest) < rest.len()
}

/// Reads the first argument of a text of which the first byte is at a column, and says after how many bytes the
/// others begin.
pub fn read_argument(text: &[u8], column: u32) -> Option<(Argument<&[u8]>, usize)>
    requires { column + length text.now ≤ LINE + 1 }
    ensures first { ReadsFirst column text.now result }
    ensures short { IfSome result (λ read. length read.0.text.now ≤ length text.now) }
    ensures room { IfSome result (λ read. read.0.column + length read.0.text.now ≤ column + length text.now) }
{
    let blanks = blank_len(text);
    let bytes = &text[blanks..];
    if bytes.is_empty() {
        return None;
    }
    let (argument, len) = first_argument(bytes, column + blanks as u32);
    Some((argument, blanks + len))
}

impl<'a> Arguments<'a> {
    /// The arguments in the rest of a control line, of which the first byte is at a column.
    pub fn new(rest: &'a [u8], column: u32) -> Arguments<'a>
        requires short { length rest.now ≤ LINE }
        requires room { column + length rest.now ≤ LINE + 1 }
        ensures { result ≡ arguments column rest.now }
    {
        Arguments { rest, column }
    }

    /// Reads the next argument, if there is one more.
    pub fn next_argument(&mut self) -> Option<Argument<&'a [u8]>>
        ensures next { ReadsNext self.old result self.new }
        ensures short { IfSome result (λ argument. length argument.text.now ≤ LINE) }
        ensures room { IfSome result (λ argument. argument.column + length argument.text.now ≤ LINE + 1) }
    {
        let (argument, len) = read_argument(self.rest, self.column)?;
        self.rest = &self.rest[len..];
        self.column += len as u32;
        Some(argument)
    }
}
