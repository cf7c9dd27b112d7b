//! How far a line has been read (mdoc(7), "MACRO SYNTAX").

ghost use Rattle.std.specs.Prelude.{◌≡◌, ◌≤◌, [], length, MatchBool, IfSome};
ghost use Rattle.page_roff_syntax.specs.laws.Views.{ReadsNext, argument_view};
ghost use Rattle.page_sets_lines.specs.laws.Views.{ArgumentFits};
ghost use Rattle.page_sets_mdoc_lines.specs.laws.Views.{arguments_after};
ghost use Rattle.page_sets_mdoc_lines.specs.machine.Cursors.{IsCursorOf};

use page_core_base::LINE;
use page_roff_syntax::Argument;
use page_sets_lines::read_after;

/// Where the arguments of a line begin that are still to be read, in bytes.
#[derive(Clone, Copy)]
pub struct Cursor {
    pub rest: usize,
}

impl Cursor {
    /// A cursor before the arguments that begin after this many bytes.
    pub fn new(text: &[u8], start: usize) -> Cursor
        requires short { length text.now ≤ LINE }
        requires within { start ≤ length text.now }
        ensures stands { IsCursorOf text.now result }
        ensures start { result.rest ≡ start }
    {
        Cursor { rest: start }
    }

    // Whether it is at the end of the line's text. Then no argument is left; where blanks end the text, none may be left before its end
    // either.
    #[tactic(auto, using(crate::proofs::WordSpanLemmas::none_at))]
    fn is_at_end(self, text: &[u8]) -> bool
        ensures { MatchBool result (arguments_after self.rest text.now ≡ []) (Unit {0}) }
    {
        self.rest == text.len()
    }

    /// Reads the next argument, if there is one more. Nothing else moves a cursor.
    pub fn read<'a>(&mut self, text: &'a [u8]) -> Option<Argument<&'a [u8]>>
        requires short { length text.now ≤ LINE }
        requires within { IsCursorOf text.now self.old }
        ensures stands { IsCursorOf text.now self.new }
        ensures fits { IfSome result (λ argument. ArgumentFits (argument_view argument)) }
        ensures next { ReadsNext (arguments_after self.old.rest text.now) result (arguments_after self.new.rest text.now) }
    {
        if self.is_at_end(text) {
            return None;
        }
        let (argument, rest) = read_after(text, self.rest)?;
        self.rest = rest;
        Some(argument)
    }
}
