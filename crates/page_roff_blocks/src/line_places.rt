//! Places in a raw line, between its parts (roff(7), "if", "ie", "el", "while").

ghost use Rattle.std.specs.Prelude.{◌≡◌, ◌≤◌, ◌∷◌, false, length, drop, IfSome};
ghost use Rattle.page_core_base.specs.declared.limits.TheConstants.{LINE};
ghost use Rattle.page_roff_blocks.specs.laws.Views.{line_part_view, FitsLinePart, ReadsNext};
ghost use Rattle.page_roff_blocks.specs.Parts.{line_parts};
ghost use Rattle.page_roff_blocks.specs.declared.line_parts.LinePart.TheVariants.{Leaf};
ghost use Rattle.page_roff_blocks.specs.machine.Steps.{parts_at, line_end, is_at_end, is_block, opens_block, place_after, IsPlaceIn, IsEndOf};
ghost use Rattle.page_roff_syntax.specs.laws.Views.{text_view};

use crate::line_parts::LinePart;
use crate::loops::part_of;
use crate::parts::{is_leaf, written_part};
use page_core_base::LINE;

/// A place in a raw line, between two of its parts.
#[derive(Clone, Copy)]
pub struct LinePlace {
    // Whether all of the line comes next, as one part.
    is_whole: bool,
    // Whether the end of a block comes next.
    is_end: bool,
    // Where what is left of the line after that begins, if anything is left.
    rest: Option<usize>,
}

/// Where the end of a line that is left begins.
pub(crate) fn place_after(line: &[u8], rest: Option<&[u8]>) -> Option<usize>
    requires { IsEndOf line.now (text_view rest) }
    ensures { result ≡ place_after line.now (text_view rest.entry) }
{
    match rest {
        Some(text) => Some(line.len() - text.len()),
        None => None,
    }
}

// Whether a part opens a block.
fn is_block(line_part: &LinePart<&[u8]>) -> bool
    ensures { result ≡ is_block (line_part_view line_part.now) }
{
    matches!(line_part, LinePart::Block(_))
}

impl LinePlace {
    /// Before the first part of a line of at most [`LINE`] bytes.
    pub fn start(line: &[u8]) -> LinePlace
        requires { length line.now ≤ LINE }
        ensures parts { parts_at line.now result ≡ line_parts line.now }
        ensures within { IsPlaceIn line.now result }
    {
        let is_whole = is_leaf(line);
        LinePlace {
            is_whole,
            is_end: false,
            rest: if is_whole { None } else { Some(0) },
        }
    }

    /// After the last part of a line.
    pub fn end() -> LinePlace
        ensures { result ≡ line_end }
    {
        LinePlace {
            is_whole: false,
            is_end: false,
            rest: None,
        }
    }

    /// Whether no part of a line comes after it.
    pub fn is_at_end(&self) -> bool
        ensures { result ≡ is_at_end self.now }
    {
        !self.is_whole && !self.is_end && self.rest.is_none()
    }

    /// All of the line in which the place is, if that comes next as one part.
    pub fn whole<'a>(&self, line: &'a [u8]) -> Option<&'a [u8]>
        ensures { IfSome result (λ text. (text.now ≡ line.now) × (parts_at line.now self.now ≡ Leaf line.now ∷ drop 1 (parts_at line.now self.now))) }
    {
        if self.is_whole { Some(line) } else { None }
    }

    // Reads the next part of a line that is not one part, and goes past it.
    fn next_of_several<'a>(&mut self, line: &'a [u8]) -> Option<LinePart<&'a [u8]>>
        requires short { length line.now ≤ LINE }
        requires within { IsPlaceIn line.now self.old }
        requires several { self.old.is_whole ≡ false }
        ensures next { ReadsNext (parts_at line.now self.old) result (parts_at line.now self.new) }
        ensures within { IsPlaceIn line.now self.new }
        ensures fits { IfSome result (λ line_part. FitsLinePart (line_part_view line_part)) }
    {
        if self.is_end {
            self.is_end = false;
            return Some(LinePart::End);
        }
        match self.rest {
            None => None,
            Some(start) => {
                let part = part_of(&line[start..]);
                self.is_end = part.is_end;
                self.rest = place_after(line, part.rest);
                Some(part.line_part)
            }
        }
    }

    /// Reads the next part of a line of at most [`LINE`] bytes, in which the place is, and goes past it.
    pub fn next_line_part<'a>(&mut self, line: &'a [u8]) -> Option<LinePart<&'a [u8]>>
        requires short { length line.now ≤ LINE }
        requires within { IsPlaceIn line.now self.old }
        ensures next { ReadsNext (parts_at line.now self.old) result (parts_at line.now self.new) }
        ensures within { IsPlaceIn line.now self.new }
        ensures fits { IfSome result (λ line_part. FitsLinePart (line_part_view line_part)) }
    {
        if self.is_whole {
            self.is_whole = false;
            return Some(LinePart::Leaf(line));
        }
        self.next_of_several(line)
    }

    // Goes past the next part of a line that is not one part.
    fn pass_of_several(&mut self, line: &[u8])
        requires short { length line.now ≤ LINE }
        requires within { IsPlaceIn line.now self.old }
        requires several { self.old.is_whole ≡ false }
        ensures next { parts_at line.now self.new ≡ drop 1 (parts_at line.now self.old) }
        ensures within { IsPlaceIn line.now self.new }
    {
        if self.is_end {
            self.is_end = false;
            return;
        }
        if let Some(start) = self.rest {
            let part = written_part(&line[start..]);
            self.is_end = part.is_end;
            self.rest = place_after(line, part.rest);
        }
    }

    /// Goes past the next part of a line of at most [`LINE`] bytes, in which the place is, if there is one. What belongs to a loop is not
    /// looked for: loops that are passed over are not read again for each other one in their line.
    pub fn pass_line_part(&mut self, line: &[u8])
        requires short { length line.now ≤ LINE }
        requires within { IsPlaceIn line.now self.old }
        ensures next { parts_at line.now self.new ≡ drop 1 (parts_at line.now self.old) }
        ensures within { IsPlaceIn line.now self.new }
    {
        if self.is_whole {
            self.is_whole = false;
            return;
        }
        self.pass_of_several(line);
    }

    /// Whether the next part of a line of at most [`LINE`] bytes, in which the place is, opens a block. What belongs to a loop is not looked for.
    pub fn opens_block(&self, line: &[u8]) -> bool
        requires short { length line.now ≤ LINE }
        requires within { IsPlaceIn line.now self.now }
        ensures { result ≡ opens_block (parts_at line.now self.now) }
    {
        if self.is_whole || self.is_end {
            return false;
        }
        match self.rest {
            None => false,
            Some(start) => is_block(&written_part(&line[start..]).line_part),
        }
    }
}
