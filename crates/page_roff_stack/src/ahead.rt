//! The part of a line that comes next, read once: so that it is not read again to go past it.

ghost use Rattle.std.specs.Prelude.{◌≡◌, ◌≤◌, length, take, IfSome};
ghost use Rattle.page_core_base.specs.declared.limits.TheConstants.{LINE};
ghost use Rattle.page_roff_blocks.specs.laws.Views.{line_part_view, FitsLinePart};
ghost use Rattle.page_roff_blocks.specs.machine.Steps.{parts_at, IsPlaceIn};
ghost use Rattle.page_roff_stack.specs.machine.Stacks.{IsAfter, IsAfterIn, parts_view};

use page_roff_blocks::{LinePart, LinePlace};

/// Reads the part of a line that comes next, if one does: that part, and the place after it.
#[inline(always)]
pub(crate) fn read_ahead(line: &[u8], place: LinePlace) -> (Option<LinePart<&[u8]>>, LinePlace)
    requires short { length line.now ≤ LINE }
    requires within { IsPlaceIn line.now place }
    ensures value { parts_view result.0 ≡ take 1 (parts_at line.now place) }
    ensures fits { IfSome result.0 (λ part. FitsLinePart (line_part_view part)) }
    ensures after { IsAfter line.now place result.1 }
{
    let mut after = place;
    let part = after.next_line_part(line);
    (part, after)
}

/// The place after the part of a line that comes next, which was read ahead or not.
pub(crate) fn place_past(line: &[u8], place: LinePlace, ahead: Option<LinePlace>) -> LinePlace
    requires short { length line.now ≤ LINE }
    requires within { IsPlaceIn line.now place }
    requires ahead { IsAfterIn line.now place ahead }
    ensures { IsAfter line.now place result }
{
    match ahead {
        Some(after) => after,
        None => {
            let mut after = place;
            after.pass_line_part(line);
            after
        }
    }
}
