//! Laws of sources.

ghost use Rattle.std.specs.Prelude.{◌≡◌, ◌≤◌, ℕ, ◌+◌, ◌*◌, List, length, drop};
ghost use Rattle.page_roff_blocks.specs.Parts.{with_part, part_of, line_parts, before_end, blocks_after, left_by, left_of, written_part};
ghost use Rattle.page_roff_blocks.specs.laws.Views.{line_parts_left, BlockCursor, left_rest};
ghost use Rattle.page_roff_blocks.specs.declared.line_parts.LinePart.{LinePart};
ghost use Rattle.page_roff_blocks.specs.machine.Steps.{Meaning, step_parts};

/// The parts of a line are its first one, and those of what is left of the line.
pub fn line_parts_law()
    ensures { (line : List ℕ) → line_parts line ≡ with_part (part_of line) (line_parts_left (part_of line).rest) }
{}

/// What is left of a line from the end of its loop on is what its first part and then the rest of the line leave: the number of remainders up to
/// which the definition reads is no limit.
pub fn loop_law()
    ensures { (blocks : ℕ) (line : List ℕ) → let part = written_part line in
        left_of blocks line ≡ left_by (blocks_after part.line_part part.is_end blocks) (λ (left : ℕ). left_rest left part.rest)
        (drop (before_end part.line_part) line) }
{}

/// A line has at most two parts a byte, and two; and each part of a line skips one block more at most.
pub fn room_law<S>()
    ensures parts { (line : List ℕ) → length (line_parts line) ≤ 2 * length line + 2 }
    ensures skipped { (m : Meaning S) (parts : List (LinePart (List ℕ))) (cursor : BlockCursor) (s : S)
        → (step_parts m parts cursor s).place.levels.skipped ≤ cursor.levels.skipped + length parts }
{}
