//! Laws of places: where the events of a line are in it.

ghost use Rattle.std.specs.Prelude.{◌≡◌, ◌≤◌, ◌+◌, ℕ, length, min};
ghost use Rattle.page_core_base.specs.Limits.{LINE};
ghost use Rattle.page_core_base.specs.Texts.{TakenLine};
ghost use Rattle.page_sets.specs.Mdoc.{either_events};
ghost use Rattle.page_sets.specs.declared.either.Either.{Either};
ghost use Rattle.page_sets.specs.declared.either.Either.TheVariants.{Mdoc};
ghost use Rattle.page_sets_lines.specs.laws.Sets.{AreAll};
ghost use Rattle.page_laws.specs.Places.{IsInLine, flag_events, flag_line};

/// Each event of a line has the line's number, and the column of one of its bytes, from 1 (the first where the line has none); only an event that prints
/// may be in the column after the last byte, and only where that byte is a quote (man(7), mdoc(7)). `last`: the dash that `Fl` prints before an argument
/// that is only a quote is there.
///
/// So of a line within the limit no column is more than one above it (`bound`), and `limit`: that number, which bounds the column of a macro's own text
/// (`own_phrase` of `page_scopes_phrases`), never changes one.
pub fn places_law()
    ensures places { (set : Either) (line : TakenLine) → AreAll (IsInLine line) (either_events set line) }
    ensures bound { (set : Either) (line : TakenLine) → length line.text ≤ LINE
        → AreAll (λ event. event.place.column ≤ LINE + 1) (either_events set line) }
    ensures limit { (set : Either) (line : TakenLine) → length line.text ≤ LINE
        → AreAll (λ event. min event.place.column (LINE + 1) ≡ event.place.column) (either_events set line) }
    ensures last { (number blanks : ℕ) → either_events Mdoc (flag_line number blanks) ≡ flag_events (flag_line number blanks) }
{}
