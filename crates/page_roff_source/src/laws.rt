//! Laws of what roff gives of a page's lines.

ghost use Rattle.std.specs.Prelude.{◌≡◌, ◌≤◌, ◌+◌, ◌*◌, List, [], ◌∷◌, ◌++◌, length, None};
ghost use Rattle.page_core_base.specs.declared.limits.TheConstants.{EXPAND, REREAD};
ghost use Rattle.page_roff_source.specs.Runs.{RoffEdge, SourceLine, given, done};
ghost use Rattle.page_roff_source.specs.laws.Expansions.{EachIsWithin};
ghost use Rattle.page_roff_source.specs.laws.Views.{line_count};
ghost use Rattle.page_roff_source.specs.machine.RoffLines.{lines_given, lines_done};

/// What the forest of all lines gives, inside what is open, is what the lines give one after another: each the messages in front of it and then its own,
/// from where the lines before it left the page.
pub fn forest_law()
    ensures given { (e : RoffEdge) (lines : List SourceLine) → given e lines ≡ lines_given e lines }
    ensures edge { (e : RoffEdge) (lines : List SourceLine) → e.to_come ≡ None → done e lines ≡ lines_done e lines }
{}

/// A page may be cut between any two lines: within a region, a block that is run or skipped, a loop, or after a skipped remainder, too.
pub fn cut_law()
    ensures given { (e : RoffEdge) (above below : List SourceLine)
        → given e (above ++ below) ≡ given e above ++ given (done e above) below }
    ensures edge { (e : RoffEdge) (above below : List SourceLine)
        → done e (above ++ below) ≡ done (done e above) below }
{}

/// A source line takes itself and at most `REREAD` lines more, and so do all lines together; it gives no more lines for the set of macros than it takes, and makes at most
/// `EXPAND` interpolations for each: not as a mean, but for each single line that is taken, be it one of a page or of a body, a remainder, a line of
/// a region or a turn of a loop.
pub fn count_law()
    ensures taken { (e : RoffEdge) (line : SourceLine) → (done e (line ∷ [])).taken ≤ e.taken + (REREAD + 1) }
    ensures given { (e : RoffEdge) (line : SourceLine)
        → line_count (given e (line ∷ [])) + e.taken ≤ (done e (line ∷ [])).taken }
    ensures expansions { (e : RoffEdge) (line : SourceLine) →
        (done e (line ∷ [])).memory.expansions + EXPAND * e.taken
        ≤ EXPAND * (done e (line ∷ [])).taken + e.memory.expansions }
    ensures lines { (e : RoffEdge) (lines : List SourceLine) → (done e lines).taken ≤ e.taken + (REREAD + 1) * length lines }
    ensures lines_expansions { (e : RoffEdge) (lines : List SourceLine) →
        (done e lines).memory.expansions + EXPAND * e.taken
        ≤ EXPAND * (done e lines).taken + e.memory.expansions }
    ensures each { (e : RoffEdge) → EachIsWithin e }
{}

/// A line begins at most two skipped blocks a byte, and two.
pub fn room_law()
    ensures { (e : RoffEdge) (line : SourceLine) → (done e (line ∷ [])).place.levels.skipped
        ≤ e.place.levels.skipped + (2 * length line.text + 2) }
{}
