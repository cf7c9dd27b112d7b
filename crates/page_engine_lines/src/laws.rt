//! Laws of what a page's lines give through roff and the macros.

ghost use Rattle.std.specs.Prelude.{◌≡◌, ℕ, List, [], ◌∷◌, ◌++◌, None, map};
ghost use Rattle.page_core_base.specs.Messages.{Message};
ghost use Rattle.page_core_base.specs.Rows.{noted};
ghost use Rattle.page_roff_effects.specs.States.{Given};
ghost use Rattle.page_roff_source.specs.Runs.{SourceLine};
ghost use Rattle.page_engine_lines.specs.Bodies.{BodyEdge};
ghost use Rattle.page_engine_lines.specs.Trees.{tree_after};
ghost use Rattle.page_engine_lines.specs.laws.Views.{ending_items};
ghost use Rattle.page_engine_lines.specs.Acts.{given_then, lines_after, lines_items, page_items, raw_line, reader, rest_steps};
ghost use Rattle.page_engine_lines.specs.machine.Given.{body_after, given_items};
ghost use Rattle.page_engine_lines.specs.Edges.{LinesEdge};
ghost use Rattle.page_engine_lines.specs.machine.Lines.{end_items, source_after, source_items};

/// The block trees of all that roff gives, messages and lines, up to the line that decides the page's language and from it on, are what these give one
/// after another, and leave the same; one line gives the messages in front of it and what `source_items` says; and the page's end, alone or after all
/// lines, gives what `end_items` says.
pub fn tree_law()
    ensures items { (b : BodyEdge) (given : List Given) → given_then b given [] ≡ given_items b given }
    ensures after { (b : BodyEdge) (given : List Given) → tree_after (reader b given) (rest_steps b given) ≡ body_after b given }
    ensures line_items { (e : LinesEdge) (number : ℕ) (text : List ℕ) (notes : List Message)
        → lines_items e (raw_line number text notes ∷ []) ≡ map noted notes ++ source_items e number text }
    ensures line_after { (e : LinesEdge) (number : ℕ) (text : List ℕ) (notes : List Message) → e.roff.to_come ≡ None
        → lines_after e (raw_line number text notes ∷ []) ≡ source_after e number text }
    ensures ending { (e : LinesEdge) (line : ℕ) → ending_items e line ≡ end_items e line }
    ensures end { (e : LinesEdge) (lines : List SourceLine) (line : ℕ)
        → page_items e lines line ≡ lines_items e lines ++ end_items (lines_after e lines) line }
{}

/// A page's lines may be cut anywhere, whatever region, blocks and scopes are open: the forest and the block tree of all lines give what those before the
/// cut give, and then what those after it give from the edge at the cut; and they leave the same.
pub fn cut_law()
    ensures items { (e : LinesEdge) (above below : List SourceLine)
        → lines_items e (above ++ below) ≡ lines_items e above ++ lines_items (lines_after e above) below }
    ensures after { (e : LinesEdge) (above below : List SourceLine)
        → lines_after e (above ++ below) ≡ lines_after (lines_after e above) below }
{}
