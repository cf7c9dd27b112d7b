//! What lines settle stays, whatever follows.

ghost use Rattle.std.specs.Prelude.{List, ◌++◌};
ghost use Rattle.page_roff_lines.specs.Lines.{Line};
ghost use Rattle.page_engine.specs.Edges.{Edge};
ghost use Rattle.page_engine.specs.laws.Views.{IsReached};
ghost use Rattle.page_engine.specs.Page.{settled, page};
ghost use Rattle.page_laws.specs.Fronts.{IsLaidFront};

use page_engine::cut_law;

/// What lines settle is a front of what they settle with any lines below them, and of the page.
pub fn front_law()
    ensures settled { (e : Edge) (above below : List Line) → IsReached e
        → IsLaidFront (settled e above) (settled e (above ++ below)) }
    ensures page { (e : Edge) (above below : List Line) → IsReached e
        → IsLaidFront (settled e above) (page e (above ++ below)) }
{
    cut_law();
}
