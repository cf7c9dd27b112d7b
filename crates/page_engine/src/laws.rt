//! Laws of pages on lists of lines.

ghost use Rattle.std.specs.Prelude.{◌≡◌, ◌≤◌, ◌+◌, ◌*◌, ℕ, List, ◌++◌, length};
ghost use Rattle.page_core_base.specs.Rows.{join};
ghost use Rattle.page_core_base.specs.declared.page_settings.Settings.{Settings};
ghost use Rattle.page_roff_lines.specs.Lines.{Line};
ghost use Rattle.page_roff_source.specs.laws.Expansions.{EachIsWithin};
ghost use Rattle.page_core_base.specs.declared.limits.TheConstants.{EXPAND, REREAD};
ghost use Rattle.page_engine_lines.specs.Acts.{lines_after};
ghost use Rattle.page_engine.specs.machine.PageSinks as by_line;
ghost use Rattle.page_engine.specs.Edges.{Edge, start};
ghost use Rattle.page_engine.specs.laws.Views.{IsReached, counts_at};
ghost use Rattle.page_engine.specs.Page.{settled, edge, page, raw_lines};
ghost use Rattle.page_engine.specs.Runs.{whole_page, settled_page, settled_by, page_rest};
ghost use Rattle.page_engine.specs.laws.Within.{IsWithin, text_bytes};

/// The edges that a page comes to: the one of its start, and from each such edge the one that lines leave. Its layers agree in what they share.
pub fn reached_law()
    ensures start { (s : Settings) → IsReached (start s) }
    ensures lines { (e : Edge) (lines : List Line) → IsReached e → IsReached (edge e lines) }
    ensures layers_after { (e : Edge) (lines : List Line) → (edge e lines).lines ≡ lines_after e.lines (raw_lines lines) }
{}

/// A page may be cut between any two lines: it is what the lines above settle, and then the page of the lines below,
/// from the edge that those above leave. Rows and messages follow one another; the edge, and with it the worst
/// level and the counts, is that of the page below.
pub fn cut_law()
    ensures settled { (e : Edge) (above below : List Line) → IsReached e
        → settled e (above ++ below) ≡ join (settled e above) (settled (edge e above) below) }
    ensures page { (e : Edge) (above below : List Line) → IsReached e
        → page e (above ++ below) ≡ join (settled e above) (page (edge e above) below) }
{}

/// What bytes settle is what those before them settle, and then their own; and a page is what its bytes settle, and then the rest.
pub fn pieces_law()
    ensures piece { (s : Settings) (before own : List ℕ) → settled_page s (before ++ own) ≡ join (settled_page s before) (settled_by s before own) }
    ensures rest { (s : Settings) (bytes : List ℕ) → whole_page s bytes ≡ join (settled_page s bytes) (page_rest s bytes) }
{}

/// The forest, the block tree and the filling of whole lists give what the layers give line by line and piece by piece.
pub fn line_by_line_law()
    ensures settled { (e : Edge) (lines : List Line) → IsReached e → settled e lines ≡ by_line.settled e lines }
    ensures page { (e : Edge) (lines : List Line) → IsReached e → page e lines ≡ by_line.page e lines }
{}

/// Lines are as many source lines more; they take themselves and at most `REREAD` lines more for each, and make at most `EXPAND`
/// interpolations for each line taken: not as a mean, but for each single one, whatever it is. The page's end takes none.
pub fn count_law()
    ensures source { (e : Edge) (lines : List Line)
        → (counts_at (edge e lines)).source ≡ (counts_at e).source + length lines }
    ensures taken { (e : Edge) (lines : List Line)
        → (counts_at (edge e lines)).taken ≤ (counts_at e).taken + (REREAD + 1) * length lines }
    ensures expansions { (e : Edge) (lines : List Line)
        → (counts_at (edge e lines)).expansions + EXPAND * (counts_at e).taken
        ≤ EXPAND * (counts_at (edge e lines)).taken + (counts_at e).expansions }
    ensures each { (e : Edge) → EachIsWithin e.lines.roff }
    ensures end { (e : Edge) (lines : List Line) → counts_at (page e lines).edge ≡ counts_at (edge e lines) }
{}

/// The texts that are held between two lines, those of the open row aside, have at most 100,224 bytes: names and what they stand for 65,536, an open
/// region 16,512, the targets of links 16,384, and up to seven fields of 256 each the rest.
pub fn texts_law()
    ensures { (e : Edge) → IsWithin e → text_bytes e ≤ 100224 }
{}
