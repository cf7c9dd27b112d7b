//! Laws that no row and no message has a control character.

ghost use Rattle.std.specs.Prelude.{ℕ, List};
ghost use Rattle.page_core_base.specs.Messages.{Message};
ghost use Rattle.page_core_base.specs.Rows.{LaidRow};
ghost use Rattle.page_core_base.specs.declared.page_settings.Settings.{Settings as AnySettings};
ghost use Rattle.page_core_streams.specs.Streams.{message_bytes, row_bytes};
ghost use Rattle.page_roff_lines.specs.Lines.{Line};
ghost use Rattle.page_engine.specs.Edges.{start};
ghost use Rattle.page_engine.specs.Page.{settled, edge, page};
ghost use Rattle.page_laws.specs.Shown.{AreShown, AreShownRows, IsMessageText, IsRowText};

/// No row of a page has a control character, whatever its lines hold: neither those of the whole page nor those that lines settle. The bytes of such
/// a row are those of its characters, with a backspace between two that are printed over one another, and a line feed.
pub fn rows_law()
    ensures page { (settings : AnySettings) (lines : List Line) → AreShownRows (page (start settings) lines).rows }
    ensures settled { (settings : AnySettings) (above below : List Line) → AreShownRows (settled (edge (start settings) above) below).rows }
    ensures bytes { (row : LaidRow) → AreShown row.cells → IsRowText (row_bytes row) }
{}

/// No message has a control character but the tab, other than in the name of the file, which the caller gives.
pub fn messages_law()
    ensures { (file : List ℕ) (message : Message) → IsMessageText file (message_bytes file message) }
{}
