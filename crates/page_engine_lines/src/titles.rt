//! The title of a page (man(7), `TH`; mdoc(7), `Dd`, `Dt`, `Os`).

ghost use Rattle.std.specs.Prelude.{◌≡◌, ◌≤◌, length};
ghost use Rattle.page_core_base.specs.laws.Views.{Came};
ghost use Rattle.page_engine_lines.specs.Bodies as titles;

use page_core_base::{LINE, NoteKind, PieceOut, Place};
use page_engine_header::{Fields, report_cut_fields};
use page_roff_syntax::Arguments;
use page_scopes_words::report;
use page_sets::Prologue;

/// Gives the messages of a macro of the prologue, which is at a place, and keeps its fields where the body has not begun.
#[inline(never)]
pub(crate) fn give_title<O: PieceOut>(
    out: &mut O,
    place: Place,
    name: Prologue,
    rest: &[u8],
    has_begun: bool,
    os: &[u8],
    fields: &mut Fields,
)
    requires rest { length rest.now ≤ LINE }
    requires os { length os.now ≤ 256 }
    ensures came { Came O.left out.old (titles.title_items has_begun place name rest.now) out.new }
    ensures fields { fields.new ≡ titles.title_fields has_begun name os.now rest.now fields.old }
{
    if has_begun {
        report(out, NoteKind::LateMacro, place, name.name().as_bytes());
        return;
    }
    report_cut_fields(out, place, name, Arguments::new(rest, 1));
    fields.take(name, os, Arguments::new(rest, 1));
}
