//! What events give that open and close nothing (man(7), mdoc(7)).

ghost use Rattle.std.specs.Prelude.{◌≡◌};
ghost use Rattle.page_scopes_nodes.specs.Leaves as event_kinds;
ghost use Rattle.page_sets_lines.specs.laws.Views.{KindFits};
ghost use Rattle.page_scopes_phrases.specs.laws.Views.{GivesOutcome};
ghost use Rattle.page_sets_lines.specs.laws.Events.{kind_view};

use crate::{end_line, give_leaf, give_raw_line};
use page_core_base::{PieceOut, Place};
use page_scopes_phrases::{Formatting, ManualName, give_line_word, keep_name};
use page_scopes_words::report_part;
use page_sets_lines::EventKind;

/// Gives a word, a leaf, a line as it is, a line's end, or a message; nothing of what opens or closes. The name is that of the manual.
#[tactic(auto, unfolding(crate::specs::Leaves::kind_outcome))]
#[inline(always)]
pub fn give_kind<O: PieceOut>(
    out: &mut O,
    place: Place,
    kind: &EventKind<&[u8]>,
    name: &mut Option<ManualName>,
    state: &mut Formatting,
)
    requires { KindFits (kind_view kind.now) }
    ensures gives { GivesOutcome O.left out.old (event_kinds.kind_outcome place (kind_view kind.now) name.old state.old)
        out.new state.new }
    ensures name { name.new ≡ event_kinds.name_after (kind_view kind.now) name.old }
{
    match kind {
        EventKind::Word(word) => {
            keep_name(out, place.line, word.role, word.arg, name);
            // (a copy keeps the event in registers; so do those below)
            let word = *word;
            give_line_word(out, place.line, &word, state);
        }
        EventKind::Leaf(leaf) => {
            let leaf = *leaf;
            give_leaf(out, place, &leaf, name, state);
        }
        EventKind::Raw(text) => give_raw_line(out, place, text, state),
        EventKind::End { .. } => end_line(out, state),
        EventKind::Note {
            kind,
            detail,
            is_quoted,
            ..
        } => report_part(out, *is_quoted, *kind, place, detail),
        EventKind::Open(_) | EventKind::Close(_) | EventKind::LineScope(_) => {}
    }
}
