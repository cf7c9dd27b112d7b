//! The target of a link: its messages where the link begins, and the target in angles where it ends (man(7), `UR`, `MT`).

ghost use Rattle.std.specs.Prelude.{◌≤◌, ◌<◌, length};
ghost use Rattle.page_core_base.specs.laws.Views.{Came};
ghost use Rattle.page_core_escapes.specs.Tokens.{tokens_of};
ghost use Rattle.page_roff_syntax.specs.laws.Views.{argument_view};
ghost use Rattle.page_scopes_words.specs.Words.{tokens_notes};
ghost use Rattle.page_scopes_phrases.specs.laws.Views.{GivesOutcome};
ghost use Rattle.page_scopes_nodes.specs.Begins as targets;

use page_core_base::{Font, LINE, Piece, PieceOut, Place};
use page_core_escapes::Tokens;
use page_roff_syntax::Argument;
use page_scopes_phrases::{Formatting, KeptText, give_kept, give_kept_gap, report_cut};
use page_scopes_words::report_token;

// Gives the messages of a text's escapes, all at one place.
fn report_escapes<O: PieceOut>(out: &mut O, quoted: bool, place: Place, text: &[u8])
    requires { length text.now ≤ LINE }
    ensures { Came O.left out.old (tokens_notes quoted place (tokens_of quoted text.now)) out.new }
{
    let mut tokens = Tokens::new(quoted, text);
    while let Some(token) = tokens.read() {
        report_token(out, quoted, place, &token);
    }
}

/// Gives the messages of the target of a macro at a place.
pub(crate) fn report_target<O: PieceOut>(out: &mut O, place: Place, argument: Argument<&[u8]>)
    requires { length argument.text.now ≤ LINE }
    ensures { Came O.left out.old (targets.target_notes place (argument_view argument.entry)) out.new }
{
    let at = Place {
        line: place.line,
        column: argument.column,
    };
    report_escapes(out, argument.is_quoted(), at, argument.text);
    report_cut(out, place, argument);
}

// Gives a mark.
fn give_mark<O: PieceOut>(out: &mut O, font: Font, place: Place, mark: &str)
    ensures { Came O.left out.old (targets.mark_items font place mark.now) out.new }
{
    out.give(Piece::Text {
        text: mark.as_bytes(),
        font,
        place,
    });
}

/// Gives a target in angles, at the place where its link ends.
#[tactic(auto, unfolding(crate::specs::Begins::target_word))]
pub(crate) fn give_target<O: PieceOut>(
    out: &mut O,
    place: Place,
    target: &KeptText,
    state: &mut Formatting,
)
    ensures { GivesOutcome O.left out.old (targets.target_word place target.now state.old) out.new state.new }
{
    let is_literal = state.context.is_literal.value;
    give_kept_gap(out, state, place);
    give_mark(out, state.context.fonts.value.font, place, "<");
    let fonts = give_kept(out, is_literal, 1, place, state.context.fonts, target);
    give_mark(out, fonts.value.font, place, ">");
    state.context.fonts = fonts;
    state.context.has_row = true;
    state.heading.pass_other(state.context.part);
    state.pass_kept(place);
}
