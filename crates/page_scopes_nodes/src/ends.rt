//! What a scope ends with (man(7), mdoc(7)).

ghost use Rattle.std.specs.Prelude.{◌≡◌, if◌then◌else◌};
ghost use Rattle.page_scopes_layout.specs.Lists.{is_row};
ghost use Rattle.page_scopes_phrases.specs.laws.Views.{GivesOutcome};
ghost use Rattle.page_scopes_phrases.specs.Phrases.{row_ended};
ghost use Rattle.page_scopes_nodes.specs.Ends as ends;

use crate::targets::give_target;
use page_core_base::{PieceOut, Place};
use page_scopes_blocks::give_last_words;
use page_scopes_labels::{Explicit, Label};
use page_scopes_layout::{Context, HeadingSoFar, PageSection, give_end};
use page_scopes_phrases::{Formatting, KeptText};
use page_sets_lines::{Block, HeadingName, LineOpener};

// Gives the last words of a scope: the target of `UR` up to `UE`, and of `MT` up to `ME`, and the marks of enclosures.
fn give_last_word<O: PieceOut>(
    out: &mut O,
    place: Place,
    label: Label,
    target: &Option<KeptText>,
    state: &mut Formatting,
)
    ensures { GivesOutcome O.left out.old (ends.last_word place label target.now state.old) out.new state.new }
{
    match target {
        Some(target) => give_target(out, place, target, state),
        None => give_last_words(out, place, label, state),
    }
}

// What is known along the page after the head of an item: a head that is a row of its own has ended it; after any other there is no blank.
fn pass_head(state: &mut Formatting)
    ensures { state.new ≡ (if is_row state.old.context.list then row_ended state.old else record state.old { gap = 0 }) }
{
    if state.context.has_row_heads() {
        state.end_row();
    } else {
        state.gap = 0;
    }
}

// What is known along the page after a scope: `RS` up to `RE`, `SY` up to `YS`, `Bl` up to `El`, `Bd` up to `Ed`, `D1` and `Dl` end the row, the
// headings of `SH`, `SS`, `Sh` and `Ss` too; there is no blank after the tag of `TP` or `TQ`.
fn pass_end(label: Label, state: &mut Formatting)
    ensures { state.new ≡ ends.label_state label state.old }
{
    match label {
        Label::Line(LineOpener::Head) => pass_head(state),
        Label::Explicit(
            Explicit::RelativeMargin
            | Explicit::Syntax
            | Explicit::Block(Block::List(_) | Block::Display),
        )
        | Label::Line(LineOpener::OneLine(_)) => state.end_row(),
        Label::Line(LineOpener::Heading(_)) => {
            state.end_row();
            state.has_content = false;
        }
        Label::Line(LineOpener::Tag(_)) => state.gap = 0,
        _ => {}
    }
}

// The section of a text after a scope: that of the heading of `SH` or `Sh` begins.
fn section_after(label: Label, heading: &HeadingSoFar, section: PageSection) -> PageSection
    ensures { result ≡ ends.label_section label heading.now section }
{
    match label {
        Label::Line(LineOpener::Heading(HeadingName::SH | HeadingName::Sh)) => heading.section(),
        _ => section,
    }
}

// Gives what is left of a scope after its last word, with the context before it.
fn give_left<O: PieceOut>(out: &mut O, label: Label, before: &Context, state: &mut Formatting)
    ensures { GivesOutcome O.left out.old (ends.left label before.now state.old) out.new state.new }
{
    state.context.restore(label, before);
    give_end(out, label, &state.context);
    state.context.section = section_after(label, &state.heading, state.context.section);
    pass_end(label, state);
}

/// Gives what ends a scope, as `RE`, `UE`, `ME` and `YS` do, at a place, with the context before it and the target that it kept.
#[tactic(auto, unfolding(crate::specs::Ends::ended))]
pub fn give_ended<O: PieceOut>(
    out: &mut O,
    label: Label,
    before: &Context,
    target: &Option<KeptText>,
    place: Place,
    state: &mut Formatting,
)
    ensures { GivesOutcome O.left out.old (ends.ended label before.now target.now place state.old) out.new state.new }
{
    give_last_word(out, place, label, target, state);
    give_left(out, label, before, state);
}
