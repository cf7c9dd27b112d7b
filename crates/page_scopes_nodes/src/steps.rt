//! What macros of mdoc(7) change in their line, or print there (mdoc(7), "MACRO REFERENCE").

ghost use Rattle.std.specs.Prelude.{◌≡◌, not, unwrap_or, if◌then◌else◌, ◌&&◌};
ghost use Rattle.page_sets_lines.specs.laws.Views.{StepFits};
ghost use Rattle.page_scopes_layout.specs.Headings.{in_synopsis};
ghost use Rattle.page_scopes_layout.specs.declared.contexts.SeriesSoFar.TheVariants.{Begun};
ghost use Rattle.page_scopes_phrases.specs.LineWords.{own_word};
ghost use Rattle.page_scopes_phrases.specs.laws.Views.{GivesOutcome};
ghost use Rattle.page_scopes_phrases.specs.Phrases.{nothing, joined_gap as spec_joined_gap};
ghost use Rattle.page_scopes_nodes.specs.Leaves as steps;
ghost use Rattle.page_sets_lines.specs.laws.Events.{step_view};
ghost use Rattle.page_sets_lines.specs.declared.events.Join.TheVariants.{Apart, Glued};
ghost use Rattle.page_sets_names.specs.declared.generated_texts.GeneratedText.TheVariants.{Comma, Include};

use crate::margins::give_row_margins;
use page_core_base::{NoteKind, Piece, PieceOut, Place};
use page_scopes_layout::{SeriesSoFar, give_margins, in_synopsis};
use page_scopes_phrases::{
    Formatting, ManualName, argument_word, blanks_part, give_column_step, give_function_end,
    give_generated_word, give_line_word, give_manual_name, joined_gap,
};
use page_scopes_words::{Setting, report};
use page_sets_lines::{
    BodyParagraphName, GeneratedText, GeneratedWord, Join, LineStep, SynopsisStep,
};

// The next word is glued to the one before: `Ns`.
fn glue(state: &mut Formatting)
    ensures { state.new ≡ record state.old { gap = spec_joined_gap Glued (state.old.line.ends_blank && not state.old.context.is_literal.value) state.old.gap } }
{
    let parts = blanks_part(state.line.ends_blank, &state.context);
    state.gap = joined_gap(Join::Glued, parts, state.gap);
}

// Begins a paragraph: `Pp`, `Lp`.
fn give_body_paragraph<O: PieceOut>(
    out: &mut O,
    place: Place,
    name: BodyParagraphName,
    state: &mut Formatting,
)
    ensures { GivesOutcome O.left out.old (steps.body_paragraph place name state.old) out.new state.new }
{
    if state.has_content {
        state.context = state.context.flat();
        out.give(Piece::Para(state.context.distance.value));
        give_margins(out, &state.context);
        state.end_row();
    } else {
        report(out, NoteKind::SkipPara, place, name.name().as_bytes());
    }
}

// The comma between two fields of a reference.
fn comma() -> GeneratedWord
    ensures { result ≡ own_word Comma Glued Apart }
{
    GeneratedWord {
        text: GeneratedText::Comma,
        font: None,
        before: Join::Glued,
        after: Join::Apart,
    }
}

// Begins a field of the open reference: `%A` and so on.
fn give_next_field<O: PieceOut>(out: &mut O, place: Place, state: &mut Formatting)
    ensures { GivesOutcome O.left out.old (steps.next_of state.old.context.fields (record state.old.context { fields = Begun }) place state.old)
        out.new state.new }
{
    match state.context.fields {
        SeriesSoFar::Outside => {}
        SeriesSoFar::Empty => state.context.fields = SeriesSoFar::Begun,
        SeriesSoFar::Begun => give_generated_word(out, place, comma(), state),
    }
}

// Begins an argument of the open function: `Fa`.
fn give_next_argument<O: PieceOut>(out: &mut O, place: Place, state: &mut Formatting)
    ensures { GivesOutcome O.left out.old (steps.next_of state.old.context.arguments (record state.old.context { arguments = Begun }) place state.old)
        out.new state.new }
{
    match state.context.arguments {
        SeriesSoFar::Outside => {}
        SeriesSoFar::Empty => state.context.arguments = SeriesSoFar::Begun,
        SeriesSoFar::Begun => give_generated_word(out, place, comma(), state),
    }
}

// What is before the file of `In`.
fn include_word() -> GeneratedWord
    ensures { result ≡ own_word Include Apart Apart }
{
    GeneratedWord {
        text: GeneratedText::Include,
        font: None,
        before: Join::Apart,
        after: Join::Apart,
    }
}

// Later rows are further in by the columns of a name that has begun a row.
fn give_name_hang<O: PieceOut>(out: &mut O, state: &mut Formatting)
    ensures { GivesOutcome O.left out.old (steps.name_hung state.old.line.name_columns state.old) out.new state.new }
{
    if let Some(columns) = state.line.name_columns {
        state.context = state.context.name_ended(columns);
        give_margins(out, &state.context);
        state.line.name_columns = None;
    }
}

// Gives what a macro does in the SYNOPSIS.
fn give_synopsis_step<O: PieceOut>(
    out: &mut O,
    place: Place,
    step: SynopsisStep,
    state: &mut Formatting,
)
    ensures { GivesOutcome O.left out.old (steps.synopsis_step place step state.old) out.new state.new }
{
    match step {
        SynopsisStep::Break => {
            out.give(Piece::Break);
            state.end_row();
        }
        SynopsisStep::Include => give_generated_word(out, place, include_word(), state),
        SynopsisStep::NameBegins => {
            state.context = state.context.name_begun();
            give_row_margins(out, &state.context);
            state.end_row();
            state.line.name_columns = Some(0);
        }
        SynopsisStep::NameEnds => give_name_hang(out, state),
    }
}

// Gives it where a text is in the SYNOPSIS.
fn give_if_synopsis<O: PieceOut>(
    out: &mut O,
    place: Place,
    step: SynopsisStep,
    state: &mut Formatting,
)
    ensures { GivesOutcome O.left out.old (if in_synopsis state.old.context then steps.synopsis_step place step state.old else nothing state.old)
        out.new state.new }
{
    if in_synopsis(&state.context) {
        give_synopsis_step(out, place, step, state);
    }
}

// Whether blanks are between words from here on: `Sm`.
fn set_spacing(on: Option<bool>, state: &mut Formatting)
    ensures { state.new ≡ (steps.spaced (unwrap_or on (not state.old.context.has_spacing.value)) state.old).state }
{
    let on = on.unwrap_or(!state.context.has_spacing.value);
    state.context.has_spacing = Setting::set_to(on);
    if on {
        state.gap = state.gap.max(1);
    }
}

/// Gives a step of a line, on a page of a manual with a name or without.
pub(crate) fn give_step<O: PieceOut>(
    out: &mut O,
    place: Place,
    step: &LineStep<&[u8]>,
    name: &Option<ManualName>,
    state: &mut Formatting,
)
    requires { StepFits (step_view step.now) }
    ensures { GivesOutcome O.left out.old (steps.step_outcome place (step_view step.now) name.now state.old) out.new state.new }
{
    match *step {
        LineStep::NextColumn => give_column_step(out, place, state),
        LineStep::Glue => glue(state),
        LineStep::BodyParagraph(name) => {
            give_body_paragraph(out, place, name, state);
        }
        LineStep::Uri(uri) => {
            let word = argument_word(None, Join::Apart, uri);
            give_line_word(out, place.line, &word, state);
        }
        LineStep::ManualName => give_manual_name(out, place, name, state),
        LineStep::NextField => give_next_field(out, place, state),
        LineStep::NextArgument => give_next_argument(out, place, state),
        LineStep::FunctionEnd => give_function_end(out, place, state),
        LineStep::Spacing(on) => set_spacing(on, state),
        LineStep::Synopsis(step) => give_if_synopsis(out, place, step, state),
    }
}
