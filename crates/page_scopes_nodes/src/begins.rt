//! What a scope begins with, of any event that opens one (man(7), mdoc(7)).

ghost use Rattle.std.specs.Prelude.{◌≡◌};
ghost use Rattle.page_scopes_layout.specs.Contexts.{entered_context};
ghost use Rattle.page_sets_lines.specs.laws.Views.{KindFits};
ghost use Rattle.page_scopes_phrases.specs.laws.Views.{GivesOutcome};
ghost use Rattle.page_scopes_nodes.specs.Begins as begins;
ghost use Rattle.page_sets_lines.specs.laws.Events.{kind_view, event_view};

use crate::PageLayout;
use crate::openers::give_opened;
use page_core_base::{Font, PieceOut, Place};
use page_scopes_blocks::give_line_words;
use page_scopes_labels::Label;
use page_scopes_layout::{Context, HeadingSoFar, give_begin};
use page_scopes_phrases::Formatting;
use page_sets_lines::{Event, EventKind, FontMacro, HeadingName, LineOpener};

// The column of the heading of `SH`, `SS`, `Sh` or `Ss`.
fn heading_column(name: HeadingName) -> u32
    ensures { result ≡ begins.heading_column name }
{
    match name {
        HeadingName::SH | HeadingName::Sh => 0,
        HeadingName::SS | HeadingName::Ss => 3,
    }
}

// The font of the words of `B`, `I`, `SM` or `SB`.
fn font_of(font_macro: FontMacro) -> Font
    ensures { result ≡ begins.font_of font_macro }
{
    match font_macro {
        FontMacro::B | FontMacro::SB => Font::B,
        FontMacro::I => Font::I,
        FontMacro::SM => Font::R,
    }
}

// A line scope begins in the context of its front: the head of an item (`It`), the heading of `SH`, `SS`, `Sh` and `Ss`, the tag of `TP` and
// `TQ`, the words of `B`, `I`, `SM` and `SB`, the row of `D1` and `Dl`, the words of an enclosure and of `Nd`.
#[inline(always)]
fn enter_line(opener: LineOpener, context: &mut Context)
    ensures { context.new ≡ begins.line_context opener (entered_context context.old) }
{
    match opener {
        LineOpener::Head => *context = context.entered().head_begun(),
        LineOpener::Heading(name) => {
            *context = context.entered().heading_begun(heading_column(name));
        }
        LineOpener::Tag(_) => *context = context.entered().tag_begun(),
        LineOpener::FontWords(font_macro) => {
            *context = context.entered().font_begun(font_of(font_macro));
        }
        LineOpener::OneLine(_) => *context = context.entered().one_line_begun(),
        LineOpener::Enclosure(_) | LineOpener::Description => *context = context.entered(),
    }
}

// What is known along the page at the front of a line scope: there is one blank before the words of a heading, and `D1` and `Dl` end the row.
fn pass_begin(opener: LineOpener, state: &mut Formatting)
    ensures { state.new ≡ begins.line_state opener state.old }
{
    match opener {
        LineOpener::Heading(_) => {
            state.gap = 1;
            state.heading = HeadingSoFar::start();
        }
        LineOpener::OneLine(_) => state.end_row(),
        _ => {}
    }
}

// Gives what a line scope begins with.
fn give_line_opened<O: PieceOut>(
    out: &mut O,
    place: Place,
    opener: LineOpener,
    state: &mut Formatting,
)
    ensures { GivesOutcome O.left out.old (begins.line_opened place opener state.old) out.new state.new }
{
    enter_line(opener, &mut state.context);
    give_begin(out, Label::Line(opener), &state.context);
    pass_begin(opener, state);
    give_line_words(out, place, opener, state);
}

/// Gives what the scope that an event opens begins with.
#[tactic(auto, unfolding(crate::specs::Begins::begun_by))]
pub fn give_begun<O: PieceOut>(
    out: &mut O,
    page: &PageLayout,
    event: &Event<&[u8]>,
    state: &mut Formatting,
)
    requires { KindFits (kind_view event.now.kind) }
    ensures { GivesOutcome O.left out.old (begins.begun_by page.now (event_view event.now) state.old) out.new state.new }
{
    match &event.kind {
        EventKind::Open(opener) => give_opened(out, page, event.place, opener, state),
        EventKind::LineScope(opener) => {
            give_line_opened(out, event.place, *opener, state);
        }
        _ => {}
    }
}
