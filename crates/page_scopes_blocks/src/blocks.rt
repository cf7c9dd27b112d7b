//! What the blocks of mdoc(7) begin with (mdoc(7), "MACRO REFERENCE").

ghost use Rattle.std.specs.Prelude.{◌≡◌, pos, unwrap_or};
ghost use Rattle.page_core_base.specs.laws.Views.{Came};
ghost use Rattle.page_roff_syntax.specs.laws.Views.{argument_view};
ghost use Rattle.page_scopes_blocks.specs.Blocks.{function_name};
ghost use Rattle.page_scopes_blocks.specs.Blocks as blocks;
ghost use Rattle.page_scopes_blocks.specs.Lists.{given_columns, given_notes};
ghost use Rattle.page_sets_lines.specs.laws.Views.{ArgumentFits, BlockOpenerFits, GivenFits};
ghost use Rattle.page_scopes_phrases.specs.Phrases.{in_context};
ghost use Rattle.page_scopes_phrases.specs.laws.Views.{GivesOutcome};
ghost use Rattle.page_sets_lines.specs.laws.Events.{block_opener_view, given_view};
ghost use Rattle.page_scopes_layout.specs.declared.contexts.SeriesSoFar.TheVariants.{Empty};

use crate::block_words::{give_block_words, give_function_name};
use page_core_base::{Output, Piece, PieceOut, Place};
use page_roff_syntax::Argument;
use page_scopes_layout::give_margins;
use page_scopes_phrases::Formatting;
use page_scopes_words::give_width;
use page_sets_lines::BlockOpener;

// Gives the columns that a display is further in, with their messages.
fn give_offset<O: PieceOut>(
    out: &mut O,
    output: Output,
    place: Place,
    offset: Option<Argument<&[u8]>>,
) -> i32
    requires { GivenFits (given_view offset) }
    ensures columns { result ≡ unwrap_or (given_columns output (given_view offset.entry)) (pos 0) }
    ensures came { Came O.left out.old (given_notes place (given_view offset.entry)) out.new }
{
    match offset {
        Some(offset) => give_width(out, output, place, offset),
        None => 0,
    }
}

// Gives what a display begins with, in the context of its front.
fn give_display_begin<O: PieceOut>(out: &mut O, is_compact: bool, state: &mut Formatting)
    ensures { GivesOutcome O.left out.old (blocks.display_begins is_compact state.old) out.new state.new }
{
    if is_compact {
        out.give(Piece::Break);
    } else {
        out.give(Piece::Para(state.context.distance.value));
    }
    out.give(Piece::Literal(state.context.is_literal.value));
    give_margins(out, &state.context);
    state.end_row();
}

// Begins a display whose rows are kept or not, after a blank row or without, with its offset.
fn begin_display<O: PieceOut>(
    out: &mut O,
    output: Output,
    place: Place,
    is_literal: bool,
    is_compact: bool,
    offset: Option<Argument<&[u8]>>,
    state: &mut Formatting,
)
    requires { GivenFits (given_view offset) }
    ensures { GivesOutcome O.left out.old (blocks.display output place is_literal is_compact (given_view offset.entry) state.old)
        out.new state.new }
{
    let columns = give_offset(out, output, place, offset);
    state.context = state.context.display_begun(is_literal, columns);
    give_display_begin(out, is_compact, state);
}

// Begins a function, of which no argument has come.
fn begin_function<O: PieceOut>(
    out: &mut O,
    place: Place,
    name: Argument<&[u8]>,
    state: &mut Formatting,
)
    requires { ArgumentFits (argument_view name) }
    ensures { GivesOutcome O.left out.old (function_name place (argument_view name.entry) (in_context (record state.old.context { arguments = Empty }) state.old))
        out.new state.new }
{
    state.context = state.context.function_begun();
    give_function_name(out, place, name, state);
}

/// Gives what a block of mdoc(7) begins with: a display (`Bd`), words in a font (`Bf`), a reference (`Rs`), a function (`Fo`), and the marks of the
/// others.
#[tactic(auto, unfolding(crate::specs::Blocks::block_opened))]
pub fn give_block<O: PieceOut>(
    out: &mut O,
    output: Output,
    place: Place,
    opener: &BlockOpener<&[u8]>,
    state: &mut Formatting,
)
    requires { BlockOpenerFits (block_opener_view opener.now) }
    ensures { GivesOutcome O.left out.old (blocks.block_opened output place (block_opener_view opener.now) state.old)
        out.new state.new }
{
    state.context = state.context.entered();
    match *opener {
        BlockOpener::Display {
            is_literal,
            is_compact,
            offset,
        } => begin_display(out, output, place, is_literal, is_compact, offset, state),
        BlockOpener::Fonts(font) => state.context = state.context.font_if_given(font),
        BlockOpener::Reference => state.context = state.context.reference_begun(),
        BlockOpener::Function(name) => begin_function(out, place, name, state),
        _ => give_block_words(out, place, opener, state),
    }
}
