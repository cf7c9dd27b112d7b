//! Requests that change rows (roff(7), "REQUEST REFERENCE").

ghost use Rattle.std.specs.Prelude.{◌≡◌, ◌∷◌, ◌++◌, [], Some, unwrap_or, option_map};
ghost use Rattle.page_core_base.specs.Bytes.{begins_sign};
ghost use Rattle.page_core_base.specs.laws.Views.{Came};
ghost use Rattle.page_core_base.specs.Rows.{shown};
ghost use Rattle.page_core_base.specs.declared.pieces.Piece.TheVariants.{Space, Break};
ghost use Rattle.page_core_escapes.specs.laws.Views.{face_view};
ghost use Rattle.page_roff_syntax.specs.laws.Views.{argument_view};
ghost use Rattle.page_scopes_phrases.specs.laws.Views.{GivesOutcome};
ghost use Rattle.page_scopes_phrases.specs.Phrases.{in_context, row_ended, with_content};
ghost use Rattle.page_scopes_nodes.specs.Leaves as requests;
ghost use Rattle.page_scopes_words.specs.Words.{columns_notes};
ghost use Rattle.page_sets_lines.specs.laws.Events.{given_view, request_view, text_view};
ghost use Rattle.page_scopes_layout.specs.Lists.{margin_items};
ghost use Rattle.page_scopes_words.specs.Fonts.{set_to};

use crate::margins::give_row_margins;
use page_core_base::{Piece, PieceOut, Place};
use page_core_escapes::{FontName, read_font};
use page_roff_syntax::Argument;
use page_scopes_layout::Context;
use page_scopes_phrases::Formatting;
use page_scopes_words::{Fonts, Setting, give_columns, give_rows, report_font};
use page_sets_lines::RequestLeaf;

/// The rows that are given, one where they are not, with the messages of their number.
pub(crate) fn give_given_rows<O: PieceOut>(out: &mut O, place: Place, rows: Option<&[u8]>) -> u32
    ensures value { result ≡ requests.given_rows (text_view rows.entry) }
    ensures came { Came O.left out.old (requests.given_rows_notes place (text_view rows.entry)) out.new }
{
    match rows {
        None => 1,
        Some(text) => give_rows(out, place, text),
    }
}

// Gives blank rows: `sp`.
fn give_space<O: PieceOut>(out: &mut O, place: Place, rows: Option<&[u8]>, state: &mut Formatting)
    ensures came { Came O.left out.old
        (requests.given_rows_notes place (text_view rows.entry) ++ shown (Space (requests.given_rows (text_view rows.entry))) ∷ []) out.new }
    ensures state { state.new ≡ row_ended (with_content state.old) }
{
    let rows = give_given_rows(out, place, rows);
    out.give(Piece::Space(rows));
    state.has_content = true;
    state.end_row();
}

// Whether a number begins with a sign.
fn begins_sign(text: &[u8]) -> bool
    ensures { result ≡ begins_sign text.now }
{
    match text.first() {
        Some(first) => *first == b'+' || *first == b'-',
        None => false,
    }
}

// The shift after `in` with a number of columns.
fn shift_by<O: PieceOut>(out: &mut O, place: Place, text: &[u8], shift: i32) -> i32
    ensures value { result ≡ requests.given_shift (Some text.now) shift }
    ensures came { Came O.left out.old (columns_notes place text.now) out.new }
{
    let columns = give_columns(out, place, text);
    if begins_sign(text) {
        shift.saturating_add(columns)
    } else {
        columns
    }
}

// The shift after `in`, with the messages of its number.
fn give_given_shift<O: PieceOut>(
    out: &mut O,
    place: Place,
    columns: Option<&[u8]>,
    shift: i32,
) -> i32
    ensures value { result ≡ requests.given_shift (text_view columns.entry) shift }
    ensures came { Came O.left out.old (unwrap_or (option_map (columns_notes place) (text_view columns.entry)) []) out.new }
{
    match columns {
        None => 0,
        Some(text) => shift_by(out, place, text, shift),
    }
}

// Sets the shift of margins, with the messages of its number.
fn set_shift<O: PieceOut>(out: &mut O, place: Place, columns: Option<&[u8]>, context: &mut Context)
    ensures came { Came O.left out.old (unwrap_or (option_map (columns_notes place) (text_view columns.entry)) []) out.new }
    ensures context { context.new ≡ record context.old { shift = set_to (requests.given_shift (text_view columns.entry) context.old.shift.value) } }
{
    let shift = give_given_shift(out, place, columns, context.shift.value);
    context.shift = Setting::set_to(shift);
}

// Shifts the margins: `in`.
fn give_shift<O: PieceOut>(
    out: &mut O,
    place: Place,
    columns: Option<&[u8]>,
    state: &mut Formatting,
)
    ensures came { Came O.left out.old
        (unwrap_or (option_map (columns_notes place) (text_view columns.entry)) []
        ++ shown Break ∷ margin_items (record state.old.context { shift = set_to (requests.given_shift (text_view columns.entry) state.old.context.shift.value) }))
        out.new }
    ensures state { state.new ≡ row_ended (in_context
        (record state.old.context { shift = set_to (requests.given_shift (text_view columns.entry) state.old.context.shift.value) }) state.old) }
{
    set_shift(out, place, columns, &mut state.context);
    give_row_margins(out, &state.context);
    state.end_row();
}

// The fonts after one is asked for by its name.
fn fonts_named(name: FontName<'_>, fonts: Setting<Fonts>) -> Setting<Fonts>
    ensures { result ≡ requests.fonts_named (face_view name.entry) fonts }
{
    Setting {
        value: fonts.value.named(name),
        is_set: fonts.is_set || name.is_known(),
    }
}

// Asks for a font by its name.
fn give_named_font<O: PieceOut>(
    out: &mut O,
    place: Place,
    name: Argument<&[u8]>,
    context: &mut Context,
)
    ensures came { Came O.left out.old
        (requests.font_notes place (Some (argument_view name.entry))) out.new }
    ensures context { context.new
        ≡ requests.with_font_named (Some (argument_view name.entry)) context.old }
{
    let font = read_font(name.text);
    report_font(out, name.is_quoted(), place, font);
    context.fonts = fonts_named(font, context.fonts);
}

// Asks for a font by its name, or for the former one: `ft`.
fn give_font<O: PieceOut>(
    out: &mut O,
    place: Place,
    name: Option<Argument<&[u8]>>,
    context: &mut Context,
)
    ensures came { Came O.left out.old (requests.font_notes place (given_view name.entry)) out.new }
    ensures context { context.new ≡ requests.with_font_named (given_view name.entry) context.old }
{
    match name {
        None => context.fonts = fonts_named(FontName::Former, context.fonts),
        Some(name) => give_named_font(out, place, name, context),
    }
}

/// Keeps rows as they are from here on (`nf`, `EX`), or fills them (`fi`, `EE`).
pub(crate) fn give_literal<O: PieceOut>(out: &mut O, on: bool, state: &mut Formatting)
    ensures { GivesOutcome O.left out.old (requests.literal on state.old) out.new state.new }
{
    state.context.is_literal = Setting::set_to(on);
    out.give(Piece::Break);
    out.give(Piece::Literal(on));
    state.end_row();
}

/// Gives what a request gives.
pub(crate) fn give_request<O: PieceOut>(
    out: &mut O,
    place: Place,
    request: &RequestLeaf<&[u8]>,
    state: &mut Formatting,
)
    ensures { GivesOutcome O.left out.old (requests.request place (request_view request.now) state.old) out.new state.new }
{
    match *request {
        RequestLeaf::Break => {
            out.give(Piece::Break);
            state.end_row();
        }
        RequestLeaf::Space(rows) => give_space(out, place, rows, state),
        RequestLeaf::Font(name) => give_font(out, place, name, &mut state.context),
        RequestLeaf::Shift(columns) => give_shift(out, place, columns, state),
        RequestLeaf::Literal(on) => give_literal(out, on, state),
    }
}
