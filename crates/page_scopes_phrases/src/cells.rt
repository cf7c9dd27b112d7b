//! Texts in the columns of a list (mdoc(7), `Bl -column`, `Ta`).
ghost use Rattle.std.specs.Prelude.{◌≡◌, ◌≤◌, ◌<◌, ◌==◌, if◌then◌else◌, Bool, length, position, IfSome, take};
ghost use Rattle.page_core_escapes.specs.Tokens.{is_space, token_bytes};
ghost use Rattle.page_core_escapes.specs.laws.Views.{token_view};
ghost use Rattle.page_roff_syntax.specs.Arguments.{after_blanks};
ghost use Rattle.page_scopes_phrases.specs.LineWords as cells;
ghost use Rattle.page_sets_lines.specs.laws.Views.{FitsAt};
ghost use Rattle.page_scopes_phrases.specs.laws.Views.{GivesOutcome, phrase_view};
ghost use Rattle.page_scopes_phrases.specs.Phrases.{nothing};
ghost use Rattle.page_sets_lines.specs.declared.events.Join.TheVariants.{Apart};

use crate::phrases::is_text;
use crate::{Formatting, Phrase, give_phrase};
use page_core_base::{LINE, NoteKind, Piece, PieceOut, Place};
use page_core_escapes::{Escape, Token, read_token};
use page_roff_syntax::blank_len;
use page_scopes_layout::Context;
use page_scopes_words::report;
use page_sets_lines::Join;

/// Where the first cell of a text ends, in bytes from its front, and where the tab after it is; both at the text's end where no tab is.
#[derive(Clone, Copy)]
pub(crate) struct CellSpan {
    pub(crate) end: usize,
    pub(crate) tab: usize,
}

/// Whether the innermost list has columns.
#[inline(always)]
pub fn in_columns(context: &Context) -> bool
    ensures { result ≡ cells.in_columns context.now }
{
    match &context.list {
        Some(list) => list.has_columns(),
        None => false,
    }
}

// Begins the next column, where the innermost list has columns.
fn give_next_column<O: PieceOut>(out: &mut O, state: &mut Formatting)
    ensures { GivesOutcome O.left out.old (cells.next_column state.old.context.list state.old) out.new state.new }
{
    if let Some(list) = state.context.list {
        if list.has_columns() {
            let next = list.next_cell();
            state.context.list = Some(next);
            out.give(Piece::Column(next.column));
            state.gap = 0;
            state.line.ends_blank = false;
        }
    }
}

/// Begins the next column: `Ta`.
pub fn give_column_step<O: PieceOut>(out: &mut O, place: Place, state: &mut Formatting)
    ensures { GivesOutcome O.left out.old (cells.column_step place state.old.context.list state.old) out.new state.new }
{
    if state.context.list.is_some() {
        give_next_column(out, state);
    } else {
        report(out, NoteKind::ItemOutside, place, b"");
    }
}

// The blanks of white space before its first tab, where it has one.
fn find_tab(white: &[u8]) -> Option<usize>
    ensures value { result ≡ position (λ byte. byte == 9) white.now }
    ensures within { IfSome result (λ n. n < length white.now) }
{
    white.iter().position(|byte| *byte == b'\t')
}

// The bytes of a token before its first tab, where it has one.
fn tab_in(token: &Token<'_>) -> Option<usize>
    requires { 0 < length (token_bytes (token_view token.now)) }
    ensures value { result ≡ cells.tab_in (token_view token.now) }
    ensures within { IfSome result (λ n. n < length (token_bytes (token_view token.now))) }
{
    match *token {
        Token::White(white) => find_tab(white),
        Token::Escaped {
            meaning: Escape::Tab,
            ..
        } => Some(0),
        _ => None,
    }
}

// Where a cell ends after a token: blanks at its end are none of it.
fn end_after(token: &Token<'_>, before: usize, after: usize) -> usize
    ensures { result ≡ (if is_space (token_view token.now) then before else after) }
{
    if matches!(token, Token::White(_)) {
        before
    } else {
        after
    }
}

// The blanks before a tab that a text begins with: its first cell has no byte. What follows the tab is not read, so that each tab of a run is read once.
fn blanks_before_tab(text: &[u8]) -> Option<usize>
    ensures value { IfSome result (λ blanks. (quoted : Bool) → cells.span_of quoted text.now ≡ record { end = 0; tab = blanks }) }
    ensures within { IfSome result (λ blanks. blanks < length text.now) }
{
    let blanks = blank_len(text);
    if blanks < text.len() && text[blanks] == b'\t' {
        Some(blanks)
    } else {
        None
    }
}

// The first cell of a text, which is quoted or not.
fn find_cell(quoted: bool, text: &[u8]) -> CellSpan
    requires { length text.now ≤ LINE }
    ensures value { result ≡ cells.span_of quoted text.now }
    ensures within { (result.end ≤ length text.now) × (result.tab ≤ length text.now) }
{
    let mut rest = text;
    let mut end = 0;
    while !rest.is_empty() {
        let start = text.len() - rest.len();
        if let Some(blanks) = blanks_before_tab(rest) {
            return CellSpan {
                end,
                tab: start + blanks,
            };
        }
        let token = read_token(quoted, rest);
        match tab_in(&token) {
            Some(before) => {
                return CellSpan {
                    end,
                    tab: start + before,
                };
            }
            None => {}
        }
        rest = &rest[token.len()..];
        end = end_after(&token, end, text.len() - rest.len());
    }
    CellSpan {
        end,
        tab: text.len(),
    }
}

// What follows a tab at a text's front, which is one byte or the two of an escape.
fn after_tab(text: &[u8]) -> &[u8]
    ensures { result.now ≡ cells.after_tab text.now }
{
    match text {
        [] => text,
        [b'\t', rest @ ..] => rest,
        [_, rest @ ..] => match rest {
            [] => rest,
            [_, rest @ ..] => rest,
        },
    }
}

// A text without the blanks at its front.
fn after_blanks(text: &[u8]) -> &[u8]
    ensures { result.now ≡ after_blanks text.now }
{
    &text[blank_len(text)..]
}

// The text of the first cell.
fn first_cell<'a>(span: CellSpan, phrase: &Phrase<&'a [u8]>) -> Phrase<&'a [u8]>
    requires { span.end ≤ length phrase.now.text.now }
    ensures { phrase_view result ≡ record (phrase_view phrase.now) { text = take span.end (phrase_view phrase.now).text; after = Apart } }
{
    Phrase {
        text: &phrase.text[..span.end],
        after: Join::Apart,
        ..*phrase
    }
}

// The text of the other cells.
fn other_cells<'a>(span: CellSpan, phrase: &Phrase<&'a [u8]>) -> Phrase<&'a [u8]>
    requires within { span.tab < length phrase.now.text.now }
    requires fits { FitsAt phrase.now.column phrase.now.text.now }
    ensures { phrase_view result ≡ cells.other_cells span (phrase_view phrase.now) }
{
    let text = after_blanks(after_tab(&phrase.text[span.tab..]));
    Phrase {
        text,
        column: phrase.column + (phrase.text.len() - text.len()) as u32,
        is_line: false,
        before: Join::Apart,
        ..*phrase
    }
}

// Gives the words of a cell on a line, where it has any.
fn give_cell<O: PieceOut>(out: &mut O, line: u32, phrase: &Phrase<&[u8]>, state: &mut Formatting)
    requires { FitsAt phrase.now.column phrase.now.text.now }
    ensures { GivesOutcome O.left out.old (cells.cell line (phrase_view phrase.now) state.old) out.new state.new }
{
    if !phrase.text.is_empty() {
        give_phrase(out, line, phrase, state);
    }
}

// A tab begins the next column.
fn give_tab<O: PieceOut>(out: &mut O, state: &mut Formatting)
    ensures { GivesOutcome O.left out.old (cells.tab_step state.old) out.new state.new }
{
    state.line.has_row_words = state.line.has_row_words || is_text(state.context.part);
    give_next_column(out, state);
}

// Gives the words of the first cell on a line, and begins the next column.
fn give_first_cell<O: PieceOut>(
    out: &mut O,
    line: u32,
    span: CellSpan,
    phrase: &Phrase<&[u8]>,
    state: &mut Formatting,
)
    requires end { span.end ≤ length phrase.now.text.now }
    requires fits { FitsAt phrase.now.column phrase.now.text.now }
    ensures { GivesOutcome O.left out.old (cells.first_part span line (phrase_view phrase.now) state.old) out.new state.new }
{
    give_cell(out, line, &first_cell(span, phrase), state);
    give_tab(out, state);
}

/// Gives the words of a phrase on a line cell by cell, each in its column.
#[inline(never)]
pub(crate) fn give_cells<O: PieceOut>(
    out: &mut O,
    line: u32,
    phrase: &Phrase<&[u8]>,
    state: &mut Formatting,
)
    requires { FitsAt phrase.now.column phrase.now.text.now }
    ensures { GivesOutcome O.left out.old (cells.cells line (phrase_view phrase.now) state.old) out.new state.new }
{
    let mut left = *phrase;
    let mut span = find_cell(left.is_quoted, left.text);
    while span.tab < left.text.len() {
        give_first_cell(out, line, span, &left, state);
        left = other_cells(span, &left);
        span = find_cell(left.is_quoted, left.text);
    }
    give_cell(out, line, &left, state);
}

// Gives a byte of white space in columns: a tab begins the next one.
fn give_white_byte<O: PieceOut>(out: &mut O, byte: u8, state: &mut Formatting)
    ensures { GivesOutcome O.left out.old (if byte == 9 then cells.tab_step state.old else nothing state.old) out.new state.new }
{
    if byte == b'\t' {
        give_tab(out, state);
    }
}

/// Gives white space in columns: each tab begins the next one.
pub fn give_white_columns<O: PieceOut>(out: &mut O, white: &[u8], state: &mut Formatting)
    ensures { GivesOutcome O.left out.old (cells.white_columns white.now state.old) out.new state.new }
{
    for byte in white {
        give_white_byte(out, *byte, state);
    }
}
