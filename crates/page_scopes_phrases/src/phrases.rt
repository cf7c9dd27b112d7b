//! Texts that events print: their fonts, and how they are beside the words around them (man(7), `B`, `BR`).
ghost use Rattle.std.specs.Prelude.{◌≡◌, ◌≤◌, ◌&&◌, length, not};
ghost use Rattle.page_core_base.specs.declared.limits.TheConstants.{LINE};
ghost use Rattle.page_sets_lines.specs.laws.Views.{FitsAt};
ghost use Rattle.page_scopes_phrases.specs.laws.Views.{GivesOutcome, phrase_view};
ghost use Rattle.page_scopes_phrases.specs.Phrases as phrases;

use crate::Formatting;
use page_core_base::{Font, LINE, PieceOut, Place};
use page_scopes_layout::{Context, PagePart};
use page_scopes_text::{give_text, last_word};
use page_scopes_words::{Fonts, Pen, Setting, TextStyle};
use page_sets_lines::Join;
use std::alloc::AllocError;

/// A text that an event prints; `W` is a text.
#[derive(Copy)]
pub struct Phrase<W> {
    pub text: W,
    /// The column of its first byte.
    pub column: u32,
    /// A pair of quotes in it is one quote.
    pub is_quoted: bool,
    /// It is a whole line.
    pub is_line: bool,
    /// It is in the page, and is no word of a macro's own.
    pub is_written: bool,
    /// A font of its own.
    pub font: Option<Font>,
    /// How it is beside the word before it.
    pub before: Join,
    /// How it is beside the word after it.
    pub after: Join,
}

impl<W: Copy> Clone for Phrase<W> {
    fn clone(&self) -> Result<Phrase<W>, AllocError> {
        Ok(*self)
    }
}

impl<'a> Phrase<&'a [u8]> {
    /// What a macro prints itself, at the macro's place: a short text.
    pub fn own(
        place: Place,
        text: &'a [u8],
        font: Option<Font>,
        before: Join,
        after: Join,
    ) -> Phrase<&'a [u8]>
        requires { length text.now ≤ LINE }
        ensures seen { phrase_view result ≡ phrases.own_phrase place text.now font before after }
        ensures fits { FitsAt result.column result.text.now }
    {
        Phrase {
            text,
            column: place.column.min(LINE as u32 + 1),
            is_quoted: false,
            is_line: false,
            is_written: false,
            font,
            before,
            after,
        }
    }
}

/// The fonts at a phrase's front.
pub(crate) fn own_fonts(font: Option<Font>, fonts: Setting<Fonts>) -> Setting<Fonts>
    ensures { result ≡ phrases.own_fonts font fonts }
{
    match font {
        None => fonts,
        Some(font) => Setting {
            value: Fonts {
                font,
                former: fonts.value.font,
            },
            is_set: fonts.is_set,
        },
    }
}

/// The count of blanks where a phrase is joined; blanks at a text's end may part it all the same.
pub fn joined_gap(join: Join, parts: bool, gap: u32) -> u32
    ensures { result ≡ phrases.joined_gap join parts gap }
{
    match join {
        Join::Apart => gap,
        Join::Glued => { if parts { gap } else { 0 } }
        Join::Parted => gap.max(1),
    }
}

/// Whether blanks at a text's end part it from a phrase that is glued.
pub fn blanks_part(ends_blank: bool, context: &Context) -> bool
    ensures { result ≡ (ends_blank && not context.now.is_literal.value) }
{
    ends_blank && !context.is_literal.value
}

// How a phrase is read.
fn phrase_style(phrase: &Phrase<&[u8]>, context: &Context) -> TextStyle
    ensures { result ≡ phrases.phrase_style (phrase_view phrase.now) context.now }
{
    TextStyle {
        is_quoted: phrase.is_quoted,
        is_literal: context.is_literal.value,
        is_line: phrase.is_line,
    }
}

// Whether a row may end within the words of a phrase: where rows are filled, in what is written in the page, but for tags.
fn splits(phrase: &Phrase<&[u8]>, context: &Context) -> bool
    ensures { result ≡ phrases.splits (phrase_view phrase.now) context.now }
{
    phrase.is_written && !context.is_literal.value && !matches!(context.part, PagePart::Tag)
}

// What is known at a phrase's front.
#[inline(always)]
fn phrase_pen(phrase: &Phrase<&[u8]>, state: &Formatting) -> Pen
    ensures { result ≡ phrases.phrase_pen (phrase_view phrase.now) state.now }
{
    Pen {
        fonts: own_fonts(phrase.font, state.context.fonts),
        column: phrase.column,
        gap: joined_gap(
            phrase.before,
            blanks_part(state.line.ends_blank, &state.context),
            state.next_gap(),
        ),
        is_after_word: state.line.is_after_word,
        has_cell: false,
        is_cut: false,
        ends_blank: false,
        splits: splits(phrase, &state.context),
    }
}

// The fonts after a phrase.
fn kept_fonts(
    font: Option<Font>,
    is_guarded: bool,
    before: Setting<Fonts>,
    now: Setting<Fonts>,
) -> Setting<Fonts>
    ensures { result ≡ phrases.kept_fonts font is_guarded before now }
{
    match font {
        Some(_) => before,
        None => Setting {
            value: now.value,
            is_set: if is_guarded {
                before.is_set
            } else {
                now.is_set
            },
        },
    }
}

// The context goes on after a phrase; `is_guarded` says whether it is one of a font macro's words.
fn pass_context(context: &mut Context, phrase: &Phrase<&[u8]>, is_guarded: bool, pen: &Pen)
    ensures { context.new
        ≡ phrases.context_after (phrase_view phrase.now) is_guarded pen.now context.old }
{
    context.fonts = kept_fonts(phrase.font, is_guarded, context.fonts, pen.fonts);
    context.has_row = context.has_row || pen.has_cell;
}

// The count of blanks after a phrase; there are some between words, or none.
fn end_gap(has_spacing: bool, pen: &Pen) -> u32
    ensures { result ≡ phrases.end_gap has_spacing pen.now }
{
    if pen.ends_blank {
        pen.gap.max(1)
    } else if has_spacing {
        pen.gap
    } else {
        0
    }
}

/// Whether a part of a page is its text.
pub(crate) fn is_text(part: PagePart) -> bool
    ensures { result ≡ phrases.is_text part }
{
    matches!(part, PagePart::Text)
}

// The column of a line's last word after a phrase. It is looked for where rows are kept, unless the phrase is a whole line.
#[inline(always)]
fn last_after(phrase: &Phrase<&[u8]>, state: &Formatting) -> u32
    requires { FitsAt phrase.now.column phrase.now.text.now }
    ensures { result ≡ phrases.last_after (phrase_view phrase.now) state.now }
{
    if !state.context.is_literal.value || phrase.is_line {
        return state.line.last_word;
    }
    last_word(
        phrase.is_quoted,
        phrase.column,
        state.line.last_word,
        phrase.text,
    )
}

// The state after a phrase.
#[inline(always)]
fn pass_phrase(state: &mut Formatting, phrase: &Phrase<&[u8]>, pen: &Pen)
    requires { FitsAt phrase.now.column phrase.now.text.now }
    ensures { state.new ≡ phrases.state_after (phrase_view phrase.now) pen.now state.old }
{
    let is_guarded = state.line.fonts_before.is_some();
    state.line.last_word = last_after(phrase, state);
    state.has_content = true;
    state.gap = joined_gap(
        phrase.after,
        blanks_part(pen.ends_blank, &state.context),
        end_gap(state.context.has_spacing.value, pen),
    );
    state.line.has_words = true;
    state.line.has_row_words = state.line.has_row_words || is_text(state.context.part);
    state.line.is_after_word = true;
    state.line.is_cut = pen.is_cut;
    state.line.ends_blank = pen.ends_blank;
    state.line.joins_next = false;
    pass_context(&mut state.context, phrase, is_guarded, pen);
}

/// Gives the words of a phrase on a line.
#[inline(always)]
pub fn give_phrase<O: PieceOut>(
    out: &mut O,
    line: u32,
    phrase: &Phrase<&[u8]>,
    state: &mut Formatting,
)
    requires { FitsAt phrase.now.column phrase.now.text.now }
    ensures { GivesOutcome O.left out.old (phrases.phrase_outcome line (phrase_view phrase.now) state.old) out.new state.new }
{
    let style = phrase_style(phrase, &state.context);
    let mut pen = phrase_pen(phrase, state);
    state
        .heading
        .pass_text(state.context.part, phrase.is_quoted, pen.gap, phrase.text);
    give_text(
        out,
        style,
        line,
        state.line.last_word,
        &mut pen,
        phrase.text,
    );
    pass_phrase(state, phrase, &pen);
}
