//! Texts: words, and the white space between them (roff(7), "LANGUAGE SYNTAX").

ghost use Rattle.std.specs.Prelude.{◌≡◌, ℕ, ◌≤◌, ◌<◌, ◌==◌, true, false, if◌then◌else◌, length};
ghost use Rattle.page_core_base.specs.Bytes.{begins_white};
ghost use Rattle.page_core_base.specs.laws.Views.{Came, CameUpTo};
ghost use Rattle.page_core_escapes.specs.laws.Views.{begins_word};
ghost use Rattle.page_scopes_text.specs.laws.Views.{spaced_front};
ghost use Rattle.page_scopes_text.specs.Texts.{words_of};
ghost use Rattle.page_scopes_text.specs.machine.Letters.{Fits, ReadsSpaced, Within, first_after, first_items};
ghost use Rattle.page_scopes_text.specs.Texts as texts;
ghost use Rattle.page_scopes_words.specs.Words.{body_after, indented_pen, at};

use crate::kept_texts::give_kept_words;
use crate::last_words::Front;
use crate::lettered_texts::give_lettered_front;
use crate::words::{give_body, give_word, report_word};
use page_core_base::{Font, LINE, Piece, PieceOut, Place};
use page_core_escapes::{begins_word, read_token};
use page_scopes_words::{Pen, TextStyle, give_blank_cells, give_white_cells, has_tab};

// Gives white space where it is kept, in the column of the word after it.
#[inline(always)]
fn give_white<O: PieceOut>(out: &mut O, style: TextStyle, line: u32, column: u32, white: &[u8])
    ensures { Came O.left out.old (texts.white_items style (at line column) white.now) out.new }
{
    if style.is_literal {
        give_white_cells(out, Place { line, column }, white);
    }
}

// Gives white space where it is kept, at a text's end, in the column of the last word. It is a call, since few texts end so.
#[inline(never)]
fn give_last_white<O: PieceOut>(
    out: &mut O,
    style: TextStyle,
    line: u32,
    front: &Front<'_>,
    white: &[u8],
)
    ensures { Came O.left out.old (texts.white_items style (at line front.now) white.now) out.new }
{
    if style.is_literal {
        let place = Place {
            line,
            column: front.last_word(),
        };
        give_white_cells(out, place, white);
    }
}

// Gives the word at a text's front after the pen's blanks, or words of letters there, many at once; what is left of the text.
#[inline(always)]
fn give_words<'a, O: PieceOut>(
    out: &mut O,
    style: TextStyle,
    line: u32,
    has_tab: bool,
    pen: &mut Pen,
    text: &'a [u8],
) -> &'a [u8]
    requires fits { Fits pen.old text.now }
    requires word { begins_word text.now ≡ true }
    ensures came { (last : ℕ) → CameUpTo O.left out.old
        (first_items style line last has_tab pen.old (words_of style.is_quoted text.now))
        (texts.others_items style line last pen.new (words_of style.is_quoted result.now).others) out.new }
    ensures pen { texts.others_after style pen.new (words_of style.is_quoted result.now).others
        ≡ first_after style pen.old (words_of style.is_quoted text.now) }
    ensures within { Within pen.old text.now pen.new result.now }
    ensures ends { begins_word result.now ≡ false }
{
    if !has_tab {
        if let Some(rest) = give_lettered_front(out, style, line, pen, text) {
            return rest;
        }
    }
    give_word(out, style, line, has_tab, pen, text)
}

// Gives the white space at a text's front, and the word after it, or words of letters; what is left of the text.
#[inline(always)]
fn give_spaced<'a, O: PieceOut>(
    out: &mut O,
    style: TextStyle,
    line: u32,
    front: &Front<'_>,
    pen: &mut Pen,
    text: &'a [u8],
) -> &'a [u8]
    requires fits { Fits pen.old text.now }
    requires white { begins_white text.now ≡ true }
    ensures came { CameUpTo O.left out.old
        (texts.others_items style line front.now pen.old (words_of style.is_quoted text.now).others)
        (texts.others_items style line front.now pen.new (words_of style.is_quoted result.now).others) out.new }
    ensures pen { texts.others_after style pen.new (words_of style.is_quoted result.now).others
        ≡ texts.others_after style pen.old (words_of style.is_quoted text.now).others }
    ensures within { Within pen.old text.now pen.new result.now }
    ensures ends { begins_word result.now ≡ false }
    ensures less { length result.now < length text.now }
{
    let (white, rest) = text.split_at(read_token(style.is_quoted, text).len());
    pen.pass_white(style, white);
    if begins_word(rest) {
        give_white(out, style, line, pen.column, white);
        give_words(out, style, line, has_tab(white), pen, rest)
    } else {
        give_last_white(out, style, line, front, white);
        rest
    }
}

// Gives the words at a text's front, each with white space before it.
#[inline(always)]
fn give_others<O: PieceOut>(
    out: &mut O,
    style: TextStyle,
    line: u32,
    front: &Front<'_>,
    pen: &mut Pen,
    text: &[u8],
)
    requires fits { Fits pen.old text.now }
    requires word { begins_word text.now ≡ false }
    ensures came { Came O.left out.old
        (texts.others_items style line front.now pen.old (words_of style.is_quoted text.now).others) out.new }
    ensures pen { pen.new ≡ texts.others_after style pen.old (words_of style.is_quoted text.now).others }
{
    let mut tries = true;
    let mut rest = text;
    while !rest.is_empty() {
        rest = give_kept_words(out, style, line, pen, &mut tries, rest);
        if !rest.is_empty() {
            rest = give_spaced(out, style, line, front, pen, rest);
        }
    }
}

// Gives the white space at a text line's front, which ends the row, as cells of the word after it; what is left of the text.
fn give_indented<'a, O: PieceOut>(
    out: &mut O,
    quoted: bool,
    line: u32,
    pen: &mut Pen,
    text: &'a [u8],
) -> &'a [u8]
    requires fits { Fits pen.old text.now }
    requires white { begins_white text.now ≡ true }
    ensures came { Came O.left out.old
        (texts.indented_items quoted line pen.old (spaced_front quoted text.now)) out.new }
    ensures pen { pen.new
        ≡ body_after (indented_pen pen.old (spaced_front quoted text.now).white)
        (spaced_front quoted text.now).word }
    ensures rest { ReadsSpaced quoted pen.old text.now pen.new result.now }
{
    let (white, rest) = text.split_at(read_token(quoted, text).len());
    pen.indent(white);
    let place = Place {
        line,
        column: pen.column,
    };
    out.give(Piece::Break);
    report_word(out, quoted, place, rest);
    give_white_cells(out, place, white);
    give_body(out, quoted, place, pen, rest)
}

// The column of the blank before white space at a text's front: that of the white space, or of the last word, where no word follows.
fn gap_column(quoted: bool, front: &Front<'_>, pen: &Pen, text: &[u8]) -> u32
    requires { length text.now ≤ LINE }
    ensures { result ≡ (if length (spaced_front quoted text.now).word == 0 then front.now else pen.now.column) }
{
    if begins_word(&text[read_token(quoted, text).len()..]) {
        pen.column
    } else {
        front.last_word()
    }
}

// Whether white space at a text's front ends the row.
fn is_indented(style: TextStyle) -> bool
    ensures { result ≡ texts.is_indented style }
{
    style.is_line && !style.is_literal
}

// Gives what comes before the words of a text that begins with white space, which may be cells of its first word; what is left of the text. It is a
// call, since few texts begin so.
#[inline(never)]
fn give_leading<'a, O: PieceOut>(
    out: &mut O,
    style: TextStyle,
    line: u32,
    front: &Front<'_>,
    pen: &mut Pen,
    text: &'a [u8],
) -> &'a [u8]
    requires fits { Fits pen.old text.now }
    requires white { begins_white text.now ≡ true }
    ensures came { CameUpTo O.left out.old
        (texts.words_items style line front.now pen.old (words_of style.is_quoted text.now))
        (texts.others_items style line front.now pen.new (words_of style.is_quoted result.now).others) out.new }
    ensures pen { texts.others_after style pen.new (words_of style.is_quoted result.now).others
        ≡ texts.text_after style pen.old (words_of style.is_quoted text.now) }
    ensures within { Within pen.old text.now pen.new result.now }
    ensures ends { begins_word result.now ≡ false }
{
    if is_indented(style) {
        return give_indented(out, style.is_quoted, line, pen, text);
    }
    if pen.has_gap_cells(style) {
        let place = Place {
            line,
            column: gap_column(style.is_quoted, front, pen, text),
        };
        give_blank_cells(out, 1, Font::R, place);
    }
    text
}

/// Gives the words of a text of a line at the pen, and moves the pen to its end. The last word before it in its line is at the column `last`.
pub fn give_text<O: PieceOut>(
    out: &mut O,
    style: TextStyle,
    line: u32,
    last: u32,
    pen: &mut Pen,
    text: &[u8],
)
    requires { Fits pen.old text.now }
    ensures came { Came O.left out.old
        (texts.text_items style line last pen.old (words_of style.is_quoted text.now)) out.new }
    ensures pen { pen.new ≡ texts.text_after style pen.old (words_of style.is_quoted text.now) }
{
    let front = Front::new(style.is_quoted, pen.column, last, text);
    if begins_word(text) {
        let rest = give_words(out, style, line, false, pen, text);
        give_others(out, style, line, &front, pen, rest);
    } else if text.is_empty() {
        give_word(out, style, line, false, pen, text);
    } else {
        let rest = give_leading(out, style, line, &front, pen, text);
        give_others(out, style, line, &front, pen, rest);
    }
}
