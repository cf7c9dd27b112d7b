//! Words: their messages, the blanks before them, and what they print (roff(7); mandoc(1), "DIAGNOSTICS").

ghost use Rattle.std.specs.Prelude.{◌≡◌, ◌≤◌, ◌<◌, ◌+◌, ◌^◌, [], ◌∷◌, ◌++◌, IfSome, length};
ghost use Rattle.page_core_base.specs.laws.Views.{Came};
ghost use Rattle.page_core_escapes.specs.Tokens.{plain};
ghost use Rattle.page_scopes_text.specs.Texts.{words_of};
ghost use Rattle.page_scopes_text.specs.machine.Letters.{Fits, ReadsPlain, ReadsWord};
ghost use Rattle.page_scopes_text.specs.Texts as words;
ghost use Rattle.page_scopes_words.specs.Words as pens;

use crate::parts::{give_plain_token, give_printed};
use page_core_base::{Font, LINE, Piece, PieceOut, Place};
use page_core_escapes::{begins_word, plain_len, read_token};
use page_scopes_words::{Pen, TextStyle, give_blank_cells, give_letters, report_token};

/// Gives the messages of the word at a text's front.
pub(crate) fn report_word<O: PieceOut>(out: &mut O, quoted: bool, place: Place, text: &[u8])
    requires { length text.now ≤ LINE }
    ensures { Came O.left out.old (pens.tokens_notes quoted place (words_of quoted text.now).word) out.new }
{
    let mut rest = text;
    while begins_word(rest) {
        let token = read_token(quoted, rest);
        report_token(out, quoted, place, &token);
        rest = &rest[token.len()..];
    }
}

// Gives what the tokens of the word at a text's front print; what is left of the text.
fn give_tokens<'a, O: PieceOut>(
    out: &mut O,
    quoted: bool,
    place: Place,
    pen: &mut Pen,
    text: &'a [u8],
) -> &'a [u8]
    requires { Fits pen.old text.now }
    ensures came { Came O.left out.old
        (words.tokens_items quoted place pen.old (words_of quoted text.now).word) out.new }
    ensures pen { pen.new ≡ pens.pen_through pen.old (words_of quoted text.now).word }
    ensures rest { ReadsWord quoted pen.old text.now pen.new result.now }
{
    let mut rest = text;
    while begins_word(rest) {
        let token = read_token(quoted, rest);
        give_printed(out, quoted, pen.splits, pen.fonts.value.font, place, &token);
        pen.pass(&token);
        rest = &rest[token.len()..];
    }
    rest
}

// Gives a text without characters, where a word printed nothing.
#[inline(always)]
fn give_empty<O: PieceOut>(out: &mut O, place: Place, has_cell: bool)
    ensures { Came O.left out.old (words.empty_items has_cell place) out.new }
{
    if !has_cell {
        give_letters(out, Font::R, place, b"");
    }
}

/// Gives what the word at a text's front prints; what is left of the text.
pub(crate) fn give_body<'a, O: PieceOut>(
    out: &mut O,
    quoted: bool,
    place: Place,
    pen: &mut Pen,
    text: &'a [u8],
) -> &'a [u8]
    requires { Fits pen.old text.now }
    ensures came { Came O.left out.old
        (words.body_items quoted place pen.old (words_of quoted text.now).word) out.new }
    ensures pen { pen.new ≡ pens.body_after pen.old (words_of quoted text.now).word }
    ensures rest { ReadsWord quoted pen.old text.now pen.new result.now }
{
    let before = *pen;
    pen.begin_word();
    let rest = give_tokens(out, quoted, place, pen, text);
    give_empty(out, place, pen.has_cell);
    pen.end_word(&before);
    rest
}

// Gives the blanks before a word.
#[inline(always)]
fn give_gap<O: PieceOut>(out: &mut O, style: TextStyle, has_tab: bool, place: Place, pen: &Pen)
    ensures { Came O.left out.old (words.gap_items style has_tab place pen.now) out.new }
{
    if style.is_literal {
        if pen.is_after_word {
            give_blank_cells(out, pen.gap, Font::R, place);
        }
    } else if pen.gap != 0 {
        out.give(Piece::Blank {
            count: pen.gap,
            has_tab,
        });
    }
}

/// The word at a text's front and what is left after it, where all of the word prints itself.
#[inline(always)]
pub(crate) fn read_plain(quoted: bool, text: &[u8]) -> Option<(&[u8], &[u8])>
    requires { length text.now ≤ LINE }
    ensures reads { IfSome result (λ parts. ReadsPlain quoted text.now parts.0.now parts.1.now) }
    ensures whole { IfSome result (λ parts. text.now ≡ parts.0.now ++ parts.1.now) }
{
    let (word, rest) = text.split_at(plain_len(quoted, text));
    if word.is_empty() || begins_word(rest) {
        return None;
    }
    Some((word, rest))
}

// Gives a word that prints itself, after the blanks before it.
#[inline(always)]
fn give_plain<O: PieceOut>(
    out: &mut O,
    style: TextStyle,
    line: u32,
    has_tab: bool,
    pen: &mut Pen,
    word: &[u8],
)
    requires { pen.old.column + length word.now < 2 ^ 32 }
    ensures came { Came O.left out.old
        (words.word_items style line has_tab pen.old (plain word.now ∷ [])) out.new }
    ensures pen { pen.new ≡ pens.word_after style pen.old (plain word.now ∷ []) }
{
    let place = Place {
        line,
        column: pen.column,
    };
    give_gap(out, style, has_tab, place, pen);
    pen.pass_gap(style);
    give_plain_token(out, pen.splits, pen.fonts.value.font, place, word);
    pen.pass_plain(word);
}

// Gives the word at a text's front, its messages first; what is left of the text. It is a call, since most words print themselves.
#[inline(never)]
fn give_told_word<'a, O: PieceOut>(
    out: &mut O,
    style: TextStyle,
    line: u32,
    has_tab: bool,
    pen: &mut Pen,
    text: &'a [u8],
) -> &'a [u8]
    requires { Fits pen.old text.now }
    ensures came { Came O.left out.old
        (words.word_items style line has_tab pen.old (words_of style.is_quoted text.now).word) out.new }
    ensures pen { pen.new ≡ pens.word_after style pen.old (words_of style.is_quoted text.now).word }
    ensures rest { ReadsWord style.is_quoted pen.old text.now pen.new result.now }
{
    let place = Place {
        line,
        column: pen.column,
    };
    report_word(out, style.is_quoted, place, text);
    give_gap(out, style, has_tab, place, pen);
    pen.pass_gap(style);
    give_body(out, style.is_quoted, place, pen, text)
}

/// Gives the word at a text's front, which is empty where white space is there; what is left of the text.
#[inline(always)]
pub(crate) fn give_word<'a, O: PieceOut>(
    out: &mut O,
    style: TextStyle,
    line: u32,
    has_tab: bool,
    pen: &mut Pen,
    text: &'a [u8],
) -> &'a [u8]
    requires { Fits pen.old text.now }
    ensures came { Came O.left out.old
        (words.word_items style line has_tab pen.old (words_of style.is_quoted text.now).word) out.new }
    ensures pen { pen.new ≡ pens.word_after style pen.old (words_of style.is_quoted text.now).word }
    ensures rest { ReadsWord style.is_quoted pen.old text.now pen.new result.now }
{
    if let Some((word, rest)) = read_plain(style.is_quoted, text) {
        give_plain(out, style, line, has_tab, pen, word);
        return rest;
    }
    give_told_word(out, style, line, has_tab, pen, text)
}
