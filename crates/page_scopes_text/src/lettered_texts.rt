//! Words of letters at a text's front, after blanks: they are given at once (roff(7), "LANGUAGE SYNTAX").

ghost use Rattle.std.specs.Prelude.{◌≡◌, ℕ, ◌≤◌, ◌<◌, ◌==◌, not, false, true, [], length, IfSome, MatchOption};
ghost use Rattle.std.specs.List.{list_all};
ghost use Rattle.page_core_base.specs.laws.Views.{Came, CameUpTo};
ghost use Rattle.page_core_escapes.specs.laws.Views.{begins_word};
ghost use Rattle.page_scopes_text.specs.Texts.{words_of};
ghost use Rattle.page_scopes_text.specs.Texts as texts;
ghost use Rattle.page_scopes_text.specs.machine.Letters.{GivesFront, GoesOn, is_in_font, Fits, Within, first_after, first_items};
ghost use Rattle.page_scopes_words.specs.machine.Letters.{GoesOn as RunGoesOn};

use crate::lettered_words::{read_after_blank, read_words};
use page_core_base::{Font, LINE, PieceOut};
use page_scopes_words::{
    Fonts, Letters, Pen, ROOM, Setting, TextStyle, equal_fonts, give_after_blanks, going_len,
};

// Whether blanks are before the next word, which may be parted, in rows that are filled.
#[inline(always)]
fn goes_on(style: TextStyle, pen: &Pen) -> bool
    ensures { result ≡ true → GoesOn style pen.now }
{
    !style.is_literal && pen.gap > 0 && pen.splits && pen.column > 0
}

// Whether words would be taken now, as far as that does not depend on them: nothing is given.
#[inline(always)]
fn takes_words<O: PieceOut>(out: &mut O) -> bool
    ensures { Came O.left out.old [] out.new }
{
    out.give_words(1, b"", equal_fonts(Font::R, 0))
}

// Whether a text has no blank.
#[inline(always)]
fn has_no_blank(text: &[u8]) -> bool
    ensures { result ≡ list_all (λ byte. not (byte == 32)) text.now }
{
    text.iter().all(|byte| *byte != b' ')
}

// Whether the letters of a text have one font: its blanks are roman.
#[inline(always)]
fn is_in_font(font: Font, text: &[u8]) -> bool
    ensures { result ≡ is_in_font font text.now }
{
    match font {
        Font::R => true,
        Font::I | Font::B | Font::BI => has_no_blank(text),
    }
}

// Gives a text that prints itself at the pen, as words with one blank between two in the roman font, or as one word in another: what is left of it,
// which is nothing.
#[inline(always)]
fn give_whole<'a, O: PieceOut>(
    out: &mut O,
    style: TextStyle,
    pen: &Pen,
    text: &'a [u8],
) -> Option<(Setting<Fonts>, &'a [u8])>
    requires literal { style.is_literal ≡ false }
    requires room { length text.now ≤ ROOM }
    requires word { begins_word text.now ≡ true }
    requires goes { RunGoesOn style.is_quoted text.now 0 (length text.now) }
    requires font { is_in_font pen.now.fonts.value.font text.now ≡ true }
    ensures { MatchOption result (Came O.left out.old [] out.new)
        (λ found. GivesFront style pen.now text.now found.0 found.1.now (Came O.left) out.old out.new) }
{
    if !give_after_blanks(out, pen.gap, pen.fonts.value.font, text) {
        return None;
    }
    Some((pen.fonts, &text[text.len()..]))
}

// Gives the words of letters at the front of a text that begins with a word: the fonts after them, and what is left of the text. No look is taken at
// a word that begins with another character than those of ASCII, since some languages have few others.
#[inline(always)]
fn give_read<'a, O: PieceOut>(
    out: &mut O,
    style: TextStyle,
    pen: &Pen,
    text: &'a [u8],
) -> Option<(Setting<Fonts>, &'a [u8])>
    requires literal { style.is_literal ≡ false }
    requires short { length text.now ≤ LINE }
    requires word { begins_word text.now ≡ true }
    ensures { MatchOption result (Came O.left out.old [] out.new)
        (λ found. GivesFront style pen.now text.now found.0 found.1.now (Came O.left) out.old out.new) }
{
    if !text[0].is_ascii() {
        return None;
    }
    let mut letters = Letters::new();
    if !letters.add(Font::R, b" ") {
        return None;
    }
    let mut next = pen.fonts;
    let first = read_after_blank(style, &mut next, &mut letters, text)?;
    let rest = read_words(style, &mut next, &mut letters, first);
    if !letters.give(out, pen.gap) {
        return None;
    }
    Some((next, rest))
}

// Gives the words of letters at the front of a text that begins with a word, at the pen: the fonts after them, and what is left of the text.
#[inline(always)]
fn give_front<'a, O: PieceOut>(
    out: &mut O,
    style: TextStyle,
    pen: &Pen,
    text: &'a [u8],
) -> Option<(Setting<Fonts>, &'a [u8])>
    requires literal { style.is_literal ≡ false }
    requires short { length text.now ≤ LINE }
    requires word { begins_word text.now ≡ true }
    ensures { MatchOption result (Came O.left out.old [] out.new)
        (λ found. GivesFront style pen.now text.now found.0 found.1.now (Came O.left) out.old out.new) }
{
    let fits = text.len() <= ROOM && is_in_font(pen.fonts.value.font, text);
    if fits && text[0] != b'\\' && going_len(style.is_quoted, text) == text.len() {
        return give_whole(out, style, pen, text);
    }
    give_read(out, style, pen, text)
}

/// Gives the words of letters at the front of a text that begins with a word, after the pen's blanks: what is left of the text, or none where no word
/// was taken.
#[inline(always)]
pub(crate) fn give_lettered_front<'a, O: PieceOut>(
    out: &mut O,
    style: TextStyle,
    line: u32,
    pen: &mut Pen,
    text: &'a [u8],
) -> Option<&'a [u8]>
    requires fits { Fits pen.old text.now }
    requires word { begins_word text.now ≡ true }
    ensures came { MatchOption result (Came O.left out.old [] out.new) (λ rest. (last : ℕ) → CameUpTo O.left out.old
        (first_items style line last false pen.old (words_of style.is_quoted text.now))
        (texts.others_items style line last pen.new (words_of style.is_quoted rest.now).others) out.new) }
    ensures pen { MatchOption result (pen.new ≡ pen.old) (λ rest. texts.others_after style pen.new (words_of style.is_quoted rest.now).others
        ≡ first_after style pen.old (words_of style.is_quoted text.now)) }
    ensures within { IfSome result (λ rest. Within pen.old text.now pen.new rest.now) }
    ensures ends { IfSome result (λ rest. begins_word rest.now ≡ false) }
{
    if !goes_on(style, pen) || !takes_words(out) {
        return None;
    }
    let (fonts, rest) = give_front(out, style, pen, text)?;
    pen.rest_after(fonts, (text.len() - rest.len()) as u32);
    Some(rest)
}
