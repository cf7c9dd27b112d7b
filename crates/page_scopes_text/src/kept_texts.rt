//! Words and blanks of a row that is kept as it is, which are given at once where they print themselves (roff(7), "nf").

ghost use Rattle.std.specs.Prelude.{◌≡◌, ℕ, ◌≤◌, ◌<◌, false, true, length, IfSome};
ghost use Rattle.page_core_base.specs.Bytes.{begins_white};
ghost use Rattle.page_core_base.specs.laws.Views.{CameUpTo};
ghost use Rattle.page_core_escapes.specs.laws.Views.{begins_word};
ghost use Rattle.page_scopes_text.specs.Texts.{words_of};
ghost use Rattle.page_scopes_text.specs.Texts as texts;
ghost use Rattle.page_scopes_text.specs.machine.Letters.{IsKept, ReadsKept, Fits, Within};

use crate::words::read_plain;
use page_core_base::{Font, LINE, PieceOut};
use page_core_escapes::read_token;
use page_scopes_words::{Pen, TextStyle, has_tab};

// Reads the blanks at a text's front and the word after them, where both print themselves: what is left of the text.
#[inline(always)]
fn read_kept_word(style: TextStyle, text: &[u8]) -> Option<&[u8]>
    requires short { length text.now ≤ LINE }
    requires white { begins_white text.now ≡ true }
    ensures less { IfSome result (λ rest. length rest.now < length text.now) }
    ensures ends { IfSome result (λ rest. begins_word rest.now ≡ false) }
    ensures reads { IfSome result (λ rest. ReadsKept style text.now rest.now) }
{
    let (white, after) = text.split_at(read_token(style.is_quoted, text).len());
    if has_tab(white) {
        return None;
    }
    let (_, rest) = read_plain(style.is_quoted, after)?;
    Some(rest)
}

// Reads blanks and words at a text's front, as long as they print themselves: what is left of the text.
fn read_kept(style: TextStyle, text: &[u8]) -> &[u8]
    requires short { length text.now ≤ LINE }
    requires word { begins_word text.now ≡ false }
    ensures less { length result.now ≤ length text.now }
    ensures ends { begins_word result.now ≡ false }
    ensures reads { ReadsKept style text.now result.now }
{
    let mut rest = text;
    while !rest.is_empty() {
        match read_kept_word(style, rest) {
            Some(after) => rest = after,
            None => return rest,
        }
    }
    rest
}

// Whether characters at the pen would go on with a word of a row that is kept, in the font that the blanks between words have.
#[inline(always)]
fn goes_on(style: TextStyle, pen: &Pen) -> bool
    ensures { result ≡ true → IsKept style pen.now }
{
    style.is_literal && pen.has_cell && matches!(pen.fonts.value.font, Font::R)
}

/// Gives the words at a text's front with the blanks before them, in rows that are kept, as long as they print themselves: what is left of the
/// text. Where they are not taken no more are to be tried.
pub(crate) fn give_kept_words<'a, O: PieceOut>(
    out: &mut O,
    style: TextStyle,
    line: u32,
    pen: &mut Pen,
    tries: &mut bool,
    text: &'a [u8],
) -> &'a [u8]
    requires fits { Fits pen.old text.now }
    requires word { begins_word text.now ≡ false }
    ensures came { (last : ℕ) → CameUpTo O.left out.old
        (texts.others_items style line last pen.old (words_of style.is_quoted text.now).others)
        (texts.others_items style line last pen.new (words_of style.is_quoted result.now).others) out.new }
    ensures pen { texts.others_after style pen.new (words_of style.is_quoted result.now).others
        ≡ texts.others_after style pen.old (words_of style.is_quoted text.now).others }
    ensures within { Within pen.old text.now pen.new result.now }
    ensures ends { begins_word result.now ≡ false }
{
    if !*tries || !goes_on(style, pen) {
        return text;
    }
    let rest = read_kept(style, text);
    let front = &text[..text.len() - rest.len()];
    if front.is_empty() {
        return text;
    }
    *tries = out.give_kept(front, Font::R);
    if !*tries {
        return text;
    }
    pen.pass_plain(front);
    rest
}
