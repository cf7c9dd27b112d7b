//! Words of letters in their fonts, as `\fBword\fR` is: they are read once, and given at once (roff(7), `\f`).

ghost use Rattle.std.specs.Prelude.{◌≡◌, ◌≤◌, ◌<◌, ◌+◌, ◌==◌, ◌&&◌, not, ℕ, List, false, true, [], ◌∷◌, ◌++◌, length, take, drop, IfSome, MatchOption};
ghost use Rattle.std.specs.List.{list_all};
ghost use Rattle.page_core_base.specs.Rows.{hyphen, parts_of};
ghost use Rattle.page_core_base.specs.laws.Views.{is_printable, is_printable_ascii, is_word};
ghost use Rattle.page_core_base.specs.declared.cells.Font.TheVariants.{R};
ghost use Rattle.page_core_escapes.specs.laws.Views.{meaning_view, begins_word, token_view};
ghost use Rattle.page_core_escapes.specs.Tokens.{escaped, plain};
ghost use Rattle.page_scopes_text.specs.machine.Letters.{AddsAfterBlank, AddsWord, AddsWords, Grows, ReadsAfterBlank, ReadsFont, ReadsToken, TakesToken};
ghost use Rattle.page_scopes_words.specs.machine.Letters.{letters_in, GoesOn};

use page_core_base::{Font, LINE, first_part_len};
use page_core_escapes::{Escape, Token, begins_word, read_token, short_font};
use page_scopes_words::{
    Fonts, Letters, ROOM, Setting, TextStyle, blank_before, fonts_after, going_len,
};

// Whether bytes are printable ASCII.
#[inline(always)]
fn are_printable(bytes: &[u8]) -> bool
    ensures { result ≡ is_printable_ascii bytes.now }
{
    bytes.iter().all(|byte| b' ' <= *byte && *byte <= b'~')
}

// Whether bytes are printable ASCII without a hyphen.
#[inline(always)]
fn are_plain(bytes: &[u8]) -> bool
    ensures { result ≡ list_all (λ b. is_printable b && not (b == hyphen)) bytes.now }
{
    bytes
        .iter()
        .all(|byte| b' ' <= *byte && *byte <= b'~' && *byte != b'-')
}

// Whether bytes that print themselves are one part, of printable ASCII. Most have no hyphen.
#[inline(always)]
fn is_one_part(bytes: &[u8]) -> bool
    requires { is_word bytes.now ≡ true }
    ensures { result ≡ true → (is_printable_ascii bytes.now ≡ true) × (parts_of bytes.now ≡ bytes.now ∷ []) }
{
    if are_plain(bytes) {
        return true;
    }
    if !are_printable(bytes) {
        return false;
    }
    first_part_len(bytes) == bytes.len()
}

// Takes bytes that print themselves, if they are one part of printable ASCII, and there is room: whether it did.
#[inline(always)]
fn take_part(letters: &mut Letters, font: Font, bytes: &[u8]) -> bool
    requires { is_word bytes.now ≡ true }
    ensures taken { result ≡ true → TakesToken (plain bytes.now) font letters.old letters.new }
    ensures kept { result ≡ false → letters.new ≡ letters.old }
{
    if !is_one_part(bytes) {
        return false;
    }
    letters.add(font, bytes)
}

// Takes a printable character of ASCII that is no blank, if there is room: whether it did.
#[inline(always)]
fn take_char(letters: &mut Letters, font: Font, c: char) -> bool
    ensures letter { result ≡ true → (c == 32) ≡ false }
    ensures taken { result ≡ true → letters.new ≡ letters.old ++ letters_in font (c ∷ []) }
    ensures kept { result ≡ false → letters.new ≡ letters.old }
{
    if c <= ' ' || c > '~' {
        return false;
    }
    letters.add(font, &[c as u8])
}

// Takes an escape that prints a character of ASCII, or that asks for a font that there is, or that prints nothing: whether it did.
#[inline(always)]
fn take_escape(letters: &mut Letters, font: Font, meaning: Escape<'_>) -> bool
    ensures taken { result ≡ true → (bytes : List ℕ) → TakesToken (escaped bytes (meaning_view meaning.entry)) font letters.old letters.new }
    ensures kept { result ≡ false → letters.new ≡ letters.old }
{
    match meaning {
        Escape::Nothing => true,
        Escape::Font(name) => name.is_known(),
        Escape::Char(c) => take_char(letters, font, c),
        Escape::Glyph(_)
        | Escape::Tab
        | Escape::Blank
        | Escape::Blanks(_)
        | Escape::Glue
        | Escape::Undefined(_)
        | Escape::Unsupported
        | Escape::Bad => false,
    }
}

// Takes a token of a word as letters, if it is no more than that: whether it did.
#[inline(always)]
fn take_token(letters: &mut Letters, font: Font, token: &Token<'_>) -> bool
    requires { (bytes : List ℕ) → token_view token.now ≡ plain bytes → is_word bytes ≡ true }
    ensures taken { result ≡ true → TakesToken (token_view token.now) font letters.old letters.new }
    ensures kept { result ≡ false → letters.new ≡ letters.old }
{
    match *token {
        Token::White(_) => false,
        Token::Plain(bytes) => take_part(letters, font, bytes),
        Token::Quotes(_) => letters.add(font, b"\""),
        Token::Escaped { meaning, .. } => take_escape(letters, font, meaning),
    }
}

// Reads the escape at a text's front, where few bytes say that it asks for a font, and goes on with the fonts after it: what is left of the text.
#[inline(always)]
fn read_font<'a>(fonts: &mut Setting<Fonts>, text: &'a [u8]) -> Option<&'a [u8]>
    ensures { MatchOption result (fonts.new ≡ fonts.old) (λ rest. ReadsFont fonts.old text.now fonts.new rest.now) }
{
    let (name, len) = short_font(text)?;
    if !name.is_known() {
        return None;
    }
    *fonts = Setting {
        value: fonts.value.named(name),
        is_set: true,
    };
    Some(&text[len..])
}

// Reads the token at a text's front as letters, if it is no more than that, and goes on with the fonts after it: what is left of the text.
#[inline(always)]
fn read_other<'a>(
    quoted: bool,
    fonts: &mut Setting<Fonts>,
    letters: &mut Letters,
    text: &'a [u8],
) -> Option<&'a [u8]>
    requires { (length text.now ≤ LINE) × (begins_word text.now ≡ true) }
    ensures { MatchOption result (letters.new ≡ letters.old)
        (λ rest. ReadsToken quoted fonts.old letters.old text.now fonts.new letters.new rest.now) }
{
    let token = read_token(quoted, text);
    if !take_token(letters, fonts.value.font, &token) {
        return None;
    }
    *fonts = fonts_after(&token, *fonts);
    Some(&text[token.len()..])
}

// `read_other`, where most escapes ask for a font.
#[inline(always)]
fn read_letter_token<'a>(
    quoted: bool,
    fonts: &mut Setting<Fonts>,
    letters: &mut Letters,
    text: &'a [u8],
) -> Option<&'a [u8]>
    requires { (length text.now ≤ LINE) × (begins_word text.now ≡ true) }
    ensures { MatchOption result (letters.new ≡ letters.old)
        (λ rest. ReadsToken quoted fonts.old letters.old text.now fonts.new letters.new rest.now) }
{
    if let Some(rest) = read_font(fonts, text) {
        return Some(rest);
    }
    read_other(quoted, fonts, letters, text)
}

// Reads the word at a text's front as letters, and goes on with the fonts after it: what is left of the text.
#[inline(always)]
fn read_letters<'a>(
    quoted: bool,
    fonts: &mut Setting<Fonts>,
    letters: &mut Letters,
    text: &'a [u8],
) -> Option<&'a [u8]>
    requires { length text.now ≤ LINE }
    ensures grows { Grows letters.old letters.new }
    ensures reads { IfSome result (λ rest.
        AddsWord quoted fonts.old letters.old text.now fonts.new letters.new rest.now × (begins_word rest.now ≡ false)) }
{
    let mut rest = text;
    while begins_word(rest) {
        rest = read_letter_token(quoted, fonts, letters, rest)?;
    }
    Some(rest)
}

// How many bytes at a text's front, at most a number, come before the first at which a run of words ends. No more of the text is looked at.
#[inline(always)]
fn going_within(quoted: bool, text: &[u8], most: usize) -> usize
    ensures within { result ≤ length text.now }
    ensures most { result ≤ most }
    ensures goes { GoesOn quoted text.now 0 result }
{
    if text.len() <= most {
        return going_len(quoted, text);
    }
    going_len(quoted, &text[..most + 1]).min(most)
}

// How many bytes at the front of a text that begins with a word, at most a number, are words of printable ASCII, with one blank between two, and without a
// hyphen.
#[inline(always)]
fn run_len(style: TextStyle, text: &[u8], most: usize) -> usize
    requires literal { style.is_literal ≡ false }
    requires word { begins_word text.now ≡ true }
    ensures within { result ≤ length text.now }
    ensures ascii { is_printable_ascii (take result text.now) ≡ true }
    ensures run { 0 < result → (fonts : Setting Fonts) → fonts.value.font ≡ R
        → ReadsAfterBlank style fonts text.now fonts (drop result text.now) (letters_in R (take result text.now)) }
{
    let len = going_within(style.is_quoted, text, most);
    if len == text.len() || text[len] == b' ' {
        return len;
    }
    blank_before(text, len)
}

// Whether a text that begins with a word may begin with roman words that print themselves: only then are these looked for.
#[inline(always)]
fn may_run(fonts: Setting<Fonts>, text: &[u8]) -> bool
    requires { begins_word text.now ≡ true }
    ensures { result ≡ true → fonts.value.font ≡ R }
{
    matches!(fonts.value.font, Font::R) && text[0] != b'\\'
}

// Reads roman words that print themselves at the front of a text that begins with a word, after a blank: what is left of the text.
#[inline(always)]
fn read_run<'a>(
    style: TextStyle,
    fonts: Setting<Fonts>,
    letters: &mut Letters,
    text: &'a [u8],
) -> Option<&'a [u8]>
    requires literal { style.is_literal ≡ false }
    requires word { begins_word text.now ≡ true }
    ensures less { IfSome result (λ rest. length rest.now ≤ length text.now) }
    ensures reads { MatchOption result (letters.new ≡ letters.old)
        (λ rest. AddsAfterBlank style fonts letters.old text.now fonts letters.new rest.now) }
{
    if !may_run(fonts, text) {
        return None;
    }
    let (run, rest) = text.split_at(run_len(style, text, ROOM - letters.len()));
    if run.is_empty() || !letters.add(Font::R, run) {
        return None;
    }
    Some(rest)
}

/// Reads roman words, or the word, at the front of a text that begins with a word, after a blank, and goes on with the fonts after them: what is left of
/// the text.
#[inline(always)]
pub(crate) fn read_after_blank<'a>(
    style: TextStyle,
    fonts: &mut Setting<Fonts>,
    letters: &mut Letters,
    text: &'a [u8],
) -> Option<&'a [u8]>
    requires literal { style.is_literal ≡ false }
    requires short { length text.now ≤ LINE }
    requires word { begins_word text.now ≡ true }
    ensures grows { Grows letters.old letters.new }
    ensures less { IfSome result (λ rest. length rest.now ≤ length text.now) }
    ensures reads { IfSome result (λ rest. AddsAfterBlank style fonts.old letters.old text.now fonts.new letters.new rest.now) }
{
    if let Some(rest) = read_run(style, *fonts, letters, text) {
        return Some(rest);
    }
    let start = letters.len();
    let rest = read_letters(style.is_quoted, fonts, letters, text)?;
    if letters.len() == start {
        return None;
    }
    Some(rest)
}

// Reads one blank at a text's front, and roman words or the word after it as letters.
#[inline(always)]
fn read_blank_letters<'a>(
    style: TextStyle,
    fonts: &mut Setting<Fonts>,
    letters: &mut Letters,
    text: &'a [u8],
) -> Option<&'a [u8]>
    requires literal { style.is_literal ≡ false }
    requires short { length text.now ≤ LINE }
    ensures grows { Grows letters.old letters.new }
    ensures less { IfSome result (λ rest. length rest.now < length text.now) }
    ensures reads { IfSome result (λ rest. AddsWords style fonts.old letters.old text.now fonts.new letters.new rest.now) }
{
    if text.is_empty() || text[0] != b' ' || !begins_word(&text[1..]) {
        return None;
    }
    if !letters.add(Font::R, b" ") {
        return None;
    }
    let rest = read_after_blank(style, fonts, letters, &text[1..])?;
    Some(rest)
}

// `read_blank_letters`, or takes nothing.
#[inline(always)]
fn read_word<'a>(
    style: TextStyle,
    fonts: &mut Setting<Fonts>,
    letters: &mut Letters,
    text: &'a [u8],
) -> Option<&'a [u8]>
    requires literal { style.is_literal ≡ false }
    requires short { length text.now ≤ LINE }
    ensures none { MatchOption result ((letters.new ≡ letters.old) × (fonts.new ≡ fonts.old)) (λ rest. length rest.now < length text.now) }
    ensures reads { IfSome result (λ rest. AddsWords style fonts.old letters.old text.now fonts.new letters.new rest.now) }
{
    let start = letters.len();
    let before = *fonts;
    if let Some(rest) = read_blank_letters(style, fonts, letters, text) {
        return Some(rest);
    }
    letters.cut(start);
    *fonts = before;
    None
}

/// Reads words of letters at a text's front, as many as there is room for, and goes on with the fonts after them: what is left of the text.
#[inline(always)]
pub(crate) fn read_words<'a>(
    style: TextStyle,
    fonts: &mut Setting<Fonts>,
    letters: &mut Letters,
    text: &'a [u8],
) -> &'a [u8]
    requires literal { style.is_literal ≡ false }
    requires short { length text.now ≤ LINE }
    requires word { begins_word text.now ≡ false }
    ensures { AddsWords style fonts.old letters.old text.now fonts.new letters.new result.now }
{
    let mut rest = text;
    while let Some(after) = read_word(style, fonts, letters, rest) {
        rest = after;
    }
    rest
}
