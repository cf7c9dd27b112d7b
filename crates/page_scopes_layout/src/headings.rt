//! Which section a heading begins, by what it prints in ASCII (mdoc(7), "MANUAL STRUCTURE").

ghost use Rattle.std.specs.Prelude.{◌≡◌, ◌≤◌, ℕ, List, length};
ghost use Rattle.std.specs.List.{fold};
ghost use Rattle.std.specs.Str.{chars};
ghost use Rattle.page_core_base.specs.declared.page_settings.Output.TheVariants.{Ascii};
ghost use Rattle.page_core_escapes.specs.laws.Views.{meaning_view, token_view};
ghost use Rattle.page_core_escapes.specs.Tokens.{escaped, plain, tokens_of};
ghost use Rattle.page_core_tables.specs.laws.Views.{printed_view};
ghost use Rattle.page_scopes_words.specs.Words.{plain_printed};
ghost use Rattle.page_scopes_layout.specs.Headings as headings;

use crate::contexts::{Context, PagePart, PageSection};
use page_core_base::{LINE, Output};
use page_core_escapes::{Escape, Token, Tokens};
use page_core_tables::{Printed, printed_char, printed_glyph};
use page_scopes_words::blank_count;

// The words that are looked for, as numbers to the base 256.
const NAME: u64 = 0x4E41_4D45;

const SYNOPSIS: u64 = 0x5359_4E4F_5053_4953;

/// What a heading printed so far, as far as it may be one of two words.
#[derive(Clone, Copy)]
pub struct HeadingSoFar {
    /// Its characters in ASCII as a number to the base 256, or the greatest number where they are more than eight.
    pub text: u64,
    /// White space came after them.
    pub is_parted: bool,
}

// A text with one character more.
fn text_and(text: u64, c: char) -> u64
    ensures { result ≡ headings.text_and text c }
{
    text.saturating_mul(256).saturating_add(u64::from(c))
}

// Goes on after a character that is printed.
fn character_further(heading: HeadingSoFar, c: char) -> HeadingSoFar
    ensures { result ≡ headings.character_further heading c }
{
    let text = if heading.is_parted && heading.text > 0 {
        text_and(heading.text, ' ')
    } else {
        heading.text
    };
    HeadingSoFar {
        text: text_and(text, c),
        is_parted: false,
    }
}

// Goes on after a spelling.
fn spelling_further(spelling: &str, start: HeadingSoFar) -> HeadingSoFar
    ensures { result ≡ fold headings.character_further start spelling.now }
{
    let mut heading = start;
    for byte in spelling.as_bytes() {
        heading = character_further(heading, *byte as char);
    }
    heading
}

// Goes on after what a character or a glyph prints.
fn printed_further(printed: Printed<'_>, heading: HeadingSoFar) -> HeadingSoFar
    ensures { result ≡ fold headings.character_further heading (printed_view printed.entry).characters }
{
    match printed {
        Printed::Char(c) => character_further(heading, c),
        Printed::Spelling(spelling) => spelling_further(spelling, heading),
        Printed::NoSpelling(_) | Printed::NoGlyph(_) => spelling_further("<?>", heading),
    }
}

// Goes on after the characters of a text.
fn characters_further(text: &str, start: HeadingSoFar) -> HeadingSoFar
    ensures { result ≡ fold headings.character_further start (plain_printed Ascii (chars text.now)) }
{
    let mut heading = start;
    for c in text.chars() {
        heading = printed_further(printed_char(Output::Ascii, c), heading);
    }
    heading
}

// Goes on after characters that print themselves.
fn plain_further(text: &[u8], heading: HeadingSoFar) -> HeadingSoFar
    ensures { result ≡ headings.token_further heading (plain text.now) }
{
    match str::from_utf8(text) {
        Ok(text) => characters_further(text, heading),
        Err(_) => heading,
    }
}

// Goes on after an escape.
fn escape_further(meaning: Escape<'_>, heading: HeadingSoFar) -> HeadingSoFar
    ensures { (bytes : List ℕ) → result ≡ headings.token_further heading (escaped bytes (meaning_view meaning.entry)) }
{
    match meaning {
        Escape::Glyph(name) => printed_further(printed_glyph(Output::Ascii, name), heading),
        Escape::Char(c) => printed_further(printed_char(Output::Ascii, c), heading),
        Escape::Undefined(c) => printed_further(printed_char(Output::Ascii, c), heading),
        Escape::Tab | Escape::Blank => character_further(heading, ' '),
        Escape::Blanks(expression) => {
            if blank_count(expression) == 0 {
                heading
            } else {
                character_further(heading, ' ')
            }
        }
        Escape::Nothing | Escape::Glue | Escape::Font(_) | Escape::Unsupported | Escape::Bad =>
            heading,
    }
}

// Goes on after a token.
fn token_further(token: &Token<'_>, heading: HeadingSoFar) -> HeadingSoFar
    ensures { result ≡ headings.token_further heading (token_view token.now) }
{
    match *token {
        Token::White(_) => HeadingSoFar {
            is_parted: true,
            ..heading
        },
        Token::Plain(text) => plain_further(text, heading),
        Token::Quotes(_) => character_further(heading, '"'),
        Token::Escaped { meaning, .. } => escape_further(meaning, heading),
    }
}

// Goes on after the tokens of a text.
fn tokens_further(quoted: bool, text: &[u8], start: HeadingSoFar) -> HeadingSoFar
    requires { length text.now ≤ LINE }
    ensures { result ≡ fold headings.token_further start (tokens_of quoted text.now) }
{
    let mut tokens = Tokens::new(quoted, text);
    let mut heading = start;
    while let Some(token) = tokens.read() {
        heading = token_further(&token, heading);
    }
    heading
}

// Whether a text is of a heading that begins a section.
fn is_top_heading(part: PagePart) -> bool
    ensures { result ≡ headings.is_top_heading part }
{
    match part {
        PagePart::Heading(column) => column == 0,
        _ => false,
    }
}

/// Whether a text is of a heading.
pub fn is_heading(part: PagePart) -> bool
    ensures { result ≡ headings.is_heading part }
{
    matches!(part, PagePart::Heading(_))
}

/// Whether a text is in the SYNOPSIS, but not in a heading of it.
pub fn in_synopsis(context: &Context) -> bool
    ensures { result ≡ headings.in_synopsis context.now }
{
    matches!(context.section, PageSection::Synopsis) && !is_heading(context.part)
}

impl HeadingSoFar {
    /// A heading before it prints anything.
    pub fn start() -> HeadingSoFar
        ensures { result ≡ headings.no_heading }
    {
        HeadingSoFar {
            text: 0,
            is_parted: false,
        }
    }

    /// Goes on after a text of a part of the page, with this many blanks before it.
    #[inline(always)]
    pub fn pass_text(&mut self, part: PagePart, quoted: bool, gap: u32, text: &[u8])
        requires { length text.now ≤ LINE }
        ensures { self.new ≡ headings.heading_further part quoted gap text.now self.old }
    {
        if is_top_heading(part) {
            let start = HeadingSoFar {
                is_parted: gap > 0,
                ..*self
            };
            *self = tokens_further(quoted, text, start);
        }
    }

    /// Goes on after what is no text of one word, in a part of the page.
    pub fn pass_other(&mut self, part: PagePart)
        ensures { self.new ≡ headings.heading_broken part self.old }
    {
        if is_top_heading(part) {
            *self = character_further(*self, ' ');
        }
    }

    /// The section that the heading begins.
    pub fn section(&self) -> PageSection
        ensures { result ≡ headings.headed_section self.now }
    {
        if self.text == SYNOPSIS {
            PageSection::Synopsis
        } else if self.text == NAME {
            PageSection::Name
        } else {
            PageSection::Other
        }
    }
}
