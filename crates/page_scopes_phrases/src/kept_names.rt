//! The name of the manual as it is kept, with what is known of its tokens: it may be printed many times (mdoc(7), `Nm`).
ghost use Rattle.std.specs.Prelude.{◌≡◌, ◌≤◌, length, false};
ghost use Rattle.page_core_escapes.specs.Tokens.{token_bytes, tokens_of};
ghost use Rattle.page_core_escapes.specs.laws.Views.{meaning_view, token_view};
ghost use Rattle.page_scopes_phrases.specs.Names as kept;
ghost use Rattle.page_scopes_phrases.specs.machine.NameParts as names;

use crate::KeptText;
use crate::kept_words::prints_cell;
use arrayvec::ArrayVec;
use page_core_escapes::{Escape, Token, Tokens};
use page_roff_syntax::Argument;
use page_scopes_words::blank_count;
use std::marker::Model;

/// What a token of a name prints, as far as it is known.
#[derive(Clone, Copy, Default)]
pub(crate) enum Known {
    /// This many blanks in one text, at most 1000, where it is a `\h`.
    Blanks(u16),
    /// Nothing, and the fonts stay as they are.
    Nothing,
    /// White space.
    White,
    /// Characters that print themselves.
    Plain,
    /// It is read when it is printed.
    #[default]
    Unread,
}

/// What is known of a token of a name: how many bytes it has, and what it prints.
#[derive(Clone, Copy, Default)]
pub(crate) struct NamePart {
    pub(crate) len: u16,
    pub(crate) known: Known,
}

/// The name of the manual as it is kept. Contracts see what is kept.
#[derive(Drop)]
pub struct ManualName {
    kept: KeptText,
    parts: ArrayVec<NamePart, 256>,
    // Whether it prints a cell where rows are filled, and where they are kept as they are.
    prints_filled: bool,
    prints_literal: bool,
}

impl Model for ManualName {
    ghost use Rattle.page_scopes_phrases.specs.declared.kept_texts.KeptText.{KeptText};
    ghost use Rattle.page_scopes_phrases.specs.machine.NameParts.{IsRead};

    ghost Value = { KeptText };

    ghost view = { λ m. m.kept };

    ghost invariant = { λ m. IsRead m.kept.text m.parts.items m.prints_filled m.prints_literal };
}

// What an escape prints, where that is known.
fn meaning_known(meaning: Escape<'_>) -> Known
    ensures { result ≡ names.meaning_known (meaning_view meaning.entry) }
{
    match meaning {
        Escape::Blanks(expression) => Known::Blanks(blank_count(expression) as u16),
        Escape::Nothing | Escape::Glue | Escape::Unsupported | Escape::Bad => Known::Nothing,
        _ => Known::Unread,
    }
}

// What a token prints, where that is known.
fn token_known(token: &Token<'_>) -> Known
    ensures { result ≡ names.token_known (token_view token.now) }
{
    match *token {
        Token::White(_) => Known::White,
        Token::Plain(_) => Known::Plain,
        Token::Quotes(_) => Known::Unread,
        Token::Escaped { meaning, .. } => meaning_known(meaning),
    }
}

// What is known of a token.
fn part_of(token: &Token<'_>) -> NamePart
    requires { length (token_bytes (token_view token.now)) ≤ 256 }
    ensures { result ≡ names.part_of (token_view token.now) }
{
    NamePart {
        len: token.len() as u16,
        known: token_known(token),
    }
}

// What is known of the tokens of a text.
fn parts_of(text: &[u8]) -> ArrayVec<NamePart, 256>
    requires { length text.now ≤ 256 }
    ensures { result.items ≡ names.parts_of text.now }
{
    let mut tokens = Tokens::new(false, text);
    let mut parts = ArrayVec::new();
    while let Some(token) = tokens.read() {
        parts.push(part_of(&token));
    }
    parts
}

impl ManualName {
    ghost use Rattle.page_roff_syntax.specs.laws.Views.{argument_view};
    ghost use Rattle.page_scopes_phrases.specs.Names.{kept_of};

    // The name that a kept text is.
    fn read(kept: KeptText) -> ManualName
        ensures { result ≡ kept }
    {
        let parts = parts_of(kept.text.text());
        let prints_filled = prints_cell(false, kept.text.text());
        let prints_literal = prints_cell(true, kept.text.text());
        ManualName {
            kept,
            parts,
            prints_filled,
            prints_literal,
        }
    }

    /// The name that is kept of an argument.
    pub fn of(argument: Argument<&[u8]>) -> ManualName
        ensures { result ≡ kept_of (argument_view argument.entry) }
    {
        ManualName::read(KeptText::of(argument))
    }

    /// The same name.
    pub fn copy(&self) -> ManualName
        ensures { result ≡ self.now }
    {
        ManualName::read(self.kept.copy())
    }

    /// What is kept of it.
    pub fn kept(&self) -> &KeptText
        ensures { result.now ≡ self.now }
    {
        &self.kept
    }

    /// What is known of its tokens.
    pub(crate) fn parts(&self) -> &[NamePart]
        ensures value { result.now ≡ names.parts_of self.now.text }
        ensures bound { length result.now ≤ 256 }
    {
        self.parts.as_slice()
    }

    /// Whether it prints a cell, in rows that are kept as they are or filled.
    pub(crate) fn prints_cell(&self, is_literal: bool) -> bool
        ensures { result ≡ kept.prints_cell is_literal (tokens_of false self.now.text) }
    {
        if is_literal {
            self.prints_literal
        } else {
            self.prints_filled
        }
    }
}
