//! The columns of what a text prints (man(7), `SY`; mdoc(7), `Bl`; mandoc_char(7)).

ghost use Rattle.std.specs.Prelude.{◌≡◌, ◌≤◌, ◌*◌, ◌<◌, length};
ghost use Rattle.page_core_escapes.specs.Tokens.{plain, token_bytes};
ghost use Rattle.page_core_escapes.specs.laws.Views.{token_view};
ghost use Rattle.page_scopes_words.specs.Widths as names;

use page_core_base::{LINE, Output};
use page_core_escapes::{Token, Tokens};
use page_core_numbers::{columns, escape_columns};

// The columns of characters that print themselves.
fn plain_columns(output: Output, text: &[u8]) -> u32
    requires { length text.now ≤ LINE }
    ensures value { result ≡ names.token_columns output (plain text.now) }
    ensures bound { result ≤ 1000 * length text.now }
{
    match str::from_utf8(text) {
        Ok(text) => columns(text.as_bytes(), output),
        Err(_) => 0,
    }
}

// The columns of what a token prints.
fn token_columns(output: Output, token: &Token<'_>) -> u32
    requires some { 0 < length (token_bytes (token_view token.now)) }
    requires short { length (token_bytes (token_view token.now)) ≤ LINE }
    ensures value { result ≡ names.token_columns output (token_view token.now) }
    ensures bound { result ≤ 1000 * length (token_bytes (token_view token.now)) }
{
    match *token {
        Token::White(white) => white.len() as u32,
        Token::Plain(text) => plain_columns(output, text),
        Token::Quotes(_) => 1,
        Token::Escaped { meaning, .. } => escape_columns(meaning, output),
    }
}

/// The columns of what a name prints, which is quoted or not.
pub fn name_columns(output: Output, quoted: bool, name: &[u8]) -> u32
    requires { length name.now ≤ LINE }
    ensures value { result ≡ names.name_columns output quoted name.now }
    ensures bound { result ≤ 1000 * length name.now }
{
    let mut sum = 0;
    let mut tokens = Tokens::new(quoted, name);
    while let Some(token) = tokens.read() {
        sum += token_columns(output, &token);
    }
    sum
}
