//! Reads a text token by token.

ghost use Rattle.std.specs.Prelude.{◌≡◌, ◌≤◌, ◌<◌, [], ◌∷◌, length, IfSome, MatchOption};
ghost use Rattle.page_core_escapes.specs.Tokens.{token_bytes, tokens_len, tokens_of};
ghost use Rattle.page_core_escapes.specs.laws.Views.{token_view};

use crate::{Token, read_token};
use page_core_base::LINE;
use std::marker::Model;

/// Reads the tokens of a text, one after another. Contracts see the list of those still to be read.
#[derive(Drop)]
pub struct Tokens<'a> {
    quoted: bool,
    rest: &'a [u8],
}

impl<'a> Model for Tokens<'a> {
    ghost use Rattle.std.specs.Prelude.{List};
    ghost use Rattle.page_core_escapes.specs.Tokens.{TextToken, tokens_of};

    ghost Value = { List TextToken };

    ghost use Rattle.std.specs.Prelude.{◌≤◌, length};
    ghost use Rattle.page_core_base.specs.declared.limits.TheConstants.{LINE};

    ghost view = { λ t. tokens_of t.quoted t.rest.now };

    ghost invariant = { λ t. length t.rest.now ≤ LINE };
}

impl<'a> Tokens<'a> {
    /// The tokens of a text; `quoted` says whether it is that of a quoted argument. They have no more bytes than the text.
    #[inline(always)]
    #[tactic(auto, using(crate::proofs::Unwinding::len_within))]
    pub fn new(quoted: bool, text: &'a [u8]) -> Tokens<'a>
        requires { length text.now ≤ LINE }
        ensures tokens { result ≡ tokens_of quoted text.now }
        ensures within { tokens_len result ≤ length text.now }
    {
        Tokens { quoted, rest: text }
    }

    /// Reads the next token, if there is one more; it has a byte.
    #[inline(always)]
    pub fn read(&mut self) -> Option<Token<'a>>
        ensures next { MatchOption result ((self.old ≡ []) × (self.new ≡ []))
            (λ token. self.old ≡ token_view token ∷ self.new) }
        ensures some { IfSome result (λ token. 0 < length (token_bytes (token_view token))) }
    {
        if self.rest.is_empty() {
            return None;
        }
        let token = read_token(self.quoted, self.rest);
        self.rest = &self.rest[token.len()..];
        Some(token)
    }
}
