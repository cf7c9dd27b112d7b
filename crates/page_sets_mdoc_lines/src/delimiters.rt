//! Delimiters (mdoc(7), "Delimiters").

ghost use Rattle.std.specs.Prelude.{◌≡◌};
ghost use Rattle.page_sets_mdoc_lines.specs.Parts as delimiters;

/// A word that is set off the others.
#[derive(Clone, Copy, PartialEq, Eq)]
pub enum Delimiter {
    /// `(` and `[`.
    Opening,
    /// `|`.
    Middle,
    /// `.`, `,`, `:`, `;`, `)`, `]`, `?` and `!`.
    Closing,
}

/// The delimiter that a word is, if it is one.
#[tactic(auto, unfolding(crate::specs::Parts::delimiter_of))]
pub fn delimiter_of(word: &[u8]) -> Option<Delimiter>
    ensures { result ≡ delimiters.delimiter_of word.now }
{
    match word {
        b"(" | b"[" => Some(Delimiter::Opening),
        b"|" => Some(Delimiter::Middle),
        b"." | b"," | b":" | b";" | b")" | b"]" | b"?" | b"!" => Some(Delimiter::Closing),
        _ => None,
    }
}
