//! What a word of a line is: a delimiter, a call of a macro, or what a macro takes as it is (mdoc(7), "MACRO
//! SYNTAX").

ghost use Rattle.std.specs.Prelude.{◌≡◌, ℕ, List, false, MatchBool};
ghost use Rattle.page_roff_syntax.specs.declared.quotes.Argument.{Argument};
ghost use Rattle.page_roff_syntax.specs.laws.Views.{argument_view};
ghost use Rattle.page_sets_mdoc_lines.specs.Parts as words;

use crate::{Delimiter, Inline, Pair, called, delimiter_of};
use page_roff_syntax::Argument;

/// The delimiter that a word is, if it is one; a word with quotes is none.
#[inline(always)]
#[tactic(auto, unfolding(crate::specs::Parts::word_delimiter))]
pub fn word_delimiter(word: Argument<&[u8]>) -> Option<Delimiter>
    ensures { result ≡ words.word_delimiter (argument_view word.entry) }
{
    if word.is_quoted() {
        return None;
    }
    delimiter_of(word.text)
}

/// What a word calls in a line whose words can; a word with quotes calls nothing.
#[inline(always)]
#[tactic(auto, unfolding(crate::specs::Parts::word_call))]
pub fn word_call(name: Argument<&[u8]>) -> Option<Inline>
    ensures { result ≡ words.word_call (argument_view name.entry) }
{
    if name.is_quoted() {
        return None;
    }
    called(name.text)
}

/// Whether a word is a closing delimiter.
#[inline(always)]
#[tactic(auto, unfolding(crate::specs::Parts::is_closing))]
pub fn is_closing(word: Argument<&[u8]>) -> bool
    ensures { result ≡ words.is_closing (argument_view word.entry) }
{
    matches!(word_delimiter(word), Some(Delimiter::Closing))
}

/// Whether a word is no delimiter.
#[inline(always)]
#[tactic(auto, unfolding(crate::specs::Parts::is_real))]
pub fn is_real(word: Argument<&[u8]>) -> bool
    ensures { result ≡ words.is_real (argument_view word.entry) }
{
    word_delimiter(word).is_none()
}

// Whether `Eo` or `Ec` takes a word as its mark.
fn takes_mark(pair: Pair, word: Argument<&[u8]>) -> bool
    ensures { result ≡ words.takes_mark pair (argument_view word.entry) }
{
    match pair {
        Pair::Custom => word_call(word).is_none(),
        Pair::Quotation(_) | Pair::Function | Pair::Extension => false,
    }
}

/// Whether a macro is one of those that may take the word after it as it is. Few are.
#[tactic(auto, unfolding(crate::specs::Parts::takes_next))]
pub fn may_take(inline: Inline) -> bool
    ensures { MatchBool result (Unit {0}) ((word : Argument (List ℕ)) → words.takes_next inline word ≡ false) }
{
    matches!(
        inline,
        Inline::Prefix | Inline::Author | Inline::Opens(Pair::Custom) | Inline::Closes(Pair::Custom)
    )
}

/// Whether a macro takes the word after it as it is: `Pf` any word, `Eo` and `Ec` one that names no macro, `An`
/// how authors are parted.
#[tactic(auto, unfolding(crate::specs::Parts::takes_next))]
pub fn takes_next(inline: Inline, word: Argument<&[u8]>) -> bool
    ensures { result ≡ words.takes_next inline (argument_view word.entry) }
{
    match inline {
        Inline::Prefix => true,
        Inline::Author => word.text == b"-split".as_slice() || word.text == b"-nosplit".as_slice(),
        Inline::Opens(pair) | Inline::Closes(pair) => takes_mark(pair, word),
        _ => false,
    }
}
