//! The words of a macro in its line (mdoc(7), "MACRO SYNTAX").

ghost use Rattle.std.specs.Prelude.{◌≡◌, ◌≤◌, length, IfSome};
ghost use Rattle.page_roff_syntax.specs.laws.Views.{ReadsNext, argument_view};
ghost use Rattle.page_sets_lines.specs.laws.Events.{given_view};
ghost use Rattle.page_sets_lines.specs.laws.Views.{ArgumentFits, GivenFits};
ghost use Rattle.page_sets_mdoc_lines.specs.laws.Views.{arguments_after, rest_parts, IsRestOf, rest_view, words_view, AreFound, TakesWord};
ghost use Rattle.page_sets_mdoc_lines.specs.Parts.{parts, has_calls};
ghost use Rattle.page_sets_mdoc_lines.specs.machine.Cursors.{IsCursorOf};

use crate::Inline;
use crate::cursors::Cursor;
use crate::line_words::{may_take, takes_next};
use crate::rests::Rest;
use crate::word_spans::{ReadWord, find_span};
use page_core_base::LINE;
use page_roff_syntax::Argument;

/// Words in a row in a line: how many, and where they begin.
#[derive(Clone, Copy)]
pub struct Words {
    pub count: usize,
    pub cursor: Cursor,
}

/// The words of a macro, and what is known of them before they are read.
#[derive(Clone, Copy)]
pub struct MacroWords<'a> {
    /// The word that the macro takes as it is.
    pub taken: Option<Argument<&'a [u8]>>,
    /// Its other words.
    pub all: Words,
    /// The first of these, which was read when they were found.
    pub first: Option<ReadWord<'a>>,
    /// Those up to the closing delimiters at their end.
    pub inside: Words,
    /// These delimiters.
    pub outside: Words,
    /// Whether one of the words is no delimiter.
    pub has_real: bool,
    /// Whether calls follow.
    pub follows: bool,
}

impl Words {
    /// All arguments from a cursor on.
    #[tactic(auto, using(crate::proofs::WordLemmas::all_left))]
    pub fn from(text: &[u8], cursor: Cursor) -> Words
        requires short { length text.now ≤ LINE }
        ensures cursor { result.cursor ≡ cursor }
        ensures words { words_view text.now result ≡ arguments_after cursor.rest text.now }
    {
        Words {
            count: LINE,
            cursor,
        }
    }

    /// Reads the first of them, if there is one; the others are left.
    #[tactic(auto, using(crate::proofs::WordLemmas::take_first, crate::proofs::WordLemmas::take_none))]
    pub fn read<'a>(&mut self, text: &'a [u8]) -> Option<Argument<&'a [u8]>>
        requires short { length text.now ≤ LINE }
        requires within { IsCursorOf text.now self.old.cursor }
        ensures fits { IfSome result (λ word. ArgumentFits (argument_view word)) }
        ensures within { IsCursorOf text.now self.new.cursor }
        ensures next { ReadsNext (words_view text.now self.old) result (words_view text.now self.new) }
    {
        if self.count == 0 {
            return None;
        }
        let word = self.cursor.read(text)?;
        self.count -= 1;
        Some(word)
    }
}

// The word that the macro takes as it is which has just begun, if it takes one, and how far its line is then read.
#[tactic(auto, using(crate::proofs::WordLemmas::no_macro, crate::proofs::WordLemmas::takes_none, crate::proofs::WordLemmas::takes_nothing, crate::proofs::WordLemmas::takes_no_word, crate::proofs::WordLemmas::takes_first))]
fn take_word(
    text: &[u8],
    begun: Option<Inline>,
    cursor: Cursor,
) -> (Option<Argument<&[u8]>>, Cursor)
    requires short { length text.now ≤ LINE }
    requires within { IsCursorOf text.now cursor }
    ensures stands { IsCursorOf text.now result.1 }
    ensures fits { GivenFits (given_view result.0) }
    ensures takes { TakesWord begun (arguments_after cursor.rest text.now) (given_view result.0)
        (arguments_after result.1.rest text.now) }
{
    let Some(inline) = begun else {
        return (None, cursor);
    };
    if !may_take(inline) {
        return (None, cursor);
    }
    let mut ahead = cursor;
    match ahead.read(text) {
        Some(word) if takes_next(inline, word) => (Some(word), ahead),
        _ => (None, cursor),
    }
}

/// Finds the words of the macro that has just begun, if one has, from where its line has been read on, and what comes after
/// them. In a line that is not parsed no word calls.
pub fn find_words(
    text: &[u8],
    begun: Option<Inline>,
    cursor: Cursor,
    parsed: bool,
) -> (MacroWords<'_>, Rest<'_>)
    requires short { length text.now ≤ LINE }
    requires within { IsCursorOf text.now cursor }
    ensures found { AreFound text.now result.0 }
    ensures taken { given_view result.0.taken ≡ (parts begun parsed (arguments_after cursor.rest text.now)).taken }
    ensures words { words_view text.now result.0.all ≡ (parts begun parsed (arguments_after cursor.rest text.now)).words }
    ensures follows { result.0.follows ≡ has_calls (parts begun parsed (arguments_after cursor.rest text.now)).calls }
    ensures goes { IsRestOf text.now result.1 }
    ensures rest { rest_view text.now result.1 ≡ rest_parts (parts begun parsed (arguments_after cursor.rest text.now)) }
{
    let (taken, ahead) = take_word(text, begun, cursor);
    let found = find_span(text, ahead, parsed);
    let count = found.span.words as usize;
    let inside = found.span.inside as usize;
    let words = MacroWords {
        taken,
        all: Words {
            count,
            cursor: ahead,
        },
        first: if count > 0 { found.first } else { None },
        inside: Words {
            count: inside,
            cursor: ahead,
        },
        outside: Words {
            count: count.saturating_sub(inside),
            cursor: found.outside,
        },
        has_real: found.span.has_real,
        follows: found.span.follows,
    };
    (words, found.rest)
}
