//! The span of a macro's words (mdoc(7), "MACRO SYNTAX").

ghost use Rattle.std.specs.Prelude.{◌≡◌, ◌≤◌, length, drop, None};
ghost use Rattle.page_roff_syntax.specs.laws.Views.{argument_view};
ghost use Rattle.page_sets_mdoc_lines.specs.laws.Views.{arguments_after, span_of, rest_parts, IsRestOf, rest_view, FirstIs};
ghost use Rattle.page_sets_mdoc_lines.specs.Parts.{word_call, parts, if_parsed};
ghost use Rattle.page_sets_mdoc_lines.specs.machine.Cursors.{IsCursorOf};

use crate::cursors::Cursor;
use crate::line_words::{is_closing, is_real, word_call};
use crate::macros::Inline;
use crate::rests::{Call, Rest};
use page_core_base::LINE;
use page_roff_syntax::Argument;

/// What is known of a macro's own words before they are read.
#[derive(Clone, Copy)]
pub struct WordSpan {
    /// How many there are, up to the next call or to the closing delimiters at the line's end.
    pub words: u32,
    /// How many there are without the closing delimiters at their end.
    pub inside: u32,
    /// Whether one is no delimiter.
    pub has_real: bool,
    /// Whether calls follow.
    pub follows: bool,
}

const NO_WORDS: WordSpan = WordSpan {
    words: 0,
    inside: 0,
    has_real: false,
    follows: false,
};

// What a word calls, where words can.
fn call_of(argument: Argument<&[u8]>, parsed: bool) -> Option<Inline>
    ensures { result ≡ if_parsed parsed (word_call (argument_view argument.entry)) }
{
    if parsed { word_call(argument) } else { None }
}

/// A word of a line that was read, and where the line goes on after it.
#[derive(Clone, Copy)]
pub struct ReadWord<'a> {
    pub word: Argument<&'a [u8]>,
    pub after: Cursor,
}

// The span of a macro's words, and where the line goes on after them.
#[derive(Clone, Copy)]
pub(crate) struct Found<'a> {
    pub(crate) span: WordSpan,
    // The first of them, or the first closing delimiter after none.
    pub(crate) first: Option<ReadWord<'a>>,
    // After the last of them that is no closing delimiter.
    pub(crate) outside: Cursor,
    pub(crate) rest: Rest<'a>,
}

/// Finds the span of the words that a macro has from where a line has been read on, in one pass over them. In a line
/// that is not parsed no word calls. Where none does, the closing delimiters at the end are the line's.
pub(crate) fn find_span(text: &[u8], cursor: Cursor, parsed: bool) -> Found<'_>
    requires short { length text.now ≤ LINE }
    requires within { IsCursorOf text.now cursor }
    ensures span { result.span ≡ span_of (parts None parsed (arguments_after cursor.rest text.now)) }
    ensures stand { IsCursorOf text.now result.outside × IsRestOf text.now result.rest }
    ensures first { FirstIs text.now (arguments_after cursor.rest text.now) result.span.words result.first }
    ensures outside { arguments_after result.outside.rest text.now
        ≡ drop result.span.inside (arguments_after cursor.rest text.now) }
    ensures rest { rest_view text.now result.rest ≡ rest_parts (parts None parsed (arguments_after cursor.rest text.now)) }
{
    let mut span = NO_WORDS;
    let mut ahead = cursor;
    let mut outside = cursor;
    let mut first = None;
    while let Some(argument) = ahead.read(text) {
        if let Some(inline) = call_of(argument, parsed) {
            span.follows = true;
            let call = Call {
                name: argument,
                inline,
                after: ahead,
            };
            return Found {
                span,
                first,
                outside,
                rest: Rest::Next(call),
            };
        }
        first = first.or(Some(ReadWord {
            word: argument,
            after: ahead,
        }));
        if !is_closing(argument) {
            span.inside = span.words + 1;
            outside = ahead;
        }
        if is_real(argument) {
            span.has_real = true;
        }
        span.words += 1;
    }
    span.words = span.inside;
    Found {
        span,
        first,
        outside,
        rest: Rest::Tail(outside),
    }
}
