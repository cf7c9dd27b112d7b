//! The option of sentences, and what `Sm` says (mdoc(7), "Ex", "Rv" and "Sm").

ghost use Rattle.std.specs.Prelude.{◌≡◌};
ghost use Rattle.page_roff_syntax.specs.laws.Views.{argument_view};
ghost use Rattle.page_sets_lines.specs.Lines.{is_unclosed};
ghost use Rattle.page_sets_lines.specs.laws.Events.{text_view};
ghost use Rattle.page_sets_mdoc_blocks.specs.Fronts as fronts;

use page_roff_syntax::{Argument, Quoting};
use page_sets_lines::ControlLine;

/// Whether a word is the option of a sentence, `-std`.
pub fn is_standard(word: Argument<&[u8]>) -> bool
    ensures { result ≡ fronts.is_standard (argument_view word.entry) }
{
    word.text == b"-std".as_slice()
}

// Whether an argument lacks its last quote.
fn is_unclosed(word: Argument<&[u8]>) -> bool
    ensures { result ≡ is_unclosed (argument_view word.entry).quoting }
{
    matches!(word.quoting, Quoting::Unclosed)
}

/// The column of the quote of that option, where it is the first argument of a line and lacks its last one.
pub(crate) fn option_quote(line: &ControlLine<'_>) -> Option<u32>
    ensures { result ≡ fronts.option_quote (fronts.line_arguments line.now) }
{
    let word = line.first_argument()?;
    if is_standard(word) && is_unclosed(word) {
        Some(word.column.saturating_sub(1))
    } else {
        None
    }
}

/// What an argument of `Sm` says of the blanks between words; they change where there is none.
pub(crate) fn spacing_of(text: Option<&[u8]>) -> Option<Option<bool>>
    ensures { result ≡ fronts.spacing_of (text_view text.entry) }
{
    let Some(text) = text else {
        return Some(None);
    };
    if text == b"on".as_slice() {
        Some(Some(true))
    } else if text == b"off".as_slice() {
        Some(Some(false))
    } else {
        None
    }
}
