//! The arguments of the macro that begins a line (mdoc(7), "MACRO SYNTAX").

ghost use Rattle.std.specs.Option.{option_map_or};
ghost use Rattle.std.specs.Prelude.{◌≡◌, false};
ghost use Rattle.page_roff_syntax.specs.Arguments.{is_quoted};
ghost use Rattle.page_sets_lines.specs.laws.Events.{text_view};
ghost use Rattle.page_sets_lines.specs.Lines.{first_of, text_of};
ghost use Rattle.page_sets_mdoc_blocks.specs.Fronts as fronts;

use page_sets_lines::ControlLine;
use page_sets_mdoc_lines::is_real;

/// The text of the first argument of a line.
pub(crate) fn first_text<'a>(line: &ControlLine<'a>) -> Option<&'a [u8]>
    ensures { text_view result ≡ text_of (first_of (fronts.line_arguments line.now)) }
{
    match line.first_argument() {
        Some(argument) => Some(argument.text),
        None => None,
    }
}

/// Whether the first argument of a line is quoted.
pub(crate) fn is_first_quoted(line: &ControlLine<'_>) -> bool
    ensures { result ≡ option_map_or (λ argument. is_quoted argument.quoting) (first_of (fronts.line_arguments line.now)) false }
{
    match line.first_argument() {
        Some(argument) => argument.is_quoted(),
        None => false,
    }
}

/// Whether an argument of a line is no delimiter.
pub fn has_real_word(line: &ControlLine<'_>) -> bool
    ensures { result ≡ fronts.has_real_word line.now }
{
    let mut arguments = line.arguments();
    while let Some(argument) = arguments.next_argument() {
        if is_real(argument) {
            return true;
        }
    }
    false
}
