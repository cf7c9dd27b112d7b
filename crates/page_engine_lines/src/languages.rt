//! The language of a page (mandoc(1), `-m`; man(7), `TH`; mdoc(7), `Dd`).

ghost use Rattle.std.specs.Prelude.{◌≡◌, ◌≤◌, length};
ghost use Rattle.page_core_base.specs.laws.Views.{line_view};
ghost use Rattle.page_engine_lines.specs.Bodies as languages;

use page_core_base::{LINE, Taken};
use page_sets::Either;
use page_sets_lines::{ControlLine, PlainLine, layout_request};

// The language of a macro's name.
fn macro_language(name: &[u8]) -> Either
    ensures { result ≡ languages.macro_language name.now }
{
    match name {
        b"Dd" => Either::Mdoc,
        _ => Either::Man,
    }
}

// The language that a control line decides, if it decides one.
fn control_language(line: Taken<'_>) -> Option<Either>
    requires { length line.text.now ≤ LINE }
    ensures { result ≡ languages.control_language (line_view line.entry) }
{
    let line = ControlLine::new(line);
    if line.is_nameless() || layout_request(line.name()).is_some() {
        return None;
    }
    Some(macro_language(line.name()))
}

/// The language that a line decides, if it decides one.
#[tactic(auto, unfolding(crate::specs::Bodies::language_of))]
pub(crate) fn language_of(line: Taken<'_>) -> Option<Either>
    requires { length line.text.now ≤ LINE }
    ensures { result ≡ languages.language_of (line_view line.entry) }
{
    match PlainLine::of(line) {
        Some(PlainLine::Words | PlainLine::Raw) => Some(Either::Man),
        Some(PlainLine::Wordless | PlainLine::Blank) => None,
        None => control_language(line),
    }
}
