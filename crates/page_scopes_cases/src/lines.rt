//! Lines as roff hands them to a set of macros.

ghost use Rattle.std.specs.Prelude.{◌≡◌, ◌≤◌, length};

use page_core_base::{Form, LINE, Taken};
use page_roff_syntax::{LineForm, form_of};

/// A line of a form, with no name.
pub(crate) fn unnamed(form: Form, text: &[u8], line: u32) -> Taken<'_>
    ensures { result.text.now ≡ text.now }
{
    Taken {
        form,
        text,
        line,
        name_end: 0,
    }
}

/// A line whose raw text is its finished text.
pub(crate) fn taken(text: &[u8], line: u32) -> Taken<'_>
    requires { length text.now ≤ LINE }
    ensures { result.text.now ≡ text.now }
{
    match form_of(text) {
        LineForm::Control { rest_column, .. } => Taken {
            form: Form::Control,
            text,
            line,
            name_end: rest_column.saturating_sub(1),
        },
        LineForm::Comment | LineForm::BlankLine => unnamed(Form::Blank, text, line),
        LineForm::Text(_) => unnamed(Form::Text, text, line),
    }
}
