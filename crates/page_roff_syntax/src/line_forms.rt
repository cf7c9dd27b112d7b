//! The form of a raw line (roff(7), "LANGUAGE SYNTAX").

ghost use Rattle.std.specs.Prelude.{◌≡◌, ◌≤◌, ◌<◌, false, length};
ghost use Rattle.std.specs.List.{prefix_len};
ghost use Rattle.page_core_base.specs.Bytes.{is_white};
ghost use Rattle.page_roff_syntax.specs.LineForms.{is_name, has_word, without_comment, control_line, form_of};
ghost use Rattle.page_roff_syntax.specs.laws.Views.{begins_control, FitsLine, form_view, name_of, name_view};

use crate::comments::uncommented_len;
use page_core_base::LINE;

/// The form of a raw line; `W` is a text.
#[derive(Clone, Copy)]
pub enum LineForm<W> {
    /// A comment alone.
    Comment,
    /// Blanks and tabs alone, or nothing at all.
    BlankLine,
    /// A text line, without its comment.
    Text(W),
    /// A control line: the name of a request or macro at a column, and the rest of the line at another, without its comment.
    Control {
        name: W,
        column: u32,
        rest: W,
        rest_column: u32,
    },
}

/// Whether a byte is a blank or a tab.
pub fn is_white(byte: u8) -> bool
    ensures { result ≡ is_white byte }
{
    byte == b' ' || byte == b'\t'
}

/// The number of blanks and tabs at a text's front.
pub fn white_len(text: &[u8]) -> usize
    ensures value { result ≡ prefix_len is_white text.now }
    ensures within { result ≤ length text.now }
{
    text.iter().take_while(|byte| is_white(**byte)).count()
}

/// Whether a text has more than blanks and tabs.
pub fn has_word(text: &[u8]) -> bool
    ensures { result ≡ has_word text.now }
{
    white_len(text) < text.len()
}

/// Whether a line begins with a control character.
pub fn begins_control(line: &[u8]) -> bool
    ensures { result ≡ begins_control line.now }
{
    match line {
        [] => false,
        [first, ..] => *first == b'.' || *first == b'\'',
    }
}

// Whether a byte may be in a name.
fn is_name(byte: u8) -> bool
    ensures { result ≡ is_name byte }
{
    !(is_white(byte) || byte == b'\\')
}

// The number of bytes of the name at a text's front.
fn name_len(text: &[u8]) -> usize
    ensures value { result ≡ prefix_len is_name text.now }
    ensures within { result ≤ length text.now }
{
    text.iter().take_while(|byte| is_name(**byte)).count()
}

// A line up to its comment.
fn without_comment(line: &[u8]) -> &[u8]
    ensures value { result.now ≡ without_comment line.now }
    ensures within { length result.now ≤ length line.now }
{
    &line[..uncommented_len(line)]
}

// A control line, of which the bytes after the control character are given with their comment.
fn control_line(bytes: &[u8]) -> LineForm<&[u8]>
    requires { length bytes.now < LINE }
    ensures value { form_view result ≡ control_line (without_comment bytes.now) }
    ensures fits { FitsLine (form_view result) }
{
    let white = white_len(bytes);
    let named = &bytes[white..];
    let len = name_len(named);
    LineForm::Control {
        name: &named[..len],
        column: 2 + white as u32,
        rest: without_comment(&named[len..]),
        rest_column: 2 + white as u32 + len as u32,
    }
}

// The form of a line that begins with no control character.
fn text_form(line: &[u8]) -> LineForm<&[u8]>
    requires short { length line.now ≤ LINE }
    requires text { begins_control line.now ≡ false }
    ensures value { form_view result ≡ form_of line.now }
    ensures fits { FitsLine (form_view result) }
{
    if !has_word(line) {
        return LineForm::BlankLine;
    }
    let body = without_comment(line);
    if body.is_empty() {
        LineForm::Comment
    } else {
        LineForm::Text(body)
    }
}

/// The form of a raw line of at most [`LINE`] bytes.
pub fn form_of(line: &[u8]) -> LineForm<&[u8]>
    requires { length line.now ≤ LINE }
    ensures value { form_view result ≡ form_of line.now }
    ensures fits { FitsLine (form_view result) }
{
    if begins_control(line) {
        return control_line(&line[1..]);
    }
    text_form(line)
}

/// The name of a control line; none of another line. No comment is looked for.
pub fn control_name(line: &[u8]) -> Option<&[u8]>
    ensures { name_view result ≡ name_of (form_of line.now) }
{
    if !begins_control(line) {
        return None;
    }
    let bytes = &line[1..];
    let named = &bytes[white_len(bytes)..];
    Some(&named[..name_len(named)])
}
