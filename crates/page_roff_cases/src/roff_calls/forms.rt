//! The forms of lines, and their arguments.

use page_core_base::LINE;
use page_roff_syntax::{
    Argument, Arguments, LineForm, Quoting, form_of, has_arguments, is_white, kept_len,
    read_argument,
};
use page_test_streams::shown;

/// The column of the arguments that are shown.
const COLUMN: u32 = 3;

/// Shows the form of a line.
pub(crate) fn show_form(rt: &HostRuntime, line: &str) {
    if line.len() > LINE {
        return;
    }
    let _ = match form_of(line.as_bytes()) {
        LineForm::Comment => print!(rt; " -> comment"),
        LineForm::BlankLine => print!(rt; " -> blank line"),
        LineForm::Text(text) => print!(rt; " -> text [{}]", shown(text)),
        LineForm::Control {
            name,
            column,
            rest,
            rest_column,
        } => print!(rt;
            " -> control [{}] at {column}, rest [{}] at {rest_column}",
            shown(name),
            shown(rest)
        ),
    };
}

/// Shows the arguments of a rest.
pub(crate) fn show_words(rt: &HostRuntime, rest: &str) {
    if rest.len() > LINE / 2 {
        return;
    }
    let word = if has_arguments(rest.as_bytes()) {
        "arguments"
    } else {
        "no argument"
    };
    let _ = print!(rt; " -> {word}");
    let mut arguments = Arguments::new(rest.as_bytes(), COLUMN);
    'arguments: for _ in 0..rest.len() {
        match arguments.next_argument() {
            Some(argument) => show_word(rt, argument),
            None => break 'arguments,
        }
    }
}

// Shows an argument, its column and the quotes that it has.
fn show_word(rt: &HostRuntime, argument: Argument<&[u8]>) {
    let quotes = match argument.quoting {
        Quoting::Bare => "",
        Quoting::Closed => " in quotes",
        Quoting::Unclosed => " after a quote",
    };
    let _ = print!(rt;
        " [{}] at {}{quotes}",
        shown(argument.text),
        argument.column
    );
}

/// Shows how many bytes of a text are before white space at its end.
pub(crate) fn show_kept(rt: &HostRuntime, text: &str) {
    let len = kept_len(text.as_bytes(), |byte| is_white(byte));
    let _ = print!(rt; " -> {len}");
}

/// Shows where the other arguments begin.
pub(crate) fn show_others(rt: &HostRuntime, rest: &str) {
    if rest.len() > LINE / 2 {
        return;
    }
    let _ = match read_argument(rest.as_bytes(), COLUMN) {
        Some((_, end)) => print!(rt; " -> {end}"),
        None => print!(rt; " -> no argument"),
    };
}
