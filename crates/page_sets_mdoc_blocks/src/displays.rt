//! What the arguments of `Bd` and `Bf` say (mdoc(7), `Bd` and `Bf`).

ghost use Rattle.std.specs.Prelude.{◌≡◌, ◌||◌};
ghost use Rattle.std.specs.Str.{bytes_eq};
ghost use Rattle.page_roff_syntax.specs.laws.Views.{argument_view};
ghost use Rattle.page_sets_lines.specs.laws.Events.{block_opener_view};
ghost use Rattle.page_sets_mdoc_blocks.specs.Displays as displays;
ghost use Rattle.page_sets_mdoc_blocks.specs.laws.Views.{options_view};
ghost use Rattle.page_sets_mdoc_blocks.specs.Fronts.{line_arguments, first_text};

use crate::line_arguments::first_text;
use page_core_base::Font;
use page_roff_syntax::Argument;
use page_sets_lines::{BlockOpener, ControlLine};

/// What arguments of `Bd` say; `W` is a text.
#[derive(Drop)]
pub(crate) struct DisplayOptions<W> {
    /// Whether rows are kept as they are, by the first type.
    pub(crate) is_literal: Option<bool>,
    /// `-compact`.
    pub(crate) is_compact: bool,
    /// What follows the last `-offset`.
    pub(crate) offset: Option<Argument<W>>,
    /// The next argument follows `-offset`.
    pub(crate) takes_offset: bool,
}

// Whether a word is one of two.
fn is_either(word: &[u8], one: &[u8], other: &[u8]) -> bool
    ensures { result ≡ (bytes_eq word.now one.now || bytes_eq word.now other.now) }
{
    word == one || word == other
}

// Whether the rows of a type of displays are kept as they are.
#[tactic(auto, unfolding(crate::specs::Displays::display_type))]
fn display_type(word: &[u8]) -> Option<bool>
    ensures { result ≡ displays.display_type word.now }
{
    if is_either(word, b"-literal", b"-unfilled") {
        Some(true)
    } else if is_either(word, b"-filled", b"-ragged") || word == b"-centered".as_slice() {
        Some(false)
    } else {
        None
    }
}

// Reads one more argument.
fn read_option<'a>(options: &mut DisplayOptions<&'a [u8]>, word: Argument<&'a [u8]>)
    ensures { options_view options.new ≡ displays.option_read (options_view options.old) (argument_view word.entry) }
{
    if options.takes_offset {
        options.offset = Some(word);
        options.takes_offset = false;
    } else if word.text == b"-offset".as_slice() {
        options.takes_offset = true;
    } else if word.text == b"-compact".as_slice() {
        options.is_compact = true;
    } else if options.is_literal.is_none() {
        options.is_literal = display_type(word.text);
    }
}

// What all arguments of a line say.
fn read_options<'a>(line: &ControlLine<'a>) -> DisplayOptions<&'a [u8]>
    ensures { options_view result ≡ displays.options_after displays.no_options (line_arguments line.now) }
{
    let mut arguments = line.arguments();
    let mut options = DisplayOptions {
        is_literal: None,
        is_compact: false,
        offset: None,
        takes_offset: false,
    };
    while let Some(word) = arguments.next_argument() {
        read_option(&mut options, word);
    }
    options
}

/// The display that `Bd` opens in a line.
pub(crate) fn display_of<'a>(line: &ControlLine<'a>) -> BlockOpener<&'a [u8]>
    ensures { block_opener_view result ≡ displays.display (line_arguments line.now) }
{
    let options = read_options(line);
    BlockOpener::Display {
        is_literal: options.is_literal.unwrap_or(false),
        is_compact: options.is_compact,
        offset: options.offset,
    }
}

// The font that a word of `Bf` names.
#[tactic(auto, unfolding(crate::specs::Displays::font_named))]
fn font_named(word: &[u8]) -> Option<Font>
    ensures { result ≡ displays.font_named word.now }
{
    if is_either(word, b"-emphasis", b"Em") {
        Some(Font::I)
    } else if is_either(word, b"-symbolic", b"Sy") {
        Some(Font::B)
    } else if is_either(word, b"-literal", b"Li") {
        Some(Font::R)
    } else {
        None
    }
}

/// The font of `Bf` in a line, where its first argument names one.
pub(crate) fn first_font(line: &ControlLine<'_>) -> Option<Font>
    ensures { result ≡ displays.given_font (first_text line.now) }
{
    font_named(first_text(line)?)
}
