//! The words of a line, macro after macro (mdoc(7), "MACRO SYNTAX").

ghost use Rattle.std.specs.Prelude.{◌≡◌, ◌≤◌, None, Some, true, length};
ghost use Rattle.page_core_base.specs.laws.Views.{Came};
ghost use Rattle.page_sets_lines.specs.Lines.{name_end, name_of, name_place};
ghost use Rattle.page_sets_mdoc_lines.specs.Rows as rows;
ghost use Rattle.page_sets_mdoc_lines.specs.laws.Views.{arguments_after, IsRestOf, rest_view, words_view};
ghost use Rattle.page_sets_mdoc_lines.specs.machine.Cursors.{IsCursorOf};
ghost use Rattle.page_sets_mdoc_words.specs.Sentences.{sentence_events};
ghost use Rattle.page_sets_mdoc_blocks.specs.Fronts.{has_real_word, given_names, line_arguments};
ghost use Rattle.page_sets.specs.Mdoc as mdoc;

use page_core_base::{Font, LINE};
use page_sets_lines::{
    Closer, ControlLine, EventKind, EventTaker, LineStep, SynopsisStep, event_at, word_place,
};
use page_sets_mdoc_blocks::{has_real_word, is_standard};
use page_sets_mdoc_lines::{
    Cursor, Inline, LineMacro, MacroRow, Rest, Sentence, Words, find_words,
};
use page_sets_mdoc_words::{
    MacroName, give_found, give_include, give_macro, give_printed, give_sentence, step_event,
};

// The closing delimiters at the line's end, after the end of its enclosures.
fn give_tail<'a, O: EventTaker<'a>>(out: &mut O, number: u32, text: &'a [u8], cursor: Cursor)
    requires short { length text.now ≤ LINE }
    requires within { IsCursorOf text.now cursor }
    ensures { Came O.left out.old (mdoc.tail_events number (arguments_after cursor.rest text.now)) out.new }
{
    let mut ahead = cursor;
    if let Some(first) = ahead.read(text) {
        let end = EventKind::Close(Closer::Enclosures);
        out.give(event_at(word_place(number, first), end));
        give_printed(out, number, None, text, Words::from(text, cursor));
    }
}

// What comes after the words of the macro that begins a line: call after call, and the delimiters at the line's end.
fn give_rest<'a, O: EventTaker<'a>>(out: &mut O, number: u32, text: &'a [u8], rest: Rest<'a>)
    requires short { length text.now ≤ LINE }
    requires within { IsRestOf text.now rest }
    ensures { Came O.left out.old (mdoc.rest_events number (rest_view text.now rest.entry)) out.new }
{
    let mut rest = rest;
    loop {
        match rest {
            Rest::Next(call) => {
                let name = MacroName {
                    place: word_place(number, call.name),
                    text: call.name.text,
                };
                let (words, after) = find_words(text, Some(call.inline), call.after, true);
                give_macro(out, false, name, call.inline, text, &words);
                rest = after;
            }
            Rest::Tail(cursor) => {
                give_tail(out, number, text, cursor);
                return;
            }
        }
    }
}

// Before the arguments of a line.
fn line_cursor(line: &ControlLine<'_>) -> Cursor
    ensures stands { IsCursorOf line.now.text result }
    ensures start { result.rest ≡ name_end line.now }
{
    Cursor::new(line.text(), line.name_end())
}

// A macro that can be among words, and begins the line; then the rest of the line.
fn give_head<'a, O: EventTaker<'a>>(
    out: &mut O,
    inline: Inline,
    parsed: bool,
    line: &ControlLine<'a>,
)
    requires { parsed ≡ rows.is_parsed (name_of line.now) }
    ensures { Came O.left out.old
        (mdoc.head_events line.now inline (mdoc.line_parts (Some inline) line.now)) out.new }
{
    let name = MacroName {
        place: line.name_place(),
        text: line.name(),
    };
    let text = line.text();
    let (words, rest) = find_words(text, Some(inline), line_cursor(line), parsed);
    give_macro(out, true, name, inline, text, &words);
    give_rest(out, line.number(), text, rest);
}

// The words of any other macro, in the font around them; then the rest of the line.
fn give_phrase<'a, O: EventTaker<'a>>(out: &mut O, parsed: bool, line: &ControlLine<'a>)
    requires { parsed ≡ rows.is_parsed (name_of line.now) }
    ensures { Came O.left out.old
        (mdoc.phrase_events line.now.number (mdoc.line_parts None line.now)) out.new }
{
    let text = line.text();
    let (words, rest) = find_words(text, None, line_cursor(line), parsed);
    give_found(out, line.number(), None, text, &words);
    give_rest(out, line.number(), text, rest);
}

// All arguments of a line.
fn line_words(line: &ControlLine<'_>) -> Words
    ensures stands { IsCursorOf line.now.text result.cursor }
    ensures words { words_view line.now.text result ≡ line_arguments line.now }
{
    Words::from(line.text(), line_cursor(line))
}

// The font of the words of a field, where it is not that around them.
fn field_font(has_real_word: bool, font: Font) -> Option<Font>
    ensures { result ≡ mdoc.field_font has_real_word font }
{
    match font {
        Font::I if has_real_word => Some(Font::I),
        _ => None,
    }
}

// The names of a sentence, after its option.
fn sentence_names(line: &ControlLine<'_>) -> Words
    ensures stands { IsCursorOf line.now.text result.cursor }
    ensures names { words_view line.now.text result ≡ given_names (line_arguments line.now) }
{
    let cursor = line_cursor(line);
    let mut ahead = cursor;
    match ahead.read(line.text()) {
        Some(word) if is_standard(word) => Words::from(line.text(), ahead),
        _ => Words::from(line.text(), cursor),
    }
}

// A file of declarations, on a row of its own in the SYNOPSIS; the words of one that is refused stay.
fn give_file<'a, O: EventTaker<'a>>(out: &mut O, line: &ControlLine<'a>)
    ensures { Came O.left out.old
        (mdoc.include_words (has_real_word line.now) line.now) out.new }
{
    let words = line_words(line);
    if !has_real_word(line) {
        give_printed(out, line.number(), None, line.text(), words);
        return;
    }
    let place = line.name_place();
    let row = LineStep::Synopsis(SynopsisStep::Break);
    out.give(step_event(place, row));
    give_include(out, place, line.text(), words);
    out.give(step_event(place, row));
}

// A sentence with its names.
fn give_line_sentence<'a, O: EventTaker<'a>>(
    out: &mut O,
    sentence: Sentence,
    line: &ControlLine<'a>,
)
    ensures { Came O.left out.old (sentence_events (name_place line.now) sentence
        (given_names (line_arguments line.now))) out.new }
{
    let names = sentence_names(line);
    give_sentence(out, line.name_place(), sentence, line.text(), names);
}

/// Gives the words of the macro that begins a line, and those of the macros that they call.
pub(crate) fn give_words<'a, O: EventTaker<'a>>(out: &mut O, row: MacroRow, line: &ControlLine<'a>)
    requires { rows.row_of (name_of line.now) ≡ Some row }
    ensures { Came O.left out.old (mdoc.words_events row.begins line.now) out.new }
{
    match row.begins {
        LineMacro::Inline(inline) => give_head(out, inline, row.is_parsed, line),
        LineMacro::Item | LineMacro::Heading(_) | LineMacro::Description | LineMacro::OneLine(_) =>
            give_phrase(out, row.is_parsed, line),
        LineMacro::Field(font) => {
            let font = field_font(has_real_word(line), font);
            give_printed(out, line.number(), font, line.text(), line_words(line));
        }
        LineMacro::Sentence(sentence) => give_line_sentence(out, sentence, line),
        LineMacro::Include => give_file(out, line),
        LineMacro::Prologue(_)
        | LineMacro::Paragraph(_)
        | LineMacro::Begins(_)
        | LineMacro::Ends(_)
        | LineMacro::Spacing
        | LineMacro::Target => {}
    }
}
