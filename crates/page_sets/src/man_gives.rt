//! The events of a line, given one after another (man(7), "MACRO REFERENCE").

ghost use Rattle.std.specs.Prelude.{◌≡◌, ◌≤◌, [], ◌∷◌, length, drop, option_map, if◌then◌else◌, IfSome, false};
ghost use Rattle.page_core_base.specs.laws.Views.{line_view, Came};
ghost use Rattle.page_sets_lines.specs.laws.Events.{kind_view};
ghost use Rattle.page_sets_lines.specs.laws.Views.{ArgumentFits, IsShortKind};
ghost use Rattle.page_sets_lines.specs.Lines.{arguments_after, event_at, line_end};
ghost use Rattle.page_roff_syntax.specs.laws.Views.{argument_view};
ghost use Rattle.page_sets_lines.specs.declared.events.Join.TheVariants.{Apart};
ghost use Rattle.page_sets.specs.Man as man;
ghost use Rattle.page_sets_lines.specs.declared.events.EventKind.TheVariants as kinds;
ghost use Rattle.page_sets_lines.specs.declared.openers.Closer.TheVariants as closers;
ghost use Rattle.page_core_base.specs.declared.note_kinds.NoteKind.TheVariants.{Unterminated};

use crate::man_effects::{effect_kind, line_scope};
use crate::man_rows::{Alone, Last, ManRow, Quotes, Words, row_of};
use page_core_base::{Font, LINE, NoteKind, Place, Taken};
use page_roff_syntax::{Argument, has_arguments};
use page_sets_lines::{
    Closer, ControlLine, EventKind, EventTaker, GeneratedText, Join, Leaf, LineOpener, PlainLine,
    Role, event_at, generated_word, line_start, open_quote, read_after, word_event,
};

/// The quote of an argument without its closing one: its column, and whether its message may begin the body of the
/// page.
#[derive(Clone, Copy)]
pub(crate) struct Quote {
    pub(crate) column: u32,
    pub(crate) begins_body: bool,
}

// The message about a missing closing quote.
fn quote_kind<'a>(quote: Quote) -> EventKind<&'a [u8]>
    ensures { kind_view result ≡ kinds.Note Unterminated [] false quote.begins_body }
{
    let detail: &[u8] = &[];
    EventKind::Note {
        kind: NoteKind::Unterminated,
        detail,
        is_quoted: false,
        begins_body: quote.begins_body,
    }
}

// The quote in a column that is reported early.
fn quote_at(begins_body: bool, column: Option<u32>) -> Option<Quote>
    ensures { result ≡ man.quote_at begins_body column }
{
    match column {
        Some(column) => Some(Quote {
            column,
            begins_body,
        }),
        None => None,
    }
}

// The quote that is reported early, if one of the arguments that begin after this many bytes lacks its closing one.
fn missing_quote(quotes: Quotes, text: &[u8], start: usize) -> Option<Quote>
    requires short { length text.now ≤ LINE }
    requires within { start ≤ length text.now }
    ensures { result ≡ man.missing_quote quotes (arguments_after start text.now) }
{
    match quotes {
        Quotes::Printed => None,
        Quotes::After(printed) => quote_at(false, open_quote(text, start, printed)),
        Quotes::BodyAfter(printed) => quote_at(true, open_quote(text, start, printed)),
    }
}

// Whether arguments are words.
fn has_words(words: Words) -> bool
    ensures { result ≡ man.has_words words }
{
    !matches!(words, Words::Nothing)
}

// An argument as a word.
#[inline(always)]
fn give_argument<'a, O: EventTaker<'a>>(
    out: &mut O,
    number: u32,
    font: Option<Font>,
    before: Join,
    argument: Argument<&'a [u8]>,
)
    requires { ArgumentFits (argument_view argument) }
    ensures { Came O.left out.old
        (man.argument_word number font before (argument_view argument.entry) ∷ []) out.new }
{
    let role = Role::Argument;
    out.give(word_event(number, role, font, before, Join::Apart, argument));
}

// A mark of a macro's own.
fn give_mark<'a, O: EventTaker<'a>>(
    out: &mut O,
    place: Place,
    text: GeneratedText,
    before: Join,
    after: Join,
)
    ensures { Came O.left out.old (man.mark place text before after ∷ []) out.new }
{
    out.give(generated_word(place, text, None, before, after));
}

// All arguments, in the font around them.
fn give_plain_words<'a, O: EventTaker<'a>>(out: &mut O, number: u32, text: &'a [u8], start: usize)
    requires short { length text.now ≤ LINE }
    requires within { start ≤ length text.now }
    ensures { Came O.left out.old (man.plain_words number (arguments_after start text.now)) out.new }
{
    let mut rest = start;
    while let Some((argument, end)) = read_after(text, rest) {
        give_argument(out, number, None, Join::Apart, argument);
        rest = end;
    }
}

// The arguments after the first, in the font around them.
fn give_further_words<'a, O: EventTaker<'a>>(out: &mut O, number: u32, text: &'a [u8], start: usize)
    requires short { length text.now ≤ LINE }
    requires within { start ≤ length text.now }
    ensures { Came O.left out.old (man.plain_words number (drop 1 (arguments_after start text.now))) out.new }
{
    if let Some((_, rest)) = read_after(text, start) {
        give_plain_words(out, number, text, rest);
    }
}

// All arguments, in two fonts in turn, glued.
fn give_alternating<'a, O: EventTaker<'a>>(
    out: &mut O,
    number: u32,
    font: Font,
    other: Font,
    text: &'a [u8],
    start: usize,
)
    requires short { length text.now ≤ LINE }
    requires within { start ≤ length text.now }
    ensures { Came O.left out.old
        (man.alternating_words number font other Apart (arguments_after start text.now)) out.new }
{
    let mut fonts = (font, other);
    let mut before = Join::Apart;
    let mut rest = start;
    while let Some((argument, end)) = read_after(text, rest) {
        give_argument(out, number, Some(fonts.0), before, argument);
        fonts = (fonts.1, fonts.0);
        before = Join::Glued;
        rest = end;
    }
}

// The first argument alone.
fn give_one<'a, O: EventTaker<'a>>(
    out: &mut O,
    number: u32,
    font: Option<Font>,
    before: Join,
    text: &'a [u8],
    start: usize,
)
    requires short { length text.now ≤ LINE }
    requires within { start ≤ length text.now }
    ensures { Came O.left out.old
        (man.one_word number font before (arguments_after start text.now)) out.new }
{
    if let Some((argument, _)) = read_after(text, start) {
        give_argument(out, number, font, before, argument);
    }
}

// `OP`: a key in bold, then its value in italic.
fn give_option<'a, O: EventTaker<'a>>(out: &mut O, number: u32, text: &'a [u8], start: usize)
    requires short { length text.now ≤ LINE }
    requires within { start ≤ length text.now }
    ensures { Came O.left out.old (man.option_words number (arguments_after start text.now)) out.new }
{
    if let Some((key, rest)) = read_after(text, start) {
        give_argument(out, number, Some(Font::B), Join::Apart, key);
        give_one(out, number, Some(Font::I), Join::Apart, text, rest);
    }
}

// A section in parentheses, and a suffix, all glued.
fn give_section<'a, O: EventTaker<'a>>(out: &mut O, place: Place, text: &'a [u8], start: usize)
    requires short { length text.now ≤ LINE }
    requires within { start ≤ length text.now }
    ensures { Came O.left out.old
        (man.section_words place (arguments_after start text.now)) out.new }
{
    if let Some((section, rest)) = read_after(text, start) {
        let (opening, closing) = (
            GeneratedText::OpenParenthesis,
            GeneratedText::CloseParenthesis,
        );
        give_mark(out, place, opening, Join::Glued, Join::Glued);
        give_argument(out, place.line, None, Join::Apart, section);
        give_mark(out, place, closing, Join::Glued, Join::Apart);
        give_one(out, place.line, None, Join::Glued, text, rest);
    }
}

// `MR`: a name in italic, with its section and suffix.
fn give_reference<'a, O: EventTaker<'a>>(out: &mut O, place: Place, text: &'a [u8], start: usize)
    requires short { length text.now ≤ LINE }
    requires within { start ≤ length text.now }
    ensures { Came O.left out.old
        (man.reference_words place (arguments_after start text.now)) out.new }
{
    if let Some((name, rest)) = read_after(text, start) {
        give_argument(out, place.line, Some(Font::I), Join::Apart, name);
        give_section(out, place, text, rest);
    }
}

// The words of a macro.
fn give_words<'a, O: EventTaker<'a>>(
    out: &mut O,
    place: Place,
    words: Words,
    text: &'a [u8],
    start: usize,
)
    requires short { length text.now ≤ LINE }
    requires within { start ≤ length text.now }
    ensures { Came O.left out.old
        (man.words_events place words (arguments_after start text.now)) out.new }
{
    match words {
        Words::Nothing => {}
        Words::Plain => give_plain_words(out, place.line, text, start),
        Words::Alternating { font, other } => {
            give_alternating(out, place.line, font, other, text, start);
        }
        Words::Option => give_option(out, place.line, text, start),
        Words::Reference => give_reference(out, place, text, start),
        Words::Further => give_further_words(out, place.line, text, start),
    }
}

// What comes after a macro's words, but the line's end.
fn give_last<'a, O: EventTaker<'a>>(out: &mut O, place: Place, last: Last)
    ensures { Came O.left out.old (man.last_events place last) out.new }
{
    match last {
        Last::Nothing => {}
        Last::FontEnds => out.give(event_at(place, EventKind::Leaf(Leaf::Fonts(None)))),
        Last::Mark(text) => give_mark(out, place, text, Join::Glued, Join::Apart),
    }
}

// The message about a quote that is missing.
fn give_quote<'a, O: EventTaker<'a>>(out: &mut O, number: u32, quote: Option<Quote>)
    ensures { Came O.left out.old (man.quote_events number quote) out.new }
{
    if let Some(quote) = quote {
        let place = Place {
            line: number,
            column: quote.column,
        };
        out.give(event_at(place, quote_kind(quote)));
    }
}

// What a macro does, if it does something.
fn give_kind<'a, O: EventTaker<'a>>(out: &mut O, place: Place, kind: Option<EventKind<&'a [u8]>>)
    requires { IfSome kind (λ d. IsShortKind (kind_view d)) }
    ensures { Came O.left out.old
        (man.kind_events place (option_map kind_view kind.entry)) out.new }
{
    if let Some(kind) = kind {
        out.give(event_at(place, kind));
    }
}

// The line scope that a macro opens, if it opens one.
fn give_scope<'a, O: EventTaker<'a>>(out: &mut O, place: Place, scope: Option<LineOpener>)
    ensures { Came O.left out.old (man.kind_events place (option_map kinds.LineScope scope)) out.new }
{
    if let Some(opener) = scope {
        out.give(event_at(place, EventKind::LineScope(opener)));
    }
}

// The end of the line scopes that are open, where a macro breaks them.
fn give_break<'a, O: EventTaker<'a>>(out: &mut O, place: Place, breaks: bool)
    ensures { Came O.left out.old (if breaks then event_at place (kinds.Close closers.Line) ∷ [] else []) out.new }
{
    if breaks {
        out.give(event_at(place, EventKind::Close(Closer::Line)));
    }
}

// A line's end.
fn give_end<'a, O: EventTaker<'a>>(out: &mut O, number: u32, fills: bool)
    ensures { Came O.left out.old (line_end number fills ∷ []) out.new }
{
    out.give(event_at(line_start(number), EventKind::End { fills }));
}

// A macro by its row, with arguments that begin after this many bytes.
fn give_macro<'a, O: EventTaker<'a>>(
    out: &mut O,
    place: Place,
    row: ManRow,
    text: &'a [u8],
    start: usize,
)
    requires short { length text.now ≤ LINE }
    requires within { start ≤ length text.now }
    ensures { Came O.left out.old
        (man.macro_events place row (drop start text.now) (arguments_after start text.now)) out.new }
{
    give_break(out, place, row.breaks);
    give_quote(out, place.line, missing_quote(row.quotes, text, start));
    give_kind(out, place, effect_kind(row.effect, text, start));
    give_scope(out, place, line_scope(row.effect));
    give_words(out, place, row.words, text, start);
    give_last(out, place, row.last);
    give_end(
        out,
        place.line,
        has_words(row.words) && has_arguments(&text[start..]),
    );
}

// A message about a macro's name.
fn give_refused<'a, O: EventTaker<'a>>(out: &mut O, kind: NoteKind, place: Place, name: &'a [u8])
    ensures { Came O.left out.old (man.refused_events kind place name.now) out.new }
{
    out.give(event_at(
        place,
        EventKind::Note {
            kind,
            detail: name,
            is_quoted: false,
            begins_body: false,
        },
    ));
    give_end(out, place.line, false);
}

// A macro without arguments.
fn give_lone<'a, O: EventTaker<'a>>(
    out: &mut O,
    place: Place,
    name: &'a [u8],
    row: ManRow,
    text: &'a [u8],
    start: usize,
)
    requires short { length text.now ≤ LINE }
    requires within { start ≤ length text.now }
    ensures { Came O.left out.old (man.lone_events row.alone place name.now
        (man.macro_events place row (drop start text.now) (arguments_after start text.now))) out.new }
{
    match row.alone {
        Alone::Same => give_macro(out, place, row, text, start),
        Alone::Empty => give_refused(out, NoteKind::EmptyMacro, place, name),
        Alone::Scope(opener) => {
            out.give(event_at(place, EventKind::LineScope(opener)));
            give_end(out, place.line, false);
        }
    }
}

// A control line.
#[inline(never)]
fn give_control<'a, O: EventTaker<'a>>(out: &mut O, line: &ControlLine<'a>)
    ensures { Came O.left out.old (man.control_events line.now) out.new }
{
    if line.is_nameless() {
        give_end(out, line.number(), false);
        return;
    }
    let name = line.name();
    let place = line.name_place();
    match row_of(name) {
        Some(row) if line.has_arguments() => {
            give_macro(out, place, row, line.text(), line.name_end());
        }
        Some(row) => give_lone(out, place, name, row, line.text(), line.name_end()),
        None => give_refused(out, NoteKind::UnknownMacro, place, name),
    }
}

/// Gives the events of a line.
#[tactic(auto, unfolding(crate::specs::Man::man_events))]
pub(crate) fn give_events<'a, O: EventTaker<'a>>(out: &mut O, line: Taken<'a>)
    requires { length line.text.now ≤ LINE }
    ensures { Came O.left out.old (man.man_events (line_view line.entry)) out.new }
{
    match PlainLine::of(line) {
        Some(plain) => {
            out.give(event_at(line_start(line.line), plain.kind(line.text)));
            give_end(out, line.line, plain.fills());
        }
        None => give_control(out, &ControlLine::new(line)),
    }
}
