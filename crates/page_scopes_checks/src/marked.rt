//! A third set, which keeps the laws of macro sets: `I` sets its words in italic, `Open` begins a quotation, and `Close` ends it.

ghost use Rattle.std.specs.Prelude.{◌≡◌, ◌≤◌, length};
ghost use Rattle.page_core_base.specs.laws.Views.{line_view};
ghost use Rattle.page_roff_syntax.specs.laws.Views.{argument_view};
ghost use Rattle.page_sets_lines.specs.laws.Events.{event_view, kind_view};
ghost use Rattle.page_sets_lines.specs.Lines.{event_at};
ghost use Rattle.page_scopes_checks.specs.Marked as marked;

use page_core_base::{Font, LINE, NoteKind, Place, Taken};
use page_roff_syntax::{Argument, has_arguments};
use page_sets::{
    BlockCloser, BlockOpener, Closer, Event, EventKind, Join, MacroSet, Opener, Quotation, Role,
    Word,
};
use page_sets_lines::{ControlLine, PlainLine, event_at, line_start, read_after, word_place};

/// The set.
#[derive(Clone, Copy)]
pub struct Marked;

/// What is still to come of a line's events.
#[derive(Clone, Copy)]
pub enum MarkedPlace {
    /// All of a line that is no control line.
    Plain(PlainLine),
    /// A name that is none of the set's.
    Unknown,
    /// A quotation begins, or ends.
    Quotation { begins: bool },
    /// The words in italic that begin after this many bytes; where there was one, the line fills line scopes.
    Words { rest: usize, fills: bool },
    /// Its end, and whether it fills line scopes.
    End(bool),
    /// Nothing.
    Nothing,
}

// A word in italic.
fn italic(number: u32, argument: Argument<&[u8]>) -> Event<&[u8]>
    ensures { event_view result ≡ marked.italic number (argument_view argument.entry) }
{
    let kind = EventKind::Word(Word {
        arg: argument,
        role: Role::Argument,
        font: Some(Font::I),
        before: Join::Apart,
        after: Join::Apart,
    });
    event_at(word_place(number, argument), kind)
}

// A quotation begins, or ends.
fn quotation<'a>(begins: bool) -> EventKind<&'a [u8]>
    ensures { kind_view result ≡ marked.quotation begins }
{
    if begins {
        EventKind::Open(Opener::Block(BlockOpener::Quotation(Quotation::Do)))
    } else {
        EventKind::Close(Closer::Block(BlockCloser::Quotation(Quotation::Do)))
    }
}

// The place before the events of a macro, whose arguments begin after this many bytes.
#[tactic(auto, unfolding(crate::specs::Marked::macro_place))]
fn macro_place(name: &[u8], text: &[u8], start: usize) -> MarkedPlace
    requires { start ≤ length text.now }
    ensures { result ≡ marked.macro_place name.now text.now start }
{
    match name {
        b"I" => MarkedPlace::Words {
            rest: start,
            fills: has_arguments(&text[start..]),
        },
        b"Open" => MarkedPlace::Quotation { begins: true },
        b"Close" => MarkedPlace::Quotation { begins: false },
        _ => MarkedPlace::Unknown,
    }
}

// The place before the events of a control line.
fn control_place(line: Taken<'_>) -> MarkedPlace
    requires { length line.text.now ≤ LINE }
    ensures { result ≡ marked.control_place (line_view line.entry) }
{
    let line = ControlLine::new(line);
    if line.is_nameless() {
        MarkedPlace::End(false)
    } else {
        macro_place(line.name(), line.text(), line.name_end())
    }
}

// The message about a name that is none of the set's.
fn unknown<'a>(line: Taken<'a>) -> Event<&'a [u8]>
    requires { length line.text.now ≤ LINE }
    ensures { event_view result ≡ marked.unknown (line_view line.entry) }
{
    let line = ControlLine::new(line);
    let kind = EventKind::Note {
        kind: NoteKind::UnknownMacro,
        detail: line.name(),
        is_quoted: false,
        begins_body: false,
    };
    event_at(line.name_place(), kind)
}

impl MacroSet for Marked {
    ghost use Rattle.page_scopes_checks.specs.Marked.{marked_events, events_from, FitsPlace};
    ghost use Rattle.page_scopes_checks.specs.MarkedLaws.{marked_slices, place_slices, marked_in_order, marked_few};

    type Place = MarkedPlace;

    ghost page_indent = { λ set. 2 };

    ghost table = { λ set line. marked_events line };

    ghost IsPlaceOf = { λ set line place. FitsPlace line place };

    ghost events_from = { λ set line place. events_from line place };

    ghost slices = { λ set line. marked_slices line };

    ghost slices_from = { λ set line place fits. place_slices line place fits };

    ghost in_order = { λ set line. marked_in_order line };

    ghost few = { λ set line. marked_few line };

    fn indent(&self) -> u32 {
        2
    }

    fn start(&self, line: Taken<'_>) -> MarkedPlace {
        match PlainLine::of(line) {
            Some(plain) => MarkedPlace::Plain(plain),
            None => control_place(line),
        }
    }

    fn next<'a>(&self, line: Taken<'a>, place: &mut MarkedPlace) -> Option<Event<&'a [u8]>> {
        match *place {
            MarkedPlace::Plain(plain) => {
                *place = MarkedPlace::End(plain.fills());
                Some(event_at(line_start(line.line), plain.kind(line.text)))
            }
            MarkedPlace::Unknown => {
                *place = MarkedPlace::End(false);
                Some(unknown(line))
            }
            MarkedPlace::Quotation { begins } => {
                *place = MarkedPlace::End(false);
                let place = ControlLine::new(line).name_place();
                Some(event_at(place, quotation(begins)))
            }
            MarkedPlace::Words { rest, fills } => {
                if let Some((argument, end)) = read_after(line.text, rest) {
                    *place = MarkedPlace::Words { rest: end, fills };
                    return Some(italic(line.line, argument));
                }
                *place = MarkedPlace::Nothing;
                Some(event_at(line_start(line.line), EventKind::End { fills }))
            }
            MarkedPlace::End(fills) => {
                *place = MarkedPlace::Nothing;
                Some(event_at(line_start(line.line), EventKind::End { fills }))
            }
            MarkedPlace::Nothing => None,
        }
    }
}
