//! Events: what a macro set makes of a line, for the scopes of a page (man(7), mdoc(7)).

ghost use Rattle.std.specs.Prelude.{◌≡◌};
ghost use Rattle.page_sets_lines.specs.laws.Events.{event_view, kind_view};
ghost use Rattle.page_roff_syntax.specs.laws.Views.{argument_view};
ghost use Rattle.page_sets_lines.specs.Lines.{event_at, generated_word, line_start, word_event, word_place};

use crate::leaves::{GeneratedWord, Leaf};
use crate::openers::{Closer, LineOpener, Opener};
use page_core_base::{Font, NoteKind, Place};
use page_roff_syntax::Argument;
use page_sets_names::GeneratedText;

/// How a word is beside another.
#[derive(Clone, Copy, PartialEq, Eq)]
pub enum Join {
    /// A blank parts them.
    Apart,
    /// Nothing does.
    Glued,
    /// A blank parts them, also where `Sm off` asks for none.
    Parted,
}

/// What a word is in its line.
#[derive(Clone, Copy, PartialEq, Eq)]
pub enum Role {
    /// The whole of a text line.
    Line,
    /// An argument of a macro.
    Argument,
    /// A delimiter of mdoc(7).
    Delimiter,
    /// The first name that `Nm` has, with the column of the macro's own name.
    Name { column: u32 },
}

/// A word, in a font of its own if it has one; `W` is a text.
#[derive(Clone, Copy)]
pub struct Word<W> {
    /// Its text and column.
    pub arg: Argument<W>,
    pub role: Role,
    pub font: Option<Font>,
    /// How it is beside the word before it.
    pub before: Join,
    /// How it is beside the word after it.
    pub after: Join,
}

/// What an event does; `W` is a text.
#[derive(Clone, Copy)]
pub enum EventKind<W> {
    Word(Word<W>),
    Open(Opener<W>),
    Close(Closer<W>),
    LineScope(LineOpener),
    Leaf(Leaf<W>),
    /// A line as it is.
    Raw(W),
    /// The line ends; it may have filled the line scopes that were open.
    End {
        fills: bool,
    },
    /// A message, with its detail, of which a pair of quotes is one quote where it is that of a quoted argument; it may begin the body of the
    /// page, where its macro does.
    Note {
        kind: NoteKind,
        detail: W,
        is_quoted: bool,
        begins_body: bool,
    },
}

/// An event of a line, with the place that its messages name.
#[derive(Clone, Copy)]
pub struct Event<W> {
    pub place: Place,
    pub kind: EventKind<W>,
}

/// The first column of a line.
pub fn line_start(number: u32) -> Place
    ensures { result ≡ line_start number }
{
    Place {
        line: number,
        column: 1,
    }
}

/// Where an argument of a line is.
pub fn word_place(number: u32, word: Argument<&[u8]>) -> Place
    ensures { result ≡ word_place number (argument_view word.entry) }
{
    Place {
        line: number,
        column: word.column,
    }
}

/// An event at a place.
pub fn event_at<'a>(place: Place, kind: EventKind<&'a [u8]>) -> Event<&'a [u8]>
    ensures { event_view result ≡ event_at place (kind_view kind.entry) }
{
    Event { place, kind }
}

/// An argument as a word, in its own column.
pub fn word_event(
    number: u32,
    role: Role,
    font: Option<Font>,
    before: Join,
    after: Join,
    word: Argument<&[u8]>,
) -> Event<&[u8]>
    ensures { event_view result ≡ word_event number role font before after (argument_view word.entry) }
{
    event_at(
        word_place(number, word),
        EventKind::Word(Word {
            arg: word,
            role,
            font,
            before,
            after,
        }),
    )
}

/// A text of a macro's own.
pub fn generated_word<'a>(
    place: Place,
    text: GeneratedText,
    font: Option<Font>,
    before: Join,
    after: Join,
) -> Event<&'a [u8]>
    ensures { event_view result ≡ generated_word place text font before after }
{
    event_at(
        place,
        EventKind::Leaf(Leaf::Generated(GeneratedWord {
            text,
            font,
            before,
            after,
        })),
    )
}
