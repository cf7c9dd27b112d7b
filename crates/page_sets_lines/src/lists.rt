//! The types of lists, and what the arguments of `Bl` say (mdoc(7), `Bl`).

ghost use Rattle.std.specs.Prelude.{◌≡◌, ◌≤◌, length, true};
ghost use Rattle.page_roff_syntax.specs.laws.Views.{argument_view};
ghost use Rattle.page_sets_lines.specs.Lines.{arguments_after};
ghost use Rattle.page_sets_lines.specs.Blocks as lists;
ghost use Rattle.page_sets_lines.specs.laws.Views.{options_view};

use page_core_base::LINE;
use page_roff_syntax::{Argument, Arguments};

/// The type of a list.
#[derive(Clone, Copy, PartialEq, Eq)]
pub enum ListKind {
    /// `-bullet`: a dot before each item.
    Bullet,
    /// `-column`: items are rows of cells.
    Column,
    /// `-dash`: a dash before each item.
    Dash,
    /// `-diag`: a message, and what it means.
    Diag,
    /// `-enum`: items are numbered.
    Enum,
    /// `-hang`: a head before its text, however long it is.
    Hang,
    /// `-hyphen`: a dash before each item.
    Hyphen,
    /// `-inset`: a head as the first words of its text.
    Inset,
    /// `-item`: text alone.
    Item,
    /// `-ohang`: a head above its text.
    Ohang,
    /// `-tag`: a head before its text, where it has room there.
    Tag,
}

/// What an argument of `Bl` says by itself.
#[derive(Clone, Copy, PartialEq, Eq)]
pub enum ListWord {
    /// The list's type.
    Kind(ListKind),
    /// `-compact`.
    Compact,
    /// `-width`: the next argument is the width.
    Width,
    /// `-offset`: the next argument is the offset.
    Offset,
}

/// The option whose value the next argument of `Bl` is.
#[derive(Clone, Copy, PartialEq, Eq)]
pub enum Awaited {
    /// `-width`.
    Width,
    /// `-offset`.
    Offset,
}

/// What arguments of `Bl` say; `W` is a text.
#[derive(Drop)]
pub struct ListOptions<W> {
    /// The first type.
    pub kind: Option<ListKind>,
    /// `-compact`.
    pub is_compact: bool,
    /// What follows the last `-width`.
    pub width: Option<Argument<W>>,
    /// What follows the last `-offset`.
    pub offset: Option<Argument<W>>,
    /// The option that takes the next argument as it is.
    pub awaited: Option<Awaited>,
}

// The type by its name of a list whose items have heads.
#[tactic(auto, unfolding(crate::specs::Blocks::headed_kind))]
fn headed_kind(word: &[u8]) -> Option<ListKind>
    ensures { result ≡ lists.headed_kind word.now }
{
    if word == b"-tag".as_slice() {
        Some(ListKind::Tag)
    } else if word == b"-hang".as_slice() {
        Some(ListKind::Hang)
    } else if word == b"-ohang".as_slice() {
        Some(ListKind::Ohang)
    } else if word == b"-inset".as_slice() {
        Some(ListKind::Inset)
    } else if word == b"-diag".as_slice() {
        Some(ListKind::Diag)
    } else {
        None
    }
}

// The type of any other list by its name.
#[tactic(auto, unfolding(crate::specs::Blocks::headless_kind))]
fn headless_kind(word: &[u8]) -> Option<ListKind>
    ensures { result ≡ lists.headless_kind word.now }
{
    if word == b"-bullet".as_slice() {
        Some(ListKind::Bullet)
    } else if word == b"-column".as_slice() {
        Some(ListKind::Column)
    } else if word == b"-dash".as_slice() {
        Some(ListKind::Dash)
    } else if word == b"-enum".as_slice() {
        Some(ListKind::Enum)
    } else if word == b"-hyphen".as_slice() {
        Some(ListKind::Hyphen)
    } else if word == b"-item".as_slice() {
        Some(ListKind::Item)
    } else {
        None
    }
}

// The type of a list by its name.
fn kind_named(word: &[u8]) -> Option<ListKind>
    ensures { result ≡ lists.kind_named word.now }
{
    match headed_kind(word) {
        Some(kind) => Some(kind),
        None => headless_kind(word),
    }
}

// What an option says.
#[tactic(auto, unfolding(crate::specs::Blocks::option_named))]
fn option_named(word: &[u8]) -> Option<ListWord>
    ensures { result ≡ lists.option_named word.now }
{
    if word == b"-compact".as_slice() {
        Some(ListWord::Compact)
    } else if word == b"-width".as_slice() {
        Some(ListWord::Width)
    } else if word == b"-offset".as_slice() {
        Some(ListWord::Offset)
    } else {
        None
    }
}

// What an argument says, where it is a type or an option.
fn list_word(word: &[u8]) -> Option<ListWord>
    ensures { result ≡ lists.list_word word.now }
{
    match kind_named(word) {
        Some(kind) => Some(ListWord::Kind(kind)),
        None => option_named(word),
    }
}

impl<'a> ListOptions<&'a [u8]> {
    /// What no argument says.
    pub fn new() -> ListOptions<&'a [u8]>
        ensures { options_view result ≡ lists.no_options }
    {
        ListOptions {
            kind: None,
            is_compact: false,
            width: None,
            offset: None,
            awaited: None,
        }
    }

    // Reads a type or an option.
    fn read_word(&mut self, word: Option<ListWord>)
        ensures { options_view self.new ≡ lists.with_word word (options_view self.old) }
    {
        match word {
            Some(ListWord::Kind(kind)) => {
                if self.kind.is_none() {
                    self.kind = Some(kind);
                }
            }
            Some(ListWord::Compact) => self.is_compact = true,
            Some(ListWord::Width) => self.awaited = Some(Awaited::Width),
            Some(ListWord::Offset) => self.awaited = Some(Awaited::Offset),
            None => {}
        }
    }

    /// Reads one more argument.
    pub fn read(&mut self, word: Argument<&'a [u8]>)
        ensures { options_view self.new ≡ lists.option_read (options_view self.old) (argument_view word.entry) }
    {
        match self.awaited {
            None => self.read_word(list_word(word.text)),
            Some(Awaited::Width) => {
                self.width = Some(word);
                self.awaited = None;
            }
            Some(Awaited::Offset) => {
                self.offset = Some(word);
                self.awaited = None;
            }
        }
    }

    /// Whether the next argument is no type, no option and no option's value: in a list of columns it is a width.
    pub fn is_column(&self, word: Argument<&'a [u8]>) -> bool
        ensures { result ≡ lists.is_column (options_view self.now) (argument_view word.entry) }
    {
        self.awaited.is_none() && list_word(word.text).is_none()
    }
}

/// What all arguments say that begin after this many bytes of a line of `Bl`.
pub fn read_list_options<'a>(text: &'a [u8], start: usize) -> ListOptions<&'a [u8]>
    requires short { length text.now ≤ LINE }
    requires within { start ≤ length text.now }
    ensures { options_view result ≡ lists.options_after lists.no_options (arguments_after start text.now) }
{
    let mut arguments = Arguments::new(&text[start..], start as u32 + 1);
    let mut options = ListOptions::new();
    while let Some(word) = arguments.next_argument() {
        options.read(word);
    }
    options
}
