//! The kinds of messages, their levels and texts (mandoc(1), "DIAGNOSTICS").

ghost use Rattle.std.specs.Prelude.{◌≡◌};
ghost use Rattle.page_core_base.specs.Messages.{level_of, text_of, level_name, is_below};

/// The level of a message, from the least to the greatest (mandoc(1), -W).
#[derive(Clone, Copy, Debug, PartialEq, Eq)]
pub enum Level {
    Base,
    Style,
    Warning,
    Error,
    Unsupp,
}

impl Level {
    /// The name that a message shows, in capitals.
    pub fn name(self) -> &'static str
        ensures { result.now ≡ level_name self }
    {
        match self {
            Level::Base => "BASE",
            Level::Style => "STYLE",
            Level::Warning => "WARNING",
            Level::Error => "ERROR",
            Level::Unsupp => "UNSUPP",
        }
    }

    /// Whether this level is less than another.
    pub fn is_below(self, other: Level) -> bool
        ensures { result ≡ is_below self other }
    {
        (self as u8) < (other as u8)
    }
}

/// What a message says. A message's detail, where its kind has one, is named beside the kind.
#[derive(Clone, Copy, Debug, PartialEq, Eq)]
pub enum NoteKind {
    /// A source line ends in a blank or tab.
    TrailingBlank,
    /// The title is empty at the header.
    MissingTitle,
    /// No volume is known for the section; the section.
    UnknownSection,
    /// The date is empty at the header.
    MissingDate,
    /// No operating system is named in an mdoc page.
    MissingOs,
    /// A prologue macro comes after the body began; its name.
    LateMacro,
    /// The page ended before its body.
    NoBody,
    /// The body begins otherwise than by a section header.
    BeforeSection,
    /// A paragraph macro has nothing before it since a heading; its name.
    SkipPara,
    /// A macro's scope to the next line is broken; the scope's name.
    LineScope,
    /// A macro that needs an argument has none; its name.
    EmptyMacro,
    /// An explicit scope is ended by the closer of another; the opener.
    BadNest,
    /// A blank line in fill mode.
    BlankFill,
    /// A word in fill mode has tabs before it or in it.
    TabFill,
    /// No string has the name; the name.
    UndefString,
    /// An escape is undefined; the escape.
    UndefEscape,
    /// An escape has no end on its line; the escape.
    BadEscape,
    /// No glyph has the name, or the character has no spelling; the name or character.
    NoGlyph,
    /// No font has the name; the font.
    UnknownFont,
    /// A quoted argument has no end.
    Unterminated,
    /// A tag list has no width.
    MissingWidth,
    /// A byte is no character; the byte.
    BadChar,
    /// No macro or request has the name; the name.
    UnknownMacro,
    /// A list item is outside a list.
    ItemOutside,
    /// An end has no open block; the end.
    NotOpen,
    /// More relative margins are ended than are open.
    FewerRs,
    /// A block has no end; its opener.
    MissingEnd,
    /// A macro argument is used outside a macro; the escape.
    ArgOutside,
    /// An expression lacks an operand.
    NotNumeric,
    /// A division by zero.
    DivZero,
    /// A list has no type.
    NoListType,
    /// No manual name is known.
    MissingName,
    /// A condition is unknown; its letter.
    BadCondition,
    /// A bound on repeated work is passed; its name.
    Loop,
    /// Another limit is passed; its name.
    Limit,
    /// A request is not supported; its name.
    UnsuppRequest,
    /// An escape is not supported; its first two bytes.
    UnsuppEscape,
    /// A table, equation or picture is not supported.
    Table,
}

impl NoteKind {
    /// The level of messages of this kind.
    pub fn level(self) -> Level
        ensures { result ≡ level_of self }
    {
        NOTE_KINDS[self as usize].0
    }

    /// The text of messages of this kind.
    pub fn text(self) -> &'static str
        ensures { result.now ≡ text_of self }
    {
        NOTE_KINDS[self as usize].1
    }
}

// The level and the text of each kind, in the order of `NoteKind`.
static NOTE_KINDS: [(Level, &str); 38] = [
    (Level::Style, "whitespace at end of input line"),
    (Level::Warning, "missing manual title, using \"\""),
    (Level::Warning, "unknown manual section"),
    (Level::Warning, "missing date, using \"\""),
    (Level::Warning, "missing Os macro, using \"\""),
    (Level::Warning, "skipping late prologue macro"),
    (Level::Warning, "no document body"),
    (Level::Warning, "content before first section header"),
    (Level::Warning, "skipping paragraph macro"),
    (Level::Warning, "line scope broken"),
    (Level::Warning, "skipping empty macro"),
    (Level::Warning, "blocks badly nested"),
    (Level::Warning, "blank line in fill mode, using .sp"),
    (Level::Warning, "tab in filled text"),
    (Level::Warning, "undefined string, using \"\""),
    (Level::Warning, "undefined escape, printing literally"),
    (Level::Warning, "invalid escape sequence"),
    (Level::Warning, "unknown character, using <?>"),
    (Level::Warning, "unknown font, skipping request"),
    (Level::Warning, "unterminated quoted argument"),
    (Level::Warning, "missing -width in -tag list, using 6n"),
    (Level::Error, "skipping bad character"),
    (Level::Error, "skipping unknown macro"),
    (Level::Error, "skipping item outside list"),
    (Level::Error, "skipping end of block that is not open"),
    (Level::Error, "fewer RS blocks open, skipping"),
    (Level::Error, "appending missing end of block"),
    (Level::Error, "using macro argument outside macro"),
    (Level::Error, "argument is not numeric, using 0"),
    (Level::Error, "divide by zero"),
    (Level::Error, "missing list type, using -item"),
    (Level::Error, "missing manual name, using \"\""),
    (Level::Error, "unknown condition, using false"),
    (Level::Error, "input stack limit exceeded, infinite loop?"),
    (Level::Error, "limit exceeded, skipping"),
    (Level::Unsupp, "unsupported roff request"),
    (Level::Unsupp, "unsupported escape sequence"),
    (Level::Unsupp, "unsupported table, equation or picture"),
];
