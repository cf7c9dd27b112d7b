//! The table of macros: what each needs and what it gives (man(7), "MACRO REFERENCE").

ghost use Rattle.std.specs.Prelude.{◌≡◌};
ghost use Rattle.page_sets.specs.Man as rows;

use page_core_base::{Font, list_for, row_named};
use page_roff_syntax::LayoutRequest;
use page_sets_lines::{FontMacro, GeneratedText, LineOpener, Link, ParagraphName, layout_request};

/// A scope that a macro opens.
#[derive(Clone, Copy)]
pub(crate) enum Opens {
    Section,
    Subsection,
    Paragraph(ParagraphName),
    Tagged,
    Indented,
    Hanging,
    RelativeMargin,
    Target(Link),
    Syntax,
}

/// A scope that a macro closes.
#[derive(Clone, Copy)]
pub(crate) enum Closes {
    RelativeMargin,
    Target(Link),
    Syntax,
}

/// What a macro or request changes, or prints before its words.
#[derive(Clone, Copy)]
pub(crate) enum Sets {
    Request(LayoutRequest),
    Title,
    Example(bool),
    Distance,
    FurtherTag,
    FontBegins(Font),
    Mark(GeneratedText),
}

/// What a macro does, beside its words.
#[derive(Clone, Copy)]
pub(crate) enum Effect {
    Nothing,
    Opens(Opens),
    Closes(Closes),
    Sets(Sets),
}

/// What a macro does without arguments.
#[derive(Clone, Copy)]
pub(crate) enum Alone {
    /// What it does with arguments.
    Same,
    /// Nothing: it is empty.
    Empty,
    /// It opens a scope over the next line.
    Scope(LineOpener),
}

/// Of which arguments a missing closing quote is reported early, before the macro has its effect.
#[derive(Clone, Copy)]
pub(crate) enum Quotes {
    /// Of none: all arguments are printed, and it is reported then.
    Printed,
    /// Of all but this many at the front.
    After(usize),
    /// `After`, of a macro that begins the body of a page.
    BodyAfter(usize),
}

/// What becomes of a macro's arguments.
#[derive(Clone, Copy)]
pub(crate) enum Words {
    /// They are no words.
    Nothing,
    /// All are words.
    Plain,
    /// All are words, in two fonts in turn, glued.
    Alternating { font: Font, other: Font },
    /// The key and the value of `OP`.
    Option,
    /// The name, the section and the suffix of `MR`.
    Reference,
    /// All after the first, which is the macro's own: `UE`, `ME` and `SY`.
    Further,
}

/// What comes after a macro's words.
#[derive(Clone, Copy)]
pub(crate) enum Last {
    Nothing,
    FontEnds,
    Mark(GeneratedText),
}

/// A row of the table.
#[derive(Clone, Copy)]
pub(crate) struct ManRow {
    pub(crate) alone: Alone,
    /// Whether it breaks the line scopes that are open.
    pub(crate) breaks: bool,
    pub(crate) quotes: Quotes,
    pub(crate) effect: Effect,
    pub(crate) words: Words,
    pub(crate) last: Last,
}

// A request, or a macro that breaks no line scope and prints nothing.
macro_rules! quiet {
    ($sets:expr) => {
        ManRow {
            alone: Alone::Same,
            breaks: false,
            quotes: Quotes::After(0),
            effect: Effect::Sets($sets),
            words: Words::Nothing,
            last: Last::Nothing,
        }
    };
}

// A macro that breaks line scopes: what it does without arguments, how many of them are printed, and its effect.
macro_rules! block {
    ($alone:expr, $quotes:expr, $effect:expr) => {
        ManRow {
            alone: $alone,
            breaks: true,
            quotes: $quotes,
            effect: $effect,
            words: Words::Nothing,
            last: Last::Nothing,
        }
    };
}

// A macro that opens a scope, of which this many arguments are printed.
macro_rules! opening {
    ($printed:literal, $opens:expr) => {
        block!(
            Alone::Same,
            Quotes::BodyAfter($printed),
            Effect::Opens($opens)
        )
    };
}

// A macro that opens a scope only if it has an argument, which is printed later.
macro_rules! opening_with_argument {
    ($opens:expr) => {
        block!(Alone::Empty, Quotes::BodyAfter(0), Effect::Opens($opens))
    };
}

// A macro that closes a scope.
macro_rules! closing {
    ($closes:expr) => {
        block!(Alone::Same, Quotes::After(0), Effect::Closes($closes))
    };
}

// A macro that opens or closes a scope and prints its first argument there; the others are words.
macro_rules! with_further_words {
    ($alone:expr, $effect:expr) => {
        ManRow {
            alone: $alone,
            breaks: true,
            quotes: Quotes::Printed,
            effect: $effect,
            words: Words::Further,
            last: Last::Nothing,
        }
    };
}

// A macro without effect.
macro_rules! ignored {
    () => {
        block!(Alone::Same, Quotes::After(0), Effect::Nothing)
    };
}

// A heading: its arguments are words.
macro_rules! heading {
    ($opens:expr) => {
        ManRow {
            alone: Alone::Same,
            breaks: true,
            quotes: Quotes::Printed,
            effect: Effect::Opens($opens),
            words: Words::Plain,
            last: Last::Nothing,
        }
    };
}

// Words in one font; without any it opens a scope over the next line.
macro_rules! font_words {
    ($name:expr, $font:expr) => {
        ManRow {
            alone: Alone::Scope(LineOpener::FontWords($name)),
            breaks: false,
            quotes: Quotes::Printed,
            effect: Effect::Sets(Sets::FontBegins($font)),
            words: Words::Plain,
            last: Last::FontEnds,
        }
    };
}

// A macro that needs words, which are in no font of its own, or in several.
macro_rules! needs_words {
    ($quotes:expr, $effect:expr, $words:expr, $last:expr) => {
        ManRow {
            alone: Alone::Empty,
            breaks: false,
            quotes: $quotes,
            effect: $effect,
            words: $words,
            last: $last,
        }
    };
}

// Words in two fonts, in turn.
macro_rules! alternating {
    ($font:expr, $other:expr) => {
        needs_words!(
            Quotes::Printed,
            Effect::Nothing,
            Words::Alternating {
                font: $font,
                other: $other,
            },
            Last::Nothing
        )
    };
}

// The row of a macro.
fn macro_row(name: &[u8]) -> Option<ManRow>
    ensures { result ≡ rows.macro_row name.now }
{
    row_named(list_for(&MACROS, name), name)
}

// The row of a request.
fn request_row(name: &[u8]) -> Option<ManRow>
    ensures { result ≡ rows.request_row name.now }
{
    let request = layout_request(name)?;
    Some(quiet!(Sets::Request(request)))
}

/// The row of a name, if a macro or request has it.
pub(crate) fn row_of(name: &[u8]) -> Option<ManRow>
    ensures { result ≡ rows.row_of name.now }
{
    if let Some(row) = macro_row(name) {
        return Some(row);
    }
    request_row(name)
}

// The table: the names by their first letter. The place of a list is its letter's number: from 1 for `A`.
static MACROS: [&[(&[u8], ManRow)]; 26] = [
    &[], // before A
    &[(b"AT", ignored!())], // A
    &[ // B
        (b"B", font_words!(FontMacro::B, Font::B)),
        (b"BR", alternating!(Font::B, Font::R)),
        (b"BI", alternating!(Font::B, Font::I)),
    ],
    &[], // C
    &[(b"DT", ignored!())], // D
    &[ // E
        (b"EX", quiet!(Sets::Example(true))),
        (b"EE", quiet!(Sets::Example(false))),
    ],
    &[], // F
    &[], // G
    &[(b"HP", opening!(0, Opens::Hanging))], // H
    &[ // I
        (b"I", font_words!(FontMacro::I, Font::I)),
        (b"IP", opening!(1, Opens::Indented)),
        (b"IR", alternating!(Font::I, Font::R)),
        (b"IB", alternating!(Font::I, Font::B)),
    ],
    &[], // J
    &[], // K
    &[(b"LP", opening!(0, Opens::Paragraph(ParagraphName::LP)))], // L
    &[ // M
        (b"MT", opening_with_argument!(Opens::Target(Link::MT))),
        (
            b"ME",
            with_further_words!(Alone::Same, Effect::Closes(Closes::Target(Link::MT))),
        ),
        (
            b"MR",
            needs_words!(
                Quotes::BodyAfter(3),
                Effect::Nothing,
                Words::Reference,
                Last::Nothing
            ),
        ),
    ],
    &[], // N
    // O
    &[(
        b"OP",
        needs_words!(
            Quotes::BodyAfter(2),
            Effect::Sets(Sets::Mark(GeneratedText::OpenBracket)),
            Words::Option,
            Last::Mark(GeneratedText::CloseBracket)
        ),
    )],
    &[ // P
        (b"PP", opening!(0, Opens::Paragraph(ParagraphName::PP))),
        (b"P", opening!(0, Opens::Paragraph(ParagraphName::P))),
        (b"PD", quiet!(Sets::Distance)),
    ],
    &[], // Q
    &[ // R
        (b"RB", alternating!(Font::R, Font::B)),
        (b"RI", alternating!(Font::R, Font::I)),
        (b"RS", opening!(0, Opens::RelativeMargin)),
        (b"RE", closing!(Closes::RelativeMargin)),
    ],
    &[ // S
        (b"SH", heading!(Opens::Section)),
        (b"SS", heading!(Opens::Subsection)),
        (b"SM", font_words!(FontMacro::SM, Font::R)),
        (b"SB", font_words!(FontMacro::SB, Font::B)),
        (
            b"SY",
            with_further_words!(Alone::Empty, Effect::Opens(Opens::Syntax)),
        ),
    ],
    &[ // T
        (b"TP", opening!(0, Opens::Tagged)),
        (
            b"TQ",
            block!(
                Alone::Same,
                Quotes::BodyAfter(0),
                Effect::Sets(Sets::FurtherTag)
            ),
        ),
        (b"TH", quiet!(Sets::Title)),
    ],
    &[ // U
        (b"UR", opening_with_argument!(Opens::Target(Link::UR))),
        (
            b"UE",
            with_further_words!(Alone::Same, Effect::Closes(Closes::Target(Link::UR))),
        ),
        (b"UC", ignored!()),
    ],
    &[], // V
    &[], // W
    &[], // X
    &[(b"YS", closing!(Closes::Syntax))], // Y
];
