//! Events of mdoc(7) as they are spelled here: each between blanks, by the name of its macro, with a text after `=` where it has one. `head` and
//! `subhead` are the headings of `Sh` and `Ss`, `in` and `out` delimiters before and after words, `w`, `b` and `i` words in no font of their own, in
//! bold and in italic, `field` and `argument` are the next field of a reference and the next argument of a function, `ends` is the end of `Fn`, `row`,
//! `include`, `hang` and `hung` are what macros do in the SYNOPSIS, and `tail` is what ends the enclosures before a line's last delimiters. `It` is an
//! item, and `label` its head; `Bl` takes its arguments, which are the rest of its line.

ghost use Rattle.std.specs.Prelude.{IfSome};
ghost use Rattle.page_sets_lines.specs.laws.Views.{ArgumentFits, KindFits, GivenFits};
ghost use Rattle.page_roff_syntax.specs.laws.Views.{argument_view};
ghost use Rattle.page_sets_lines.specs.laws.Events.{kind_view, given_view, word_view};

use page_core_base::Font;
use page_roff_syntax::{Argument, Quoting};
use page_sets_lines::{
    BlockCloser, BlockOpener, BodyParagraphName, Closer, EventKind, GeneratedText, GeneratedWord,
    HeadingName, Join, Leaf, LineOpener, LineStep, ListKind, Marks, OneLineName, Opener, Quotation,
    Role, SynopsisStep, Word, read_list_options,
};

// The bytes at most of a text, and the columns of a line.
const MOST: usize = 1_000;

// The marks of an enclosure that ends with its line.
fn marks_of(name: &str) -> Option<Marks> {
    match name {
        "Aq" => Some(Marks::Angle),
        "Bq" | "Op" => Some(Marks::Square),
        "Brq" => Some(Marks::Curly),
        "Pq" => Some(Marks::Round),
        "Dq" => Some(Marks::Double),
        "Sq" | "Ql" => Some(Marks::Single),
        "Qq" => Some(Marks::Straight),
        _ => None,
    }
}

// What a macro begins that another one ends.
fn opened_of(name: &str) -> Option<Quotation> {
    match name {
        "Ao" => Some(Quotation::Ao),
        "Bo" => Some(Quotation::Bo),
        "Bro" => Some(Quotation::Bro),
        "Do" => Some(Quotation::Do),
        "Oo" => Some(Quotation::Oo),
        "Po" => Some(Quotation::Po),
        "Qo" => Some(Quotation::Qo),
        "So" => Some(Quotation::So),
        _ => None,
    }
}

// What that one ends.
fn closed_of(name: &str) -> Option<Quotation> {
    match name {
        "Ac" => Some(Quotation::Ao),
        "Bc" => Some(Quotation::Bo),
        "Brc" => Some(Quotation::Bro),
        "Dc" => Some(Quotation::Do),
        "Oc" => Some(Quotation::Oo),
        "Pc" => Some(Quotation::Po),
        "Qc" => Some(Quotation::Qo),
        "Sc" => Some(Quotation::So),
        _ => None,
    }
}

// What needs no text.
fn bare_kind<'a>(name: &str) -> Option<EventKind<&'a [u8]>>
    ensures { IfSome result (λ kind. KindFits (kind_view kind)) }
{
    match name {
        "Sh" => Some(EventKind::Open(Opener::Section)),
        "Ss" => Some(EventKind::Open(Opener::Subsection)),
        "head" => Some(EventKind::LineScope(LineOpener::Heading(HeadingName::Sh))),
        "subhead" => Some(EventKind::LineScope(LineOpener::Heading(HeadingName::Ss))),
        "Nd" => Some(EventKind::LineScope(LineOpener::Description)),
        "D1" => Some(EventKind::LineScope(LineOpener::OneLine(OneLineName::D1))),
        "Pp" => Some(EventKind::Leaf(Leaf::Step(LineStep::BodyParagraph(BodyParagraphName::Pp)))),
        "It" => Some(EventKind::Open(Opener::Item)),
        "label" => Some(EventKind::LineScope(LineOpener::Head)),
        "tail" => Some(EventKind::Close(Closer::Enclosures)),
        "field" => Some(EventKind::Leaf(Leaf::Step(LineStep::NextField))),
        _ => block_kind(name),
    }
}

// What has marks of its own.
fn marked_kind<'a>(name: &str, text: Option<Argument<&'a [u8]>>) -> Option<EventKind<&'a [u8]>>
    requires { GivenFits (given_view text) }
    ensures { IfSome result (λ kind. KindFits (kind_view kind)) }
{
    if let Some(marks) = marks_of(name) {
        return Some(EventKind::LineScope(LineOpener::Enclosure(marks)));
    }
    if let Some(quotation) = opened_of(name) {
        let opener = BlockOpener::Quotation(quotation);
        return Some(EventKind::Open(Opener::Block(opener)));
    }
    if let Some(quotation) = closed_of(name) {
        let closer = BlockCloser::Quotation(quotation);
        return Some(EventKind::Close(Closer::Block(closer)));
    }
    match name {
        "Eo" => Some(EventKind::Open(Opener::Block(BlockOpener::Custom(text)))),
        "Ec" => Some(EventKind::Close(Closer::Block(BlockCloser::Custom(text)))),
        "Xo" => Some(EventKind::Open(Opener::Block(BlockOpener::Extension))),
        "Xc" => Some(EventKind::Close(Closer::Block(BlockCloser::Extension))),
        _ => display_kind(name, text),
    }
}

// A display, with its offset as its text.
fn display_kind<'a>(name: &str, offset: Option<Argument<&'a [u8]>>) -> Option<EventKind<&'a [u8]>>
    requires { GivenFits (given_view offset) }
    ensures { IfSome result (λ kind. KindFits (kind_view kind)) }
{
    let (is_literal, is_compact) = match name {
        "Bd" => (false, false),
        "Bd-compact" => (false, true),
        "Bd-literal" => (true, false),
        _ => return None,
    };
    Some(EventKind::Open(Opener::Block(BlockOpener::Display {
        is_literal,
        is_compact,
        offset,
    })))
}

// A block of lines without a text.
fn block_kind<'a>(name: &str) -> Option<EventKind<&'a [u8]>>
    ensures { IfSome result (λ kind. KindFits (kind_view kind)) }
{
    let opener = match name {
        "Bf" => BlockOpener::Fonts(None),
        "Bf-italic" => BlockOpener::Fonts(Some(Font::I)),
        "Bk" => BlockOpener::Keep,
        "Rs" => BlockOpener::Reference,
        _ => return block_end_kind(name),
    };
    Some(EventKind::Open(Opener::Block(opener)))
}

// The end of one.
fn block_end_kind<'a>(name: &str) -> Option<EventKind<&'a [u8]>>
    ensures { IfSome result (λ kind. KindFits (kind_view kind)) }
{
    let closer = match name {
        "Ed" => BlockCloser::Display,
        "Ef" => BlockCloser::Fonts,
        "Ek" => BlockCloser::Keep,
        "Re" => BlockCloser::Reference,
        "Fc" => BlockCloser::Function,
        "El" => BlockCloser::List,
        _ => return step_kind(name),
    };
    Some(EventKind::Close(Closer::Block(closer)))
}

// What a macro changes in its line, or does in the SYNOPSIS.
fn step_kind<'a>(name: &str) -> Option<EventKind<&'a [u8]>>
    ensures { IfSome result (λ kind. KindFits (kind_view kind)) }
{
    let step = match name {
        "argument" => LineStep::NextArgument,
        "Ta" => LineStep::NextColumn,
        "ends" => LineStep::FunctionEnd,
        "Sm" => LineStep::Spacing(None),
        "Sm-on" => LineStep::Spacing(Some(true)),
        "Sm-off" => LineStep::Spacing(Some(false)),
        "row" => LineStep::Synopsis(SynopsisStep::Break),
        "include" => LineStep::Synopsis(SynopsisStep::Include),
        "hang" => LineStep::Synopsis(SynopsisStep::NameBegins),
        "hung" => LineStep::Synopsis(SynopsisStep::NameEnds),
        _ => return None,
    };
    Some(EventKind::Leaf(Leaf::Step(step)))
}

// A word as it is spelled: its role and font, and how it is beside others.
fn word_of<'a>(name: &str, column: u32, argument: Argument<&'a [u8]>) -> Word<&'a [u8]>
    requires { ArgumentFits (argument_view argument) }
    ensures { ArgumentFits (word_view result).arg }
{
    let (role, font) = match name {
        "Nm" => (Role::Name { column }, Some(Font::B)),
        "b" => (Role::Argument, Some(Font::B)),
        "i" => (Role::Argument, Some(Font::I)),
        "in" | "out" => (Role::Delimiter, Some(Font::R)),
        _ => (Role::Argument, None),
    };
    let (before, after) = match name {
        "in" => (Join::Apart, Join::Glued),
        "out" => (Join::Glued, Join::Apart),
        _ => (Join::Apart, Join::Apart),
    };
    Word {
        arg: argument,
        role,
        font,
        before,
        after,
    }
}

// A text that a macro prints itself.
fn generated_kind<'a>(text: GeneratedText, font: Font, after: Join) -> EventKind<&'a [u8]>
    ensures { KindFits (kind_view result) }
{
    EventKind::Leaf(Leaf::Generated(GeneratedWord {
        text,
        font: Some(font),
        before: Join::Apart,
        after,
    }))
}

// What has no text.
fn unworded_kind<'a>(name: &str) -> EventKind<&'a [u8]>
    ensures { KindFits (kind_view result) }
{
    match name {
        "Nm" => EventKind::Leaf(Leaf::Step(LineStep::ManualName)),
        "Ns" => EventKind::Leaf(Leaf::Step(LineStep::Glue)),
        "Fl" => generated_kind(GeneratedText::Dash, Font::B, Join::Glued),
        "Ar" => generated_kind(GeneratedText::Files, Font::I, Join::Apart),
        "Ex" => generated_kind(GeneratedText::UtilityExits, Font::R, Join::Apart),
        _ => EventKind::End { fills: true },
    }
}

/// What an event does, by its name in a column and its text.
pub(crate) fn spelled_kind<'a>(
    name: &str,
    column: u32,
    text: Option<Argument<&'a [u8]>>,
) -> EventKind<&'a [u8]>
    requires { GivenFits (given_view text) }
    ensures { KindFits (kind_view result) }
{
    if let Some(kind) = bare_kind(name) {
        return kind;
    }
    if let Some(kind) = marked_kind(name, text) {
        return kind;
    }
    match text {
        None => unworded_kind(name),
        Some(argument) => {
            if name == "Lk" {
                return EventKind::Leaf(Leaf::Step(LineStep::Uri(argument)));
            }
            if name == "Fo" {
                return EventKind::Open(Opener::Block(BlockOpener::Function(argument)));
            }
            EventKind::Word(word_of(name, column, argument))
        }
    }
}

/// The list that begins with these arguments.
pub(crate) fn spelled_list<'a>(options: &'a [u8]) -> EventKind<&'a [u8]>
    ensures { KindFits (kind_view result) }
{
    if options.len() > MOST {
        return EventKind::End { fills: true };
    }
    let said = read_list_options(options, 0);
    EventKind::Open(Opener::Block(BlockOpener::List {
        kind: said.kind.unwrap_or(ListKind::Item),
        is_compact: said.is_compact,
        options,
    }))
}

/// The name and the text of an event that begins in a column.
pub(crate) fn read_spelled(part: &str, column: u32) -> (&str, Option<Argument<&[u8]>>)
    ensures { GivenFits (given_view result.1) }
{
    let Some((name, text)) = part.split_once('=') else {
        return (part, None);
    };
    if text.len() > MOST || name.len() > MOST || column > MOST as u32 {
        return (part, None);
    }
    let argument = Argument {
        text: text.as_bytes(),
        column: column + name.len() as u32 + 1,
        quoting: Quoting::Bare,
    };
    (name, Some(argument))
}
