//! Events as short texts: column, kind, name and texts, as in `2 open TP 4`. A quoted text keeps the quotes that it has. A `+` before or after the
//! kind says that no blank is there, and a `_` that one is there after `Sm off` too.

use page_core_base::{Font, NoteKind};
use page_roff_syntax::{Argument, Quoting};
use page_sets::{
    BlockCloser, BlockOpener, Closer, Event, EventKind, GeneratedWord, Join, Leaf, LineStep,
    Opener, RequestLeaf, Role, SynopsisStep, Word,
};
use page_test_streams::shown;

// An event to be spelled.
#[derive(Drop)]
struct Spelled<'a> {
    before: Join,
    kind: &'static str,
    after: Join,
    name: &'static str,
    first: Option<Argument<&'a [u8]>>,
    second: Option<Argument<&'a [u8]>>,
}

fn alone<'a>(kind: &'static str, name: &'static str) -> Spelled<'a> {
    with(kind, name, None)
}

fn with<'a>(
    kind: &'static str,
    name: &'static str,
    first: Option<Argument<&'a [u8]>>,
) -> Spelled<'a> {
    Spelled {
        before: Join::Apart,
        kind,
        after: Join::Apart,
        name,
        first,
        second: None,
    }
}

fn bare(text: &[u8]) -> Argument<&[u8]> {
    Argument {
        text,
        column: 1,
        quoting: Quoting::Bare,
    }
}

fn given<'a>(text: Option<&'a [u8]>) -> Option<Argument<&'a [u8]>> {
    match text {
        Some(text) => Some(bare(text)),
        None => None,
    }
}

fn font_name(font: Option<Font>) -> &'static str {
    match font {
        None => "",
        Some(Font::R) => "R",
        Some(Font::B) => "B",
        Some(Font::I) => "I",
        Some(Font::BI) => "BI",
    }
}

fn spelled_word<'a>(word: Word<&'a [u8]>) -> Spelled<'a> {
    let kind = match word.role {
        Role::Line => "line",
        Role::Argument => "word",
        Role::Delimiter => "delimiter",
        Role::Name { .. } => "name",
    };
    Spelled {
        before: word.before,
        after: word.after,
        ..with(kind, font_name(word.font), Some(word.arg))
    }
}

fn spelled_generated<'a>(word: GeneratedWord) -> Spelled<'a> {
    let text = bare(word.text.text().as_bytes());
    Spelled {
        before: word.before,
        after: if word.text.joins_next() {
            Join::Glued
        } else {
            word.after
        },
        ..with("mark", font_name(word.font), Some(text))
    }
}

// How a display is opened: literal or not, and compact or not.
fn display_kind(is_literal: bool, is_compact: bool) -> &'static str {
    match (is_literal, is_compact) {
        (false, false) => "open",
        (false, true) => "open compact",
        (true, false) => "open literal",
        (true, true) => "open literal compact",
    }
}

fn spelled_block_opener<'a>(opener: BlockOpener<&'a [u8]>) -> Spelled<'a> {
    let name = opener.block().name();
    match opener {
        BlockOpener::List {
            is_compact,
            options,
            ..
        } => with(display_kind(false, is_compact), name, Some(bare(options))),
        BlockOpener::Custom(mark) => with("open", name, mark),
        BlockOpener::Display {
            is_literal,
            is_compact,
            offset,
        } => with(display_kind(is_literal, is_compact), name, offset),
        BlockOpener::Function(function) => with("open", name, Some(function)),
        BlockOpener::Fonts(Some(font)) => {
            with("open", name, Some(bare(font_name(Some(font)).as_bytes())))
        }
        _ => alone("open", name),
    }
}

fn spelled_block_closer<'a>(closer: BlockCloser<&'a [u8]>) -> Spelled<'a> {
    let name = closer.block().closer_name();
    match closer {
        BlockCloser::Custom(mark) => with("close", name, mark),
        _ => alone("close", name),
    }
}

fn spelled_opener<'a>(opener: Opener<&'a [u8]>) -> Spelled<'a> {
    match opener {
        Opener::Item => alone("open", "It"),
        Opener::Section => alone("open", "SH"),
        Opener::Subsection => alone("open", "SS"),
        Opener::Paragraph(name) => alone("open", name.name()),
        Opener::Tagged(hang) => with("open", "TP", given(hang)),
        Opener::Indented { tag, hang } => Spelled {
            second: given(hang),
            ..with("open", "IP", tag)
        },
        Opener::Hanging(hang) => with("open", "HP", given(hang)),
        Opener::RelativeMargin(columns) => with("open", "RS", given(columns)),
        Opener::Target(link, target) => with("open", link.name(), Some(target)),
        Opener::Syntax(name) => with("open", "SY", Some(name)),
        Opener::Block(opener) => spelled_block_opener(opener),
    }
}

fn spelled_closer<'a>(closer: Closer<&'a [u8]>) -> Spelled<'a> {
    match closer {
        Closer::Line => alone("close", "lines"),
        Closer::RelativeMargin(number) => with("close", "RE", given(number)),
        Closer::Target(link, suffix) => with("close", link.closer_name(), suffix),
        Closer::Syntax => alone("close", "YS"),
        Closer::Enclosures => alone("close", "enclosures"),
        Closer::Block(closer) => spelled_block_closer(closer),
    }
}

fn spelled_request<'a>(request: RequestLeaf<&'a [u8]>) -> Spelled<'a> {
    match request {
        RequestLeaf::Break => alone("request", "br"),
        RequestLeaf::Space(rows) => with("request", "sp", given(rows)),
        RequestLeaf::Font(name) => with("request", "ft", name),
        RequestLeaf::Shift(columns) => with("request", "in", given(columns)),
        RequestLeaf::Literal(begins) => alone("request", if begins { "nf" } else { "fi" }),
    }
}

// Whether blanks are between words.
fn spacing_name(on: Option<bool>) -> &'static str {
    match on {
        None => "",
        Some(true) => "on",
        Some(false) => "off",
    }
}

// What a macro does in the SYNOPSIS.
fn synopsis_name(step: SynopsisStep) -> &'static str {
    match step {
        SynopsisStep::Break => "row",
        SynopsisStep::Include => "include",
        SynopsisStep::NameBegins => "hang",
        SynopsisStep::NameEnds => "hung",
    }
}

fn spelled_step<'a>(step: LineStep<&'a [u8]>) -> Spelled<'a> {
    match step {
        LineStep::NextColumn => alone("column", ""),
        LineStep::Glue => alone("glue", ""),
        LineStep::BodyParagraph(name) => alone("paragraph", name.name()),
        LineStep::Uri(uri) => with("uri", "", Some(uri)),
        LineStep::ManualName => alone("manual", ""),
        LineStep::NextField => alone("field", ""),
        LineStep::NextArgument => alone("argument", ""),
        LineStep::FunctionEnd => alone("ends", ""),
        LineStep::Spacing(on) => alone("spacing", spacing_name(on)),
        LineStep::Synopsis(step) => alone(synopsis_name(step), ""),
    }
}

fn spelled_leaf<'a>(leaf: Leaf<&'a [u8]>) -> Spelled<'a> {
    match leaf {
        Leaf::BlankLine => alone("blank", ""),
        Leaf::Wordless(text) => with("wordless", "", Some(bare(text))),
        Leaf::Request(request) => spelled_request(request),
        Leaf::Prologue(name, rest) => with("title", name.name(), Some(bare(rest))),
        Leaf::Generated(word) => spelled_generated(word),
        Leaf::Example(begins) => alone("example", if begins { "EX" } else { "EE" }),
        Leaf::Distance(rows) => with("distance", "PD", given(rows)),
        Leaf::Fonts(font) => alone("fonts", font_name(font)),
        Leaf::FurtherTag => alone("tag", "TQ"),
        Leaf::Step(step) => spelled_step(step),
    }
}

fn spelled_note<'a>(kind: NoteKind, detail: &'a [u8], begins_body: bool) -> Spelled<'a> {
    let name = match kind {
        NoteKind::EmptyMacro => "empty",
        NoteKind::UnknownMacro => "unknown",
        NoteKind::Unterminated => "quote",
        NoteKind::NoListType => "type",
        NoteKind::MissingWidth => "width",
        NoteKind::UnknownFont => "font",
        _ => "other",
    };
    let detail = if detail.is_empty() {
        None
    } else {
        Some(bare(detail))
    };
    with(if begins_body { "note!" } else { "note" }, name, detail)
}

fn spelling_of<'a>(kind: EventKind<&'a [u8]>) -> Spelled<'a> {
    match kind {
        EventKind::Word(word) => spelled_word(word),
        EventKind::Open(opener) => spelled_opener(opener),
        EventKind::Close(closer) => spelled_closer(closer),
        EventKind::LineScope(opener) => alone("scope", opener.name()),
        EventKind::Leaf(leaf) => spelled_leaf(leaf),
        EventKind::Raw(text) => with("raw", "", Some(bare(text))),
        EventKind::End { fills } => alone(if fills { "filled" } else { "end" }, ""),
        EventKind::Note {
            kind,
            detail,
            begins_body,
            ..
        } => spelled_note(kind, detail, begins_body),
    }
}

// How a word is beside another.
fn sign(join: Join) -> &'static str {
    match join {
        Join::Apart => "",
        Join::Glued => "+",
        Join::Parted => "_",
    }
}

fn show_text(rt: &HostRuntime, text: Option<Argument<&[u8]>>) {
    let Some(argument) = text else {
        return;
    };
    let (before, after) = match argument.quoting {
        Quoting::Bare => ("", ""),
        Quoting::Closed => ("\"", "\""),
        Quoting::Unclosed => ("\"", ""),
    };
    let _ = print!(rt; " {before}{}{after}", shown(argument.text));
}

/// Shows an event after a mark, which of the first one is an arrow.
pub(crate) fn show_event(rt: &HostRuntime, is_first: bool, event: Event<&[u8]>) {
    let mark = if is_first { " -> " } else { "; " };
    let spelled = spelling_of(event.kind);
    let (before, after) = (sign(spelled.before), sign(spelled.after));
    let _ = print!(rt;
        "{mark}{} {before}{}{after}",
        event.place.column, spelled.kind
    );
    if !spelled.name.is_empty() {
        let _ = print!(rt; " {}", spelled.name);
    }
    show_text(rt, spelled.first);
    show_text(rt, spelled.second);
}
