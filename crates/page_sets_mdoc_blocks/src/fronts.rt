//! What a macro that begins a line does before its words, given event after event (mdoc(7), "MACRO REFERENCE").

ghost use Rattle.std.specs.Prelude.{◌≡◌, [], ◌∷◌, ◌++◌, false, unwrap_or};
ghost use Rattle.page_core_base.specs.laws.Views.{Came};
ghost use Rattle.page_sets_lines.specs.laws.Events.{kind_view, opener_view, block_opener_view, block_closer_view};
ghost use Rattle.page_sets_lines.specs.laws.Views.{BlockCloserFits, BlockOpenerFits, IsShortKind, OpenerFits};
ghost use Rattle.page_sets_mdoc_blocks.specs.Fronts as fronts;
ghost use Rattle.page_sets_lines.specs.declared.events.EventKind.TheVariants as kinds;
ghost use Rattle.page_core_base.specs.declared.note_kinds.NoteKind.TheVariants.{Unterminated};

use crate::displays::{display_of, first_font};
use crate::line_arguments::{first_text, has_real_word, is_first_quoted};
use crate::lists::{list_note, list_of};
use crate::sentences::{option_quote, spacing_of};
use page_core_base::{NoteKind, Place};
use page_roff_syntax::LayoutRequest;
use page_sets_lines::{
    BlockCloser, BlockOpener, Closer, ControlLine, EventKind, EventTaker, HeadingName, Leaf,
    LineOpener, LineStep, Opener, event_at, with_argument,
};
use page_sets_mdoc_lines::{BlockMacro, LineMacro};

// An event at the name of the macro that begins a line.
fn give_at_name<'a, O: EventTaker<'a>>(
    out: &mut O,
    line: &ControlLine<'_>,
    kind: EventKind<&'a [u8]>,
)
    requires { IsShortKind (kind_view kind) }
    ensures { Came O.left out.old (fronts.at_name line.now (kind_view kind.entry) ∷ []) out.new }
{
    out.give(event_at(line.name_place(), kind));
}

// The message about a quote.
fn quote_kind<'a>(begins_body: bool) -> EventKind<&'a [u8]>
    ensures { kind_view result ≡ kinds.Note Unterminated [] false begins_body }
{
    let detail: &[u8] = &[];
    EventKind::Note {
        kind: NoteKind::Unterminated,
        detail,
        is_quoted: false,
        begins_body,
    }
}

// The message about a quote in a column, if it lacks its last one.
fn give_quote<'a, O: EventTaker<'a>>(
    out: &mut O,
    number: u32,
    begins_body: bool,
    column: Option<u32>,
)
    ensures { Came O.left out.old (fronts.quote_events number begins_body column) out.new }
{
    if let Some(column) = column {
        let place = Place {
            line: number,
            column,
        };
        out.give(event_at(place, quote_kind(begins_body)));
    }
}

// The detail of a message about the arguments of a line.
fn note_detail<'a>(kind: NoteKind, line: &ControlLine<'a>) -> &'a [u8]
    ensures { result.now ≡ fronts.note_detail kind line.now }
{
    match kind {
        NoteKind::UnknownFont => first_text(line).unwrap_or(&[]),
        _ => &[],
    }
}

// Whether the detail of a message about the arguments of a line is that of a quoted one.
fn note_is_quoted(kind: NoteKind, line: &ControlLine<'_>) -> bool
    ensures { result ≡ fronts.note_is_quoted kind line.now }
{
    match kind {
        NoteKind::UnknownFont => is_first_quoted(line),
        _ => false,
    }
}

// A message about the arguments of a line, if there is one; it may begin the body of the page.
fn give_note<'a, O: EventTaker<'a>>(out: &mut O, line: &ControlLine<'a>, kind: Option<NoteKind>)
    ensures { Came O.left out.old (fronts.note_events line.now kind) out.new }
{
    if let Some(kind) = kind {
        let kind = EventKind::Note {
            kind,
            detail: note_detail(kind, line),
            is_quoted: note_is_quoted(kind, line),
            begins_body: true,
        };
        give_at_name(out, line, kind);
    }
}

// What a block of lines opens with.
#[tactic(auto, using(crate::proofs::FrontLemmas::opens_fit))]
fn opener_of<'a>(block: BlockMacro, line: &ControlLine<'a>) -> BlockOpener<&'a [u8]>
    ensures opener { block_opener_view result ≡ fronts.opener_of block line.now }
    ensures fits { BlockOpenerFits (block_opener_view result) }
{
    line.len_law();
    match block {
        BlockMacro::List => list_of(line),
        BlockMacro::Display => display_of(line),
        BlockMacro::Fonts => BlockOpener::Fonts(first_font(line)),
        BlockMacro::Keep => BlockOpener::Keep,
        BlockMacro::Reference => BlockOpener::Reference,
    }
}

// What a block of lines closes with.
fn closer_of<'a>(block: BlockMacro) -> BlockCloser<&'a [u8]>
    ensures closer { block_closer_view result ≡ fronts.closer_of block }
    ensures fits { BlockCloserFits (block_closer_view result) }
{
    match block {
        BlockMacro::List => BlockCloser::List,
        BlockMacro::Display => BlockCloser::Display,
        BlockMacro::Fonts => BlockCloser::Fonts,
        BlockMacro::Keep => BlockCloser::Keep,
        BlockMacro::Reference => BlockCloser::Reference,
    }
}

// The message about the arguments of a block.
fn block_note(block: BlockMacro, line: &ControlLine<'_>) -> Option<NoteKind>
    ensures { result ≡ fronts.block_note block line.now }
{
    match block {
        BlockMacro::List => list_note(line),
        BlockMacro::Fonts if first_font(line).is_none() => Some(NoteKind::UnknownFont),
        _ => None,
    }
}

// A macro that prints none of its arguments: the message about a quote, and then what it does.
fn give_quoted<'a, O: EventTaker<'a>>(
    out: &mut O,
    line: &ControlLine<'a>,
    kind: EventKind<&'a [u8]>,
)
    requires fits { IsShortKind (kind_view kind) }
    ensures { Came O.left out.old (fronts.missing_quote false line.now
        ++ (fronts.at_name line.now (kind_view kind.entry) ∷ [])) out.new }
{
    give_quote(out, line.number(), false, line.missing_quote());
    give_at_name(out, line, kind);
}

// A block of lines begins.
fn give_begin<'a, O: EventTaker<'a>>(out: &mut O, block: BlockMacro, line: &ControlLine<'a>)
    ensures { Came O.left out.old (fronts.begin_front block line.now) out.new }
{
    give_quote(out, line.number(), true, line.missing_quote());
    give_note(out, line, block_note(block, line));
    let kind = EventKind::Open(Opener::Block(opener_of(block, line)));
    give_at_name(out, line, kind);
}

// The scope of a heading.
fn heading_opener<'a>(name: HeadingName) -> Opener<&'a [u8]>
    ensures opener { opener_view result ≡ fronts.heading_opener name }
    ensures fits { OpenerFits (opener_view result) }
{
    match name {
        HeadingName::SH | HeadingName::Sh => Opener::Section,
        HeadingName::SS | HeadingName::Ss => Opener::Subsection,
    }
}

// A field of a reference: one without a word is refused.
fn give_field<'a, O: EventTaker<'a>>(out: &mut O, line: &ControlLine<'a>)
    ensures { Came O.left out.old
        (fronts.field_front (fronts.has_real_word line.now) line.now) out.new }
{
    if has_real_word(line) {
        give_at_name(out, line, EventKind::Leaf(Leaf::Step(LineStep::NextField)));
    } else {
        give_refusal(out, NoteKind::EmptyMacro, line);
    }
}

// A file of declarations: one without a word is refused.
fn give_include<'a, O: EventTaker<'a>>(out: &mut O, line: &ControlLine<'a>)
    ensures { Came O.left out.old
        (fronts.include_front (fronts.has_real_word line.now) line.now) out.new }
{
    if !has_real_word(line) {
        give_refusal(out, NoteKind::EmptyMacro, line);
    }
}

// What the first argument of `Sm` says.
fn give_spacing<'a, O: EventTaker<'a>>(out: &mut O, line: &ControlLine<'a>)
    ensures { Came O.left out.old (fronts.spacing_front line.now) out.new }
{
    give_quote(out, line.number(), false, line.missing_quote());
    if let Some(on) = spacing_of(first_text(line)) {
        give_at_name(
            out,
            line,
            EventKind::Leaf(Leaf::Step(LineStep::Spacing(on))),
        );
    }
}

/// Gives a message that names the macro of a line.
pub fn give_refusal<'a, O: EventTaker<'a>>(out: &mut O, kind: NoteKind, line: &ControlLine<'a>)
    ensures { Came O.left out.old (fronts.refusal kind line.now ∷ []) out.new }
{
    let kind = EventKind::Note {
        kind,
        detail: line.name(),
        is_quoted: false,
        begins_body: false,
    };
    give_at_name(out, line, kind);
}

/// Gives what a request that changes rows does in a line.
pub fn give_request<'a, O: EventTaker<'a>>(
    out: &mut O,
    request: LayoutRequest,
    line: &ControlLine<'a>,
)
    ensures { Came O.left out.old (fronts.request_front request line.now) out.new }
{
    give_quoted(
        out,
        line,
        EventKind::Leaf(Leaf::Request(with_argument(request, line.first_argument()))),
    );
}

/// Gives what a macro does in a line that it begins, before its words.
pub fn give_front<'a, O: EventTaker<'a>>(out: &mut O, begins: LineMacro, line: &ControlLine<'a>)
    ensures { Came O.left out.old (fronts.block_front begins line.now) out.new }
{
    match begins {
        LineMacro::Inline(_) => {}
        LineMacro::Prologue(name) => {
            give_quoted(
                out,
                line,
                EventKind::Leaf(Leaf::Prologue(name, line.rest())),
            );
        }
        LineMacro::Heading(name) => {
            give_at_name(out, line, EventKind::Open(heading_opener(name)));
            give_at_name(out, line, EventKind::LineScope(LineOpener::Heading(name)));
        }
        LineMacro::Paragraph(name) => {
            give_quoted(
                out,
                line,
                EventKind::Leaf(Leaf::Step(LineStep::BodyParagraph(name))),
            );
        }
        LineMacro::Description => {
            give_at_name(out, line, EventKind::LineScope(LineOpener::Description));
        }
        LineMacro::OneLine(name) => {
            give_at_name(out, line, EventKind::LineScope(LineOpener::OneLine(name)));
        }
        LineMacro::Begins(block) => give_begin(out, block, line),
        LineMacro::Ends(block) => {
            give_quoted(out, line, EventKind::Close(Closer::Block(closer_of(block))));
        }
        LineMacro::Item => {
            give_at_name(out, line, EventKind::Open(Opener::Item));
            give_at_name(out, line, EventKind::LineScope(LineOpener::Head));
        }
        LineMacro::Field(_) => give_field(out, line),
        LineMacro::Sentence(_) => give_quote(out, line.number(), true, option_quote(line)),
        LineMacro::Include => give_include(out, line),
        LineMacro::Spacing => give_spacing(out, line),
        LineMacro::Target => give_quote(out, line.number(), false, line.missing_quote()),
    }
}
