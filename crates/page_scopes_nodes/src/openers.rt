//! What the scopes that go on after their line begin with, macro by macro (man(7), mdoc(7)).

ghost use Rattle.std.specs.Prelude.{◌≡◌, Some, option_map};
ghost use Rattle.page_core_base.specs.laws.Views.{Came};
ghost use Rattle.page_core_base.specs.declared.cells.Font.TheVariants.{B};
ghost use Rattle.page_roff_syntax.specs.laws.Views.{argument_view};
ghost use Rattle.page_sets_lines.specs.laws.Views.{ArgumentFits, BlockOpenerFits, GivenFits, OpenerFits};
ghost use Rattle.page_scopes_blocks.specs.Lists as tags;
ghost use Rattle.page_scopes_labels.specs.declared.labels.Label.TheVariants.{Section};
ghost use Rattle.page_scopes_layout.specs.Contexts.{entered_context, subsection_begun};
ghost use Rattle.page_scopes_phrases.specs.LineWords.{argument_word};
ghost use Rattle.page_scopes_phrases.specs.laws.Views.{GivesOutcome};
ghost use Rattle.page_scopes_words.specs.Words.{columns_value};
ghost use Rattle.page_sets_lines.specs.declared.events.Join.TheVariants.{Apart};
ghost use Rattle.page_scopes_nodes.specs.Begins as openers;
ghost use Rattle.page_sets_lines.specs.laws.Events.{block_opener_view, given_view, opener_view, text_view};
ghost use Rattle.page_scopes_layout.specs.declared.contexts.PageSection.TheVariants.{Other};

use crate::PageLayout;
use crate::targets::report_target;
use page_core_base::{Font, NoteKind, PieceOut, Place};
use page_roff_syntax::Argument;
use page_scopes_blocks::{TagPlace, give_block, give_item, give_list, give_tag};
use page_scopes_labels::{Explicit, Label};
use page_scopes_layout::{Context, give_begin, hold};
use page_scopes_phrases::{Formatting, argument_word};
use page_scopes_words::{give_columns, name_columns, report};
use page_sets_lines::{BlockOpener, Join, Opener, ParagraphName};

// The columns of a number that may be given, with its messages.
fn give_given<O: PieceOut>(out: &mut O, place: Place, number: Option<&[u8]>) -> Option<i32>
    ensures came { Came O.left out.old (openers.given_notes place (text_view number.entry)) out.new }
    ensures columns { result ≡ option_map columns_value (text_view number.entry) }
{
    match number {
        None => None,
        Some(text) => Some(give_columns(out, place, text)),
    }
}

// A scope begins in the context of its front, and the row ends.
#[inline(always)]
fn begin<O: PieceOut>(out: &mut O, label: Label, front: Context, state: &mut Formatting)
    ensures { GivesOutcome O.left out.old (openers.begun label front state.old) out.new state.new }
{
    state.context = front;
    give_begin(out, label, &state.context);
    state.end_row();
}

// `SH` and `Sh`.
fn begin_section<O: PieceOut>(out: &mut O, page: &PageLayout, state: &mut Formatting)
    ensures { GivesOutcome O.left out.old (openers.begun Section
        (record (subsection_begun page.now.indent (entered_context state.old.context)) { section = Other }) state.old)
        out.new state.new }
{
    let front = state.context.entered().section_begun(page.indent);
    begin(out, Label::Section, front, state);
}

// `SS` and `Ss`, which stay in their section.
fn begin_subsection<O: PieceOut>(out: &mut O, page: &PageLayout, state: &mut Formatting)
    ensures { GivesOutcome O.left out.old (openers.begun Section (subsection_begun page.now.indent (entered_context state.old.context)) state.old)
        out.new state.new }
{
    let front = state.context.entered().subsection_begun(page.indent);
    begin(out, Label::Section, front, state);
}

// `PP`, `LP` and `P`.
fn begin_plain<O: PieceOut>(out: &mut O, place: Place, name: ParagraphName, state: &mut Formatting)
    ensures { GivesOutcome O.left out.old (openers.plain place name state.old) out.new state.new }
{
    if state.has_content {
        let front = state.context.entered().paragraph_begun();
        begin(out, Label::Paragraph, front, state);
    } else {
        report(out, NoteKind::SkipPara, place, name.name().as_bytes());
        state.context = state.context.entered();
    }
}

// `TP`, and `IP` without its tag.
fn begin_indented<O: PieceOut>(
    out: &mut O,
    place: Place,
    hang: Option<&[u8]>,
    state: &mut Formatting,
)
    ensures { GivesOutcome O.left out.old (openers.indented place (text_view hang.entry) state.old) out.new state.new }
{
    let columns = give_given(out, place, hang);
    let front = state.context.entered().indented_begun(columns);
    begin(out, Label::Paragraph, front, state);
}

// The tag of `IP`.
fn give_given_tag<O: PieceOut>(
    out: &mut O,
    line: u32,
    tag: Option<Argument<&[u8]>>,
    state: &mut Formatting,
)
    requires { GivenFits (given_view tag) }
    ensures { GivesOutcome O.left out.old (openers.given_tag line (given_view tag.entry) state.old) out.new state.new }
{
    if let Some(argument) = tag {
        let tag_place = TagPlace {
            margin: state.context.margin,
            hang: hold(i64::from(state.context.hang)),
        };
        let word = argument_word(None, Join::Apart, argument);
        give_tag(out, tag_place, line, &word, state);
    }
}

// `HP`.
fn begin_hanging<O: PieceOut>(
    out: &mut O,
    place: Place,
    hang: Option<&[u8]>,
    state: &mut Formatting,
)
    ensures { GivesOutcome O.left out.old (openers.hanging place (text_view hang.entry) state.old) out.new state.new }
{
    let columns = give_given(out, place, hang);
    let front = state.context.entered().hanging_begun(columns);
    begin(out, Label::Paragraph, front, state);
}

// `RS`.
fn begin_margin<O: PieceOut>(
    out: &mut O,
    place: Place,
    columns: Option<&[u8]>,
    state: &mut Formatting,
)
    ensures { GivesOutcome O.left out.old (openers.margin place (text_view columns.entry) state.old) out.new state.new }
{
    let further = give_given(out, place, columns);
    let front = state.context.entered().margin_begun(further);
    begin(out, Label::Explicit(Explicit::RelativeMargin), front, state);
}

// The columns of the name of `SY`, and of the blank after it.
fn name_hang(page: &PageLayout, name: Argument<&[u8]>) -> u32
    requires { ArgumentFits (argument_view name) }
    ensures { result ≡ openers.name_hang page.now (argument_view name.entry) }
{
    name_columns(page.output, name.is_quoted(), name.text) + 1
}

// The name of `SY`, at a margin.
fn give_name<O: PieceOut>(
    out: &mut O,
    line: u32,
    tag: TagPlace,
    name: Argument<&[u8]>,
    state: &mut Formatting,
)
    requires { ArgumentFits (argument_view name) }
    ensures { GivesOutcome O.left out.old (tags.tag tag line (argument_word (Some B) Apart (argument_view name.entry)) state.old)
        out.new state.new }
{
    let word = argument_word(Some(Font::B), Join::Apart, name);
    give_tag(out, tag, line, &word, state);
}

// `SY`.
fn begin_synopsis<O: PieceOut>(
    out: &mut O,
    page: &PageLayout,
    line: u32,
    name: Argument<&[u8]>,
    state: &mut Formatting,
)
    requires { ArgumentFits (argument_view name) }
    ensures { GivesOutcome O.left out.old (openers.synopsis page.now line (argument_view name.entry) state.old)
        out.new state.new }
{
    let hang = name_hang(page, name);
    let margin = state.context.text_margin();
    let front = state.context.entered().syntax_begun(margin, hang);
    begin(out, Label::Explicit(Explicit::Syntax), front, state);
    let tag = TagPlace {
        margin,
        hang: hold(i64::from(hang)),
    };
    give_name(out, line, tag, name, state);
}

// `Bl`, and the other blocks of mdoc(7).
#[inline(never)]
fn begin_block<O: PieceOut>(
    out: &mut O,
    page: &PageLayout,
    place: Place,
    opener: &BlockOpener<&[u8]>,
    state: &mut Formatting,
)
    requires { BlockOpenerFits (block_opener_view opener.now) }
    ensures { GivesOutcome O.left out.old (openers.block page.now place (block_opener_view opener.now) state.old)
        out.new state.new }
{
    match *opener {
        BlockOpener::List {
            kind,
            is_compact,
            options,
        } => give_list(out, page.output, place, kind, is_compact, options, state),
        _ => give_block(out, page.output, place, opener, state),
    }
}

/// Gives what an opener at a place begins with.
#[tactic(auto, unfolding(crate::specs::Begins::opened))]
pub(crate) fn give_opened<O: PieceOut>(
    out: &mut O,
    page: &PageLayout,
    place: Place,
    opener: &Opener<&[u8]>,
    state: &mut Formatting,
)
    requires { OpenerFits (opener_view opener.now) }
    ensures { GivesOutcome O.left out.old (openers.opened page.now place (opener_view opener.now) state.old) out.new state.new }
{
    match *opener {
        Opener::Item => give_item(out, place, state),
        Opener::Section => begin_section(out, page, state),
        Opener::Subsection => begin_subsection(out, page, state),
        Opener::Paragraph(name) => begin_plain(out, place, name, state),
        Opener::Tagged(hang) => begin_indented(out, place, hang, state),
        Opener::Indented { tag, hang } => {
            begin_indented(out, place, hang, state);
            give_given_tag(out, place.line, tag, state);
        }
        Opener::Hanging(hang) => begin_hanging(out, place, hang, state),
        Opener::RelativeMargin(columns) => begin_margin(out, place, columns, state),
        Opener::Target(_, target) => {
            report_target(out, place, target);
            state.context = state.context.entered();
        }
        Opener::Syntax(name) => begin_synopsis(out, page, place.line, name, state),
        Opener::Block(opener) => begin_block(out, page, place, &opener, state),
    }
}
