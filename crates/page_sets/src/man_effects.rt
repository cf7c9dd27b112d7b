//! What a macro does, beside its words (man(7), "MACRO REFERENCE").

ghost use Rattle.std.specs.Prelude.{◌≡◌, ◌≤◌, length, drop, option_map, IfSome};
ghost use Rattle.page_sets_lines.specs.laws.Events.{kind_view, opener_view, closer_view, leaf_view, text_view};
ghost use Rattle.page_sets_lines.specs.laws.Views.{CloserFits, IsShortKind, OpenerFits};
ghost use Rattle.page_sets_lines.specs.declared.events.EventKind.TheVariants as kinds;
ghost use Rattle.page_sets_lines.specs.Lines.{arguments_after, first_of, second_of, text_of};
ghost use Rattle.page_sets_lines.specs.declared.openers.Opener.TheVariants as openers;
ghost use Rattle.page_sets.specs.Man as man;

use crate::man_rows::{Closes, Effect, Opens, Sets};
use page_core_base::LINE;
use page_sets_lines::{
    Closer, EventKind, GeneratedWord, HeadingName, Join, Leaf, LineOpener, Opener, Prologue,
    TagName, first_of, read_after, with_argument,
};

// The text of the first argument that begins after this many bytes.
fn first_text(text: &[u8], start: usize) -> Option<&[u8]>
    requires short { length text.now ≤ LINE }
    requires within { start ≤ length text.now }
    ensures { text_view result ≡ text_of (first_of (arguments_after start text.now)) }
{
    match first_of(text, start) {
        Some(argument) => Some(argument.text),
        None => None,
    }
}

// What `IP` opens: its tag is the first argument, and its hang the second.
fn indented(text: &[u8], start: usize) -> Opener<&[u8]>
    requires short { length text.now ≤ LINE }
    requires within { start ≤ length text.now }
    ensures fits { OpenerFits (opener_view result) }
    ensures opener { let arguments = arguments_after start text.now
        in opener_view result ≡ openers.Indented (first_of arguments) (text_of (second_of arguments)) }
{
    match read_after(text, start) {
        Some((tag, end)) => Opener::Indented {
            tag: Some(tag),
            hang: first_text(text, end),
        },
        None => Opener::Indented {
            tag: None,
            hang: None,
        },
    }
}

// What a macro opens (`SH SS PP LP P TP IP HP RS UR MT SY`), with arguments that begin after this many bytes.
fn opener(opens: Opens, text: &[u8], start: usize) -> Option<Opener<&[u8]>>
    requires short { length text.now ≤ LINE }
    requires within { start ≤ length text.now }
    ensures fits { IfSome result (λ o. OpenerFits (opener_view o)) }
    ensures opener { option_map opener_view result ≡ man.opener opens (arguments_after start text.now) }
{
    match opens {
        Opens::Section => Some(Opener::Section),
        Opens::Subsection => Some(Opener::Subsection),
        Opens::Paragraph(name) => Some(Opener::Paragraph(name)),
        Opens::Tagged => Some(Opener::Tagged(first_text(text, start))),
        Opens::Indented => Some(indented(text, start)),
        Opens::Hanging => Some(Opener::Hanging(first_text(text, start))),
        Opens::RelativeMargin => Some(Opener::RelativeMargin(first_text(text, start))),
        Opens::Target(link) => Some(Opener::Target(link, first_of(text, start)?)),
        Opens::Syntax => Some(Opener::Syntax(first_of(text, start)?)),
    }
}

// What a macro closes (`RE`, `UE`, `ME`, `YS`).
fn closer(closes: Closes, text: &[u8], start: usize) -> Closer<&[u8]>
    requires short { length text.now ≤ LINE }
    requires within { start ≤ length text.now }
    ensures fits { CloserFits (closer_view result) }
    ensures closer { closer_view result ≡ man.closer closes (arguments_after start text.now) }
{
    match closes {
        Closes::RelativeMargin => Closer::RelativeMargin(first_text(text, start)),
        Closes::Target(link) => Closer::Target(link, first_of(text, start)),
        Closes::Syntax => Closer::Syntax,
    }
}

// What a macro (`TH EX EE PD TQ B I SM SB OP`) or request changes, or prints before its words.
fn leaf(sets: Sets, text: &[u8], start: usize) -> Leaf<&[u8]>
    requires short { length text.now ≤ LINE }
    requires within { start ≤ length text.now }
    ensures fits { IsShortKind (kinds.Leaf (leaf_view result)) }
    ensures leaf { leaf_view result ≡ man.leaf sets (drop start text.now) (arguments_after start text.now) }
{
    match sets {
        Sets::Request(request) => Leaf::Request(with_argument(request, first_of(text, start))),
        Sets::Title => Leaf::Prologue(Prologue::TH, &text[start..]),
        Sets::Example(begins) => Leaf::Example(begins),
        Sets::Distance => Leaf::Distance(first_text(text, start)),
        Sets::FurtherTag => Leaf::FurtherTag,
        Sets::FontBegins(font) => Leaf::Fonts(Some(font)),
        Sets::Mark(text) => Leaf::Generated(GeneratedWord {
            text,
            font: None,
            before: Join::Apart,
            after: Join::Glued,
        }),
    }
}

/// What a macro does, with arguments that begin after this many bytes.
pub(crate) fn effect_kind(effect: Effect, text: &[u8], start: usize) -> Option<EventKind<&[u8]>>
    requires short { length text.now ≤ LINE }
    requires within { start ≤ length text.now }
    ensures fits { IfSome result (λ kind. IsShortKind (kind_view kind)) }
    ensures kind { option_map kind_view result
        ≡ man.effect_kind effect (drop start text.now) (arguments_after start text.now) }
{
    match effect {
        Effect::Nothing => None,
        Effect::Opens(opens) => Some(EventKind::Open(opener(opens, text, start)?)),
        Effect::Closes(closes) => Some(EventKind::Close(closer(closes, text, start))),
        Effect::Sets(sets) => Some(EventKind::Leaf(leaf(sets, text, start))),
    }
}

/// The line scope that a macro opens.
pub(crate) fn line_scope(effect: Effect) -> Option<LineOpener>
    ensures { result ≡ man.line_scope effect }
{
    match effect {
        Effect::Opens(Opens::Section) => Some(LineOpener::Heading(HeadingName::SH)),
        Effect::Opens(Opens::Subsection) => Some(LineOpener::Heading(HeadingName::SS)),
        Effect::Opens(Opens::Tagged) => Some(LineOpener::Tag(TagName::TP)),
        Effect::Sets(Sets::FurtherTag) => Some(LineOpener::Tag(TagName::TQ)),
        _ => None,
    }
}
