//! Words and delimiters as they are printed (mdoc(7), "MACRO SYNTAX" and "Delimiters").

ghost use Rattle.std.specs.Prelude.{◌≡◌, [], ◌∷◌};
ghost use Rattle.page_core_base.specs.laws.Views.{Came};
ghost use Rattle.page_roff_syntax.specs.laws.Views.{argument_view};
ghost use Rattle.page_sets_lines.specs.laws.Events.{event_view, step_view};
ghost use Rattle.page_sets_lines.specs.laws.Views.{ArgumentFits, IsShort};
ghost use Rattle.page_sets_lines.specs.Lines.{event_at, generated_word as spec_generated_word, word_event as spec_word_event};
ghost use Rattle.page_sets_mdoc_words.specs.Inlines as printed;
ghost use Rattle.page_sets_lines.specs.declared.events.Role.TheVariants as roles;
ghost use Rattle.page_sets_lines.specs.declared.events.Join.TheVariants.{Apart};

use page_core_base::{Font, Place};
use page_roff_syntax::Argument;
use page_sets_lines::{
    Event, EventKind, EventTaker, GeneratedText, Join, Leaf, LineStep, Role, event_at,
    generated_word, word_event,
};
use page_sets_mdoc_lines::{Delimiter, word_delimiter};

// A word that is no delimiter, between blanks.
fn real_word(number: u32, font: Option<Font>, word: Argument<&[u8]>) -> Event<&[u8]>
    ensures { event_view result ≡ spec_word_event number roles.Argument font Apart Apart (argument_view word.entry) }
{
    word_event(number, Role::Argument, font, Join::Apart, Join::Apart, word)
}

// A delimiter in its place.
fn delimiter_word(number: u32, delimiter: Delimiter, word: Argument<&[u8]>) -> Event<&[u8]>
    ensures { event_view result ≡ printed.delimiter_word number delimiter (argument_view word.entry) }
{
    let (before, after) = match delimiter {
        Delimiter::Opening => (Join::Apart, Join::Glued),
        Delimiter::Middle => (Join::Apart, Join::Apart),
        Delimiter::Closing => (Join::Glued, Join::Apart),
    };
    word_event(number, Role::Delimiter, Some(Font::R), before, after, word)
}

/// A word in a font, or a delimiter in its place.
pub fn printed_word(number: u32, font: Option<Font>, word: Argument<&[u8]>) -> Event<&[u8]>
    ensures event { event_view result ≡ printed.printed_word number font (argument_view word.entry) }
    ensures short { ArgumentFits (argument_view word.entry) → IsShort (event_view result) }
{
    match word_delimiter(word) {
        Some(delimiter) => delimiter_word(number, delimiter, word),
        None => real_word(number, font, word),
    }
}

/// Gives a word in a font, or a delimiter in its place.
#[inline(always)]
pub(crate) fn give_word<'a, O: EventTaker<'a>>(
    out: &mut O,
    number: u32,
    font: Option<Font>,
    word: Argument<&'a [u8]>,
)
    requires { ArgumentFits (argument_view word) }
    ensures { Came O.left out.old (printed.printed_word number font (argument_view word.entry) ∷ []) out.new }
{
    out.give(printed_word(number, font, word));
}

/// Gives a text of a macro's own.
#[inline(always)]
pub(crate) fn give_generated<'a, O: EventTaker<'a>>(
    out: &mut O,
    place: Place,
    text: GeneratedText,
    font: Option<Font>,
    before: Join,
    after: Join,
)
    ensures { Came O.left out.old (spec_generated_word place text font before after ∷ []) out.new }
{
    out.give(generated_word(place, text, font, before, after));
}

/// Gives what a macro changes in its line.
#[inline(always)]
pub(crate) fn give_line_step<'a, O: EventTaker<'a>>(
    out: &mut O,
    place: Place,
    step: LineStep<&'a [u8]>,
)
    requires { IsShort (printed.step_event place (step_view step)) }
    ensures { Came O.left out.old (printed.step_event place (step_view step.entry) ∷ []) out.new }
{
    out.give(step_event(place, step));
}

/// What a macro changes in its line.
pub fn step_event<'a>(place: Place, step: LineStep<&'a [u8]>) -> Event<&'a [u8]>
    ensures { event_view result ≡ printed.step_event place (step_view step.entry) }
{
    event_at(place, EventKind::Leaf(Leaf::Step(step)))
}

/// Whether a word is an opening delimiter.
#[tactic(auto, unfolding(crate::specs::Inlines::is_opening))]
pub fn is_opening(word: Argument<&[u8]>) -> bool
    ensures { result ≡ printed.is_opening (argument_view word.entry) }
{
    matches!(word_delimiter(word), Some(Delimiter::Opening))
}
