//! The macros that can be among words, by their rows (mdoc(7), "MACRO REFERENCE").

ghost use Rattle.std.specs.Prelude.{◌≡◌, ◌≤◌, [], ◌∷◌, None, Some, length};
ghost use Rattle.page_core_base.specs.laws.Views.{Came};
ghost use Rattle.page_sets_lines.specs.laws.Events.{event_view, given_view, step_view};
ghost use Rattle.page_sets_lines.specs.laws.Views.{IsShort};
ghost use Rattle.page_sets_lines.specs.Lines.{event_at, generated_word};
ghost use Rattle.page_sets_lines.specs.declared.events.EventKind.TheVariants as kinds;
ghost use Rattle.page_sets_lines.specs.declared.openers.LineOpener.TheVariants as lines;
ghost use Rattle.page_sets_names.specs.declared.generated_texts.GeneratedText.TheVariants.{Apostrophe};
ghost use Rattle.page_sets_lines.specs.declared.events.Join.TheVariants.{Glued};
ghost use Rattle.page_sets_mdoc_lines.specs.machine.Cursors.{IsCursorOf};
ghost use Rattle.page_sets_mdoc_lines.specs.laws.Views.{AreFound, words_view};
ghost use Rattle.page_sets_mdoc_words.specs.Inlines as inlines;
ghost use Rattle.page_sets_mdoc_words.specs.Inlines.{printed, step_event};
ghost use Rattle.page_sets_mdoc_words.specs.Sentences as synopses;

use crate::enclosures::{give_closed, give_opened};
use crate::flags::give_flags;
use crate::functions::{give_function, give_next_arguments};
use crate::links::give_link;
use crate::names::{Lone, give_lone, give_named};
use crate::plain::{MacroName, give_found, give_printed, give_refused};
use crate::printed::{give_line_step, step_event};
use crate::references::give_reference;
use crate::synopses::{after_words, before_words};
use crate::systems::{give_bsd, system_word};
use crate::taken_words::{give_author, give_prefix};
use page_core_base::{Font, LINE, Place};
use page_sets_lines::{
    Event, EventKind, EventTaker, GeneratedText, Join, LineOpener, LineStep, Marks, SynopsisStep,
    event_at, generated_word,
};
use page_sets_mdoc_lines::{Inline, MacroWords, Words};

// An event, and then the words.
fn give_before<'a, O: EventTaker<'a>>(
    out: &mut O,
    event: Event<&'a [u8]>,
    number: u32,
    text: &'a [u8],
    words: Words,
)
    requires short { length text.now ≤ LINE }
    requires within { IsCursorOf text.now words.cursor }
    requires fits { IsShort (event_view event) }
    ensures { Came O.left out.old (event_view event.entry ∷ printed number None (words_view text.now words)) out.new }
{
    out.give(event);
    give_printed(out, number, None, text, words);
}

// A step of its line, and then the words.
fn give_step<'a, O: EventTaker<'a>>(
    out: &mut O,
    place: Place,
    step: LineStep<&'a [u8]>,
    text: &'a [u8],
    words: Words,
)
    requires short { length text.now ≤ LINE }
    requires within { IsCursorOf text.now words.cursor }
    requires fits { IsShort (step_event place (step_view step)) }
    ensures { Came O.left out.old (step_event place (step_view step.entry) ∷ printed place.line None (words_view text.now words)) out.new }
{
    give_before(out, step_event(place, step), place.line, text, words);
}

// What begins an enclosure over the rest of its line, and then the words.
fn give_enclosed<'a, O: EventTaker<'a>>(
    out: &mut O,
    place: Place,
    marks: Marks,
    text: &'a [u8],
    words: Words,
)
    requires short { length text.now ≤ LINE }
    requires within { IsCursorOf text.now words.cursor }
    ensures { Came O.left out.old (event_at place (kinds.LineScope (lines.Enclosure marks))
        ∷ printed place.line None (words_view text.now words)) out.new }
{
    let kind = EventKind::LineScope(LineOpener::Enclosure(marks));
    give_before(out, event_at(place, kind), place.line, text, words);
}

// Words in a font, of a macro that needs one.
fn give_font_words<'a, O: EventTaker<'a>>(
    out: &mut O,
    name: MacroName<'a>,
    font: Font,
    text: &'a [u8],
    words: &MacroWords<'a>,
)
    requires short { length text.now ≤ LINE }
    requires found { AreFound text.now words.now }
    ensures { Came O.left out.old (inlines.with_words name.entry.place name.entry.text.now
        (words_view text.now words.now.all)
        (printed name.entry.place.line (Some font) (words_view text.now words.now.all))) out.new }
{
    if words.has_real {
        give_found(out, name.place.line, Some(font), text, words);
    } else {
        give_refused(out, name, text, words.all);
    }
}

// The text of `Ap`.
fn apostrophe<'a>(place: Place) -> Event<&'a [u8]>
    ensures { event_view result ≡ generated_word place Apostrophe None Glued Glued }
{
    let text = GeneratedText::Apostrophe;
    generated_word(place, text, None, Join::Glued, Join::Glued)
}

// A macro with its words.
#[inline(always)]
fn give_inline<'a, O: EventTaker<'a>>(
    out: &mut O,
    name: MacroName<'a>,
    inline: Inline,
    text: &'a [u8],
    words: &MacroWords<'a>,
)
    requires short { length text.now ≤ LINE }
    requires found { AreFound text.now words.now }
    ensures { Came O.left out.old (inlines.inline_events name.entry.place name.entry.text.now inline
        (given_view words.now.taken) (words_view text.now words.now.all) words.now.follows) out.new }
{
    let place = name.place;
    let (all, has_real) = (words.all, words.has_real);
    match inline {
        Inline::Words(font) => give_font_words(out, name, font, text, words),
        Inline::Declaration => give_font_words(out, name, Font::B, text, words),
        Inline::TypeName => give_font_words(out, name, Font::I, text, words),
        Inline::Author => give_author(out, name, words.taken, text, all, has_real),
        Inline::Name if has_real => give_named(out, place, text, all),
        Inline::Name => give_lone(out, place, Lone::ManualName, text, all),
        Inline::Defaulted(_) if has_real => give_found(out, place.line, Some(Font::I), text, words),
        Inline::Defaulted(default) => {
            give_lone(out, place, Lone::Default(default), text, all);
        }
        Inline::Flag if has_real => give_flags(out, place.line, text, all),
        Inline::Flag => {
            let follows = words.follows;
            give_lone(out, place, Lone::Dash { follows }, text, all);
        }
        Inline::Arguments if has_real => give_next_arguments(out, place, text, all),
        Inline::Reference if has_real => give_reference(out, place.line, text, all),
        Inline::Function if has_real => give_function(out, place, text, words),
        Inline::Link if has_real => give_link(out, place, text, words),
        Inline::Arguments | Inline::Reference | Inline::Function | Inline::Link => {
            give_refused(out, name, text, all);
        }
        Inline::System(system) => {
            give_before(out, system_word(place, system), place.line, text, all);
        }
        Inline::Bsd => give_bsd(out, place, text, all),
        Inline::NoSpace => give_step(out, place, LineStep::Glue, text, all),
        Inline::Apostrophe => give_before(out, apostrophe(place), place.line, text, all),
        Inline::NextColumn => give_step(out, place, LineStep::NextColumn, text, all),
        Inline::Prefix => give_prefix(out, name, words.taken, text, all),
        Inline::Enclosure(marks) => give_enclosed(out, place, marks, text, all),
        Inline::Opens(pair) => give_opened(out, name, pair, text, words),
        Inline::Closes(pair) => give_closed(out, name, pair, words.taken, text, all),
    }
}

// What a macro does in the SYNOPSIS before its words, or after them.
fn give_synopsis<'a, O: EventTaker<'a>>(out: &mut O, place: Place, step: Option<SynopsisStep>)
    ensures { Came O.left out.old (synopses.preceded place step []) out.new }
{
    if let Some(step) = step {
        give_line_step(out, place, LineStep::Synopsis(step));
    }
}

/// Gives a macro with its words, the first of its line or not, with what it does in the SYNOPSIS.
#[tactic(auto, using(crate::proofs::WordPrintLemmas::framed_by))]
pub fn give_macro<'a, O: EventTaker<'a>>(
    out: &mut O,
    first: bool,
    name: MacroName<'a>,
    inline: Inline,
    text: &'a [u8],
    words: &MacroWords<'a>,
)
    requires short { length text.now ≤ LINE }
    requires found { AreFound text.now words.now }
    ensures { Came O.left out.old (synopses.placed_events first name.entry.place name.entry.text.now inline
        (given_view words.now.taken) (words_view text.now words.now.all) words.now.follows) out.new }
{
    let before = before_words(first, inline, words.has_real);
    let after = after_words(first, inline, words.has_real);
    give_synopsis(out, name.place, before);
    give_inline(out, name, inline, text, words);
    give_synopsis(out, name.place, after);
}
