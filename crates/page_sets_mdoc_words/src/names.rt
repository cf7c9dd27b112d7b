//! `Nm`, and what `Nm Ar Pa Fl` print without words (mdoc(7), "Nm", "Ar", "Pa" and "Fl").

ghost use Rattle.std.specs.Prelude.{◌≡◌, ◌≤◌, [], ◌∷◌, ◌&&◌, length, if◌then◌else◌};
ghost use Rattle.page_sets_names.specs.declared.generated_texts.GeneratedText.TheVariants.{Flag, JoinedFlag};
ghost use Rattle.page_core_base.specs.laws.Views.{Came};
ghost use Rattle.page_sets_mdoc_lines.specs.machine.Cursors.{IsCursorOf};
ghost use Rattle.page_sets_mdoc_lines.specs.laws.Views.{words_view};
ghost use Rattle.page_sets_mdoc_words.specs.Inlines as inlines;
ghost use Rattle.page_sets_mdoc_words.specs.machine.Lone.{lone_event};

use crate::plain::give_printed;
use crate::printed::{give_generated, give_line_step, give_word, is_opening};
use page_core_base::{Font, LINE, Place};
use page_sets_lines::{EventTaker, GeneratedText, Join, LineStep, Role, word_event};
use page_sets_mdoc_lines::{Defaulted, Words, is_real};

/// What a macro prints where all its words are delimiters.
#[derive(Clone, Copy)]
pub(crate) enum Lone {
    /// `Nm`: the name of the manual.
    ManualName,
    /// `Ar` and `Pa`.
    Default(Defaulted),
    /// `Fl`: a dash, which is glued to a call right after it.
    Dash { follows: bool },
}

// The text of `Ar` or `Pa`.
fn default_text(default: Defaulted) -> GeneratedText
    ensures { result ≡ inlines.default_text default }
{
    match default {
        Defaulted::Files => GeneratedText::Files,
        Defaulted::Home => GeneratedText::Home,
    }
}

// The dash of `Fl`, knowing whether no word comes after it.
fn dash(follows: bool, is_last: bool) -> GeneratedText
    ensures { result ≡ (if is_last && follows then JoinedFlag else Flag) }
{
    if is_last && follows {
        GeneratedText::JoinedFlag
    } else {
        GeneratedText::Flag
    }
}

// Gives it, knowing whether no word comes after it.
fn give_lone_event<'a, O: EventTaker<'a>>(out: &mut O, place: Place, lone: Lone, is_last: bool)
    ensures { Came O.left out.old (lone_event place lone is_last ∷ []) out.new }
{
    match lone {
        Lone::ManualName => give_line_step(out, place, LineStep::ManualName),
        Lone::Default(default) => {
            let text = default_text(default);
            give_generated(out, place, text, Some(Font::I), Join::Apart, Join::Apart);
        }
        Lone::Dash { follows } => {
            let text = dash(follows, is_last);
            give_generated(out, place, text, Some(Font::B), Join::Apart, Join::Apart);
        }
    }
}

/// What a macro prints where all its words are delimiters, after the opening ones.
pub(crate) fn give_lone<'a, O: EventTaker<'a>>(
    out: &mut O,
    place: Place,
    lone: Lone,
    text: &'a [u8],
    words: Words,
)
    requires short { length text.now ≤ LINE }
    requires within { IsCursorOf text.now words.cursor }
    ensures { Came O.left out.old
        (inlines.lone place.line (lone_event place lone) (words_view text.now words)) out.new }
{
    let mut left = words;
    while let Some(word) = left.read(text) {
        if !is_opening(word) {
            give_lone_event(out, place, lone, false);
            give_word(out, place.line, None, word);
            give_printed(out, place.line, None, text, left);
            return;
        }
        give_word(out, place.line, None, word);
    }
    give_lone_event(out, place, lone, true);
}

/// `Nm`: the first word that is no delimiter is the name of the manual.
pub(crate) fn give_named<'a, O: EventTaker<'a>>(
    out: &mut O,
    place: Place,
    text: &'a [u8],
    words: Words,
)
    requires short { length text.now ≤ LINE }
    requires within { IsCursorOf text.now words.cursor }
    ensures { Came O.left out.old (inlines.named place (words_view text.now words)) out.new }
{
    let mut left = words;
    while let Some(word) = left.read(text) {
        if is_real(word) {
            let Place { line, column } = place;
            let role = Role::Name { column };
            out.give(word_event(line, role, Some(Font::B), Join::Apart, Join::Apart, word));
            give_printed(out, line, Some(Font::B), text, left);
            return;
        }
        give_word(out, place.line, None, word);
    }
}
