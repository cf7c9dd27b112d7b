//! The sentences of `Ex` and `Rv` (mdoc(7), "Ex" and "Rv").

ghost use Rattle.std.specs.Prelude.{◌≡◌, ◌≤◌, [], ◌∷◌, false, length, if◌then◌else◌, None};
ghost use Rattle.page_sets_lines.specs.declared.line_steps.LineStep.TheVariants.{ManualName};
ghost use Rattle.page_core_base.specs.laws.Views.{Came};
ghost use Rattle.page_roff_syntax.specs.laws.Views.{argument_view};
ghost use Rattle.page_sets_lines.specs.laws.Views.{ArgumentFits};
ghost use Rattle.page_sets_mdoc_lines.specs.machine.Cursors.{IsCursorOf};
ghost use Rattle.page_sets_mdoc_lines.specs.laws.Views.{words_view};
ghost use Rattle.page_sets_mdoc_words.specs.Inlines.{step_event};
ghost use Rattle.page_sets_mdoc_words.specs.Sentences as sentences;

use crate::printed::{give_generated, give_line_step};
use page_core_base::{Font, LINE, Place};
use page_roff_syntax::Argument;
use page_sets_lines::{EventTaker, GeneratedText, Join, LineStep, Role, word_event};
use page_sets_mdoc_lines::{Sentence, Words};

/// How many names there are.
#[derive(Clone, Copy)]
pub(crate) enum NameCount {
    Zero,
    One,
    Two,
    /// Three or more.
    More,
}

// How many names there are.
fn name_count(text: &[u8], names: Words) -> NameCount
    requires short { length text.now ≤ LINE }
    requires within { IsCursorOf text.now names.cursor }
    ensures { result ≡ sentences.name_count (words_view text.now names) }
{
    let mut ahead = names;
    if ahead.read(text).is_none() {
        return NameCount::Zero;
    }
    if ahead.read(text).is_none() {
        return NameCount::One;
    }
    match ahead.read(text) {
        None => NameCount::Two,
        Some(_) => NameCount::More,
    }
}

// Whether there are several.
fn is_plural(count: NameCount) -> bool
    ensures { result ≡ sentences.is_plural count }
{
    matches!(count, NameCount::Two | NameCount::More)
}

// Whether there is a comma after a name of this many, of which some are left.
fn has_comma(all: NameCount, left: NameCount) -> bool
    ensures { result ≡ sentences.has_comma all left }
{
    matches!(all, NameCount::More) && !matches!(left, NameCount::Zero)
}

// What is glued to a name.
fn name_mark(sentence: Sentence, has_comma: bool) -> Option<GeneratedText>
    ensures { result ≡ sentences.name_mark sentence has_comma }
{
    match sentence {
        Sentence::Exit if has_comma => Some(GeneratedText::Comma),
        Sentence::Exit => None,
        Sentence::Return if has_comma => Some(GeneratedText::CallComma),
        Sentence::Return => Some(GeneratedText::Call),
    }
}

// The rest of the sentence.
fn sentence_end(sentence: Sentence, is_plural: bool) -> GeneratedText
    ensures { result ≡ sentences.sentence_end sentence is_plural }
{
    match sentence {
        Sentence::Exit if is_plural => GeneratedText::UtilitiesExit,
        Sentence::Exit => GeneratedText::UtilityExits,
        Sentence::Return if is_plural => GeneratedText::FunctionsReturn,
        Sentence::Return => GeneratedText::FunctionReturns,
    }
}

// A word of the sentence that is not its last one.
fn give_sentence_word<'a, O: EventTaker<'a>>(out: &mut O, place: Place, text: GeneratedText)
    ensures { Came O.left out.old (sentences.sentence_word place text ∷ []) out.new }
{
    give_generated(out, place, text, None, Join::Apart, Join::Parted);
}

// A name in the sentence.
fn give_name<'a, O: EventTaker<'a>>(out: &mut O, number: u32, name: Argument<&'a [u8]>)
    requires { ArgumentFits (argument_view name) }
    ensures { Came O.left out.old (sentences.sentence_name number (argument_view name.entry) ∷ []) out.new }
{
    let font = Some(Font::B);
    out.give(word_event(
        number,
        Role::Argument,
        font,
        Join::Apart,
        Join::Parted,
        name,
    ));
}

// How the rest of the sentence is beside what comes before it; the name of the manual does not part it.
fn end_join(all: NameCount) -> Join
    ensures { result ≡ sentences.end_join all }
{
    match all {
        NameCount::Zero => Join::Parted,
        NameCount::One | NameCount::Two | NameCount::More => Join::Apart,
    }
}

// What is glued to a name.
fn give_mark<'a, O: EventTaker<'a>>(out: &mut O, place: Place, mark: Option<GeneratedText>)
    ensures { Came O.left out.old (sentences.marked place mark []) out.new }
{
    if let Some(text) = mark {
        give_generated(out, place, text, None, Join::Glued, Join::Parted);
    }
}

// The word before the last of several names.
fn give_and<'a, O: EventTaker<'a>>(out: &mut O, place: Place, left: NameCount)
    ensures { Came O.left out.old (sentences.joined place left []) out.new }
{
    if let NameCount::One = left {
        give_sentence_word(out, place, GeneratedText::And);
    }
}

// All names of this many, and the rest of the sentence.
#[tactic(auto, using(crate::proofs::WordPrintLemmas::name_goes_on))]
fn give_names<'a, O: EventTaker<'a>>(
    out: &mut O,
    place: Place,
    sentence: Sentence,
    all: NameCount,
    text: &'a [u8],
    names: Words,
)
    requires short { length text.now ≤ LINE }
    requires within { IsCursorOf text.now names.cursor }
    ensures { Came O.left out.old
        (sentences.names_events place sentence all (words_view text.now names)) out.new }
{
    let mut left = names;
    while let Some(name) = left.read(text) {
        let others = name_count(text, left);
        give_name(out, place.line, name);
        give_mark(out, place, name_mark(sentence, has_comma(all, others)));
        give_and(out, place, others);
    }
    let end = sentence_end(sentence, is_plural(all));
    give_generated(out, place, end, None, end_join(all), Join::Apart);
}

// The name of the manual, where no name is given, with what is glued to it.
fn give_manual_name<'a, O: EventTaker<'a>>(
    out: &mut O,
    place: Place,
    sentence: Sentence,
    all: NameCount,
)
    ensures { Came O.left out.old (if sentences.is_zero all
        then step_event place ManualName ∷ sentences.marked place (sentences.name_mark sentence false) []
        else []) out.new }
{
    if let NameCount::Zero = all {
        give_line_step(out, place, LineStep::ManualName);
        give_mark(out, place, name_mark(sentence, false));
    }
}

/// Gives a sentence with its names, or with the name of the manual where none is given.
#[tactic(auto, using(crate::proofs::WordPrintLemmas::given_by))]
pub fn give_sentence<'a, O: EventTaker<'a>>(
    out: &mut O,
    place: Place,
    sentence: Sentence,
    text: &'a [u8],
    names: Words,
)
    requires short { length text.now ≤ LINE }
    requires within { IsCursorOf text.now names.cursor }
    ensures { Came O.left out.old
        (sentences.sentence_events place sentence (words_view text.now names)) out.new }
{
    let all = name_count(text, names);
    give_sentence_word(out, place, GeneratedText::The);
    give_manual_name(out, place, sentence, all);
    give_names(out, place, sentence, all, text, names);
}
