//! The words that blocks and line scopes of mdoc(7) print themselves (mdoc(7), "MACRO REFERENCE").

ghost use Rattle.std.specs.Prelude.{◌≡◌, None, codes};
ghost use Rattle.page_roff_syntax.specs.laws.Views.{argument_view};
ghost use Rattle.page_scopes_blocks.specs.Blocks as words;
ghost use Rattle.page_scopes_labels.specs.declared.labels.Explicit.TheVariants as explicits;
ghost use Rattle.page_scopes_labels.specs.declared.labels.Label.TheVariants as labels;
ghost use Rattle.page_scopes_phrases.specs.LineWords.{argument_word, own_word};
ghost use Rattle.page_sets_lines.specs.laws.Views.{ArgumentFits, BlockOpenerFits, FitsAt, GivenFits};
ghost use Rattle.page_scopes_phrases.specs.laws.Views.{GivesOutcome, phrase_view};
ghost use Rattle.page_scopes_phrases.specs.Phrases.{own_phrase, phrase_outcome};
ghost use Rattle.page_sets_lines.specs.laws.Events.{block_opener_view, given_view, word_view};
ghost use Rattle.page_sets_lines.specs.declared.blocks.BlockOpener.TheVariants.{Custom};
ghost use Rattle.page_sets_lines.specs.declared.events.Join.TheVariants.{Apart, Glued};
ghost use Rattle.page_sets_names.specs.Marks.{closing, opening};
ghost use Rattle.page_sets_names.specs.declared.generated_texts.GeneratedText.TheVariants.{FullStop, OpenParenthesis};

use page_core_base::{Font, PieceOut, Place};
use page_roff_syntax::Argument;
use page_scopes_labels::{Explicit, Label};
use page_scopes_layout::SeriesSoFar;
use page_scopes_phrases::{
    Formatting, Phrase, argument_word, give_function_end, give_generated_word, give_line_word,
    give_phrase,
};
use page_sets_lines::{
    Block, BlockOpener, GeneratedText, GeneratedWord, Join, LineOpener, Marks, Word,
};

// The mark before the words of an enclosure.
fn opening_word(marks: Marks) -> GeneratedWord
    ensures { result ≡ own_word (opening marks) Apart Glued }
{
    GeneratedWord {
        text: marks.opening(),
        font: None,
        before: Join::Apart,
        after: Join::Glued,
    }
}

// The mark after the words of an enclosure.
fn closing_word(marks: Marks) -> GeneratedWord
    ensures { result ≡ own_word (closing marks) Glued Apart }
{
    GeneratedWord {
        text: marks.closing(),
        font: None,
        before: Join::Glued,
        after: Join::Apart,
    }
}

// The dash of `Nd`, at its macro.
fn dash_phrase(place: Place) -> Phrase<&'static [u8]>
    ensures seen { phrase_view result ≡ own_phrase place (codes "\\(en") None Apart Apart }
    ensures fits { FitsAt result.column result.text.now }
{
    Phrase::own(place, b"\\(en", None, Join::Apart, Join::Apart)
}

// Gives the dash of `Nd`.
fn give_dash<O: PieceOut>(out: &mut O, place: Place, state: &mut Formatting)
    ensures { GivesOutcome O.left out.old (phrase_outcome place.line (own_phrase place (codes "\\(en") None Apart Apart) state.old) out.new state.new }
{
    give_phrase(out, place.line, &dash_phrase(place), state);
}

/// Gives the words that a line scope begins with, in the context of its front: the marks of `Aq Bq Brq Dq Op Pq Ql Qq Sq`, and the dash of `Nd`.
pub fn give_line_words<O: PieceOut>(
    out: &mut O,
    place: Place,
    opener: LineOpener,
    state: &mut Formatting,
)
    ensures { GivesOutcome O.left out.old (words.line_words place opener state.old) out.new state.new }
{
    match opener {
        LineOpener::Enclosure(marks) => {
            give_generated_word(out, place, opening_word(marks), state);
        }
        LineOpener::Description => give_dash(out, place, state),
        _ => {}
    }
}

// The mark of `Eo` as a word, to which the next one is glued.
fn mark_word<'a>(mark: Argument<&'a [u8]>) -> Word<&'a [u8]>
    ensures { word_view result ≡ record (argument_word None Apart (argument_view mark.entry)) { after = Glued } }
{
    Word {
        after: Join::Glued,
        ..argument_word(None, Join::Apart, mark)
    }
}

// Gives the mark of `Eo`, where it has one.
fn give_mark<O: PieceOut>(
    out: &mut O,
    place: Place,
    mark: Option<Argument<&[u8]>>,
    state: &mut Formatting,
)
    requires { GivenFits (given_view mark) }
    ensures { GivesOutcome O.left out.old (words.block_words place (Custom (given_view mark.entry)) state.old) out.new state.new }
{
    if let Some(mark) = mark {
        give_line_word(out, place.line, &mark_word(mark), state);
    }
}

/// Gives the words that a block begins with, in the context of its front: the marks of `Ao Bo Bro Do Oo Po Qo So` and of `Eo`.
pub(crate) fn give_block_words<O: PieceOut>(
    out: &mut O,
    place: Place,
    opener: &BlockOpener<&[u8]>,
    state: &mut Formatting,
)
    requires { BlockOpenerFits (block_opener_view opener.now) }
    ensures { GivesOutcome O.left out.old (words.block_words place (block_opener_view opener.now) state.old) out.new state.new }
{
    match *opener {
        BlockOpener::Quotation(quotation) => {
            let word = opening_word(quotation.marks());
            give_generated_word(out, place, word, state);
        }
        BlockOpener::Custom(mark) => give_mark(out, place, mark, state),
        _ => {}
    }
}

// What opens the arguments of a function.
fn arguments_mark() -> GeneratedWord
    ensures { result ≡ own_word OpenParenthesis Glued Glued }
{
    GeneratedWord {
        text: GeneratedText::OpenParenthesis,
        font: None,
        before: Join::Glued,
        after: Join::Glued,
    }
}

/// Gives the name of a function, and what opens its arguments.
pub(crate) fn give_function_name<O: PieceOut>(
    out: &mut O,
    place: Place,
    name: Argument<&[u8]>,
    state: &mut Formatting,
)
    requires { ArgumentFits (argument_view name) }
    ensures { GivesOutcome O.left out.old (words.function_name place (argument_view name.entry) state.old) out.new state.new }
{
    let word = argument_word(Some(Font::B), Join::Apart, name);
    give_line_word(out, place.line, &word, state);
    give_generated_word(out, place, arguments_mark(), state);
}

// The full stop after the fields of a reference.
fn full_stop() -> GeneratedWord
    ensures { result ≡ own_word FullStop Glued Apart }
{
    GeneratedWord {
        text: GeneratedText::FullStop,
        font: None,
        before: Join::Glued,
        after: Join::Apart,
    }
}

// Gives the full stop after the fields of a reference, where it has one.
fn give_reference_end<O: PieceOut>(out: &mut O, place: Place, state: &mut Formatting)
    ensures { GivesOutcome O.left out.old (words.reference_end state.old.context.fields place state.old) out.new state.new }
{
    if let SeriesSoFar::Begun = state.context.fields {
        give_generated_word(out, place, full_stop(), state);
    }
}

// Gives the words that a block ends with.
fn give_block_last_words<O: PieceOut>(
    out: &mut O,
    place: Place,
    block: Block,
    state: &mut Formatting,
)
    ensures { GivesOutcome O.left out.old (words.last_words place (labels.Explicit (explicits.Block block)) state.old)
        out.new state.new }
{
    match block {
        Block::Quotation(quotation) => {
            let word = closing_word(quotation.marks());
            give_generated_word(out, place, word, state);
        }
        Block::Reference => give_reference_end(out, place, state),
        Block::Function => give_function_end(out, place, state),
        _ => {}
    }
}

/// Gives the words that a scope ends with, in its own context: the mark after an enclosure's words, the full stop of a reference (`Rs`) and the end of a
/// function (`Fo`), of whatever ends it.
pub fn give_last_words<O: PieceOut>(out: &mut O, place: Place, label: Label, state: &mut Formatting)
    ensures { GivesOutcome O.left out.old (words.last_words place label state.old) out.new state.new }
{
    match label {
        Label::Line(LineOpener::Enclosure(marks)) => {
            give_generated_word(out, place, closing_word(marks), state);
        }
        Label::Explicit(Explicit::Block(block)) => {
            give_block_last_words(out, place, block, state);
        }
        _ => {}
    }
}
