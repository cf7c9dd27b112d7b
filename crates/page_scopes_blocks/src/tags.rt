//! Tags: words in front of a text that hangs (man(7), `IP`, `SY`).

ghost use Rattle.std.specs.Prelude.{◌≡◌};
ghost use Rattle.page_sets_lines.specs.laws.Views.{ArgumentFits, FitsAt};
ghost use Rattle.page_scopes_phrases.specs.laws.Views.{GivesOutcome, phrase_view};
ghost use Rattle.page_scopes_phrases.specs.Phrases.{followed_by, phrase_outcome};
ghost use Rattle.page_scopes_phrases.specs.LineWords.{line_word};
ghost use Rattle.page_scopes_blocks.specs.Lists as tags;
ghost use Rattle.page_sets_lines.specs.laws.Events.{word_view};

use page_core_base::{Piece, PieceOut, TagForm};
use page_scopes_layout::{Context, PagePart, give_margins};
use page_scopes_phrases::{Formatting, Phrase, give_line_word, give_phrase};
use page_sets_lines::Word;

/// Where a tag is, in columns.
#[derive(Clone, Copy)]
pub struct TagPlace {
    /// Its margin.
    pub margin: u32,
    /// How much further its text is.
    pub hang: u32,
}

// The context of a tag's words.
fn tag_context(tag: TagPlace, context: Context) -> Context
    ensures { result ≡ tags.tag_context tag context }
{
    Context {
        first: Some(tag.margin),
        has_row: false,
        part: PagePart::Tag,
        ..context
    }
}

// The context after a tag.
fn after_tag(before: Context, context: Context) -> Context
    ensures { result ≡ tags.after_tag before context }
{
    Context {
        first: None,
        part: before.part,
        ..context
    }
}

// What pads a tag takes the place of a blank.
fn pad(state: &mut Formatting)
    ensures { state.new ≡ record state.old { gap = 0 } }
{
    state.gap = 0;
}

// Gives what a tag begins with.
fn begin_tag<O: PieceOut>(out: &mut O, tag: TagPlace, state: &mut Formatting)
    ensures { GivesOutcome O.left out.old (tags.tag_begun tag state.old) out.new state.new }
{
    state.context = tag_context(tag, state.context);
    give_margins(out, &state.context);
    out.give(Piece::Tag {
        hang: tag.hang,
        form: TagForm::Row,
    });
}

// Gives what a tag ends with; the context is that before it.
fn end_tag<O: PieceOut>(out: &mut O, before: &Context, state: &mut Formatting)
    ensures { GivesOutcome O.left out.old (tags.tag_ended before.now state.old) out.new state.new }
{
    out.give(Piece::TagEnd);
    state.context = after_tag(*before, state.context);
    give_margins(out, &state.context);
    pad(state);
}

// Gives the words of a phrase that is a tag, and what it ends with; the context is that before it.
fn give_tag_phrase<O: PieceOut>(
    out: &mut O,
    line: u32,
    phrase: &Phrase<&[u8]>,
    before: &Context,
    state: &mut Formatting,
)
    requires { FitsAt phrase.now.column phrase.now.text.now }
    ensures { GivesOutcome O.left out.old (followed_by (phrase_outcome line (phrase_view phrase.now) state.old) (tags.tag_ended before.now))
        out.new state.new }
{
    give_phrase(out, line, phrase, state);
    end_tag(out, before, state);
}

/// Gives a tag of the words of a phrase.
#[tactic(auto, unfolding(crate::specs::Lists::phrase_tag))]
pub fn give_phrase_tag<O: PieceOut>(
    out: &mut O,
    tag: TagPlace,
    line: u32,
    phrase: &Phrase<&[u8]>,
    state: &mut Formatting,
)
    requires { FitsAt phrase.now.column phrase.now.text.now }
    ensures { GivesOutcome O.left out.old (tags.phrase_tag tag line (phrase_view phrase.now) state.old) out.new state.new }
{
    let before = state.context;
    begin_tag(out, tag, state);
    give_tag_phrase(out, line, phrase, &before, state);
}

// Gives the words of a tag, and what it ends with; the context is that before it.
fn give_tag_words<O: PieceOut>(
    out: &mut O,
    line: u32,
    word: &Word<&[u8]>,
    before: &Context,
    state: &mut Formatting,
)
    requires { ArgumentFits (word_view word.now).arg }
    ensures { GivesOutcome O.left out.old (followed_by (line_word line (word_view word.now) state.old) (tags.tag_ended before.now))
        out.new state.new }
{
    give_line_word(out, line, word, state);
    end_tag(out, before, state);
}

/// Gives a tag of the words of an argument.
#[tactic(auto, unfolding(crate::specs::Lists::tag))]
pub fn give_tag<O: PieceOut>(
    out: &mut O,
    tag: TagPlace,
    line: u32,
    word: &Word<&[u8]>,
    state: &mut Formatting,
)
    requires { ArgumentFits (word_view word.now).arg }
    ensures { GivesOutcome O.left out.old (tags.tag tag line (word_view word.now) state.old) out.new state.new }
{
    let before = state.context;
    begin_tag(out, tag, state);
    give_tag_words(out, line, word, &before, state);
}
