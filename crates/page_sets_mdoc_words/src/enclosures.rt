//! What begins enclosures over lines, and what ends them (mdoc(7), "Ao", "Bo", "Bro", "Do", "Eo", "Fo", "Oo", "Po", "Qo", "So",
//! "Xo").

ghost use Rattle.std.specs.Prelude.{◌≤◌, ◌∷◌, None, length};
ghost use Rattle.page_core_base.specs.laws.Views.{Came};
ghost use Rattle.page_sets_lines.specs.laws.Events.{block_closer_view, block_opener_view, given_view};
ghost use Rattle.page_sets_lines.specs.laws.Views.{BlockCloserFits, BlockOpenerFits, GivenFits};
ghost use Rattle.page_sets_lines.specs.Lines.{event_at};
ghost use Rattle.page_sets_lines.specs.declared.events.EventKind.TheVariants as kinds;
ghost use Rattle.page_sets_lines.specs.declared.openers.Opener.TheVariants as begins;
ghost use Rattle.page_sets_lines.specs.declared.openers.Closer.TheVariants as ends;
ghost use Rattle.page_sets_mdoc_lines.specs.machine.Cursors.{IsCursorOf};
ghost use Rattle.page_sets_mdoc_lines.specs.laws.Views.{AreFound, words_view};
ghost use Rattle.page_sets_mdoc_words.specs.Inlines as inlines;
ghost use Rattle.page_sets_mdoc_words.specs.Inlines.{printed};

use crate::functions::give_function_opened;
use crate::plain::{MacroName, give_printed, give_refused};
use page_core_base::LINE;
use page_roff_syntax::Argument;
use page_sets_lines::{BlockCloser, BlockOpener, Closer, EventKind, EventTaker, Opener, event_at};
use page_sets_mdoc_lines::{MacroWords, Pair, Words};

// What opens a scope, and then the words.
fn give_opener<'a, O: EventTaker<'a>>(
    out: &mut O,
    name: MacroName<'a>,
    opener: BlockOpener<&'a [u8]>,
    text: &'a [u8],
    words: Words,
)
    requires short { length text.now ≤ LINE }
    requires within { IsCursorOf text.now words.cursor }
    requires fits { BlockOpenerFits (block_opener_view opener) }
    ensures { Came O.left out.old
        (event_at name.entry.place (kinds.Open (begins.Block (block_opener_view opener.entry)))
        ∷ printed name.entry.place.line None (words_view text.now words)) out.new }
{
    let kind = EventKind::Open(Opener::Block(opener));
    out.give(event_at(name.place, kind));
    give_printed(out, name.place.line, None, text, words);
}

// What closes a scope, and then the words.
fn give_closer<'a, O: EventTaker<'a>>(
    out: &mut O,
    name: MacroName<'a>,
    closer: BlockCloser<&'a [u8]>,
    text: &'a [u8],
    words: Words,
)
    requires short { length text.now ≤ LINE }
    requires within { IsCursorOf text.now words.cursor }
    requires fits { BlockCloserFits (block_closer_view closer) }
    ensures { Came O.left out.old
        (event_at name.entry.place (kinds.Close (ends.Block (block_closer_view closer.entry)))
        ∷ printed name.entry.place.line None (words_view text.now words)) out.new }
{
    let kind = EventKind::Close(Closer::Block(closer));
    out.give(event_at(name.place, kind));
    give_printed(out, name.place.line, None, text, words);
}

/// The first macro of a pair.
pub(crate) fn give_opened<'a, O: EventTaker<'a>>(
    out: &mut O,
    name: MacroName<'a>,
    pair: Pair,
    text: &'a [u8],
    words: &MacroWords<'a>,
)
    requires short { length text.now ≤ LINE }
    requires found { AreFound text.now words.now }
    ensures { Came O.left out.old (inlines.opened name.entry.place name.entry.text.now pair
        (given_view words.now.taken) (words_view text.now words.now.all)) out.new }
{
    match pair {
        Pair::Quotation(quotation) => {
            let opener = BlockOpener::Quotation(quotation);
            give_opener(out, name, opener, text, words.all);
        }
        Pair::Custom => {
            give_opener(out, name, BlockOpener::Custom(words.taken), text, words.all);
        }
        Pair::Extension => give_opener(out, name, BlockOpener::Extension, text, words.all),
        Pair::Function if words.has_real => {
            give_function_opened(out, name.place, text, words.all);
        }
        Pair::Function => give_refused(out, name, text, words.all),
    }
}

/// The second macro of a pair.
pub(crate) fn give_closed<'a, O: EventTaker<'a>>(
    out: &mut O,
    name: MacroName<'a>,
    pair: Pair,
    mark: Option<Argument<&'a [u8]>>,
    text: &'a [u8],
    words: Words,
)
    requires short { length text.now ≤ LINE }
    requires within { IsCursorOf text.now words.cursor }
    requires fits { GivenFits (given_view mark) }
    ensures { Came O.left out.old (inlines.closed name.entry.place pair
        (given_view mark.entry) (words_view text.now words)) out.new }
{
    match pair {
        Pair::Quotation(quotation) => {
            give_closer(out, name, BlockCloser::Quotation(quotation), text, words);
        }
        Pair::Custom => give_closer(out, name, BlockCloser::Custom(mark), text, words),
        Pair::Extension => give_closer(out, name, BlockCloser::Extension, text, words),
        Pair::Function => give_closer(out, name, BlockCloser::Function, text, words),
    }
}
