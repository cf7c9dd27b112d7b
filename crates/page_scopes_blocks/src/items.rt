//! Items of lists: their marks and numbers (mdoc(7), `Bl` and `It`).

ghost use Rattle.std.specs.Prelude.{◌≡◌, ◌≤◌, ◌++◌, length, codes, decimal, None, pos};
ghost use Rattle.page_sets_lines.specs.laws.Views.{FitsAt};
ghost use Rattle.page_scopes_phrases.specs.laws.Views.{GivesOutcome, phrase_view};
ghost use Rattle.page_scopes_phrases.specs.Phrases.{own_phrase};
ghost use Rattle.page_scopes_blocks.specs.Lists as items;
ghost use Rattle.page_sets_lines.specs.declared.events.Join.TheVariants.{Apart};
ghost use Rattle.page_scopes_layout.specs.Contexts.{hold as spec_hold};

use crate::tags::{TagPlace, give_phrase_tag};
use arrayvec::ArrayVec;
use itoa::Buffer;
use page_core_base::{PieceOut, Place};
use page_scopes_labels::Label;
use page_scopes_layout::{OpenList, give_begin, give_margins, hold};
use page_scopes_phrases::{Formatting, Phrase};
use page_sets_lines::{Join, ListKind};

// Room for a number and a full stop.
type NumberText = ArrayVec<u8, 48>;

// A number with a full stop.
fn number_text(number: u32) -> NumberText
    ensures { result.items ≡ decimal number ++ codes "." }
{
    let mut buffer = Buffer::new();
    let mut text = ArrayVec::new();
    let _ = text.try_extend_from_slice(buffer.format(number).as_bytes());
    let _ = text.try_extend_from_slice(b".");
    text
}

// A mark at its macro.
fn mark_phrase<'a>(place: Place, mark: &'a [u8]) -> Phrase<&'a [u8]>
    requires { length mark.now ≤ 48 }
    ensures seen { phrase_view result ≡ own_phrase place mark.now None Apart Apart }
    ensures fits { FitsAt result.column result.text.now }
{
    Phrase::own(place, mark, None, Join::Apart, Join::Apart)
}

// Where the mark of the open item is.
fn mark_place(list: &OpenList) -> TagPlace
    ensures { result ≡ record { margin = list.now.head; hang = spec_hold (pos list.now.hang) } }
{
    TagPlace {
        margin: list.head,
        hang: hold(i64::from(list.hang)),
    }
}

// Gives a mark of an item.
fn give_mark<O: PieceOut>(
    out: &mut O,
    place: Place,
    list: &OpenList,
    mark: &[u8],
    state: &mut Formatting,
)
    requires { length mark.now ≤ 48 }
    ensures { GivesOutcome O.left out.old (items.given_mark place list.now (Some mark.now) state.old) out.new state.new }
{
    let phrase = mark_phrase(place, mark);
    give_phrase_tag(out, mark_place(list), place.line, &phrase, state);
}

// Gives the mark of the open item of a list, where its type has one.
fn give_mark_of<O: PieceOut>(out: &mut O, place: Place, list: &OpenList, state: &mut Formatting)
    ensures { GivesOutcome O.left out.old (items.given_mark place list.now (items.mark_of list.now.kind list.now.items) state.old)
        out.new state.new }
{
    match list.kind {
        ListKind::Bullet => give_mark(out, place, list, b"\\(bu", state),
        ListKind::Dash | ListKind::Hyphen => give_mark(out, place, list, b"-", state),
        ListKind::Enum => {
            let number = number_text(list.items);
            give_mark(out, place, list, number.as_slice(), state);
        }
        _ => give_margins(out, &state.context),
    }
}

// Begins an item of the open list.
fn begin_item<O: PieceOut>(out: &mut O, state: &mut Formatting)
    ensures { GivesOutcome O.left out.old (items.item_begins state.old) out.new state.new }
{
    state.context = state.context.item_begun();
    give_begin(out, Label::Item, &state.context);
    state.end_row();
}

/// Gives what an item of the open list begins with.
#[tactic(auto, unfolding(crate::specs::Lists::item_opened))]
pub fn give_item<O: PieceOut>(out: &mut O, place: Place, state: &mut Formatting)
    ensures { GivesOutcome O.left out.old (items.item_opened place state.old) out.new state.new }
{
    state.context = state.context.entered();
    begin_item(out, state);
    if let Some(list) = state.context.list {
        give_mark_of(out, place, &list, state);
    }
}
