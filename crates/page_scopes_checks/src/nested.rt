//! A layout for tests: each scope is four columns further in, and is shown by its name.

use page_core_base::{Font, Piece, PieceOut, Place};
use page_scopes_labels::Label;
use page_scopes_tree::{Act, Renderer, Scope};
use page_sets_lines::{Event, EventKind, Leaf};

/// The margin, in columns.
#[derive(Drop)]
pub struct Nested {
    pub margin: u32,
}

impl Renderer for Nested {
    ghost use Rattle.page_scopes_checks.specs.Nested.{nested_tables};

    type Kept = u32;

    ghost tables = { nested_tables };

    ghost Takes = { λ event. Unit {0} };

    fn copy_kept(kept: &u32) -> u32 {
        *kept
    }

    fn keep(&self, label: Label, _event: &Event<&[u8]>, scopes: &mut Vec<Scope<Label, u32>>) {
        scopes.push_reserved(Scope {
            label,
            before: self.margin,
        });
    }

    fn begin<O: PieceOut>(&mut self, label: Label, event: &Event<&[u8]>, out: &mut O) {
        out.give(Piece::Text {
            text: label.name().as_bytes(),
            font: Font::R,
            place: event.place,
        });
        self.margin = self.margin.saturating_add(4);
    }

    fn come<O: PieceOut>(&mut self, _event: &Event<&[u8]>, _out: &mut O) {}

    fn leaf<O: PieceOut>(&mut self, act: &Act<&Event<&[u8]>>, out: &mut O) {
        if let Act::Event(event) = act {
            match event.kind {
                EventKind::Word(word) => out.give(Piece::Text {
                    text: word.arg.text,
                    font: Font::R,
                    place: event.place,
                }),
                EventKind::Leaf(Leaf::Request(_)) => out.give(Piece::Break),
                _ => {}
            }
        }
    }

    fn end<O: PieceOut>(&mut self, _label: Label, before: &u32, _place: Place, out: &mut O) {
        out.give(Piece::Indent {
            first: *before,
            rest: *before,
        });
        self.margin = *before;
    }
}
