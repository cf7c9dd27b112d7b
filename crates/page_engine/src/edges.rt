//! What is held of a page between two of its lines, by itself: a page goes on from it.

ghost use Rattle.page_engine.specs.laws.Views.{IsReached};

use page_core_base::Level;
use page_engine_lines::LinesPart;
use page_fill::FillerPart;
use std::marker::Model;

/// All that is held of a page between two of its lines, in memory of its own. It alone decides the rest: a page that goes on from it
/// ([`Page::resume`](crate::Page::resume)) gives what the page would have given from which it was taken.
#[derive(Drop)]
pub struct Edge {
    pub(crate) fill: FillerPart,
    pub(crate) lines: LinesPart,
    pub(crate) least: Option<Level>,
    pub(crate) worst: Option<Level>,
    pub(crate) last: Option<u32>,
}

impl Model for Edge {
    ghost use Rattle.page_engine.specs.Edges as edges;
    ghost use Rattle.page_engine.specs.machine.Held.{edge_of, IsHeldAt};

    ghost Value = { edges.Edge };

    ghost view = { edge_of };

    ghost invariant = { IsHeldAt };
}

impl Edge {
    /// The open row and the open word hold together. Nothing is done: a page is always at such an edge.
    pub fn reached_law(&self)
        ensures { IsReached self.now }
    {
        let _ = &self.fill;
    }
}
