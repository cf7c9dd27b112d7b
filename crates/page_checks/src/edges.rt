//! What is held of a page that goes on from an edge.

ghost use Rattle.std.specs.Prelude.{◌≡◌, MatchResult};
ghost use Rattle.page_core_base.specs.declared.faults.Fault.{Fault};

use page_core_base::Fault;
use page_engine::{Edge, Page};
use std::alloc::Global;

/// What is held of a page that goes on from an edge, before its next line: it is that edge. The only fault is [`Fault::Memory`].
pub fn edge_again(alloc: Global, edge: Edge) -> Result<Edge, Fault>
    ensures { MatchResult result (λ again. again ≡ edge) (λ fault. fault ≡ Fault.Memory) }
{
    match Page::resume(alloc, edge) {
        Ok(page) => page.edge(alloc),
        Err((_, fault)) => Err(fault),
    }
}
