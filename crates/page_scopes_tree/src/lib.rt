//! The scopes of a page: what opens them, what ends them, and a stack of them that gives what the block tree gives (man(7)).
//!
//! Events nest: some open a node, some end nodes. What such a list gives, whatever the nodes are, is in `specs/machine/Nestings.antt` (the
//! tree, and what it gives), with laws for the tables of any language; what follows puts the scopes of man(7) and mdoc(7) in. The block
//! tree of a page is defined in `page_engine_lines`, and is the same.
//!
//! Events of the set of macros come in; which scopes they end and open, with the messages of nesting, goes to a layout (`Renderer`), which
//! `page_scopes` is. `page_scopes_labels` says what an open scope is. Then read `specs/Ends.antt` (how many scopes an event ends), then
//! `Placements.antt` (what it opens, and its messages).
//!
//! Proved: `ScopeStack` (`new`, `copy`, `restart`, `apply`, `finish`, `depth`, `state`, `skips`): events give the layout of their block tree, with
//! the messages of scopes that are broken, lack their end or are too many, for any tables of a layout; at most 64 scopes are open
//! (`specs/Placements.antt`, `Ends.antt`). `part_law`, `stack_law`, `cut_law`: the block tree of a list of acts, laid out,
//! is what a stack of open scopes gives act by act, and it may be cut anywhere. `asides_law`: what is among the acts and is none,
//! as a message, is a leaf where it comes. All three are said by `specs/machine/Nestings.antt`.
#![tactic(auto)]

mod acts;
mod broken;
mod ends;
mod laws;
mod nestings;
mod numbers;
mod placements;
mod renderers;
mod runs;
mod scope_stacks;
mod stacks;

pub use acts::Act;
pub use laws::{events_law, tree_law};
pub use nestings::{Scope, asides_law, cut_law, part_law, stack_law};
pub use placements::{Obstacle, Placement};
pub use renderers::Renderer;
pub use scope_stacks::ScopeStack;
