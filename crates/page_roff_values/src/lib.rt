//! Expansion of a text (roff(7), "Escape sequences"): strings, number registers, macro arguments and widths are interpolated, in one pass
//! with a stack of texts, in memory that is reserved once. And the value of an expression (`numbers.rt`), and whether a condition holds (`answers.rt`).
//!
//! It is above the parts of texts (`page_roff_parts`), the names (`page_roff_names`) and the conditions that are read from raw lines
//! (`page_roff_heads`), and conditions, definitions and lines are expanded by it.
//! Read `specs/Values.antt` first; the code begins at `Expansion::expand` in `expansions.rt`.
//!
//! Proved: `Expansion::expand`, `expand_more`, `CallArguments::set`: a text once strings, registers, arguments and widths are interpolated, with its
//! messages at their columns and the count of interpolations, is `value` (`specs/Values.antt`), a recursion in which a value is expanded by itself
//! before the rest. `is_bounded`: no line makes more interpolations, and none grows longer, than the limits say.
//! `holds`: whether a written condition holds, with its messages, also where its texts are cut (`specs/Answers.antt`).
#![tactic(auto)]

mod answers;
mod call_arguments;
mod endings;
mod environments;
mod expansions;
mod fronts;
mod known_widths;
mod laws;
mod numbers;
mod sources;

pub use answers::holds;
pub use call_arguments::CallArguments;
pub use environments::Environment;
pub use expansions::Expansion;
pub use laws::is_bounded;
pub use numbers::expression;
