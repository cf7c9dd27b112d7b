//! What a text is made of (roff(7), "Escape sequences"): bytes that are copied, and interpolations of strings, number registers, macro arguments
//! and widths.
//!
//! It is below the values (`page_roff_values`), which interpolate. Read first: `specs/Parts.antt`; then `read` in `parts.rt`.
//!
//! Proved: `Unread::next`: the next part of a text is that of `seen` (`specs/Parts.antt`). `take_front`, `take_lone`: what is taken at once is copied,
//! part by part. `without_lone`: a value without a lone backslash at its end. `parts_law`: a text has as many parts as it has.
#![tactic(auto)]

mod endings;
mod fronts;
mod known_fronts;
mod laws;
mod lone_widths;
mod parts;
mod room;
mod unread;
mod verbatim;

pub use endings::{after, without_lone};
pub use laws::parts_law;
pub use lone_widths::LoneWidths;
pub use parts::{Call, Cut, Part, Seen};
pub use unread::Unread;
pub use verbatim::is_verbatim;
