//! Tests of the scopes of a page on public calls, layer by layer: which scopes an event ends and opens, over a small layout (`nested.rt`), what
//! texts, tags and words of lines give, and the scopes over several sets of macros: those of man(7) and mdoc(7), either of them, and a small third
//! one (`marked.rt`). `page_scopes_cases` has what they give of the lines of pages.
#![tactic(auto)]

#[cfg(test)]
mod collected;
#[cfg(test)]
mod leaf_pages;
#[cfg(test)]
mod leaf_tests;
#[cfg(test)]
mod lettered_tests;
mod marked;
pub mod nested;
#[cfg(test)]
mod scope_tests;
#[cfg(test)]
mod set_tests;
#[cfg(test)]
mod tag_tests;
#[cfg(test)]
mod text_tests;

pub use marked::{Marked, MarkedPlace};
