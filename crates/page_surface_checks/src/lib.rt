//! Tests of the public surface, used as a stranger would use it: through its doors alone, over sinks of its own.
//!
//! A page is put together by hand here from all layers of the pipeline (bytes, lines, roff, macro set, scopes, filling, rows): `Cutter`,
//! `Roff`, `Man` or `Mdoc`, `Scopes`, `Filler`. It has the rows of a page but for the header and the footer, which the engine writes. Read `hands.rt`
//! first (how a line goes through the layers, and how these go on from what they hold), then `sheets.rt` (how pieces become rows). The tests are
//! written over one trait of pages (`FedPage` in `lines.rt`), so that few functions handle the layers' objects.
//!
//! The engine's own surface is used so in `page_checks` (a run) and in `page_engine_cases` (a page whose lines come one by one), and what all layers
//! share in `page_layer_checks` and `page_roff_cases`: so this crate does not read the proofs of the engine.
#![tactic(auto)]

#[cfg(test)]
mod checks;
#[cfg(test)]
mod cuts;
#[cfg(test)]
mod hands;
#[cfg(test)]
mod lines;
#[cfg(test)]
mod page_tests;
#[cfg(test)]
mod sheets;
#[cfg(test)]
mod sinks;
#[cfg(test)]
mod steps;
