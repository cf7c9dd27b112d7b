//! What is remembered of a page between two of its lines (roff(7), "ds", "de", "while").

use page_roff_definitions::BodyBuffer;
use page_roff_names::Names;
use std::marker::Model;

/// Definitions, the body of the open region or loop, the number of the last line, and how many interpolations were made.
#[derive(Drop)]
pub struct Remembered {
    pub(crate) names: Names,
    pub(crate) body: BodyBuffer,
    pub(crate) number: u32,
    pub(crate) expansions: u64,
}

impl Model for Remembered {
    ghost use Rattle.page_roff_effects.specs.States.{Memory};

    ghost Value = { Memory };

    ghost view = { λ r. record { definitions = r.names; body = r.body; number = r.number; expansions = r.expansions } };
}
