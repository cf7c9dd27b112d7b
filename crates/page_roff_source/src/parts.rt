//! Roff's part of what is held of a page between two of its lines.

use page_roff_blocks::Standing;
use page_roff_effects::Remembered;
use std::marker::Model;

/// What roff holds of a page between two of its lines, without the settings: where the page is, in a region and in blocks, what is remembered,
/// and the counts.
#[derive(Drop)]
pub struct RoffPart {
    pub(crate) standing: Standing,
    pub(crate) remembered: Remembered,
    pub(crate) source: u64,
    pub(crate) taken: u64,
}

impl Model for RoffPart {
    ghost use Rattle.page_roff_source.specs.laws.Views.{Part, IsPart};

    ghost Value = { Part };

    ghost view = { λ p. record { place = p.standing; memory = p.remembered; source = p.source; taken = p.taken } };

    ghost invariant = { λ p. IsPart (record { place = p.standing; memory = p.remembered; source = p.source; taken = p.taken }) };
}
