//! Where a page is between two lines (roff(7), "if", "while", "de").

ghost use Rattle.std.specs.Prelude.{◌≡◌};
ghost use Rattle.page_roff_syntax.specs.laws.Views.{opened_view};

use crate::levels::Levels;
use page_roff_syntax::OpenRegion;
use std::marker::Model;

/// Where a page is between two lines: its open region, and the levels of its blocks.
#[derive(Drop)]
pub struct Standing {
    region: Option<OpenRegion>,
    levels: Levels,
}

impl Model for Standing {
    ghost use Rattle.page_roff_blocks.specs.Forest.{SourcePlace};

    ghost Value = { SourcePlace };

    ghost view = { λ s. record { region = s.region; levels = s.levels } };
}

// The same region, where one is open.
fn region_copy(region: Option<&OpenRegion>) -> Option<OpenRegion>
    ensures { result ≡ opened_view region.entry }
{
    match region {
        Some(region) => Some(region.copy()),
        None => None,
    }
}

impl Standing {
    /// In this region, if one is open, and at these levels.
    pub fn of(region: Option<&OpenRegion>, levels: &Levels) -> Standing
        ensures { result ≡ record { region = opened_view region.entry; levels = levels.now } }
    {
        Standing {
            region: region_copy(region),
            levels: levels.copy(),
        }
    }

    /// The same region as the one that is open, if one is.
    pub fn region(&self) -> Option<OpenRegion>
        ensures { result ≡ self.now.region }
    {
        match &self.region {
            Some(region) => Some(region.copy()),
            None => None,
        }
    }

    /// The same levels.
    pub fn levels(&self) -> Levels
        ensures { result ≡ self.now.levels }
    {
        self.levels.copy()
    }
}
