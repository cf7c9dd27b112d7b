//! A region that is open (roff(7), "de", "am", "ig").

ghost use Rattle.std.specs.Prelude.{◌≡◌, ◌≤◌, length, option_map};
ghost use Rattle.page_core_base.specs.declared.limits.TheConstants.{LINE, NAME};
ghost use Rattle.page_roff_syntax.specs.laws.Views.{RegionFits, name_if, text_view, region_view, argument_view};
ghost use Rattle.page_roff_syntax.specs.Regions.{within_limit, opened, is_ending};
ghost use Rattle.page_roff_syntax.specs.Arguments.{argument_name};

use crate::region_heads::{RegionHead, copy_of, is_ending};
use crate::{Argument, RegionKind};
use arrayvec::ArrayVec;
use page_core_base::{LINE, NAME};
use std::marker::Model;

/// A region that is open, with what of its head decides the rest.
#[derive(Drop)]
pub struct OpenRegion {
    kind: RegionKind,
    has_name: bool,
    name: ArrayVec<u8, NAME>,
    ending: ArrayVec<u8, NAME>,
    is_run: bool,
}

impl Model for OpenRegion {
    ghost use Rattle.page_roff_syntax.specs.Regions.{Opened};

    ghost Value = { Opened };

    ghost use Rattle.page_roff_syntax.specs.laws.Views.{name_if};

    ghost view = { λ r. record {
      kind = r.kind;
      name = name_if r.has_name r.name.items;
      ending = r.ending.items;
      is_run = r.is_run;
    } };
}

// A name within the limit of names, and whether it is.
#[tactic(auto, unfolding(crate::specs::Regions::within_limit))]
fn short_name(name: &[u8]) -> (ArrayVec<u8, NAME>, bool)
    ensures { name_if result.1 result.0.items ≡ within_limit (Some name.now) }
{
    if name.len() <= NAME {
        (copy_of(name), true)
    } else {
        (ArrayVec::new(), false)
    }
}

// The name that a region defines, and whether there is one within the limit of names.
#[tactic(auto, unfolding(crate::specs::Regions::within_limit))]
fn usable_name(name: Option<Argument<&[u8]>>) -> (ArrayVec<u8, NAME>, bool)
    ensures { name_if result.1 result.0.items
        ≡ within_limit (option_map argument_name (option_map argument_view name.entry)) }
{
    match name {
        Some(argument) => short_name(argument.name().as_slice()),
        None => (ArrayVec::new(), false),
    }
}

impl OpenRegion {
    /// The region of a head, which may be run or not.
    #[tactic(auto, unfolding(crate::specs::Regions::opened))]
    pub fn new(head: &RegionHead<&[u8]>, is_run: bool) -> OpenRegion
        ensures { result ≡ opened (region_view head.now) is_run }
    {
        let (name, has_name) = usable_name(head.name);
        OpenRegion {
            kind: head.kind,
            has_name,
            name,
            ending: head.end_name(),
            is_run,
        }
    }

    /// The same region.
    pub fn copy(&self) -> OpenRegion
        ensures { result ≡ self.now }
    {
        OpenRegion {
            kind: self.kind,
            has_name: self.has_name,
            name: copy_of(self.name.as_slice()),
            ending: copy_of(self.ending.as_slice()),
            is_run: self.is_run,
        }
    }

    /// What it is.
    pub fn kind(&self) -> RegionKind
        ensures { result ≡ self.now.kind }
    {
        self.kind
    }

    /// Whether it is run.
    pub fn is_run(&self) -> bool
        ensures { result ≡ self.now.is_run }
    {
        self.is_run
    }

    /// The macro that it defines, if it defines one.
    pub fn name(&self) -> Option<&[u8]>
        ensures { text_view result ≡ self.now.name }
    {
        if self.has_name {
            Some(self.name.as_slice())
        } else {
            None
        }
    }

    /// Whether a raw line ends it.
    pub fn is_ended_by(&self, line: &[u8]) -> bool
        requires { length line.now ≤ LINE }
        ensures { result ≡ is_ending self.now.ending line.now }
    {
        is_ending(self.ending.as_slice(), line)
    }

    /// Its names are within their limit. Nothing is done: the arrays that hold them show it.
    pub fn caps_law(&self)
        ensures { RegionFits self.now }
    {
        self.name.as_slice();
        self.ending.as_slice();
    }
}
