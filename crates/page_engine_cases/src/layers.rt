//! Layers of a page that are refused memory, each alone: where one is made, where it is put down, and where it goes on from what is held of it. What
//! cuts lines is made alone, and never put down.

use crate::refused::Refusals;
use page_checks::Lack;
use page_core::{Fault, Settings};
use page_fill::Filler;
use page_roff::Cutter;
use page_scopes::Scopes;
use page_sets::Man;
use page_test_streams::{Ended, Scarce, scarce_difference};
use std::alloc::Global;

/// A layer beside roff, which is run alone elsewhere.
#[derive(Clone, Copy)]
enum Layer {
    Cutter,
    Scopes,
    Filler,
}

// How the calls of a layer ended that ask for memory, each after the other: with all of it, or at which call with which fault. That is a `Lack`, or none where
// the layer was made.
type Called = Result<(), (Option<Lack>, Fault)>;

// Makes what cuts lines.
fn call_cutter(alloc: Global, settings: &Settings) -> Called {
    match Cutter::new(alloc, settings.encoding) {
        Ok(_) => Ok(()),
        Err(fault) => Err((None, fault)),
    }
}

// Makes scopes, puts them down and goes on.
fn call_scopes(alloc: Global, settings: &Settings) -> Called {
    let scopes = match Scopes::new(alloc, settings, &Man) {
        Ok(scopes) => scopes,
        Err(fault) => return Err((None, fault)),
    };
    let part = match scopes.part(alloc) {
        Ok(part) => part,
        Err(fault) => return Err((Some(Lack::PuttingDown), fault)),
    };
    match Scopes::from_part(alloc, settings, &Man, part) {
        Ok(_) => Ok(()),
        Err((_, fault)) => Err((Some(Lack::GoingOn), fault)),
    }
}

// Makes a filler, puts it down and goes on.
fn call_filler(alloc: Global, settings: &Settings) -> Called {
    let filler = match Filler::new(alloc, settings) {
        Ok(filler) => filler,
        Err(fault) => return Err((None, fault)),
    };
    let part = match filler.part(alloc) {
        Ok(part) => part,
        Err(fault) => return Err((Some(Lack::PuttingDown), fault)),
    };
    match Filler::from_part(alloc, settings, part) {
        Ok(_) => Ok(()),
        Err((_, fault)) => Err((Some(Lack::GoingOn), fault)),
    }
}

// The calls of a layer that ask for memory.
#[derive(Drop)]
struct Calls<'a> {
    layer: Layer,
    settings: &'a Settings,
    refusals: Refusals,
}

impl Calls<'_> {
    // Whether each call was refused memory.
    fn are_all_refused(&self) -> bool {
        match self.layer {
            Layer::Cutter => true,
            _ => self.refusals.are_all(),
        }
    }
}

impl Scarce for Calls<'_> {
    fn once(&mut self, alloc: Global) -> Ended {
        let called = match self.layer {
            Layer::Cutter => call_cutter(alloc, self.settings),
            Layer::Scopes => call_scopes(alloc, self.settings),
            Layer::Filler => call_filler(alloc, self.settings),
        };
        match called {
            Ok(()) => Ended::Whole,
            Err((lack, Fault::Memory)) => {
                self.refusals.add(lack);
                Ended::Refused
            }
            Err(_) => Ended::Otherwise,
        }
    }
}

/// In which way a layer is not right where memory is refused to it, if one is not.
pub(crate) fn layer_difference(alloc: Global, settings: &Settings) -> Option<&'static str> {
    for layer in [Layer::Cutter, Layer::Scopes, Layer::Filler] {
        let mut calls = Calls {
            layer,
            settings,
            refusals: Refusals::new(),
        };
        let way = scarce_difference(alloc, &mut calls);
        if way.is_some() {
            return way;
        }
        if !calls.are_all_refused() {
            return Some("refused memory at each call of a layer");
        }
    }
    None
}
