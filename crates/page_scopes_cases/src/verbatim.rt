//! A second set, which keeps the laws of macro sets and is not that of man(7).

use page_core_base::{Place, Taken};
use page_sets::{Event, EventKind, MacroSet};

/// The set without macros: each line is shown as it is.
#[derive(Clone, Copy)]
pub struct Verbatim;

/// How far the events of a line were given.
#[derive(Clone, Copy)]
pub enum Stage {
    Start,
    Shown,
    Ended,
}

impl MacroSet for Verbatim {
    ghost use Rattle.page_scopes_cases.specs.Verbatim.{verbatim_events, events_from, verbatim_slices, stage_slices, verbatim_in_order, verbatim_few};

    type Place = Stage;

    ghost page_indent = { λ set. 3 };

    ghost table = { λ set line. verbatim_events line };

    ghost IsPlaceOf = { λ set line stage. Unit {0} };

    ghost events_from = { λ set line stage. events_from line stage };

    ghost slices = { λ set line. verbatim_slices line };

    ghost slices_from = { λ set line stage is. stage_slices line stage };

    ghost in_order = { λ set line. verbatim_in_order line };

    ghost few = { λ set line. verbatim_few line };

    fn indent(&self) -> u32 {
        3
    }

    fn start(&self, _line: Taken<'_>) -> Stage {
        Stage::Start
    }

    fn next<'a>(&self, line: Taken<'a>, place: &mut Stage) -> Option<Event<&'a [u8]>> {
        let kind = match *place {
            Stage::Start => {
                *place = Stage::Shown;
                EventKind::Raw(line.text)
            }
            Stage::Shown => {
                *place = Stage::Ended;
                EventKind::End { fills: false }
            }
            Stage::Ended => return None,
        };
        let place = Place {
            line: line.line,
            column: 1,
        };
        Some(Event { place, kind })
    }
}
