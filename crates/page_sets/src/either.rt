//! The set of macros of a page: one of the two (man(7), mdoc(7)).

use crate::{man_gives, mdoc_lines};
use page_core_base::Taken;
use page_sets_lines::{Event, EventOut, EventTaker, Handed, MacroSet, Nth};

/// The set of macros of a page. The place in a line's events is their number so far.
#[derive(Clone, Copy, PartialEq, Eq)]
pub enum Either {
    /// man(7).
    Man,
    /// mdoc(7).
    Mdoc,
}

impl Either {
    ghost use Rattle.std.specs.Prelude.{◌≤◌, length};
    ghost use Rattle.page_core_base.specs.laws.Views.{line_view, Came};
    ghost use Rattle.page_core_base.specs.declared.limits.TheConstants.{LINE};
    ghost use Rattle.page_sets.specs.Mdoc.{either_events};

    // Gives the events of a line.
    #[inline(always)]
    fn give_events<'a, O: EventTaker<'a>>(self, out: &mut O, line: Taken<'a>)
        requires { length line.text.now ≤ LINE }
        ensures { Came O.left out.old (either_events self (line_view line.entry)) out.new }
    {
        match self {
            Either::Man => man_gives::give_events(out, line),
            Either::Mdoc => mdoc_lines::give_events(out, line),
        }
    }
}

impl MacroSet for Either {
    ghost use Rattle.std.specs.Prelude.{◌≤◌, length, drop};
    ghost use Rattle.page_sets_lines.proofs.ArgumentLaws.{slices_after};
    ghost use Rattle.page_sets.specs.Mdoc.{either_indent, either_events};
    ghost use Rattle.page_sets.specs.laws.Views.{either_laws};

    type Place = usize;

    ghost page_indent = { λ set. either_indent set };

    ghost table = { λ set line. either_events set line };

    ghost IsPlaceOf = { λ set line place. place ≤ length (either_events set line) };

    ghost events_from = { λ set line place. drop place (either_events set line) };

    ghost slices = { λ set line. (either_laws set line).each };

    ghost slices_from = { λ set line place fits. slices_after line.text place (either_events set line) (either_laws set line).each };

    ghost in_order = { λ set line. (either_laws set line).order };

    ghost few = { λ set line. (either_laws set line).few };

    // The columns by which the text of a page is indented.
    fn indent(&self) -> u32 {
        match self {
            Either::Man => 7,
            Either::Mdoc => 5,
        }
    }

    fn start(&self, line: Taken<'_>) -> usize {
        0
    }

    #[tactic(auto, using(crate::specs::laws::Views::either_few))]
    fn next<'a>(&self, line: Taken<'a>, place: &mut usize) -> Option<Event<&'a [u8]>> {
        let mut nth = Nth::new(*place);
        self.give_events(&mut nth, line);
        match nth.event() {
            Some(event) => {
                *place += 1;
                Some(event)
            }
            None => None,
        }
    }

    #[inline(always)]
    fn give<O: EventOut>(&self, line: Taken<'_>, out: &mut O) {
        let mut handed = Handed { out };
        self.give_events(&mut handed, line);
    }
}
