//! The events of a line as a list.

ghost use Rattle.std.specs.Prelude.{◌≡◌, ◌≤◌, length, map, IfOk};
ghost use Rattle.page_core_base.specs.laws.Views.{line_view};
ghost use Rattle.page_sets_lines.specs.laws.Events.{event_view};

use page_core_base::{LINE, Taken};
use page_sets::{Event, MacroSet};
use std::alloc::{AllocError, Global};

/// The events that a set gives of a line, from the start on until there is none.
pub fn events_of<'a, S: MacroSet>(
    alloc: Global,
    set: &S,
    line: Taken<'a>,
) -> Result<Vec<Event<&'a [u8]>>, AllocError>
where
    S::Place: Drop,
    requires { length line.text.now ≤ LINE }
    ensures { IfOk result (λ events. map event_view events.items ≡ S.table set.now (line_view line.entry)) }
{
    let mut place = set.start(line);
    let mut events = Vec::new(alloc);
    while let Some(event) = set.next(line, &mut place) {
        events.push(event)?;
    }
    Ok(events)
}
