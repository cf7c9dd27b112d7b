//! The events of the words of macros.

ghost use Rattle.std.specs.Prelude.{◌≤◌, length};

use super::events::show_event;
use crate::lines::taken;
use page_core_base::LINE;
use page_sets_lines::{ControlLine, Event, EventTaker};
use page_sets_mdoc_lines::{Cursor, LineMacro, find_words, row_of};
use page_sets_mdoc_words::{MacroName, give_macro};

// The events of a macro's words, which are kept.
#[derive(Drop)]
struct KeptEvents<'a> {
    events: Vec<Event<&'a [u8]>>,
}

impl<'a> EventTaker<'a> for KeptEvents<'a> {
    ghost Plan = { Unit {0} };

    ghost left = { λ plan kept events. Unit {0} };

    fn give(&mut self, event: Event<&'a [u8]>) {
        let _ = self.events.push(event);
    }
}

// The macro that begins a line, if it is one that can be among words; as it is there, or where a word calls it.
fn give_words<'a>(kept: &mut KeptEvents<'a>, first: bool, text: &'a [u8])
    requires { length text.now ≤ LINE }
{
    let line = ControlLine::new(taken(text, 7));
    let text = line.text();
    let Some(row) = row_of(line.name()) else {
        return;
    };
    if let LineMacro::Inline(inline) = row.begins {
        let name = MacroName {
            place: line.name_place(),
            text: line.name(),
        };
        let cursor = Cursor::new(text, line.name_end());
        let (words, _) = find_words(text, Some(inline), cursor, row.is_parsed);
        give_macro(kept, first, name, inline, text, &words);
    }
}

/// Shows the events of the words of the macro that begins a line, without those of the calls after it; as they are there, or where a word calls it.
pub(crate) fn show_words(rt: &HostRuntime, first: bool, text: &str)
    requires { length text.now ≤ LINE }
{
    let mut kept = KeptEvents {
        events: Vec::new(rt.alloc()),
    };
    give_words(&mut kept, first, text.as_bytes());
    let mut is_first = true;
    for event in &kept.events {
        show_event(rt, is_first, *event);
        is_first = false;
    }
}
