//! Laws above the page: of lists of lines, of runs over streams that never fail, of numbers that are no limits, of the places of events, and of
//! control characters.
//!
//! Nothing of the program depends on it. Read `specs/Fronts.antt` and `Fed.antt` (lists of lines, for a caller who has many at once), `src/causes.rt`,
//! `src/bounds.rt`, `specs/Places.antt` with `src/places.rt`, and `specs/Shown.antt` with `src/shown.rt`.
//!
//! Proved: `front_law`: what lines settle is a front of what they settle with any lines below them, and of the page (`specs/Fronts.antt`).
//! `feed_lines`: the rows and messages of a list of lines are what the list settles, and only a sink that fails stops it (`specs/Fed.antt`).
//! `quiet`, `quiet_bytes`, `quiet_record`, `quiet_search`, `quiet_note`: over bytes in memory and writers that never fail, a run over a page, the
//! reading of a record, a search and a message report no failed read and no failed write. Each law of `bounds.rt` says of a definition that counts its
//! steps, or has the room of a machine, what it would be with no such number: `content_law`: the content of a quoted argument is searched to its end
//! (`page_core_escapes`). `printed_law`: a text prints what its front prints, and then what the rest prints (`page_core_numbers`). `operations_law`: an
//! expression goes on as long as an operator follows (`page_core_numbers`). `cells_law`: a text in columns has a cell for each of its tabs, and one more
//! (`page_scopes_phrases`). `names_law`, `glyphs_law`, `expansions_law`: the room that a name or a count has leaves nothing out (`page_roff_syntax`,
//! `page_core_tables`, `page_roff_effects`). `places_law`: each event of a line is at one of its bytes, or, where it prints, right after a quote
//! that is the last one; so the limit of a column in `own_phrase` (`page_scopes_phrases`) never changes one (`specs/Places.antt`).
//! `rows_law`, `messages_law`: no row has a control character, and no message but the tab and those in the name of the file, whatever a page holds
//! (`specs/Shown.antt`).
#![tactic(auto)]

mod bounds;
mod causes;
mod feeding;
mod fronts;
mod places;
mod shown;

pub use bounds::{
    cells_law, content_law, expansions_law, glyphs_law, names_law, operations_law, printed_law,
};
pub use causes::{any, quiet, quiet_bytes, quiet_note, quiet_record, quiet_search};
pub use feeding::{Numbered, feed_lines};
pub use fronts::front_law;
pub use places::places_law;
pub use shown::{messages_law, rows_law};
