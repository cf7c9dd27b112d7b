//! What a raw line of roff is by itself: its form, the arguments of a control line, and the request that its name may be (roff(7), "LANGUAGE SYNTAX",
//! "Macro syntax" and "REQUEST REFERENCE").
//!
//! The lowest crate of roff: heads, commands, calls and regions are read by it, and so are the lines that the sets of macros get. The names that roff knows are
//! one table, with one row for each request and what it is. A region is lines that are no part of the text,
//! but the body of a macro, ignored, or a table, an equation or a picture. Read `specs/LineForms.antt`, `Arguments.antt` and `Requests.antt` first,
//! and `Regions.antt` for regions.
//!
//! Proved: `form_of`, `control_name`, `Arguments::next_argument`, `read_argument`: the form of a raw line, the name of a control line, and its
//! arguments one after another, are those of `specs/LineForms.antt` and `Arguments.antt`; `arguments_law`: of which there are as many as the text has. `Argument::value_len`, `value_front`: what an argument says, as
//! far as a field has room for it. `Request::of`, `RegionKind::name`, `fixed_ending`: which names
//! are requests, and what each is, by one table (`specs/Requests.antt`, `Regions.antt`), with which the rows of the program are compared.
//! `region_head`, `is_ending`: what the head of a region names and which raw line ends it (`specs/Regions.antt`). `OpenRegion`: what of the head
//! decides the rest, its names within their limit (`specs/Regions.antt`). `place_of`, `width_len`: where a delimiter comes again outside
//! pairs (`specs/Delimiters.antt`); `mark_closed`: which widths have no end, by one reading of a text. `name_room_law`: the room of a name is that of the definition.
#![tactic(auto)]

mod arguments;
mod closed_widths;
mod comments;
mod delimiters;
mod ends;
mod laws;
mod line_forms;
mod names;
mod open_regions;
mod pairs;
mod quotes;
mod region_heads;
mod regions;
mod requests;
mod values;

pub use arguments::{Arguments, blank_len, has_arguments, read_argument};
pub use closed_widths::{MET_WORDS, is_lone, mark_closed};
pub use comments::{begins_comment, plain_len, uncommented_len};
pub use delimiters::{begins_escape, character_len, place_of, width_content_len, width_len};
pub use ends::kept_len;
pub use laws::arguments_law;
pub use line_forms::{
    LineForm, begins_control, control_name, form_of, has_word, is_white, white_len,
};
pub use names::{NAME_ROOM, Name, name_room_law};
pub use open_regions::OpenRegion;
pub use pairs::lacks_pair;
pub use quotes::{Argument, Quoting};
pub use region_heads::{RegionHead, is_ending, region_head};
pub use regions::RegionKind;
pub use requests::{DefinitionRequest, LayoutRequest, Request};
