//! The header and the footer of a page: the fields of its title, what they print, and where (man(7), `TH`; mdoc(7), `Dd`, `Dt`, `Os`).
//!
//! It is below the body of a page (`page_engine_lines`), which gives the header before its first event and the footer at its end.
//!
//! Read first: `specs/Header.antt`, with `Fields` in `fields.rt` and `give_header` in `headers.rt`.
//!
//! Proved: `Fields::copy`, `Fields::take`, `report_cut_fields`: the fields of the title's macros, and the messages of those that are cut.
//! `give_header`, `give_footer_row`: header and footer, with their parts at the columns of the formula in `specs/Header.antt`, and no message of a
//! field.
#![tactic(auto)]

mod field_texts;
mod fields;
mod full_rows;
mod headers;
mod parts;
mod printing;
mod run_outs;

pub use field_texts::Field;
pub use fields::{Fields, report_cut_fields};
pub use headers::{Measure, give_footer_row, give_header};
pub use parts::Part;
pub use run_outs::RunOut;
