//! Calls through the door `page_core`, each a line: its name, a blank, and its text.
//!
//! - `escape` and `quoted`: what the escape at a text's front means, and in a quoted argument of a macro (`escapes.rt`).
//! - `glyph` and `character`: a glyph by its name, and a text's first character (`glyphs.rt`).
//! - `columns`, and `number` with a unit's letter before the expression (`numbers.rt`).
//! - `cells`, `row` and `ascii-row`: the bytes of cells and of rows (`rows.rt`).
//! - `line` and `message`: whether bytes are a line, and a message (`texts.rt`).
//!
//! After `long` each `~N*TEXT~` of a call's text stands for the text N times.

mod escapes;
mod glyphs;
mod numbers;
mod rows;
mod texts;

use escapes::{show_escape, show_quoted};
use glyphs::{show_char, show_glyph};
use numbers::{show_columns, show_number};
use page_test_streams::repeated;
use rows::{show_ascii_row, show_cells, show_row};
use texts::{show_line, show_message};

/// Shows what a call gives.
pub(crate) fn show_call(rt: &HostRuntime, call: &str, text: &str) {
    if call == "long" {
        if let Ok(text) = repeated(rt.alloc(), text) {
            let (call, text) = text.as_str().split_once(' ').unwrap_or((text.as_str(), ""));
            show_one(rt, call, text);
        }
    } else {
        show_one(rt, call, text);
    }
}

fn show_one(rt: &HostRuntime, call: &str, text: &str) {
    match call {
        "escape" => show_escape(rt, text),
        "quoted" => show_quoted(rt, text),
        "glyph" => show_glyph(rt, text),
        "character" => show_char(rt, text),
        "columns" => show_columns(rt, text),
        "number" => show_number(rt, text),
        "cells" => show_cells(rt, text),
        "row" => show_row(rt, text),
        "ascii-row" => show_ascii_row(rt, text),
        "line" => show_line(rt, text),
        "message" => show_message(rt, text),
        _ => {}
    }
}
