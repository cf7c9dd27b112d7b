//! Shows what a filler gives, line by line of the standard input: a line is a step, as `script ab_cde`, and the rows that it gives follow it, each
//! with a bar after it, and its messages. Other lines stay as they are. A filler is made at a line `page WIDTH OUTPUT`, where OUTPUT is `ascii`, `lint` or `utf8`, and anew after each line `rows`.
//!
//! - `script` gives pieces, a letter each (`pieces.rt`); `rows` gives them and ends the page, and `end` ends it.
//! - `text`, `glyph`, `filled`, `blanks`, `space`, `para`, `indent` and `tag` give one piece; `repeated N` gives a text N times, and `parts` a word
//!   of 64 parts (`pieces.rt`).
//! - `words BLANKS FONTS WORDS` gives words that are taken at once after so many blanks, in the fonts of letters, `kept FONT TEXT` characters of a
//!   kept row; or says that they are not taken (`words.rt`).
//! - `cells` is how many cells the open row has, and `blank-rows` how many blank rows are at the end.
#![tactic(auto)]

mod pieces;
mod words;

use page_core_base::{Fault, NoteSink, Output, RowSink, Settings};
use page_core_streams::{TextNotes, TextRows};
use page_fill::Filler;
use page_test_streams::{show_messages, show_rows, shown};
use pieces::{end, give_parts, give_piece, give_repeated, give_script, one_piece};
use std::io;
use words::{give_words, show_kept};

fn main(rt: HostRuntime) -> io::Result<()> {
    let mut next = Some(Settings::new());
    'fillers: for _ in 0..u64::MAX {
        match next {
            Some(settings) => next = show_filler(&rt, &settings)?,
            None => break 'fillers,
        }
    }
    Ok(())
}

// Shows the steps of a filler, and answers the settings of the next one. It is made and dropped here alone, since this takes most of the proof.
fn show_filler(rt: &HostRuntime, settings: &Settings) -> io::Result<Option<Settings>> {
    let Ok(mut filler) = Filler::new(rt.alloc(), settings) else {
        return Ok(None);
    };
    show_lines(rt, &mut filler, settings)
}

fn show_lines(
    rt: &HostRuntime,
    filler: &mut Filler,
    settings: &Settings,
) -> io::Result<Option<Settings>> {
    for line in rt.lines(rt.alloc()) {
        let line = line?;
        let _ = print!(rt; "{line}");
        let (call, text) = line.as_str().split_once(' ').unwrap_or((line.as_str(), ""));
        show_call(rt, filler, call, text);
        let _ = println!(rt; "");
        match call {
            "page" => return Ok(Some(settings_of(text))),
            "rows" => return Ok(Some(*settings)),
            _ => {}
        }
    }
    Ok(None)
}

// The settings of a width and an output.
fn settings_of(text: &str) -> Settings {
    let (width, output) = text.split_once(' ').unwrap_or((text, ""));
    let mut settings = Settings::new();
    settings.width = width.parse().unwrap_or(78);
    settings.output = match output {
        "utf8" => Output::Utf8,
        "lint" => Output::Lint,
        _ => Output::Ascii,
    };
    settings
}

fn show_call(rt: &HostRuntime, filler: &mut Filler, call: &str, text: &str) {
    match call {
        "kept" => show_kept(rt, filler, text),
        "cells" => {
            let _ = print!(rt; " -> {}", filler.pending().len());
        }
        "blank-rows" => {
            let _ = print!(rt; " -> {}", filler.blank_rows());
        }
        _ => show_step(rt, filler, call, text),
    }
}

// Takes a step, and shows its rows and messages.
fn show_step(rt: &HostRuntime, filler: &mut Filler, call: &str, text: &str) {
    let mut rows = Vec::new(rt.alloc());
    let mut messages = Vec::new(rt.alloc());
    let answer = take_step(filler, call, text, &mut rows, &mut messages);
    let _ = match answer {
        Ok(true) => Ok(()),
        Ok(false) => print!(rt; " -> not taken"),
        Err(fault) => print!(rt; " -> {fault}"),
    };
    show_rows(rt, shown(rows.as_slice()));
    show_messages(rt, messages.as_slice());
}

// Takes a step, whose rows and messages are added; and answers whether what it gives is taken.
fn take_step(
    filler: &mut Filler,
    call: &str,
    text: &str,
    rows: &mut Vec<u8>,
    messages: &mut Vec<u8>,
) -> Result<bool, Fault> {
    let mut rows = TextRows::new(rows);
    let mut notes = TextNotes::new(messages, "t");
    match call {
        "words" => give_words(filler, text, &mut rows, &mut notes),
        _ => {
            give(filler, call, text, &mut rows, &mut notes)?;
            Ok(true)
        }
    }
}

fn give<R: RowSink, N: NoteSink>(
    filler: &mut Filler,
    call: &str,
    text: &str,
    rows: &mut R,
    notes: &mut N,
) -> Result<(), Fault> {
    match call {
        "script" => give_script(filler, text.as_bytes(), rows, notes),
        "rows" => {
            give_script(filler, text.as_bytes(), rows, notes)?;
            end(filler, rows, notes)
        }
        "end" => end(filler, rows, notes),
        "repeated" => give_repeated(filler, text, rows, notes),
        "parts" => give_parts(filler, rows, notes),
        _ => match one_piece(call, text) {
            Some(piece) => give_piece(filler, piece, rows, notes),
            None => Ok(()),
        },
    }
}
