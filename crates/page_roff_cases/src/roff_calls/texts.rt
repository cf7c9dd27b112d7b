//! Conditions, and texts with their interpolations.

use super::names::Roff;
use page_core_base::{LINE, NoteLatch};
use page_core_streams::TextNotes;
use page_roff_heads::read_conditional;
use page_roff_values::{Environment, Expansion, holds};
use page_test_streams::{show_messages, show_runs, shown};

/// Shows whether the condition of a head in line 7 holds, of which what follows `.if` is given, and its messages.
pub(crate) fn show_condition(rt: &HostRuntime, roff: &mut Roff, rest: &str) {
    if rest.len() > LINE / 2 {
        return;
    }
    let head = read_conditional(rest.as_bytes(), 4);
    let env = Environment {
        copy: false,
        names: &roff.names,
        arguments: &roff.arguments,
        output: roff.output,
    };
    let mut messages = Vec::new(rt.alloc());
    let mut notes = TextNotes::new(&mut messages, "roff");
    let mut latch = NoteLatch::new(&mut notes);
    let answer = holds(&head.condition, 7, &env, &mut roff.line, &mut latch);
    drop(latch);
    drop(notes);
    let _ = print!(rt; " -> {answer}");
    show_messages(rt, messages.as_slice());
}

/// Expands line 7, and shows how many interpolations it makes, what it gives and its messages.
pub(crate) fn show_text(rt: &HostRuntime, roff: &mut Roff, copy: bool, text: &str) {
    let mut messages = Vec::new(rt.alloc());
    let is_plain = expand(roff, copy, text.as_bytes(), &mut messages);
    show_expanded(rt, &roff.line, is_plain, text);
    show_messages(rt, messages.as_slice());
}

// Shows how many interpolations a text made, and what it gives.
fn show_expanded(rt: &HostRuntime, line: &Expansion, is_plain: bool, text: &str) {
    let _ = print!(rt; " -> {} ", line.count());
    show_runs(rt, if is_plain { text } else { shown(line.text()) });
}

/// Shows a text, of a long one each run of a character.
pub(crate) fn show_bytes(rt: &HostRuntime, text: &[u8]) {
    show_runs(rt, shown(text));
}

/// Shows a word after an arrow.
pub(crate) fn show_word(rt: &HostRuntime, word: &str) {
    let _ = print!(rt; " -> {word}");
}

/// Expands a text N TEXT after what is finished of its line, with N bytes before it, and shows how many interpolations the line makes, what it
/// gives and its messages.
pub(crate) fn show_more(rt: &HostRuntime, roff: &mut Roff, text: &str) {
    let (before, text) = text.split_once(' ').unwrap_or(("0", text));
    let before = before.parse().unwrap_or(0u32);
    let mut messages = Vec::new(rt.alloc());
    if roff.line.has_ended() {
        return;
    }
    expand_more(roff, before, text.as_bytes(), &mut messages);
    let word = if roff.line.has_ended() { " ends" } else { "" };
    show_expanded(rt, &roff.line, false, text);
    let _ = print!(rt; "{word}");
    show_messages(rt, messages.as_slice());
}

// Expands a text, with at most a line before it.
fn expand_more(roff: &mut Roff, before: u32, text: &[u8], messages: &mut Vec<u8>) {
    let env = Environment {
        copy: false,
        names: &roff.names,
        arguments: &roff.arguments,
        output: roff.output,
    };
    let mut notes = TextNotes::new(messages, "roff");
    let mut latch = NoteLatch::new(&mut notes);
    if !roff.line.has_ended() {
        let before = before.min(LINE as u32);
        roff.line.expand_more(&env, text, before, &mut latch);
    }
}

// Expands line 7, and answers whether it is what it gives.
fn expand(roff: &mut Roff, copy: bool, text: &[u8], messages: &mut Vec<u8>) -> bool {
    let env = Environment {
        copy,
        names: &roff.names,
        arguments: &roff.arguments,
        output: roff.output,
    };
    let mut notes = TextNotes::new(messages, "roff");
    let mut latch = NoteLatch::new(&mut notes);
    text.len() <= LINE && roff.line.expand(&env, text, 7, &mut latch)
}
