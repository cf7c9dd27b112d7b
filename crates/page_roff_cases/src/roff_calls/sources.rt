//! Source lines of a page, and what roff gives of them.

use page_core_base::{Fault, Form, Settings, Taken, is_line};
use page_core_streams::TextNotes;
use page_roff_source::Roff;
use page_test_streams::shown;
use std::alloc::Global;
use std::io::{self, Write};

/// What a source line may give at most: its finished lines, and that there are no more.
const MOST: usize = 1_002;

/// A page: roff, a second one, which goes on after each call from what is held of the page, and the number of the last line.
#[derive(Drop)]
pub(crate) struct Page {
    roff: Roff,
    resumed: Roff,
    number: u32,
}

impl Page {
    /// Before its first line.
    pub(crate) fn new(alloc: Global) -> Result<Page, Fault> {
        let roff = new_roff(alloc)?;
        let resumed = new_roff(alloc)?;
        Ok(Page {
            roff,
            resumed,
            number: 0,
        })
    }

    /// Runs a line of the page several times, and shows how many lines that takes, and what it gives.
    pub(crate) fn show_lines(&mut self, rt: &HostRuntime, times: u32, text: &str) {
        let text = text.as_bytes();
        let (mut given, mut again) = (Vec::new(rt.alloc()), Vec::new(rt.alloc()));
        let before = self.roff.counts().taken;
        let done = run_lines(&mut self.roff, self.number, times, text, &mut given);
        let taken = self.roff.counts().taken.saturating_sub(before);
        let same = run_lines(&mut self.resumed, self.number, times, text, &mut again);
        self.number = self.number.saturating_add(times);
        let _ = print!(rt; " -> {taken}{}", word_of(done));
        show_given(rt, shown(given.as_slice()));
        let resumed = resume(rt.alloc(), &mut self.resumed);
        if done != same || given.as_slice() != again.as_slice() || resumed.is_err() {
            let _ = print!(rt; "\nanother where roff goes on");
        }
    }

    /// Ends the page, and shows what is reported.
    pub(crate) fn show_end(&mut self, rt: &HostRuntime) {
        let (mut given, mut again) = (Vec::new(rt.alloc()), Vec::new(rt.alloc()));
        let done = end(&mut self.roff, &mut given);
        let same = end(&mut self.resumed, &mut again);
        let _ = print!(rt; "{}", word_of(done));
        show_given(rt, shown(given.as_slice()));
        if done != same || given.as_slice() != again.as_slice() {
            let _ = print!(rt; "\nanother where roff goes on");
        }
    }

    /// Shows how many source lines came, how many lines were taken, and how many interpolations made.
    pub(crate) fn show_counts(&self, rt: &HostRuntime) {
        let counts = self.roff.counts();
        let _ = print!(rt;
            " -> {} {} {}",
            counts.source, counts.taken, counts.expansions
        );
    }
}

// Roff before the first line. No caller has to know its state, so that this says nothing of it: their proofs stay short.
fn new_roff(alloc: Global) -> Result<Roff, Fault> {
    Roff::new(alloc, &Settings::new())
}

fn word_of(done: Result<(), Fault>) -> &'static str {
    if done.is_ok() { "" } else { " fails" }
}

// Roff goes on from its part of what is held of the page.
fn resume(alloc: Global, roff: &mut Roff) -> Result<(), Fault> {
    if !roff.idle() {
        return Err(Fault::TooLong);
    }
    let part = roff.part(alloc)?;
    match Roff::from_part(alloc, &Settings::new(), part) {
        Ok(next) => {
            *roff = next;
            Ok(())
        }
        Err((_, fault)) => Err(fault),
    }
}

// Ends the page, and adds what is reported.
fn end(roff: &mut Roff, given: &mut Vec<u8>) -> Result<(), Fault> {
    let mut notes = TextNotes::new(given, "roff");
    if roff.idle() {
        roff.end(&mut notes)?;
    }
    Ok(())
}

// Runs a line several times after the line of this number, and adds what it gives.
fn run_lines(
    roff: &mut Roff,
    number: u32,
    times: u32,
    text: &[u8],
    given: &mut Vec<u8>,
) -> Result<(), Fault> {
    let mut number = number;
    'lines: for _ in 0..times {
        number = number.saturating_add(1);
        run_line(roff, number, text, given)?;
    }
    Ok(())
}

// Runs a line, and adds what it gives: its finished lines and messages, each with a line feed.
fn run_line(roff: &mut Roff, number: u32, text: &[u8], given: &mut Vec<u8>) -> Result<(), Fault> {
    if !is_line(text) || !roff.idle() || roff.counts().source > 1_000_000 {
        return Ok(());
    }
    roff.source(text, number);
    'takes: for _ in 0..MOST {
        let mut notes = TextNotes::new(&mut *given, "roff");
        let taken = roff.take(&mut notes)?;
        drop(notes);
        match taken {
            Some(taken) => {
                let _ = add_line(given, taken);
            }
            None => return Ok(()),
        }
    }
    Ok(())
}

// Adds a finished line: its form, where its name ends in a control line, and its text.
fn add_line(given: &mut Vec<u8>, taken: Taken<'_>) -> io::Result<()> {
    let text = shown(taken.text);
    let form = match taken.form {
        Form::Text => "text",
        Form::Blank => "blank",
        Form::Control => return writeln!(given, "control {} {text}", taken.name_end),
        Form::Raw => "raw",
    };
    writeln!(given, "{form} {text}")
}

// Shows what was given, a line for each, with how often it came where it came several times in turn.
fn show_given(rt: &HostRuntime, given: &str) {
    let mut last: &[u8] = b"";
    let mut times = 0u32;
    for line in given.lines().map(|line| line.as_bytes()) {
        if line != last {
            show_times(rt, last, times);
            last = line;
            times = 0;
        }
        times = times.saturating_add(1);
    }
    show_times(rt, last, times);
}

fn show_times(rt: &HostRuntime, line: &[u8], times: u32) {
    let line = shown(line);
    let _ = match times {
        0 => Ok(()),
        1 => print!(rt; "\n{line}"),
        _ => print!(rt; "\n{times} times {line}"),
    };
}
