//! Shows what pages give whose lines come one by one: rows, messages, counts of lines and the worst level, and the fault of each further call.
//! The standard input has the pages, each after a line `== WORDS: what it shows`, where the words are those of `words` or none.
//!
//! Each page is also run at once, in pieces of its bytes, with each write failing in turn, by roff alone, which counts the same, and, page and roff, so
//! that they go on after each line from what is held of them, and once more from what is held then. Where it gives something else, a line `-- not` says so. Where an
//! allocation is refused, either there is no page, or it is the one after the page; and the same of roff. A page with a cut, by its words, is run so
//! alone: where memory lacks for that, it is reported. Each other page is also run with no memory at all but where it is made and where it is put down,
//! after a line in its middle, and goes on: there with a step more each time, always from what was handed back. One that is scarce, by its words, is
//! also run with memory refused, each growth in turn, where it is made, put down and goes on; and so are roff and the other layers alone.
#![tactic(auto)]

mod failing;
mod layers;
mod pages;
mod refused;
mod roffs;
mod stack_room;
mod streams;
mod words;

use failing::Whole;
use page_checks::{Cuts, Ending, Lack};
use page_engine::Outcome;
use page_test_streams::is_cheap;
use pages::run_lines;
use refused::{Case, bare_difference, refusal_difference};
use roffs::run_roff;
use stack_room::has_stack_room;
use std::io;
use streams::{Shows, Streams};
use words::Words;

/// The bytes that the writers have memory for.
const ROOM: usize = 100_000;

fn main(rt: HostRuntime) -> io::Result<()> {
    if !has_stack_room(rt.alloc()) {
        let _ = println!(rt; "-- no room on the stack");
    }
    let mut page = Vec::new(rt.alloc());
    let mut words = Words::new();
    let mut is_first = true;
    for line in rt.lines(rt.alloc()) {
        let line = line?;
        if let Some(title) = line.strip_prefix("== ") {
            if !is_first {
                show(&rt, page.as_slice(), words);
            }
            is_first = false;
            page.clear();
            words = Words::of(title);
            let _ = println!(rt; "{line}");
        } else {
            add_line(&mut page, line.as_str(), words.bytes)?;
        }
    }
    show(&rt, page.as_slice(), words);
    Ok(())
}

// Adds a line to a page, where it is so, a byte for each of its characters.
fn add_line(page: &mut Vec<u8>, line: &str, bytes: bool) -> io::Result<()> {
    if bytes {
        for char in line.chars() {
            page.push(u8::try_from(char).unwrap_or(b'?'))?;
        }
    } else {
        page.extend_from_slice(line.as_bytes())?;
    }
    page.push(b'\n')?;
    Ok(())
}

// Shows what a page gives.
fn show(rt: &HostRuntime, page: &[u8], words: Words) {
    let shows = if words.each {
        Shows::Lines(rt)
    } else {
        Shows::Text(rt)
    };
    let fails = (words.rows, words.messages);
    match Streams::new(rt.alloc(), ROOM, fails, shows) {
        Some(mut streams) => show_page(rt, page, &words, &mut streams),
        None => show_way(rt, "with memory for what it gives"),
    }
}

// Shows what a page gives to streams, and how it ends.
fn show_page(rt: &HostRuntime, page: &[u8], words: &Words, streams: &mut Streams) {
    let cuts = match words.cut {
        Some(number) => Cuts::After(number),
        None => Cuts::Never,
    };
    let ending = run_lines(rt.alloc(), page, &words.settings, streams, cuts, None);
    let Some(ending) = ending else {
        show_way(rt, "as long as a page may be");
        return;
    };
    streams.show();
    let _ = show_ending(rt, ending);
    if words.are_well() {
        show_roff(rt, page, words, ending, cuts);
    }
    if words.cut.is_none() {
        show_differences(rt, page, words, streams, ending);
    }
    if words.cut.is_none() && words.are_well() && ending.result.is_ok() {
        let case = Case {
            page,
            settings: &words.settings,
            line: words.scarce.unwrap_or(middle_of(page)),
            ending,
        };
        show_refusals(rt, case, words.scarce.is_some(), streams);
    }
}

// The number of a line in the middle of a page.
fn middle_of(page: &[u8]) -> u32 {
    let mut lines = 0u32;
    for byte in page {
        if *byte == b'\n' {
            lines = lines.saturating_add(1);
        }
    }
    lines / 2 + 1
}

// Shows in which way a page gives something else.
fn show_way(rt: &HostRuntime, way: &str) {
    let _ = println!(rt; "-- not {way}");
}

fn show_ending(rt: &HostRuntime, ending: Ending) -> io::Result<()> {
    match ending.result {
        Ok(outcome) => show_outcome(rt, outcome)?,
        Err(fault) => println!(rt; "-- {fault}")?,
    }
    if let Some(fault) = ending.later {
        println!(rt; "-- then {fault}")?;
    }
    show_lack(rt, ending)?;
    if !ending.has_memory {
        println!(rt; "-- no memory after the page")?;
    }
    Ok(())
}

// Shows what memory lacked for at a cut.
fn show_lack(rt: &HostRuntime, ending: Ending) -> io::Result<()> {
    match ending.lack {
        Some(Lack::PuttingDown) => println!(rt; "-- no memory to put it down"),
        Some(Lack::GoingOn) => println!(rt; "-- no memory to go on"),
        None => Ok(()),
    }
}

fn show_outcome(rt: &HostRuntime, outcome: Outcome) -> io::Result<()> {
    let worst = match outcome.worst {
        Some(level) => level.name(),
        None => "none",
    };
    let counts = outcome.counts;
    println!(rt;
        "-- source {} taken {} expansions {} worst {worst}",
        counts.source, counts.taken, counts.expansions
    )
}

// Shows where roff alone counts something else of the page, or lacks memory.
fn show_roff(rt: &HostRuntime, page: &[u8], words: &Words, ending: Ending, cuts: Cuts) {
    let roff = run_roff(rt.alloc(), page, &words.settings, ROOM, cuts, None);
    let _ = match roff {
        Some(roff) => compare_roff(rt, roff, ending),
        None => println!(rt; "-- not by roff alone"),
    };
}

fn compare_roff(rt: &HostRuntime, roff: Ending, ending: Ending) -> io::Result<()> {
    let Ok(by_roff) = roff.result else {
        return println!(rt; "-- not by roff alone");
    };
    if ending
        .result
        .is_ok_and(|outcome| outcome.counts != by_roff.counts)
    {
        println!(rt; "-- not the counts of roff alone")?;
    }
    show_lack(rt, roff)?;
    if !roff.has_memory {
        println!(rt; "-- no memory after roff")?;
    }
    Ok(())
}

// Shows where the page, or roff alone, gives something else in other runs.
fn show_differences(
    rt: &HostRuntime,
    page: &[u8],
    words: &Words,
    streams: &Streams,
    ending: Ending,
) {
    show_cuts(rt, page, words, streams, ending);
    if words.are_well() {
        show_roff(rt, page, words, ending, Cuts::Always);
        if ending.is_plain {
            show_whole(rt, page, words, streams, ending);
        }
    }
}

// Shows where the page gives something else, or ends otherwise, that goes on after each line from what is held of it.
fn show_cuts(rt: &HostRuntime, page: &[u8], words: &Words, streams: &Streams, ending: Ending) {
    let fails = (words.rows, words.messages);
    let Some(mut cut) = Streams::new(rt.alloc(), 0, fails, Shows::Nothing) else {
        show_way(rt, "with memory for what it gives where it is cut");
        return;
    };
    let by_cuts = run_lines(
        rt.alloc(),
        page,
        &words.settings,
        &mut cut,
        Cuts::Always,
        None,
    );
    let is_same = by_cuts.is_some_and(|other| other.result == ending.result
        && other.later == ending.later);
    if !is_same || !cut.are(streams) {
        show_way(rt, "where it is cut");
    }
}

// Shows where the page gives something else at once, in pieces of a byte or of seven, or is not a write that fails.
fn show_whole(rt: &HostRuntime, page: &[u8], words: &Words, streams: &Streams, ending: Ending) {
    let whole = Whole::new(rt.alloc(), page, &words.settings);
    if !whole.is(streams, ending.result) {
        show_way(rt, "at once");
    }
    for size in [1, 7] {
        if !whole.is_in_pieces(rt.alloc(), page, size, &words.settings) {
            show_way(rt, "in pieces");
        }
    }
    if !whole.stands_failures(rt.alloc(), page, &words.settings) {
        show_way(rt, "where a write fails");
    }
}

// Shows in which way the page is not right where memory is refused to it, each growth in turn where it is scarce.
fn show_refusals(rt: &HostRuntime, case: Case, is_scarce: bool, streams: &Streams) {
    if !is_cheap(rt, rt.alloc()) {
        show_way(rt, "with memory refused, which costs much on this host");
        return;
    }
    if let Some(way) = bare_difference(rt.alloc(), case, streams) {
        show_way(rt, way);
    }
    if is_scarce && let Some(way) = refusal_difference(rt.alloc(), case, streams) {
        show_way(rt, way);
    }
}
