//! Shows what a page gives.

use crate::refused::refusal_difference;
use crate::shown::{can_refuse, show_way, shown};
use crate::ways::{Case, Given, difference, run_whole};
use crate::words::Words;
use page_core_base::Level;
use page_engine::Outcome;
use page_test_streams::{repeated, shortened};
use std::alloc::{AllocError, Global};
use std::io;

// The bytes of a page as a case writes it.
fn page_bytes(alloc: Global, text: &str, words: &Words) -> Result<Vec<u8>, AllocError> {
    let mut page = Vec::new(alloc);
    if words.is_repeated {
        let text = repeated(alloc, text)?;
        page.extend_from_slice(text.as_bytes())?;
    } else if words.is_bytes {
        for char in text.chars() {
            page.push(u8::try_from(char).unwrap_or(b'?'))?;
        }
    } else {
        page.extend_from_slice(text.as_bytes())?;
    }
    if words.is_unended {
        page.pop();
    }
    Ok(page)
}

/// Shows what a page gives.
pub(crate) fn show_page(rt: &HostRuntime, text: &str, words: &Words) -> io::Result<()> {
    let page = page_bytes(rt.alloc(), text, words)?;
    let case = Case {
        page: page.as_slice(),
        settings: &words.settings,
    };
    let given = run_whole(rt.alloc(), case);
    show_text(rt, &given.rows.kept, words)?;
    show_text(rt, &given.messages.kept, words)?;
    match given.result {
        Ok(outcome) => show_outcome(rt, outcome)?,
        Err(fault) => println!(rt; "-- {fault}")?,
    }
    show_way(rt, other_way(rt, case, &given, words))
}

// In which other way a page gives something else, if in any.
fn other_way(rt: &HostRuntime, case: Case, given: &Given, words: &Words) -> Option<&'static str> {
    if !words.is_once {
        let way = difference(rt.alloc(), case, given);
        if way.is_some() {
            return way;
        }
    }
    if words.is_scarce && can_refuse(rt) {
        refusal_difference(rt.alloc(), case, given)
    } else {
        None
    }
}

fn show_text(rt: &HostRuntime, text: &[u8], words: &Words) -> io::Result<()> {
    let text = shown(text);
    if words.is_shortened {
        let text = shortened(rt.alloc(), text)?;
        print!(rt; "{text}")
    } else {
        print!(rt; "{text}")
    }
}

fn show_outcome(rt: &HostRuntime, outcome: Outcome) -> io::Result<()> {
    let worst = outcome.worst.map_or("none", Level::name);
    let counts = outcome.counts;
    println!(rt;
        "-- source {} taken {} expansions {} worst {worst}",
        counts.source, counts.taken, counts.expansions
    )
}
