//! Shows what whole pages give: rows, messages, counts of lines and the worst level. The standard input has the pages, each after a line
//! `== WORDS: what it shows`, where the words are those of `Words` or none, under headings `==== NAME`, in the order of `docs/PROFILE.md`. What
//! cannot be written is missing from what is wanted.
//!
//! Behind them, after titles that begin with `record`, are pages whose records are shown: `[names] (section) [description]`, or `none`. A title with
//! `whatis` and the words of `Asked` has an index below it, in the notation of `index_of` and with `~N*TEXT~` for what comes N times: the rows are shown
//! that are found there, and their number. Cases that are refused memory come last.
//!
//! Each case is also run by bytes or a few of them, cut, and with reads and writes that fail, unless it is a page that is to be run once, and one that
//! says so with memory refused. Where it then gives something else, a line `-- not` says how.
#![tactic(auto)]

mod pages;
mod record_readings;
mod records;
mod refused;
mod search_queries;
mod search_words;
mod searches;
mod shown;
mod ways;
mod words;

use pages::show_page;
use records::show_record_of;
use searches::show_search;
use std::io;
use words::{Kind, Words};

fn main(rt: HostRuntime) -> io::Result<()> {
    let mut title = String::new(rt.alloc());
    let mut text = String::new(rt.alloc());
    for line in rt.lines(rt.alloc()) {
        let line = line?;
        if !line.starts_with("==") {
            text.push_str(line.as_str())?;
            text.push('\n')?;
            continue;
        }
        show_if(&rt, title.as_str(), text.as_str())?;
        text.clear();
        title.clear();
        title.push_str(line.strip_prefix("== ").unwrap_or(""))?;
        println!(rt; "{line}")?;
    }
    show_if(&rt, title.as_str(), text.as_str())
}

// Shows a case, if there is one: there is none before a heading.
fn show_if(rt: &HostRuntime, title: &str, text: &str) -> io::Result<()> {
    if title.is_empty() {
        return Ok(());
    }
    match Kind::of_title(title) {
        Kind::Page => show_page(rt, text, &Words::of_title(title)),
        Kind::Record => show_record_of(rt, text, &Words::of_title(title)),
        Kind::Search { asked, is_scarce } => show_search(rt, asked, text, is_scarce),
    }
}
