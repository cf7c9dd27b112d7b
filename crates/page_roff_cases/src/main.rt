//! Shows what calls of the crates of bytes, lines and roff give, line by line of the standard input. A heading, as `==== core`, says which calls the
//! lines below it are, and stays as it is. What cannot be written is missing from what is wanted.
//!
//! - Below `==== core` a line is the name of a call through the door `page_core`, a blank, and its text: `escape \(em`. What it gives follows it;
//!   other lines stay as they are.
//! - Below `==== lines` it is an encoding and a page that is cut into lines: `auto a^0Ab`.
//! - Below `==== roff`, which comes last, it is that of a call of the crates of roff, written alike: `define a=b`. Such calls change names, arguments
//!   and a page, up to a line `new`; after `long` each `~N*TEXT~` of a call's text stands for the text N times.
//!
//! The heads of `core_calls.rt`, `lines_calls.rt` and `roff_calls.rt` say the rest.
#![tactic(auto)]

mod core_calls;
mod lines_calls;
mod roff_calls;

use roff_calls::show_roff;
use std::io;

// The layers whose calls do not depend on one another.
#[derive(Clone, Copy)]
enum Layer {
    // Escapes, glyphs, characters and numbers.
    Core,
    // Pages that are cut into lines.
    Lines,
}

fn main(rt: HostRuntime) -> io::Result<()> {
    show_lines(&rt)?;
    show_roff(&rt)
}

// Shows lines up to the heading of roff.
fn show_lines(rt: &HostRuntime) -> io::Result<()> {
    let mut layer = Layer::Core;
    for line in rt.lines(rt.alloc()) {
        let line = line?;
        let _ = print!(rt; "{line}");
        let (call, text) = line.as_str().split_once(' ').unwrap_or((line.as_str(), ""));
        match layer {
            Layer::Core => core_calls::show_call(rt, call, text),
            Layer::Lines => lines_calls::show_call(rt, call, text),
        }
        let _ = println!(rt; "");
        match line.as_str() {
            "==== lines" => layer = Layer::Lines,
            "==== roff" => return Ok(()),
            _ => {}
        }
    }
    Ok(())
}
