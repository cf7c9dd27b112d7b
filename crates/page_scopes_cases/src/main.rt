//! Shows what sets of macros give of lines, and then what scopes give of pages, line by line of the standard input.
//!
//! - Below `==== sets` a line is the name of a call of a set of macros, a blank, and its text: `man .B a b`. The events that the set gives of its line
//!   follow it.
//! - Below `==== scopes`, which comes last, it is a line of a page, for its scopes: text, a macro of man(7), or after `|`, `^` or `&` one of a table, of
//!   another set of macros or of events of mdoc(7). The pieces and messages that it gives are below it. `new` and `page` begin a page, `end` ends
//!   it, and `times N` takes its line N times.
//!
//! The heads of `sets_calls.rt` and `scopes_calls.rt` say the rest.
#![tactic(auto)]

mod lines;
mod scopes_calls;
mod sets_calls;
mod verbatim;

use scopes_calls::show_scopes;
use sets_calls::show_sets;
use std::io;

fn main(rt: HostRuntime) -> io::Result<()> {
    show_sets(&rt)?;
    show_scopes(&rt)
}
