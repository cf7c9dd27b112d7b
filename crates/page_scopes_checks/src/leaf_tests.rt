//! What lines leave whose macros open and close nothing; `page_scopes_cases` has what they give.

use crate::leaf_pages::{check_shown, give_script};
use page_scopes_phrases::Formatting;
use page_test_streams::Shown;
use std::alloc::Global;
use std::process::Abort;

// What a script leaves: the blanks before the next word, the distance of paragraphs, "w" where something came since the last
// heading, and "r" where a row has begun.
fn left_by(rt: &impl Abort, alloc: Global, script: &str) -> Shown {
    let mut state = Formatting::start(7);
    state.context.has_row = false;
    give_script(rt, alloc, &mut Shown::new(alloc, false), &mut state, script);
    let mut left = Shown::new(alloc, false);
    left.add_number(state.gap);
    left.add_number(state.context.distance.value);
    left.add(if state.has_content { b"w" } else { b"" });
    left.add(if state.context.has_row { b"r" } else { b"" });
    left
}

// Scripts, each with what it leaves.
const LEFT: &[(&str, &str)] = &[
    (".ft B\n.in 3\n.br", "11"),
    ("a", "11wr"),
    ("a.", "21wr"),
    ("a\\c", "01wr"),
    ("\\&", "11w"),
    (".sp", "11w"),
    ("", "11w"),
    (".nf\n ", "11r"),
    ("=a", "11wr"),
    ("=", "11w"),
    (".PD 0", "10"),
    (".PD 3\n.PD", "11"),
    (".PD 200", "1100"),
];

#[test]
fn what_stays(rt: HostRuntime) {
    for (script, wanted) in LEFT {
        check_shown(&rt, &left_by(&rt, rt.alloc(), script), wanted, script);
    }
}
