//! What becomes of pages where a writer takes all bytes and then fails at a flush (mandoc(1), EXIT STATUS).

use crate::runs::{Fails, NEVER, NO_INDEX, Run, check, in_folder};
use std::process;

const LOST: &str = "[notes]mandoc: quiet.1: cannot write\n";

// The rows of the page down to its section's header, those of its text, and those of its footer.
const HEAD: &str =
    "T(1)                       General Commands Manual                        T(1)\n\nN\u{8}NA\u{8}AM\u{8}ME\u{8}E\n";

const TEXT: &str = "       t - x\n";

const FOOT: &str =
    "\nS                                 2020-01-01                              T(1)\n";

const FLUSHED: &str = "[out flushed][notes flushed]";

const MESSAGE: &str =
    "[notes]mandoc: <stdin>:4:1: WARNING: blank line in fill mode, using .sp\n[notes flushed]";

// Nothing is lost where a signal interrupts each read and each write at first, and rows and messages are put out before each further read.
const TYPED: &[Run] = &[Run {
    words: &["-Wall"],
    fails: NEVER,
    written: &[
        FLUSHED,
        "[out]",
        HEAD,
        TEXT,
        "\n[out flushed]",
        MESSAGE,
        FLUSHED,
        "[out]       y\n",
        FOOT,
        FLUSHED,
        FLUSHED,
    ],
    status: 2,
    index: NO_INDEX,
}];

#[test]
fn goes_on_after_a_signal(rt: HostRuntime) {
    let made = in_folder(&rt, process::id(rt.process()), "signals", &TYPED);
    check(&rt, made.is_ok(), &[], "the folder");
}

// Nothing follows a writer that fails.
const PAGES: &[Run] = &[
    Run {
        words: &["quiet.1", "quiet.1"],
        fails: Fails {
            rows: Some(0),
            messages: None,
        },
        written: &["[out]", HEAD, "[notes flushed][notes flushed]", LOST],
        status: 6,
        index: NO_INDEX,
    },
    Run {
        words: &["quiet.1", "quiet.1"],
        fails: Fails {
            rows: Some(1),
            messages: None,
        },
        written: &[
            "[out]",
            HEAD,
            FLUSHED,
            "[out]",
            TEXT,
            FOOT,
            "[notes flushed][notes flushed]",
            LOST,
        ],
        status: 6,
        index: NO_INDEX,
    },
    Run {
        words: &["quiet.1", "quiet.1"],
        fails: Fails {
            rows: Some(2),
            messages: None,
        },
        written: &[
            "[out]",
            HEAD,
            FLUSHED,
            "[out]",
            TEXT,
            FOOT,
            FLUSHED,
            "[notes flushed]",
            LOST,
        ],
        status: 6,
        index: NO_INDEX,
    },
    Run {
        words: &["quiet.1", "quiet.1"],
        fails: Fails {
            rows: None,
            messages: Some(0),
        },
        written: &["[out]", HEAD, "[out flushed][out flushed]", LOST],
        status: 6,
        index: NO_INDEX,
    },
];

#[test]
fn ends_at_a_flush_that_fails(rt: HostRuntime) {
    let made = in_folder(&rt, process::id(rt.process()), "flushes", &PAGES);
    check(&rt, made.is_ok(), &[], "the folder");
}
