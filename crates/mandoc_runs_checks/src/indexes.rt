//! What `makewhatis` does with the pages of a folder where a call of files fails (makewhatis(8)).

use crate::failing_files::{Call, FailingFiles, Failure};
use crate::runs::{
    INDEX, Index, NEVER, Run, Test, check, in_folder, is_alone, run_failing, set_index,
};
use mandoc_runs::LockedFiles;
use std::alloc::Global;
use std::fs;
use std::process::{self, Abort};
use std::rt::Files;

const OLD: &str = "whatis 2\nold\t1\tof before\tman1/old.1\n";

const WHOLE: &str =
    "whatis 2\nzed\t1\tlast\tman1/Zed.1\ncat\t1\tprint files\tman1/cat.1\nls, dir\t1p\tlist files\tman1/ls.1\nfsck\t8\tcheck disks\tman8/fsck.8\n";

const LOST: &str = "[notes]mandoc: ./whatis.idx: cannot write\n";

const LOST_AFTER: &str = "mandoc: ./whatis.idx: cannot write\n";

const LOST_FOLDER: &str = "[notes]mandoc: ./man1: cannot open\n";

const PAGES: &[Run] = &[
    // a folder whose names can't be read is reported, and the old index stays
    Run {
        words: &["makewhatis", "."],
        fails: NEVER,
        written: &[LOST_FOLDER, LOST_AFTER],
        status: 6,
        index: Index {
            before: Some(OLD),
            call: (Some(Call::Names), 0),
            after: Some(OLD),
        },
    },
    Run {
        words: &["makewhatis", "."],
        fails: NEVER,
        written: &[LOST_FOLDER, LOST_AFTER],
        status: 6,
        index: Index {
            before: Some(OLD),
            call: (Some(Call::Names), 1),
            after: Some(OLD),
        },
    },
    // a folder among the pages is passed over where that is seen only once it is open
    Run {
        words: &["makewhatis", "."],
        fails: NEVER,
        written: &["[notes flushed]"],
        status: 0,
        index: Index {
            before: Some(OLD),
            call: (Some(Call::Look), 4),
            after: Some(WHOLE),
        },
    },
    // an index that can't be put out leaves the one of before, and no folder follows
    Run {
        words: &["makewhatis", ".", "."],
        fails: NEVER,
        written: &[LOST],
        status: 6,
        index: Index {
            before: Some(OLD),
            call: (Some(Call::Flush), 0),
            after: Some(OLD),
        },
    },
    // so does one of which it isn't known that the disk has it
    Run {
        words: &["makewhatis", ".", "."],
        fails: NEVER,
        written: &[LOST],
        status: 6,
        index: Index {
            before: Some(OLD),
            call: (Some(Call::Sync), 0),
            after: Some(OLD),
        },
    },
];

#[test]
fn makes_an_index(rt: HostRuntime) {
    let made = in_folder(&rt, process::id(rt.process()), "makes", &PAGES);
    check(&rt, made.is_ok(), &[], "the folder");
}

// Command lines whose calls fail in turn, and how many calls there are at least: files are opened, listed, read, made, locked, looked at, written,
// brought to the disk and renamed, and rows and messages are written and put out.
const LINES: &[(&[&str], u32)] = &[
    (&["quiet.1"], 6),
    (&["-Tlint", "blank.1"], 5),
    (&["-Wall", "blank.1"], 6),
    (&["makewhatis", "-n", "."], 18),
    (&["makewhatis", "."], 25),
    (&["whatis", "old"], 4),
    (&["whatis", "-w", "old"], 4),
];

// More calls than any of them has.
const MOST: u32 = 200;

// Whichever call fails, it is reported, the index is the one of before or a whole one, and nothing else is left.
struct Halves;

impl Test for Halves {
    fn run<R: LockedFiles + AllocGlobal + Abort>(&self, rt: &R, files: &FailingFiles<'_, R>) {
        for (words, least) in LINES {
            let calls = calls_failing(rt, files, words);
            let is_all = *least <= calls && calls < MOST;
            check(rt, is_all, words, "the number of calls");
        }
    }
}

// Runs words while each call in turn fails, and answers how many calls there are.
fn calls_failing<R: LockedFiles + AllocGlobal + Abort>(
    rt: &R,
    files: &FailingFiles<'_, R>,
    words: &[&str],
) -> u32 {
    for before in 0..MOST {
        if !runs_failing(rt, files, words, before) {
            return before;
        }
    }
    MOST
}

// Runs words while the call after this number of them fails, and answers whether it came.
fn runs_failing<R: LockedFiles + AllocGlobal + Abort>(
    rt: &R,
    files: &FailingFiles<'_, R>,
    words: &[&str],
    before: u32,
) -> bool {
    let is_set = set_index(files, Some(OLD)).is_ok();
    check(rt, is_set, words, "the index of before");
    let failure = Failure::new(None, before);
    let ran = run_failing(files, &failure, words, NEVER);
    let has_come = failure.has_come();
    let written = ran.written.as_str();
    check(rt, has_come == (ran.status == 6), words, "the status");
    let is_reported = FAULTS.iter().any(|fault| written.contains(*fault));
    check(rt, has_come == is_reported, words, written);
    let is_whole = is_left_whole(files, rt.alloc(), written);
    check(rt, is_whole, words, "the index");
    has_come
}

// How the lines of faults end.
const FAULTS: &[&str] = &[": cannot open\n", ": cannot read\n", ": cannot write\n"];

// Whether the index is the one of before, or has all pages but those that are reported, and nothing is left beside it.
fn is_left_whole<F: Files>(files: &F, alloc: Global, written: &str) -> bool {
    match fs::read_to_string(&(files, alloc), INDEX) {
        Ok(index) => is_alone(files)
            && (index.as_str() == OLD || is_whole(index.as_str(), written)),
        Err(_) => false,
    }
}

// Whether an index has each page whose file is not reported, and no other.
fn is_whole(index: &str, written: &str) -> bool {
    let wanted = WHOLE.lines().filter(|line| !is_reported(line, written));
    index.ends_with('\n') && index.lines().eq(wanted)
}

// Whether the file of an entry is reported.
fn is_reported(line: &str, written: &str) -> bool {
    match line.rsplit_once('\t') {
        Some((_, file)) => written.contains(file),
        None => false,
    }
}

#[test]
fn shows_no_half_of_an_index(rt: HostRuntime) {
    let made = in_folder(&rt, process::id(rt.process()), "halves", &Halves);
    check(&rt, made.is_ok(), &[], "the folder");
}
