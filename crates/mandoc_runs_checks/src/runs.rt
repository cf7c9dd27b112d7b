//! Command lines that are run over the files of a folder, with what their writers get.

use crate::failing_files::{Call, FailingFiles, Failure};
use mandoc_command::command;
use mandoc_runs::{LockedFiles, run_command};
use std::alloc::Global;
use std::cell::RefCell;
use std::io::{self, ErrorKind, Read, Write};
use std::process::Abort;
use std::rt::{Env, Files};
use std::{env, fs};

const FOLDERS: &[&str] = &["man1", "man1/sub.1", "man8", "man10"];

// A page with a warning.
const BLANK: &str = ".TH T 1 2020-01-01 S\n.SH NAME\nt \\- x\n\ny\n";

// A page without a message to be formatted, and pages in folders: the name of one can't be in an index, one has no record, and one isn't
// where pages are.
const FILES: &[(&str, &str)] = &[
    ("quiet.1", ".TH T 1 2020-01-01 S\n.SH NAME\nt \\- x\n"),
    ("blank.1", BLANK),
    ("man1/ls.1", ".TH LS 1p\n.SH NAME\nls, dir \\- list files\n"),
    ("man1/Zed.1", ".TH ZED 1\n.SH NAME\nzed \\- last\n"),
    (
        "man1/cat.1",
        ".Dd d\n.Dt CAT 1\n.Os\n.Sh NAME\n.Nm cat\n.Nd print files\n",
    ),
    ("man1/none.1", ".TH NONE 1\n.SH NAME\nnone\n"),
    ("man1/a\tb.1", ".TH B 1\n.SH NAME\nb \\- blank\n"),
    ("man1/sub.1/t.1", ".TH T 1\n.SH NAME\nt \\- deep\n"),
    (
        "man8/fsck.8",
        ".TH FSCK 8\n.SH NAME\nfsck \\- check disks\n",
    ),
    ("man10/x.1", ".TH X 1\n.SH NAME\nx \\- far\n"),
];

/// The index of the folder.
pub const INDEX: &str = "whatis.idx";

// The temporary file beside it, before that is whole.
const UNFINISHED: &str = "whatis.tmp";

/// A command line in a folder; which flush of its rows and of its messages fails; what its writers get, and its status; and what becomes
/// of the index.
pub struct Run {
    pub words: &'static [&'static str],
    pub fails: Fails,
    pub written: &'static [&'static str],
    pub status: u8,
    pub index: Index,
}

/// The index before and after a run, and the call of files that fails in it, after this number of them.
pub struct Index {
    pub before: Option<&'static str>,
    pub call: (Option<Call>, u32),
    pub after: Option<&'static str>,
}

/// No call of files fails.
pub const NO_CALL: (Option<Call>, u32) = (None, u32::MAX);

/// No index is there, and none is made.
pub const NO_INDEX: Index = Index {
    before: None,
    call: NO_CALL,
    after: None,
};

/// After how many flushes of the rows, and of the messages, one fails; none: never.
#[derive(Clone, Copy)]
pub struct Fails {
    pub rows: Option<u32>,
    pub messages: Option<u32>,
}

/// No flush fails.
pub const NEVER: Fails = Fails {
    rows: None,
    messages: None,
};

// What two writers got in turn: their bytes, `[NAME]` where those of another one begin, and `[NAME flushed]`.
#[derive(Drop)]
pub struct Journal {
    text: String,
    last: Option<Writer>,
}

// The writer of the rows or that of the messages.
#[derive(Clone, Copy, PartialEq, Eq)]
enum Writer {
    Rows,
    Messages,
}

impl Writer {
    // What a journal calls it.
    fn name(self) -> &'static str {
        match self {
            Writer::Rows => "out",
            Writer::Messages => "notes",
        }
    }
}

impl Journal {
    /// Nothing was written.
    pub fn new(alloc: Global) -> RefCell<Journal> {
        RefCell::new(Journal {
            text: String::new(alloc),
            last: None,
        })
    }
}

// Logs bytes that a writer took.
fn log_bytes(journal: &RefCell<Journal>, writer: Writer, bytes: &[u8]) -> io::Result<()> {
    let (Ok(mut journal), Ok(text)) = (journal.try_borrow_mut(), str::from_utf8(bytes)) else {
        return Err(io::Error::from(ErrorKind::InvalidData));
    };
    if journal.last != Some(writer) {
        let name = writer.name();
        write!(journal.text, "[{name}]")?;
        journal.last = Some(writer);
    }
    journal.text.push_str(text)?;
    Ok(())
}

// Logs a flush.
fn log_flush(journal: &RefCell<Journal>, writer: Writer) -> io::Result<()> {
    let Ok(mut journal) = journal.try_borrow_mut() else {
        return Err(io::Error::from(ErrorKind::InvalidData));
    };
    let name = writer.name();
    write!(journal.text, "[{name} flushed]")?;
    journal.last = None;
    Ok(())
}

// A writer that logs each write and flush in a journal. A signal interrupts each write at first.
#[derive(Drop)]
struct Journaled<'a> {
    writer: Writer,
    journal: &'a RefCell<Journal>,
    failure: &'a Failure,
    // How many flushes there are before one that fails.
    left: Option<u32>,
    // Whether bytes were written since the last one.
    waits: bool,
    is_interrupted: bool,
}

// A page on the standard input. A signal interrupts each read at first.
#[derive(Drop)]
struct Typed {
    page: &'static str,
    is_interrupted: bool,
}

impl Read for Typed {
    fn read(&mut self, buffer: &mut [u8]) -> io::Result<usize> {
        self.is_interrupted = !self.is_interrupted;
        if self.is_interrupted {
            return Err(io::Error::from(ErrorKind::Interrupted));
        }
        let count = self.page.as_bytes().read(buffer)?;
        self.page = "";
        Ok(count)
    }
}

impl Write for Journaled<'_> {
    fn write(&mut self, bytes: &[u8]) -> io::Result<usize> {
        self.is_interrupted = !self.is_interrupted;
        if self.is_interrupted {
            return Err(io::Error::from(ErrorKind::Interrupted));
        }
        self.failure.at(Call::Print)?;
        self.waits = true;
        log_bytes(self.journal, self.writer, bytes)?;
        Ok(bytes.len())
    }

    fn flush(&mut self) -> io::Result<()> {
        self.failure.at(if self.waits {
            Call::Print
        } else {
            Call::PutNone
        })?;
        self.waits = false;
        if let Some(left) = self.left {
            let Some(rest) = left.checked_sub(1) else {
                return Err(io::Error::from(ErrorKind::StorageFull));
            };
            self.left = Some(rest);
        }
        log_flush(self.journal, self.writer)
    }
}

// Runs words over files, where calls and flushes fail so, and answers the status. A refused command line has the status 5.
fn run_over<F: LockedFiles>(
    files: &F,
    alloc: Global,
    words: &[&str],
    failure: &Failure,
    fails: Fails,
    journal: &RefCell<Journal>,
) -> u8 {
    let Ok(asked) = command(alloc, words) else {
        return 5;
    };
    let out = Journaled {
        writer: Writer::Rows,
        journal,
        failure,
        left: fails.rows,
        waits: false,
        is_interrupted: false,
    };
    let notes = Journaled {
        writer: Writer::Messages,
        journal,
        failure,
        left: fails.messages,
        waits: false,
        is_interrupted: false,
    };
    let mut input = Typed {
        page: BLANK,
        is_interrupted: false,
    };
    run_command(files, alloc, &asked, &mut input, out, notes).0
}

/// What a run gave its writers, and its status.
#[derive(Drop)]
pub struct Ran {
    pub written: String,
    pub status: u8,
}

/// Runs words over the files of a folder, of which a call fails.
pub fn run_failing<R: LockedFiles + AllocGlobal>(
    good: &FailingFiles<'_, R>,
    failure: &Failure,
    words: &[&str],
    fails: Fails,
) -> Ran {
    let alloc = good.rt.alloc();
    let journal = Journal::new(alloc);
    let files = FailingFiles {
        rt: good.rt,
        dir: good.dir,
        failure,
    };
    let status = run_over(&files, alloc, words, failure, fails, &journal);
    Ran {
        written: journal.into_inner().text,
        status,
    }
}

/// Checks what holds of a run by these words.
pub fn check(rt: &impl Abort, holds: bool, words: &[&str], what: &str) {
    assert!(rt; holds, "{words:?}: {what}");
}

// Whether a text is these, one after another.
fn is_joined(text: &str, parts: &[&str]) -> bool {
    let mut rest = text;
    for part in parts {
        match rest.strip_prefix(*part) {
            Some(after) => rest = after,
            None => return false,
        }
    }
    rest.is_empty()
}

/// Makes the index that is there before a run.
pub fn set_index<F: Files>(files: &F, text: Option<&str>) -> io::Result<()> {
    match text {
        Some(text) => fs::write(files, INDEX, text),
        None if matches!(fs::exists(files, INDEX), Ok(true)) => fs::remove_file(files, INDEX),
        None => Ok(()),
    }
}

/// Whether no index is left that is not whole.
pub fn is_alone<F: Files>(files: &F) -> bool {
    matches!(fs::exists(files, UNFINISHED), Ok(false))
}

// Whether the index is this one, or none is there.
fn is_index<F: Files>(files: &F, alloc: Global, want: Option<&str>) -> bool {
    match (fs::read_to_string(&(files, alloc), INDEX), want) {
        (Ok(text), Some(want)) => text.as_str() == want,
        (Err(error), None) => error.kind() == ErrorKind::NotFound,
        _ => false,
    }
}

// Makes a run over the files of a folder, and checks what comes of it.
fn check_run<R: LockedFiles + AllocGlobal + Abort>(rt: &R, files: &FailingFiles<'_, R>, run: &Run) {
    let index = &run.index;
    let is_set = set_index(files, index.before).is_ok();
    check(rt, is_set, run.words, "the index of before");
    let failure = Failure::new(index.call.0, index.call.1);
    let ran = run_failing(files, &failure, run.words, run.fails);
    let written = ran.written.as_str();
    check(rt, is_joined(written, run.written), run.words, written);
    check(rt, ran.status == run.status, run.words, "the status");
    let is_left = is_index(files, rt.alloc(), index.after);
    check(rt, is_left && is_alone(files), run.words, "the index");
}

// Makes the folders and files of a test.
fn fill<F: Files>(files: &F) -> io::Result<()> {
    for dir in FOLDERS {
        fs::create_dir(files, *dir)?;
    }
    for (name, text) in FILES {
        fs::write(files, *name, *text)?;
    }
    Ok(())
}

/// What a test does with the files of its folder.
pub trait Test {
    fn run<R: LockedFiles + AllocGlobal + Abort>(&self, rt: &R, files: &FailingFiles<'_, R>);
}

impl Test for &[Run] {
    fn run<R: LockedFiles + AllocGlobal + Abort>(&self, rt: &R, files: &FailingFiles<'_, R>) {
        for run in *self {
            check_run(rt, files, run);
        }
    }
}

/// Makes a folder of a test's own with the files above, by the number of its process and a name, gives it to the test, and removes it.
pub fn in_folder<R: LockedFiles + Env + AllocGlobal + Abort, T: Test>(
    rt: &R,
    id: u32,
    name: &str,
    test: &T,
) -> io::Result<()> {
    let below = env::temp_dir(rt)?;
    let dir = format!(in rt.alloc(); "{}/mandoc_runs-{id}-{name}", below.as_str())?;
    fs::create_dir(rt, dir.as_str())?;
    let failure = Failure::new(NO_CALL.0, NO_CALL.1);
    let files = FailingFiles {
        rt,
        dir: dir.as_str(),
        failure: &failure,
    };
    fill(&files)?;
    test.run(rt, &files);
    fs::remove_dir_all(rt, dir.as_str())
}
