//! What is reported of files that fail, and how a run goes on after that (mandoc(1), DIAGNOSTICS and EXIT STATUS).

ghost use Rattle.std.specs.Prelude.{◌≡◌, ◌++◌, false, codes};
ghost use Rattle.page_core_streams.specs.laws.Views.{Writes};
ghost use Rattle.mandoc_formats.specs.Formats.{HasFailed, Tells, fault_text, stops_after, fault_line, unopened_line, line_about, line_end, shown};

use crate::names::put_name;
use crate::waiting::Buffered;
use itoa::Buffer;
use page_core_base::{Fault, SettingFault};

/// The status at a failure of the system (mandoc(1), EXIT STATUS).
pub const SYSTEM_FAILURE: u8 = 6;

/// What a page or an index left: its status, and whether nothing further can be written.
#[derive(Clone, Copy)]
pub struct Done {
    pub status: u8,
    pub stops: bool,
}

impl Done {
    ghost use Rattle.std.specs.Prelude.{◌≡◌, false};

    /// What is left where no fault ends it.
    pub fn with(status: u8) -> Done
        ensures status { result.status ≡ status }
        ensures goes_on { result.stops ≡ false }
    {
        Done {
            status,
            stops: false,
        }
    }
}

/// Reports a file that can't be opened. It is passed over, and the next one goes on, also where that line can't be printed.
pub fn report_unopened<V: Buffered>(err: &mut V, shown: &str) -> Done
    ensures line { Tells (HasFailed V.counts V.failures) (V.contents err.old) (V.contents err.new) (unopened_line shown.now) }
    ensures status { result.status ≡ 6 }
    ensures goes_on { result.stops ≡ false }
{
    err.put_through(&[b"mandoc: ", shown.as_bytes(), b": cannot open\n"]);
    Done::with(SYSTEM_FAILURE)
}

/// Reports a fault at a file that messages have by another name. After one of writing nothing further can be written.
pub fn report_fault<V: Buffered>(err: &mut V, shown: &str, fault: Fault) -> Done
    ensures line { Tells (HasFailed V.counts V.failures) (V.contents err.old) (V.contents err.new) (fault_line shown.now fault) }
    ensures status { result.status ≡ 6 }
    ensures stops { result.stops ≡ stops_after fault }
{
    put_fault(err, shown, fault);
    failed_by(fault)
}

/// Reports a fault at what has a name below `dir`, or at `dir` itself, with no memory of its own.
pub fn report_fault_at<V: Buffered>(err: &mut V, dir: &str, name: &str, fault: Fault) -> Done
    ensures line { Tells (HasFailed V.counts V.failures) (V.contents err.old) (V.contents err.new) (fault_line (shown dir.now ++ name.now) fault) }
    ensures status { result.status ≡ 6 }
    ensures stops { result.stops ≡ stops_after fault }
{
    put_fault_at(err, dir, name, fault);
    failed_by(fault)
}

// What a fault leaves.
fn failed_by(fault: Fault) -> Done
    ensures status { result.status ≡ 6 }
    ensures stops { result.stops ≡ stops_after fault }
{
    Done {
        status: SYSTEM_FAILURE,
        stops: matches!(fault, Fault::WriteText | Fault::WriteNotes),
    }
}

// Writes the line about a fault at a file; else a front of it was written.
#[tactic(auto, using(crate::proofs::Turns::writes_on, crate::proofs::Turns::ended_before))]
fn put_fault<V: Buffered>(err: &mut V, shown: &str, fault: Fault) -> bool
    ensures failed { result ≡ false → HasFailed V.counts V.failures }
    ensures writes { Writes result (V.contents err.old) (V.contents err.new) (fault_line shown.now fault) }
{
    if err.put_through(&[b"mandoc: "]) {
        return put_end(err, shown, fault);
    }
    false
}

// Writes the line about a fault at what has a name below a directory.
fn put_fault_at<V: Buffered>(err: &mut V, dir: &str, name: &str, fault: Fault) -> bool
    ensures failed { result ≡ false → HasFailed V.counts V.failures }
    ensures writes { Writes result (V.contents err.old) (V.contents err.new) (fault_line (shown dir.now ++ name.now) fault) }
{
    if put_front(err, dir) {
        return put_end(err, name, fault);
    }
    false
}

/// Writes a line about what has a name; else a front of it was written.
#[tactic(auto, using(crate::proofs::Turns::writes_on, crate::proofs::Turns::ended_before))]
pub fn put_line_at<V: Buffered>(err: &mut V, name: &str, text: &str) -> bool
    ensures failed { result ≡ false → HasFailed V.counts V.failures }
    ensures writes { Writes result (V.contents err.old) (V.contents err.new) (line_about (shown name.now) text.now) }
{
    if put_front(err, name) {
        return err.put_through(&[b": ", text.as_bytes(), b"\n"]);
    }
    false
}

/// Writes the front of a line about what has a name, up to that name; else a front of it was written.
#[tactic(auto, using(crate::proofs::Turns::writes_on, crate::proofs::Turns::ended_before))]
pub fn put_front<V: Buffered>(err: &mut V, name: &str) -> bool
    ensures failed { result ≡ false → HasFailed V.counts V.failures }
    ensures writes { Writes result (V.contents err.old) (V.contents err.new) (codes "mandoc: " ++ shown name.now) }
{
    if err.put_through(&[b"mandoc: "]) {
        return put_name(err, name);
    }
    false
}

// Writes the end of the line about a fault, from a name on.
fn put_end<V: Buffered>(err: &mut V, name: &str, fault: Fault) -> bool
    ensures failed { result ≡ false → HasFailed V.counts V.failures }
    ensures writes { Writes result (V.contents err.old) (V.contents err.new) (line_end name.now (fault_text fault)) }
{
    match fault {
        Fault::Memory => put_text(err, name, "out of memory"),
        Fault::Read => put_text(err, name, "cannot read"),
        Fault::WriteText | Fault::WriteNotes => put_text(err, name, "cannot write"),
        Fault::TooLong => put_text(err, name, "input too large"),
        Fault::Settings(setting) => put_text(err, name, setting_text(setting)),
        Fault::BadIndex(line) => put_bad_line(err, name, line),
        Fault::Failed | Fault::Ended => put_text(err, name, "failed before"),
    }
}

// What is said of settings that are refused.
fn setting_text(setting: SettingFault) -> &'static str
    ensures { result.now ≡ fault_text (Fault.Settings setting) }
{
    match setting {
        SettingFault::Width => "bad width",
        SettingFault::Indent => "bad indent",
        SettingFault::Os => "bad operating system",
    }
}

// Writes that end about a bad line of an index.
fn put_bad_line<V: Buffered>(err: &mut V, name: &str, line: u32) -> bool
    ensures failed { result ≡ false → HasFailed V.counts V.failures }
    ensures writes { Writes result (V.contents err.old) (V.contents err.new) (line_end name.now (fault_text (Fault.BadIndex line))) }
{
    let mut digits = Buffer::new();
    err.put_through(&[
        name.as_bytes(),
        b": line ",
        digits.format(line).as_bytes(),
        b": bad index\n",
    ])
}

// Writes that end with a text.
fn put_text<V: Buffered>(err: &mut V, name: &str, text: &str) -> bool
    ensures failed { result ≡ false → HasFailed V.counts V.failures }
    ensures writes { Writes result (V.contents err.old) (V.contents err.new) (line_end name.now text.now) }
{
    err.put_through(&[name.as_bytes(), b": ", text.as_bytes(), b"\n"])
}
