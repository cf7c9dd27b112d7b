//! The pages of a command line, each from its bytes to its rows, its messages and its status (mandoc(1), DESCRIPTION).

ghost use Rattle.std.specs.Prelude.{◌≡◌, ◌⊎◌, [], IfOk};
ghost use Rattle.std.specs.Io.KnownBytes.{Consumes};
ghost use Rattle.page_core_streams.specs.Streams.{Grows};
ghost use Rattle.mandoc_formats.specs.Formats.{Did, File, HasCause, HasFailed, Page, IsPage, IsReported, page_out, page_err, Formatted, IsFile, IsFound, FormatsAll, IsPutOut, causes};

use crate::faults::{Done, report_fault, report_fault_at, report_unopened};
use crate::finding::Finds;
use crate::names::shown_name;
use crate::waiting::Buffered;
use mandoc_command::{Format, status_of};
use page_core_base::{Fault, Output, Settings};
use page_core_streams::{Input, Nowhere, Target};
use page_engine::{Outcome, run_page};
use std::alloc::Global;

/// The name that messages have of the standard input.
const STANDARD_INPUT: &str = "<stdin>";

/// Formats the pages of a command in their order, and answers the worst of their statuses (mandoc(1), EXIT STATUS).
///
/// A file that can't be opened or read, or a page past a limit, is reported on `err`, and the others go on, also where that line can't be
/// printed. A page whose rows or messages can't be written ends it. What was written is put out before each further read, and at a page's end.
pub fn format_all<R: Finds, I: Input, W: Buffered, V: Buffered>(
    rt: &R,
    alloc: Global,
    format: &Format,
    input: &mut I,
    out: &mut W,
    err: &mut V,
) -> u8
    ensures came { (file : File) × FormatsAll (R.finds rt.now) (HasFailed V.counts V.failures)
        (causes I.counts W.counts V.counts I.state W.failures V.failures) (causes R.File.counts W.counts V.counts R.File.state W.failures V.failures)
        format.now.settings format.now.files (I.state input.old).remaining file
        × Grows (W.contents out.old) (W.contents out.new) file.out × Grows (V.contents err.old) (V.contents err.new) file.err
        × (result ≡ file.end.status) × IsPutOut result (W.waits out.new) (V.waits err.new) }
    ensures input { (format.now.files ≡ []) ⊎ (input.new ≡ input.old) }
{
    let settings = &format.settings;
    let names = format.files.as_slice();
    if names.is_empty() {
        return format_page(alloc, input, out, err, STANDARD_INPUT, settings).status;
    }
    let mut worst = 0;
    for name in names {
        let done = format_file(rt, alloc, out, err, name.as_str(), settings);
        worst = worst.max(done.status);
        if done.stops {
            return worst;
        }
    }
    worst
}

// Formats the page of a file.
fn format_file<R: Finds, W: Buffered, V: Buffered>(
    rt: &R,
    alloc: Global,
    out: &mut W,
    err: &mut V,
    name: &str,
    settings: &Settings,
) -> Done
    ensures { Did (IsFile (R.finds rt.now) (HasFailed V.counts V.failures) (causes R.File.counts W.counts V.counts R.File.state W.failures V.failures) settings.now name.now) result
        (W.contents out.old) (W.contents out.new) (V.contents err.old) (V.contents err.new) ((W.waits out.new ≡ []) × (V.waits err.new ≡ [])) }
{
    match shown_name(alloc, name) {
        Ok(shown) => format_named(rt, alloc, out, err, name, shown.as_str(), settings),
        Err(_) => report_fault_at(err, name, "", Fault::Memory),
    }
}

// Formats the page of a file that messages have by another name.
fn format_named<R: Finds, W: Buffered, V: Buffered>(
    rt: &R,
    alloc: Global,
    out: &mut W,
    err: &mut V,
    name: &str,
    shown: &str,
    settings: &Settings,
) -> Done
    ensures { Did (IsFound (R.finds rt.now) (HasFailed V.counts V.failures) (Formatted (HasFailed V.counts V.failures) (causes R.File.counts W.counts V.counts R.File.state W.failures V.failures) settings.now shown.now) name.now shown.now) result
        (W.contents out.old) (W.contents out.new) (V.contents err.old) (V.contents err.new) ((W.waits out.new ≡ []) × (V.waits err.new ≡ [])) }
{
    match rt.find(name) {
        Some(mut file) => format_page(alloc, &mut file, out, err, shown, settings),
        None => report_unopened(err, shown),
    }
}

// Formats a page, and reports its fault: at once, since a buffer that can't be put out would fail the next page too.
fn format_page<I: Input, W: Buffered, V: Buffered>(
    alloc: Global,
    input: &mut I,
    out: &mut W,
    err: &mut V,
    name: &str,
    settings: &Settings,
) -> Done
    ensures { Did (Formatted (HasFailed V.counts V.failures) (causes I.counts W.counts V.counts I.state W.failures V.failures) settings.now name.now (I.state input.old).remaining) result
        (W.contents out.old) (W.contents out.new) (V.contents err.old) (V.contents err.new) ((W.waits out.new ≡ []) × (V.waits err.new ≡ [])) }
{
    match run_waiting(alloc, input, out, err, name, settings) {
        Ok(outcome) => Done::with(status_of(outcome.worst)),
        Err(fault) => report_fault(err, name, fault),
    }
}

// Runs over a page, and puts out what waits of it, the messages also where the rows fail.
fn run_waiting<I: Input, W: Buffered, V: Buffered>(
    alloc: Global,
    input: &mut I,
    out: &mut W,
    err: &mut V,
    name: &str,
    settings: &Settings,
) -> Result<Outcome, Fault>
    ensures ran { (page : Page) × IsPage settings.now name.now page × Consumes (I.state input.old).remaining page.left page.bytes
        × IsReported page.end result
        × Grows (W.contents out.old) (W.contents out.new) (page_out settings.now.output page)
        × Grows (V.contents err.old) (V.contents err.new) (page_err settings.now.output page) }
    ensures cause { HasCause (causes I.counts W.counts V.counts I.state W.failures V.failures) result }
    ensures empty { IfOk result (λ outcome. (W.waits out.new ≡ []) × (V.waits err.new ≡ [])) }
{
    let run = run_into(alloc, input, out, err, name, settings);
    let put_out = (out.put_all_out(), err.put_all_out());
    let outcome = run?;
    match put_out {
        (true, true) => Ok(outcome),
        (true, false) => Err(Fault::WriteNotes),
        (false, _) => Err(Fault::WriteText),
    }
}

// Runs over a page: rows go to the output, and messages beside it, or to the output where they are wanted alone.
fn run_into<I: Input, W: Target, V: Target>(
    alloc: Global,
    input: &mut I,
    out: &mut W,
    err: &mut V,
    name: &str,
    settings: &Settings,
) -> Result<Outcome, Fault>
    ensures ran { (page : Page) × IsPage settings.now name.now page × Consumes (I.state input.old).remaining page.left page.bytes
        × (page.end ≡ result)
        × Grows (W.contents out.old) (W.contents out.new) (page_out settings.now.output page)
        × Grows (V.contents err.old) (V.contents err.new) (page_err settings.now.output page) }
    ensures cause { HasCause (causes I.counts W.counts V.counts I.state W.failures V.failures) result }
{
    match settings.output {
        Output::Lint => run_over(alloc, input, &mut Nowhere, out, name, settings),
        _ => run_over(alloc, input, out, err, name, settings),
    }
}

// Runs over a page; rows and messages go to two streams.
fn run_over<I: Input, W: Target, V: Target>(
    alloc: Global,
    input: &mut I,
    out: &mut W,
    notes: &mut V,
    name: &str,
    settings: &Settings,
) -> Result<Outcome, Fault>
    ensures ran { (page : Page) × IsPage settings.now name.now page × Consumes (I.state input.old).remaining page.left page.bytes
        × (page.end ≡ result) × Grows (W.contents out.old) (W.contents out.new) page.rows
        × Grows (V.contents notes.old) (V.contents notes.new) page.notes }
    ensures cause { HasCause (causes I.counts W.counts V.counts I.state W.failures V.failures) result }
{
    run_page(alloc, input, out, notes, name, settings)
}
