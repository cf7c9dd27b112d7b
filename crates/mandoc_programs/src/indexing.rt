//! Indexes made of the pages of directories (makewhatis(8)).

ghost use Rattle.std.specs.Prelude.{◌≡◌, ◌⊎◌, ◌<◌, ◌++◌, ⊤, ℕ, List, [], Ok, Err, Some, None, true, IsOk, IfOk, MatchResult};
ghost use Rattle.page_core_streams.specs.Streams.{Grows};
ghost use Rattle.mandoc_command.specs.Line.{indexes_of};
ghost use Rattle.mandoc_formats.specs.Formats.{HasFailed, shown};
ghost use Rattle.mandoc_programs.specs.Indexes.{Began, IsAll, IsAnswered, IsBegun, IsDir, IsSaid, Makes, MakesAll, Part, PutsIn, Reported, first_line, form_of, lost, puts, tail};
ghost use Rattle.mandoc_formats.specs.Turns.{Came, Does};
ghost use Rattle.mandoc_programs.specs.declared.pages.Form.TheVariants.{Index, Printed};

use crate::folders::Folders;
use crate::index_places::IndexPlaces;
use crate::pages::{Form, Pages, Tally};
use crate::searching::INDEX;
use mandoc_command::Makewhatis;
use mandoc_formats::{Buffered, Done, SYSTEM_FAILURE, Waiting, put_line_at, report_fault_at};
use page_core_base::Fault;
use page_core_streams::put_all;
use page_engine_index::FIRST_LINE;
use std::alloc::Global;

/// Makes the indexes of directories in their order, or prints the records of their pages, and answers the worst status (makewhatis(8),
/// EXIT STATUS).
///
/// A page that can't be read is reported on `err`, and the others go on, also where that line can't be printed. An index, or records, that
/// can't be written end it; so does an index that has to stay as it was.
#[inline(never)]
pub fn makewhatis<R: Folders, P: IndexPlaces, W: Buffered, V: Buffered>(
    files: &R,
    places: &mut P,
    alloc: Global,
    asked: &Makewhatis,
    out: &mut W,
    err: &mut V,
) -> u8
    ensures came { (all : Came Makes) × MakesAll (R.sees files.now) (HasFailed V.counts V.failures) (HasFailed W.counts W.failures) (indexes_of asked.now) all
        × Grows (W.contents out.old) (W.contents out.new) all.out × Grows (V.contents err.old) (V.contents err.new) all.err
        × Grows (P.put places.old) (P.put places.new) all.end.put × (result ≡ all.end.done.status) }
    ensures put_out { W.waits out.old ≡ [] → result < 6 → W.waits out.new ≡ [] }
    ensures said { V.waits err.old ≡ [] → result < 6 → IsSaid (V.waits err.new) (HasFailed V.counts V.failures) }
{
    let form = form_of(asked.prints);
    let names = asked.dirs.as_slice();
    let mut worst = 0;
    for name in names {
        let dir = name.as_str();
        let pages = Pages {
            files,
            alloc,
            form,
            dir,
        };
        let done = give_dir(&pages, places, out, err);
        worst = worst.max(done.status);
        if done.stops {
            return worst;
        }
    }
    worst
}

// How records are given.
fn form_of(prints: bool) -> Form
    ensures { result ≡ form_of prints }
{
    if prints { Form::Printed } else { Form::Index }
}

// Makes the index of a directory, or prints the records of its pages.
fn give_dir<R: Folders, P: IndexPlaces, W: Buffered, V: Buffered>(
    pages: &Pages<R>,
    places: &mut P,
    out: &mut W,
    err: &mut V,
) -> Done
    ensures came { (end : Makes) × Does (IsDir (R.sees pages.now.files.now) (HasFailed V.counts V.failures) (HasFailed W.counts W.failures) pages.now.form pages.now.dir.now) end
        (W.contents out.old) (W.contents out.new) (V.contents err.old) (V.contents err.new)
        × Grows (P.put places.old) (P.put places.new) end.put × (end.done ≡ result) }
    ensures put_out { W.waits out.old ≡ [] → result.status < 6 → W.waits out.new ≡ [] }
    ensures said { result.status < 6 → IsSaid (V.waits err.new) (HasFailed V.counts V.failures) }
{
    match pages.form {
        Form::Printed => print_dir(pages, out, err),
        Form::Index => make_index(pages, places, err),
    }
}

// Prints the records of the pages in a directory, if it is one.
fn print_dir<R: Folders, W: Buffered, V: Buffered>(
    pages: &Pages<R>,
    out: &mut W,
    err: &mut V,
) -> Done
    requires { pages.now.form ≡ Printed }
    ensures came { Does (IsDir (R.sees pages.now.files.now) (HasFailed V.counts V.failures) (HasFailed W.counts W.failures) Printed pages.now.dir.now) (record { done = result; put = [] })
        (W.contents out.old) (W.contents out.new) (V.contents err.old) (V.contents err.new) }
    ensures put_out { result.status < 6 → W.waits out.new ≡ [] }
    ensures said { result.status < 6 → IsSaid (V.waits err.new) (HasFailed V.counts V.failures) }
{
    if !pages.files.is_dir(pages.dir) {
        put_line_at(err, pages.dir, "cannot open");
        return Done::with(SYSTEM_FAILURE);
    }
    let given = give_waiting(pages, out, err);
    report_end(pages.form, pages.dir, given, err)
}

// Makes the index of a directory, which takes the place of the one that is there once it is whole.
fn make_index<R: Folders, P: IndexPlaces, V: Buffered>(
    pages: &Pages<R>,
    places: &mut P,
    err: &mut V,
) -> Done
    requires { pages.now.form ≡ Index }
    ensures came { (end : Makes) × Does (IsDir (R.sees pages.now.files.now) (HasFailed V.counts V.failures) ⊤ Index pages.now.dir.now) end None None (V.contents err.old) (V.contents err.new)
        × Grows (P.put places.old) (P.put places.new) end.put × (end.done ≡ result) }
    ensures said { result.status < 6 → IsSaid (V.waits err.new) (HasFailed V.counts V.failures) }
{
    let made = put_index(pages, places, err);
    report_end(pages.form, pages.dir, made, err)
}

// Reports the fault that ended a directory, if one did, puts out what waits of its messages, and answers what it left.
fn report_end<V: Buffered>(form: Form, dir: &str, end: Result<Tally, Fault>, err: &mut V) -> Done
    ensures came { (line : List ℕ) × Grows (V.contents err.old) (V.contents err.new) line × Reported (HasFailed V.counts V.failures) (shown dir.now ++ tail form) end line result }
    ensures failed { result.status < 6 → IsOk end }
    ensures said { result.status < 6 → IsSaid (V.waits err.new) (HasFailed V.counts V.failures) }
{
    match end {
        Ok(tally) => {
            err.put_all_out();
            Done::with(tally.status)
        }
        Err(fault) => report_fault_at(err, dir, tail(form), fault),
    }
}

// What follows the name of a directory where its fault is reported.
fn tail(form: Form) -> &'static str
    ensures { result.now ≡ tail form }
{
    match form {
        Form::Printed => "",
        Form::Index => INDEX,
    }
}

// Gives the records of all pages in a directory, and puts out what waits of them.
#[tactic(auto, using(crate::proofs::Parts::lost_so))]
fn give_waiting<R: Folders, W: Buffered, V: Buffered>(
    pages: &Pages<R>,
    out: &mut W,
    err: &mut V,
) -> Result<Tally, Fault>
    ensures came { (part : Part) × IsAll (R.sees pages.now.files.now) (HasFailed V.counts V.failures) (lost pages.now.form (HasFailed W.counts W.failures)) pages.now.form pages.now.dir.now part
        × IsAnswered (lost pages.now.form (HasFailed W.counts W.failures)) part.end result
        × Grows (W.contents out.old) (W.contents out.new) part.out × Grows (V.contents err.old) (V.contents err.new) part.err }
    ensures empty { IfOk result (λ _. W.waits out.new ≡ []) }
{
    let given = pages.give_all(out, err);
    let is_put_out = out.put_all_out();
    let tally = given?;
    if is_put_out {
        Ok(tally)
    } else {
        Err(Fault::WriteText)
    }
}

// Writes the index of a directory, and gives it its name.
fn put_index<R: Folders, P: IndexPlaces, V: Buffered>(
    pages: &Pages<R>,
    places: &mut P,
    err: &mut V,
) -> Result<Tally, Fault>
    requires { pages.now.form ≡ Index }
    ensures { (part : Part) × Began (R.sees pages.now.files.now) (HasFailed V.counts V.failures) ⊤ Index pages.now.dir.now part × IsAnswered ⊤ part.end result
        × Grows (V.contents err.old) (V.contents err.new) part.err
        × Grows (P.put places.old) (P.put places.new) (puts Index pages.now.dir.now part result) }
{
    match places.begin(pages.alloc, pages.dir) {
        Ok(Some(file)) => finish_index(pages, places, file, err),
        Ok(None) => Err(Fault::WriteText),
        Err(_) => Err(Fault::Memory),
    }
}

// Writes an index into a file, which then takes its name.
fn finish_index<R: Folders, P: IndexPlaces, V: Buffered>(
    pages: &Pages<R>,
    places: &mut P,
    file: P::File,
    err: &mut V,
) -> Result<Tally, Fault>
    requires form { pages.now.form ≡ Index }
    requires begun { IsBegun (P.put places.old) (P.begun places.old) pages.now.dir.now (P.File.contents file) }
    ensures { (part : Part) × Began (R.sees pages.now.files.now) (HasFailed V.counts V.failures) ⊤ Index pages.now.dir.now part × IsAnswered ⊤ part.end result
        × Grows (V.contents err.old) (V.contents err.new) part.err
        × Grows (P.put places.old) (P.put places.new) (puts Index pages.now.dir.now part result) }
{
    let mut index = Waiting::new(file);
    let written = write_index(pages, &mut index, err);
    let file = index.into_inner();
    match written {
        Ok(tally) => put_whole(places, file, tally),
        Err(fault) => {
            places.give_up(file);
            Err(fault)
        }
    }
}

// Gives an index that is whole its name.
fn put_whole<P: IndexPlaces>(places: &mut P, file: P::File, tally: Tally) -> Result<Tally, Fault>
    ensures result { (result ≡ Ok tally) ⊎ (result ≡ Err Fault.WriteText) }
    ensures put { MatchResult result
        (λ _. PutsIn true (P.put places.old) (P.put places.new) (P.begun places.old) (P.File.contents file))
        (λ _. Grows (P.put places.old) (P.put places.new) []) }
{
    if places.put_in_place(file) {
        return Ok(tally);
    }
    Err(Fault::WriteText)
}

// Writes an index, and puts out what waits of it.
fn write_index<R: Folders, W: Buffered, V: Buffered>(
    pages: &Pages<R>,
    index: &mut W,
    err: &mut V,
) -> Result<Tally, Fault>
    requires { pages.now.form ≡ Index }
    ensures came { (part : Part) × Began (R.sees pages.now.files.now) (HasFailed V.counts V.failures) ⊤ Index pages.now.dir.now part × IsAnswered ⊤ part.end result
        × Grows (V.contents err.old) (V.contents err.new) part.err
        × (IsOk result → Grows (W.contents index.old) (W.contents index.new) (first_line ++ part.out)) }
    ensures empty { IfOk result (λ _. W.waits index.new ≡ []) }
{
    if !put_all(index, &[FIRST_LINE.as_bytes(), b"\n"]) {
        return Err(Fault::WriteText);
    }
    give_waiting(pages, index, err)
}
