//! The records of the pages in a directory (makewhatis(8)).

ghost use Rattle.std.specs.Prelude.{◌≡◌, ℕ, List, Ok, Option, map, string_bytes, true, MatchResult, IfErr, IfOk};
ghost use Rattle.page_core_streams.specs.Streams.{ErrsBy, Grows, GrowsInto};
ghost use Rattle.page_engine_index.specs.Fields.{is_field};
ghost use Rattle.mandoc_programs.specs.Bearings.{bearing_of_folder};
ghost use Rattle.mandoc_programs.specs.Indexes.{Gives, IsAll, IsFolder, IsListed, IsNamed, IsOpened, IsPage, OfListed, OfPage, OfUnlisted, PartsOf, after, below, entry_by, lost, unlisted_text};
ghost use Rattle.mandoc_formats.specs.Formats.{HasFailed};
ghost use Rattle.mandoc_formats.specs.Turns.{Does};

use crate::bearings::{Bearing, bearing_of_file, bearing_of_folder, bearing_of_page};
use crate::compressed::report_compressed;
use crate::folders::Folders;
use crate::page_records::{Found, find_record};
use mandoc_formats::{Buffered, SYSTEM_FAILURE, put_line_at, report_fault_at};
use page_core_base::Fault;
use page_core_streams::Target;
use page_engine_index::{Record, is_field, print_record, write_record};
use std::alloc::{AllocError, Global};
use std::io::{ErrorKind, Read};

/// The folders of pages below a directory, by the sections of the manual.
const FOLDERS: [&str; 9] = [
    "man1", "man2", "man3", "man4", "man5", "man6", "man7", "man8", "man9",
];

/// How records are given.
#[derive(Clone, Copy)]
pub enum Form {
    /// As an index has them.
    Index,
    /// As rows to be read.
    Printed,
}

/// What pages left where no fault ended them: the worst status, and how many were compressed.
#[derive(Clone, Copy)]
pub struct Tally {
    pub status: u8,
    pub compressed: u64,
}

impl Tally {
    ghost use Rattle.std.specs.Prelude.{◌≡◌};
    ghost use Rattle.mandoc_programs.specs.Indexes.{both};
    ghost use Rattle.mandoc_programs.specs.declared.pages.Tally.{Tally};

    // Of pages that left a status, of which none was compressed.
    fn with(status: u8) -> Tally
        ensures { result ≡ record { status = status; compressed = 0 } }
    {
        Tally {
            status,
            compressed: 0,
        }
    }

    // Of these pages and others.
    #[tactic(auto, using(mandoc_formats::proofs::Turns::worse))]
    fn and(self, other: Tally) -> Tally
        ensures { result ≡ both self other }
    {
        Tally {
            status: self.status.max(other.status),
            compressed: self.compressed.saturating_add(other.compressed),
        }
    }
}

/// The pages in a directory, and the form of their records.
#[derive(Clone, Copy)]
pub(crate) struct Pages<'a, R> {
    pub(crate) files: &'a R,
    pub(crate) alloc: Global,
    pub(crate) form: Form,
    pub(crate) dir: &'a str,
}

impl<R: Folders> Pages<'_, R> {
    /// Gives the records of all pages, folder by folder, each in the order of the bytes of its files' names.
    ///
    /// Its fault is [`Fault::Memory`], or [`Fault::WriteText`] where a record can't be written, or where an index has to stay as it was. What can't
    /// be read is reported; pages that are compressed are counted, and their number is said at the end.
    pub(crate) fn give_all<W: Target, V: Buffered>(
        &self,
        out: &mut W,
        err: &mut V,
    ) -> Result<Tally, Fault>
        ensures { Does (IsAll (R.sees self.now.files.now) (HasFailed V.counts V.failures) (lost self.now.form (HasFailed W.counts W.failures)) self.now.form self.now.dir.now) result
            (W.contents out.old) (W.contents out.new) (V.contents err.old) (V.contents err.new) }
    {
        let given = self.give_folders(&FOLDERS, out, err);
        report_compressed(err, self.dir, given);
        given
    }

    // Gives the records of the pages in folders.
    fn give_folders<W: Target, V: Buffered>(
        &self,
        folders: &[&str],
        out: &mut W,
        err: &mut V,
    ) -> Result<Tally, Fault>
        ensures { Does (PartsOf (IsFolder (R.sees self.now.files.now) (HasFailed V.counts V.failures) (lost self.now.form (HasFailed W.counts W.failures)) self.now.form self.now.dir.now) (map (λ folder. folder.now) folders.now)) result
            (W.contents out.old) (W.contents out.new) (V.contents err.old) (V.contents err.new) }
    {
        let mut tally = Tally::with(0);
        for folder in folders {
            match self.give_folder(*folder, out, err) {
                Ok(more) => tally = tally.and(more),
                Err(fault) => return Err(fault),
            }
        }
        Ok(tally)
    }

    // Gives the records of the pages in a folder, if there is one.
    fn give_folder<W: Target, V: Buffered>(
        &self,
        folder: &str,
        out: &mut W,
        err: &mut V,
    ) -> Result<Tally, Fault>
        ensures { Does (IsFolder (R.sees self.now.files.now) (HasFailed V.counts V.failures) (lost self.now.form (HasFailed W.counts W.failures)) self.now.form self.now.dir.now folder.now) result
            (W.contents out.old) (W.contents out.new) (V.contents err.old) (V.contents err.new) }
    {
        match below(self.alloc, self.dir, folder) {
            Ok(path) => self.give_listed(folder, path.as_str(), out, err),
            Err(_) => Err(Fault::Memory),
        }
    }

    // Gives the records of the pages in a folder that has a path.
    fn give_listed<W: Target, V: Buffered>(
        &self,
        folder: &str,
        path: &str,
        out: &mut W,
        err: &mut V,
    ) -> Result<Tally, Fault>
        ensures { Does (IsListed (R.sees self.now.files.now) (HasFailed V.counts V.failures) (lost self.now.form (HasFailed W.counts W.failures)) self.now.form self.now.dir.now folder.now path.now) result
            (W.contents out.old) (W.contents out.new) (V.contents err.old) (V.contents err.new) }
    {
        match self.files.list(self.alloc, path) {
            Ok(names) => self.give_sorted(folder, names, out, err),
            Err(error) => report_unlisted(self.form, path, error.kind(), err),
        }
    }

    // Gives the records of the pages in a folder, in the order of the bytes of their files' names.
    fn give_sorted<W: Target, V: Buffered>(
        &self,
        folder: &str,
        names: Vec<String>,
        out: &mut W,
        err: &mut V,
    ) -> Result<Tally, Fault>
        ensures { (path : List ℕ) → Does (OfListed (R.sees self.now.files.now) (HasFailed V.counts V.failures) (lost self.now.form (HasFailed W.counts W.failures)) self.now.form self.now.dir.now folder.now path (Ok (map string_bytes names.items))) result
            (W.contents out.old) (W.contents out.new) (V.contents err.old) (V.contents err.new) }
    {
        let mut names = names;
        names.sort_unstable();
        self.give_files(folder, names.as_slice(), out, err)
    }

    // Gives the records of the pages in files of a folder.
    fn give_files<W: Target, V: Buffered>(
        &self,
        folder: &str,
        names: &[String],
        out: &mut W,
        err: &mut V,
    ) -> Result<Tally, Fault>
        ensures { Does (PartsOf (IsPage (R.sees self.now.files.now) (HasFailed V.counts V.failures) (lost self.now.form (HasFailed W.counts W.failures)) self.now.form self.now.dir.now folder.now) (map string_bytes names.now)) result
            (W.contents out.old) (W.contents out.new) (V.contents err.old) (V.contents err.new) }
    {
        let mut tally = Tally::with(0);
        for name in names {
            match self.give_file(folder, name.as_str(), out, err) {
                Ok(more) => tally = tally.and(more),
                Err(fault) => return Err(fault),
            }
        }
        Ok(tally)
    }

    // Gives the record of the page in a file, if it has one. A file whose name can't be in an index is passed over.
    fn give_file<W: Target, V: Buffered>(
        &self,
        folder: &str,
        name: &str,
        out: &mut W,
        err: &mut V,
    ) -> Result<Tally, Fault>
        ensures { Does (IsPage (R.sees self.now.files.now) (HasFailed V.counts V.failures) (lost self.now.form (HasFailed W.counts W.failures)) self.now.form self.now.dir.now folder.now name.now) result
            (W.contents out.old) (W.contents out.new) (V.contents err.old) (V.contents err.new) }
    {
        match below(self.alloc, folder, name) {
            Ok(file) => self.give_named(file.as_str(), out, err),
            Err(_) => Err(Fault::Memory),
        }
    }

    // Gives the record of the page in a file that has a name below the directory.
    fn give_named<W: Target, V: Buffered>(
        &self,
        file: &str,
        out: &mut W,
        err: &mut V,
    ) -> Result<Tally, Fault>
        ensures { Does (IsNamed (R.sees self.now.files.now) (HasFailed V.counts V.failures) (lost self.now.form (HasFailed W.counts W.failures)) self.now.form self.now.dir.now file.now) result
            (W.contents out.old) (W.contents out.new) (V.contents err.old) (V.contents err.new) }
    {
        if !is_field(file) {
            return Ok(Tally::with(0));
        }
        match below(self.alloc, self.dir, file) {
            Ok(path) => self.give_opened(file, path.as_str(), out, err),
            Err(_) => Err(Fault::Memory),
        }
    }

    // Gives the record of the page in a file that has a path.
    fn give_opened<W: Target, V: Buffered>(
        &self,
        file: &str,
        path: &str,
        out: &mut W,
        err: &mut V,
    ) -> Result<Tally, Fault>
        requires { is_field file.now ≡ true }
        ensures { Does (IsOpened (R.sees self.now.files.now) (HasFailed V.counts V.failures) (lost self.now.form (HasFailed W.counts W.failures)) self.now.form self.now.dir.now file.now path.now) result
            (W.contents out.old) (W.contents out.new) (V.contents err.old) (V.contents err.new) }
    {
        match self.files.open(path) {
            Ok(Some(mut page)) => self.give_page(file, path, &mut page, out, err),
            Ok(None) => Ok(Tally::with(0)),
            Err(error) => {
                put_line_at(err, path, "cannot open");
                after(self.form, bearing_of_file(error.raw_os_error()))
            }
        }
    }

    // Gives the record of a page.
    fn give_page<I: Read, W: Target, V: Buffered>(
        &self,
        file: &str,
        path: &str,
        input: &mut I,
        out: &mut W,
        err: &mut V,
    ) -> Result<Tally, Fault>
        requires { is_field file.now ≡ true }
        ensures { Does (OfPage (HasFailed V.counts V.failures) (lost self.now.form (HasFailed W.counts W.failures)) self.now.form path.now file.now (I.remaining input.old)) result
            (W.contents out.old) (W.contents out.new) (V.contents err.old) (V.contents err.new) }
    {
        match find_record(self.alloc, input) {
            Ok(Found::Record(page)) => give_record(out, self.form, &page, file),
            Ok(Found::Nothing) => Ok(Tally::with(0)),
            Ok(Found::Compressed) => Ok(Tally {
                status: 0,
                compressed: 1,
            }),
            Err(fault) => {
                report_fault_at(err, path, "", fault);
                after(self.form, bearing_of_page(fault))
            }
        }
    }
}

// Gives a record in a form.
fn give_record<W: Target>(
    out: &mut W,
    form: Form,
    page: &Record,
    file: &str,
) -> Result<Tally, Fault>
    requires { is_field file.now ≡ true }
    ensures { (err : Option (List ℕ)) → Does (Gives (lost form (HasFailed W.counts W.failures)) (entry_by form file.now page.now)) result (W.contents out.old) (W.contents out.new) err err }
{
    match write_in(out, form, page, file) {
        Ok(()) => Ok(Tally::with(0)),
        Err(fault) => Err(fault),
    }
}

// Writes a record in a form.
fn write_in<W: Target>(out: &mut W, form: Form, page: &Record, file: &str) -> Result<(), Fault>
    requires { is_field file.now ≡ true }
    ensures gives { MatchResult result
        (λ _. Grows (W.contents out.old) (W.contents out.new) (entry_by form file.now page.now))
        (λ _. GrowsInto (W.contents out.old) (W.contents out.new) (entry_by form file.now page.now)) }
    ensures cause { ErrsBy W.counts result (W.failures out.old) (W.failures out.new) }
    ensures fault { IfErr result (λ fault. fault ≡ Fault.WriteText) }
{
    match form {
        Form::Index => write_record(out, page, file),
        Form::Printed => print_record(out, page),
    }
}

// Reports a folder that can't be listed, unless there is none, and goes on.
fn report_unlisted<V: Buffered>(
    form: Form,
    path: &str,
    kind: ErrorKind,
    err: &mut V,
) -> Result<Tally, Fault>
    ensures { (out : Option (List ℕ)) → Does (OfUnlisted (HasFailed V.counts V.failures) form path.now kind (bearing_of_folder kind)) result
        out out (V.contents err.old) (V.contents err.new) }
{
    match bearing_of_folder(kind) {
        Bearing::NoFault => Ok(Tally::with(0)),
        bearing => {
            put_line_at(err, path, unlisted_text(kind));
            after(form, bearing)
        }
    }
}

// What is said of a folder that can't be listed.
fn unlisted_text(kind: ErrorKind) -> &'static str
    ensures { result.now ≡ unlisted_text kind }
{
    match kind {
        ErrorKind::OutOfMemory => "out of memory",
        _ => "cannot open",
    }
}

// What follows a fault that was reported. Where the old index has to stay, the new one can't be written.
fn after(form: Form, bearing: Bearing) -> Result<Tally, Fault>
    ensures { result ≡ after form bearing }
{
    match (form, bearing) {
        (Form::Index, Bearing::KeepsOld) => Err(Fault::WriteText),
        _ => Ok(Tally::with(SYSTEM_FAILURE)),
    }
}

// The name of what lies in a folder.
fn below(alloc: Global, folder: &str, name: &str) -> Result<String, AllocError>
    ensures { IfOk result (λ path. string_bytes path ≡ below folder.now name.now) }
{
    let mut path = String::from_str(alloc, folder)?;
    path.push_str("/")?;
    path.push_str(name)?;
    Ok(path)
}
