//! What is looked for in an index, and what is shown of an entry (whatis(1)).

ghost use Rattle.std.specs.Prelude.{◌≡◌, [], ◌∷◌};
ghost use Rattle.std.specs.List.{flat_map, list_any};
ghost use Rattle.page_engine_index.specs.Matches.{has_match};
ghost use Rattle.page_engine_index.specs.machine.Steps.{GivesRow, entries_by, entry_by};
ghost use Rattle.page_engine_index.specs.Searches.{rows_to};
ghost use Rattle.page_engine_index.specs.Whatis.{asked_of, described, file_row, is_in, is_shown, row_of, rows};

use crate::entries::Fields;
use crate::line_sinks::LineSink;
use crate::matches::has_match;
use page_core_base::Fault;

/// What is shown of an entry.
#[derive(Clone, Copy)]
pub enum Show {
    /// Its names, its section and its description.
    Entry,
    /// The page's file; an entry that has none is passed over.
    File,
}

/// What is looked for: the words, and the section, where it is one alone.
#[derive(Clone, Copy)]
pub struct Query<'a> {
    pub words: &'a [&'a str],
    pub section: Option<&'a str>,
    pub show: Show,
}

impl<'a> Query<'a> {
    // Gives the row of a line's entry, if it has one, and answers how many rows these are.
    pub(crate) fn give_rows<L: LineSink>(
        &self,
        out: &mut L,
        fields: Option<Fields>,
    ) -> Result<u64, Fault>
        ensures gives { GivesRow result (rows_to L.gave L.within L.failed) out.old out.new
            (rows (asked_of self.now) (entries_by fields.entry)) }
        ensures same { L.loans out.new ≡ L.loans out.old }
    {
        match fields {
            Some(fields) => self.give_row(out, &fields),
            None => Ok(0),
        }
    }

    // Gives the row of an entry, if it has one, and answers how many rows these are.
    fn give_row<L: LineSink>(&self, out: &mut L, fields: &Fields) -> Result<u64, Fault>
        ensures gives { GivesRow result (rows_to L.gave L.within L.failed) out.old out.new
            (row_of (asked_of self.now) (entry_by fields.now)) }
        ensures same { L.loans out.new ≡ L.loans out.old }
    {
        if !self.shows(fields) {
            return Ok(0);
        }
        match self.show {
            Show::Entry => give_entry(out, fields),
            Show::File => give_file(out, fields.file),
        }
    }

    // Whether an entry is shown: one of the words matches, and the section is the one that is wanted.
    #[tactic(auto, unfolding(crate::specs::Whatis::is_shown))]
    fn shows(&self, fields: &Fields) -> bool
        ensures { result ≡ is_shown (asked_of self.now) (entry_by fields.now) }
    {
        self.is_in(fields.section) && self.has_match(fields.names)
    }

    // Whether a section is the one that is wanted.
    fn is_in(&self, section: &[u8]) -> bool
        ensures { result ≡ is_in (asked_of self.now).section section.now }
    {
        match self.section {
            Some(wanted) => wanted.as_bytes() == section,
            None => true,
        }
    }

    // Whether one of the words matches.
    fn has_match(&self, names: &[u8]) -> bool
        ensures { result ≡ list_any (λ word. has_match word names.now) (asked_of self.now).words }
    {
        for word in self.words {
            if has_match(word.as_bytes(), names) {
                return true;
            }
        }
        false
    }
}

// Gives `names(section) - description`.
fn give_entry<L: LineSink>(out: &mut L, fields: &Fields) -> Result<u64, Fault>
    ensures gives { GivesRow result (rows_to L.gave L.within L.failed) out.old out.new
        (described fields.now.names.now fields.now.section.now fields.now.description.now ∷ []) }
    ensures same { L.loans out.new ≡ L.loans out.old }
{
    let parts: [&[u8]; 6] = [
        fields.names,
        b"(",
        fields.section,
        b") - ",
        fields.description,
        b"\n",
    ];
    give_line(out, &parts)
}

// Gives a file, unless it is unknown.
fn give_file<L: LineSink>(out: &mut L, file: &[u8]) -> Result<u64, Fault>
    ensures gives { GivesRow result (rows_to L.gave L.within L.failed) out.old out.new (file_row file.now) }
    ensures same { L.loans out.new ≡ L.loans out.old }
{
    if file.is_empty() {
        return Ok(0);
    }
    give_line(out, &[file, b"\n"])
}

// Gives a line.
fn give_line<L: LineSink>(out: &mut L, parts: &[&[u8]]) -> Result<u64, Fault>
    ensures gives { GivesRow result (rows_to L.gave L.within L.failed) out.old out.new
        (flat_map (λ part. part.now) parts.now ∷ []) }
    ensures same { L.loans out.new ≡ L.loans out.old }
{
    match out.line(parts) {
        Ok(()) => Ok(1),
        Err(fault) => Err(fault),
    }
}
