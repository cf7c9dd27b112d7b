//! The lines of an index, one after another, and the fields of each (makewhatis(8)).

ghost use Rattle.std.specs.Prelude.{◌≡◌, ◌+◌, ◌<◌, ◌≤◌, ◌^◌, [], ◌∷◌, length, None, option_map, MatchOption, MatchResult};
ghost use Rattle.std.specs.List.{slice_split};
ghost use Rattle.page_core_base.specs.declared.limits.TheConstants.{LINE};
ghost use Rattle.page_engine_index.specs.Entries.{is_tab, entry_of, version_of};
ghost use Rattle.page_engine_index.specs.machine.Steps.{entry_by, entries_by, both_texts, AreLast, IsNext, IsBad, IsParted};

use memchr::memchr;
use page_core_base::Fault;

// The file of an entry without one.
const NO_FILE: &[u8] = b"";

/// The form of an index.
#[derive(Clone, Copy)]
pub(crate) enum Version {
    /// Three fields a line.
    One,
    /// A fourth field, the page's file below its directory.
    Two,
}

/// The fields of a line.
#[derive(Clone, Copy)]
pub(crate) struct Fields<'a> {
    pub(crate) names: &'a [u8],
    pub(crate) section: &'a [u8],
    pub(crate) description: &'a [u8],
    /// Empty where it is unknown.
    pub(crate) file: &'a [u8],
}

/// How far an index was read: its version, once its first line has come, and how many lines came.
#[derive(Clone, Copy)]
pub(crate) struct Place {
    pub(crate) version: Option<Version>,
    pub(crate) lines: u32,
}

impl Place {
    /// Before the first line.
    pub(crate) fn start() -> Place
        ensures version { result.version ≡ None }
        ensures lines { result.lines ≡ 0 }
    {
        Place {
            version: None,
            lines: 0,
        }
    }

    /// Takes the next line, and answers its fields, where it is not the first one. A bad line is [`Fault::BadIndex`].
    pub(crate) fn next<'a>(&mut self, line: &'a [u8]) -> Result<Option<Fields<'a>>, Fault>
        requires bound { length line.now ≤ LINE }
        requires count { self.old.lines < 2 ^ 31 }
        ensures next { MatchResult result
            (λ fields. IsNext self.old self.new line.now (entries_by fields))
            (λ fault. IsBad self.old line.now fault) }
        ensures count { self.new.lines ≡ self.old.lines + 1 }
    {
        self.lines += 1;
        match self.version {
            None => match version_of(line) {
                Some(version) => {
                    self.version = Some(version);
                    Ok(None)
                }
                None => Err(Fault::BadIndex(self.lines)),
            },
            Some(version) => match fields_of(version, line) {
                Some(fields) => Ok(Some(fields)),
                None => Err(Fault::BadIndex(self.lines)),
            },
        }
    }
}

// The version by the first line.
#[tactic(auto, unfolding(crate::specs::Entries::version_of))]
fn version_of(line: &[u8]) -> Option<Version>
    ensures { result ≡ version_of line.now }
{
    if line == b"whatis 1".as_slice() {
        return Some(Version::One);
    }
    if line == b"whatis 2".as_slice() {
        return Some(Version::Two);
    }
    None
}

// The fields of a line, where it has as many as the version says.
fn fields_of<'a>(version: Version, line: &'a [u8]) -> Option<Fields<'a>>
    requires { length line.now ≤ LINE }
    ensures { option_map entry_by result ≡ entry_of version line.now }
{
    let (names, rest) = split_at_tab(line)?;
    let (section, rest) = split_at_tab(rest)?;
    let (description, file) = last_fields(version, rest)?;
    Some(Fields {
        names,
        section,
        description,
        file,
    })
}

// The description and the file; none in an index of version 1.
fn last_fields<'a>(version: Version, text: &'a [u8]) -> Option<(&'a [u8], &'a [u8])>
    ensures { AreLast version (slice_split is_tab text.now) (option_map both_texts result) }
{
    match version {
        Version::One => Some((last_field(text)?, NO_FILE)),
        Version::Two => {
            let (description, rest) = split_at_tab(text)?;
            Some((description, last_field(rest)?))
        }
    }
}

// A text without a tab.
fn last_field<'a>(text: &'a [u8]) -> Option<&'a [u8]>
    ensures { MatchOption result (IsParted (slice_split is_tab text.now))
        (λ field. slice_split is_tab text.now ≡ field.now ∷ []) }
{
    match memchr(b'\t', text) {
        Some(_) => None,
        None => Some(text),
    }
}

// The text before the first tab and the text after it.
fn split_at_tab<'a>(text: &'a [u8]) -> Option<(&'a [u8], &'a [u8])>
    ensures { MatchOption result
        (slice_split is_tab text.now ≡ text.now ∷ [])
        (λ parts. slice_split is_tab text.now ≡ parts.0.now ∷ slice_split is_tab parts.1.now) }
{
    let end = memchr(b'\t', text)?;
    Some((&text[..end], &text[end + 1..]))
}
