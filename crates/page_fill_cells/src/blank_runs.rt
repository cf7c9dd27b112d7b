//! Places of a row that are known to have blanks, so that blanks that come again cost nothing.

ghost use Rattle.std.specs.Prelude.{◌≡◌, ◌<◌, ◌≤◌, List, length, set, take, true, max};
ghost use Rattle.std.specs.List.{list_all};
ghost use Rattle.page_core_base.specs.declared.cells.Cell.{Cell};
ghost use Rattle.page_fill_cells.specs.machine.BlankRuns.{HasRun, is_blank_byte};
ghost use Rattle.page_core_base.specs.laws.Views.{is_printable_ascii};

use page_core_base::{Cell, Font};

// The bytes of a text that no word has, of which most are blanks if the first one is.
const LONG: usize = 64;

// The bytes of a text that is read in groups of as many.
const LONGER: usize = 128;

/// Places of a row that are known to have blanks in one font: those from a start up to an end.
#[derive(Clone, Copy)]
pub(crate) struct BlankRun {
    pub(crate) start: usize,
    pub(crate) end: usize,
    pub(crate) font: Font,
}

/// No place is known to have a blank.
pub(crate) const NO_RUN: BlankRun = BlankRun {
    start: 0,
    end: 0,
    font: Font::R,
};

// Whether two fonts are the same.
fn is_same(one: Font, other: Font) -> bool
    ensures { result ≡ true → one ≡ other }
{
    match one {
        Font::R => matches!(other, Font::R),
        Font::B => matches!(other, Font::B),
        Font::I => matches!(other, Font::I),
        Font::BI => matches!(other, Font::BI),
    }
}

impl BlankRun {
    /// Whether all places from a start up to an end are known to have blanks in a font.
    pub(crate) fn has(&self, start: usize, end: usize, font: Font) -> bool
        ensures { result ≡ true → (self.now.start ≤ start) × (end ≤ self.now.end) × (self.now.font ≡ font) }
    {
        self.start <= start && end <= self.end && is_same(self.font, font)
    }

    // Whether blanks in a font that begin at a place go on with these.
    fn goes_on(self, place: usize, font: Font) -> bool
        ensures { result ≡ true → (self.start ≤ place) × (place ≤ self.end) × (self.font ≡ font) }
    {
        self.start <= place && place <= self.end && is_same(self.font, font)
    }

    // Whether these blanks begin before a place or there, and have a font.
    fn goes_on_after(self, place: usize, font: Font) -> bool
        ensures { result ≡ true → (self.start ≤ place) × (self.font ≡ font) }
    {
        self.start <= place && is_same(self.font, font)
    }

    /// What is known where places from a start up to an end were given blanks in a font: these, and those before them with which they go on.
    pub(crate) fn with(self, start: usize, end: usize, font: Font) -> BlankRun
        ensures { (old new : List Cell) → HasRun old self.start self.end self.font
            → take start new ≡ take start old → HasRun new start end font
            → HasRun new result.start result.end result.font }
    {
        if self.goes_on(start, font) {
            return BlankRun {
                start: self.start,
                end,
                font,
            };
        }
        BlankRun { start, end, font }
    }

    /// What is known where a cell was put in the first place.
    pub(crate) fn after_first(self, cell: Cell) -> BlankRun
        ensures { (places : List Cell) → HasRun places self.start self.end self.font
            → HasRun (set places 0 cell) result.start result.end result.font }
    {
        if cell.c == ' ' && self.goes_on_after(1, cell.font) {
            return BlankRun { start: 0, ..self };
        }
        BlankRun {
            start: self.start.max(1),
            ..self
        }
    }

    /// The places before an end are put anew.
    pub(crate) fn cut(&mut self, end: usize)
        ensures start { self.new.start ≡ max self.old.start end }
        ensures end { self.new.end ≡ self.old.end }
        ensures font { self.new.font ≡ self.old.font }
    {
        self.start = self.start.max(end);
    }
}

// Whether all bytes are blanks. All of them are read, so that the compiler can test many at once.
#[inline(always)]
fn are_blanks(bytes: &[u8]) -> bool
    ensures { result ≡ list_all is_blank_byte bytes.now }
{
    let mut all = true;
    for byte in bytes {
        all &= *byte == b' ';
    }
    all
}

// Whether all bytes are blanks, tested in groups of one size, for which the compiler needs no loop. The last group may overlap the one before.
#[inline(always)]
fn groups_blank<const GROUP: usize>(bytes: &[u8]) -> bool
    requires some { 0 < GROUP }
    requires long { GROUP ≤ length bytes.now }
    ensures { result ≡ list_all is_blank_byte bytes.now }
{
    let last = bytes.len() - GROUP;
    let mut at = 0;
    while at < last {
        if !are_blanks(&bytes[at..at + GROUP]) {
            return false;
        }
        at += GROUP;
    }
    are_blanks(&bytes[last..])
}

// Whether all bytes of a long text are blanks, tested in the largest groups that fit. It is a call, so that its callers stay small.
#[inline(never)]
fn are_long_blanks(bytes: &[u8]) -> bool
    requires { LONG ≤ length bytes.now }
    ensures { result ≡ list_all is_blank_byte bytes.now }
{
    if bytes.len() < LONGER {
        groups_blank::<64>(bytes)
    } else {
        groups_blank::<128>(bytes)
    }
}

/// Whether there are blanks alone. A long text that begins with one mostly has no other byte, and is read in groups.
pub(crate) fn is_blank_text(bytes: &[u8]) -> bool
    ensures { result ≡ list_all is_blank_byte bytes.now }
{
    if bytes.len() >= LONG && bytes[0] == b' ' {
        return are_long_blanks(bytes);
    }
    for byte in bytes {
        if *byte != b' ' {
            return false;
        }
    }
    true
}

/// Whether a text is so long that its blanks are worth a look, and all of its bytes are blanks.
#[inline(always)]
pub fn is_long_run(bytes: &[u8]) -> bool
    ensures blanks { result ≡ true → list_all is_blank_byte bytes.now ≡ true }
    ensures printable { result ≡ true → is_printable_ascii bytes.now ≡ true }
{
    bytes.len() >= LONG && bytes[0] == b' ' && are_long_blanks(bytes)
}
