//! The table of macros: what each does, and whether words call it or others in its line (mdoc(7), "MACRO
//! REFERENCE" and "MACRO SYNTAX").

ghost use Rattle.std.specs.Prelude.{◌≡◌};
ghost use Rattle.page_sets_mdoc_lines.specs.Rows as rows;
ghost use Rattle.page_sets_mdoc_lines.specs.machine.Cursors.{has_name_len};

use crate::blocks::{BlockMacro, LineMacro, Sentence};
use crate::macros::{Defaulted, Inline, Pair, System};
use page_core_base::{Font, list_for, row_named};
use page_sets_lines::{BodyParagraphName, HeadingName, Marks, OneLineName, Prologue, Quotation};

/// A row of the table: what a macro does where it begins a line, and how it is to the macros that words call. The flags are columns of the
/// summary in mdoc(7), "MACRO SYNTAX".
#[derive(Clone, Copy)]
pub struct MacroRow {
    pub begins: LineMacro,
    /// A word can call it: "Callable".
    pub is_callable: bool,
    /// Words of its line can call others: "Parsed".
    pub is_parsed: bool,
}

// A macro that words can call, and that lets words of its line call others.
macro_rules! callable {
    ($inline:expr) => {
        MacroRow {
            begins: LineMacro::Inline($inline),
            is_callable: true,
            is_parsed: true,
        }
    };
}

// A macro that no word can call, and that lets words of its line call others.
macro_rules! parsed {
    ($begins:expr) => {
        MacroRow {
            begins: $begins,
            is_callable: false,
            is_parsed: true,
        }
    };
}

// A macro that no word can call, in whose line no word calls.
macro_rules! unparsed {
    ($begins:expr) => {
        MacroRow {
            begins: $begins,
            is_callable: false,
            is_parsed: false,
        }
    };
}

/// The row of a name, if it is that of a macro.
pub fn row_of(name: &[u8]) -> Option<MacroRow>
    ensures { result ≡ rows.row_of name.now }
{
    row_named(list_for(&MACROS, name), name)
}

// Whether a text is as long as names of macros are. Most words of a line are not, and are not looked for in the table.
#[inline(always)]
fn has_name_len(text: &[u8]) -> bool
    ensures { result ≡ has_name_len text.now }
{
    text.len() == 2 || text.len() == 3
}

/// What a word of a line calls, if it names a macro that words can call ("Callable").
#[inline(always)]
pub fn called(name: &[u8]) -> Option<Inline>
    ensures { result ≡ rows.called name.now }
{
    if !has_name_len(name) {
        return None;
    }
    let row = row_of(name)?;
    match row.begins {
        LineMacro::Inline(inline) if row.is_callable => Some(inline),
        _ => None,
    }
}

// The table: the names by their first letter. The place of a list is its letter's number: from 1 for `A`, and 37 for `%`.
static MACROS: [&[(&[u8], MacroRow)]; 38] = [
    &[],
    &[
        (b"Ar", callable!(Inline::Defaulted(Defaulted::Files))),
        (b"Aq", callable!(Inline::Enclosure(Marks::Angle))),
        (b"An", callable!(Inline::Author)),
        (b"Ad", callable!(Inline::Words(Font::I))),
        (b"At", callable!(Inline::Words(Font::R))),
        (b"Ap", callable!(Inline::Apostrophe)),
        (
            b"Ao",
            callable!(Inline::Opens(Pair::Quotation(Quotation::Ao))),
        ),
        (
            b"Ac",
            callable!(Inline::Closes(Pair::Quotation(Quotation::Ao))),
        ),
    ],
    &[
        (b"Bl", unparsed!(LineMacro::Begins(BlockMacro::List))),
        (b"Bd", unparsed!(LineMacro::Begins(BlockMacro::Display))),
        (b"Bk", unparsed!(LineMacro::Begins(BlockMacro::Keep))),
        (b"Brq", callable!(Inline::Enclosure(Marks::Curly))),
        (b"Bsx", callable!(Inline::System(System::BsdOs))),
        (b"Bx", callable!(Inline::Bsd)),
        (b"Bq", callable!(Inline::Enclosure(Marks::Square))),
        (
            b"Bo",
            callable!(Inline::Opens(Pair::Quotation(Quotation::Bo))),
        ),
        (
            b"Bc",
            callable!(Inline::Closes(Pair::Quotation(Quotation::Bo))),
        ),
        (
            b"Bro",
            callable!(Inline::Opens(Pair::Quotation(Quotation::Bro))),
        ),
        (
            b"Brc",
            callable!(Inline::Closes(Pair::Quotation(Quotation::Bro))),
        ),
        (b"Bf", unparsed!(LineMacro::Begins(BlockMacro::Fonts))),
    ],
    &[
        (b"Cm", callable!(Inline::Words(Font::B))),
        (b"Cd", callable!(Inline::Declaration)),
    ],
    &[
        (b"Dq", callable!(Inline::Enclosure(Marks::Double))),
        (b"Dv", callable!(Inline::Words(Font::R))),
        (b"Dl", parsed!(LineMacro::OneLine(OneLineName::Dl))),
        (b"D1", parsed!(LineMacro::OneLine(OneLineName::D1))),
        (
            b"Do",
            callable!(Inline::Opens(Pair::Quotation(Quotation::Do))),
        ),
        (
            b"Dc",
            callable!(Inline::Closes(Pair::Quotation(Quotation::Do))),
        ),
        (b"Dx", callable!(Inline::System(System::DragonFly))),
        (b"Dd", unparsed!(LineMacro::Prologue(Prologue::Dd))),
        (b"Dt", unparsed!(LineMacro::Prologue(Prologue::Dt))),
    ],
    &[
        (b"Em", callable!(Inline::Words(Font::I))),
        (b"Ev", callable!(Inline::Words(Font::R))),
        (b"El", unparsed!(LineMacro::Ends(BlockMacro::List))),
        (b"Ed", unparsed!(LineMacro::Ends(BlockMacro::Display))),
        (b"Ek", unparsed!(LineMacro::Ends(BlockMacro::Keep))),
        (b"Er", callable!(Inline::Words(Font::R))),
        (b"Eo", callable!(Inline::Opens(Pair::Custom))),
        (b"Ec", callable!(Inline::Closes(Pair::Custom))),
        (b"Ef", unparsed!(LineMacro::Ends(BlockMacro::Fonts))),
        (b"Ex", unparsed!(LineMacro::Sentence(Sentence::Exit))),
    ],
    &[
        (b"Fl", callable!(Inline::Flag)),
        (b"Fn", callable!(Inline::Function)),
        (b"Fa", callable!(Inline::Arguments)),
        (b"Ft", callable!(Inline::TypeName)),
        (b"Fo", callable!(Inline::Opens(Pair::Function))),
        (b"Fc", callable!(Inline::Closes(Pair::Function))),
        (b"Fd", unparsed!(LineMacro::Inline(Inline::Declaration))),
        (b"Fx", callable!(Inline::System(System::FreeBsd))),
    ],
    &[],
    &[],
    &[
        (b"It", parsed!(LineMacro::Item)),
        (b"Ic", callable!(Inline::Words(Font::B))),
        (b"In", unparsed!(LineMacro::Include)),
    ],
    &[],
    &[],
    &[
        (b"Li", callable!(Inline::Words(Font::R))),
        (b"Lb", unparsed!(LineMacro::Inline(Inline::Words(Font::R)))),
        (b"Lk", callable!(Inline::Link)),
        (
            b"Lp",
            unparsed!(LineMacro::Paragraph(BodyParagraphName::Lp)),
        ),
    ],
    &[
        (b"Mt", callable!(Inline::Words(Font::I))),
        (b"Ms", callable!(Inline::Words(Font::B))),
    ],
    &[
        (b"Nm", callable!(Inline::Name)),
        (b"No", callable!(Inline::Words(Font::R))),
        (b"Ns", callable!(Inline::NoSpace)),
        (b"Nx", callable!(Inline::System(System::NetBsd))),
        (b"Nd", unparsed!(LineMacro::Description)),
    ],
    &[
        (b"Op", callable!(Inline::Enclosure(Marks::Square))),
        (
            b"Oo",
            callable!(Inline::Opens(Pair::Quotation(Quotation::Oo))),
        ),
        (
            b"Oc",
            callable!(Inline::Closes(Pair::Quotation(Quotation::Oo))),
        ),
        (b"Ox", callable!(Inline::System(System::OpenBsd))),
        (b"Os", unparsed!(LineMacro::Prologue(Prologue::Os))),
    ],
    &[
        (
            b"Pp",
            unparsed!(LineMacro::Paragraph(BodyParagraphName::Pp)),
        ),
        (b"Pa", callable!(Inline::Defaulted(Defaulted::Home))),
        (b"Pq", callable!(Inline::Enclosure(Marks::Round))),
        (
            b"Po",
            callable!(Inline::Opens(Pair::Quotation(Quotation::Po))),
        ),
        (
            b"Pc",
            callable!(Inline::Closes(Pair::Quotation(Quotation::Po))),
        ),
        (b"Pf", callable!(Inline::Prefix)),
    ],
    &[
        (b"Ql", callable!(Inline::Enclosure(Marks::Single))),
        (b"Qq", callable!(Inline::Enclosure(Marks::Straight))),
        (
            b"Qo",
            callable!(Inline::Opens(Pair::Quotation(Quotation::Qo))),
        ),
        (
            b"Qc",
            callable!(Inline::Closes(Pair::Quotation(Quotation::Qo))),
        ),
    ],
    &[
        (b"Rs", unparsed!(LineMacro::Begins(BlockMacro::Reference))),
        (b"Re", unparsed!(LineMacro::Ends(BlockMacro::Reference))),
        (b"Rv", unparsed!(LineMacro::Sentence(Sentence::Return))),
    ],
    &[
        (b"Sq", callable!(Inline::Enclosure(Marks::Single))),
        (b"Sy", callable!(Inline::Words(Font::B))),
        (b"Sh", parsed!(LineMacro::Heading(HeadingName::Sh))),
        (b"Ss", parsed!(LineMacro::Heading(HeadingName::Ss))),
        (b"Sm", unparsed!(LineMacro::Spacing)),
        (b"Sx", callable!(Inline::Words(Font::I))),
        (b"St", parsed!(LineMacro::Inline(Inline::Words(Font::R)))),
        (
            b"So",
            callable!(Inline::Opens(Pair::Quotation(Quotation::So))),
        ),
        (
            b"Sc",
            callable!(Inline::Closes(Pair::Quotation(Quotation::So))),
        ),
    ],
    &[
        (b"Ta", callable!(Inline::NextColumn)),
        (b"Tn", callable!(Inline::Words(Font::R))),
        (b"Tg", unparsed!(LineMacro::Target)),
    ],
    &[(b"Ux", callable!(Inline::System(System::Unix)))],
    &[
        (b"Va", callable!(Inline::Words(Font::I))),
        (b"Vt", callable!(Inline::TypeName)),
    ],
    &[],
    &[
        (b"Xr", callable!(Inline::Reference)),
        (b"Xo", callable!(Inline::Opens(Pair::Extension))),
        (b"Xc", callable!(Inline::Closes(Pair::Extension))),
    ],
    &[],
    &[],
    &[],
    &[],
    &[],
    &[],
    &[],
    &[],
    &[],
    &[],
    &[],
    &[],
    &[
        (b"%T", unparsed!(LineMacro::Field(Font::I))),
        (b"%A", unparsed!(LineMacro::Field(Font::R))),
        (b"%C", unparsed!(LineMacro::Field(Font::R))),
        (b"%D", unparsed!(LineMacro::Field(Font::R))),
        (b"%I", unparsed!(LineMacro::Field(Font::R))),
        (b"%N", unparsed!(LineMacro::Field(Font::R))),
        (b"%O", unparsed!(LineMacro::Field(Font::R))),
        (b"%P", unparsed!(LineMacro::Field(Font::R))),
        (b"%Q", unparsed!(LineMacro::Field(Font::R))),
        (b"%R", unparsed!(LineMacro::Field(Font::R))),
        (b"%U", unparsed!(LineMacro::Field(Font::R))),
        (b"%V", unparsed!(LineMacro::Field(Font::R))),
        (b"%B", unparsed!(LineMacro::Field(Font::I))),
        (b"%J", unparsed!(LineMacro::Field(Font::I))),
    ],
];
