//! The fields of a page's header and footer (man(7), `TH`; mdoc(7), `Dd`, `Dt`, `Os`).

ghost use Rattle.std.specs.Prelude.{◌≡◌, ◌≤◌, [], ◌∷◌, false, length, take, nat_lt};
ghost use Rattle.std.specs.List.{flat_map};
ghost use Rattle.page_core_base.specs.laws.Views.{Came};
ghost use Rattle.page_sets_names.specs.declared.macro_names.Prologue.TheVariants.{TH, Dt};
ghost use Rattle.page_engine_header.specs.Header as fields;
ghost use Rattle.page_engine_header.specs.Header.{argument_cut, cut_item, no_fields, volume_of};

use crate::field_texts::Field;
use page_core_base::{FIELD, Limit, NoteKind, PieceOut, Place};
use page_roff_syntax::{Argument, Arguments};
use page_scopes_words::report;
use page_sets_lines::Prologue;

// The volume of a section.
pub(crate) fn volume_of(section: &[u8]) -> &'static str
    ensures value { result.now ≡ volume_of section.now }
    ensures short { length result.now ≤ 64 }
{
    match section {
        [] => "",
        [first, ..] => volume_at(*first),
    }
}

// The volume of a section by its first byte.
fn volume_at(byte: u8) -> &'static str
    ensures value { result.now ≡ volume_of (byte ∷ []) }
    ensures short { length result.now ≤ 64 }
{
    match byte {
        b'1' => "General Commands Manual",
        b'2' => "System Calls Manual",
        b'3' => "Library Functions Manual",
        b'4' => "Device Drivers Manual",
        b'5' => "File Formats Manual",
        b'6' => "Games Manual",
        b'7' => "Miscellaneous Information Manual",
        b'8' => "System Manager's Manual",
        b'9' => "Kernel Developer's Manual",
        _ => "",
    }
}

/// The fields of a header and a footer.
#[derive(Drop)]
pub struct Fields {
    pub title: Field,
    pub section: Field,
    pub date: Field,
    pub source: Field,
    pub volume: Field,
    /// Whether a macro `Os` came.
    pub os_came: bool,
}

impl Fields {
    /// The fields before any macro of the prologue, for a page of an operating system.
    pub fn new(os: &[u8]) -> Fields
        requires { length os.now ≤ 256 }
        ensures { result ≡ no_fields os.now }
    {
        Fields {
            title: Field::plain(b""),
            section: Field::plain(b""),
            date: Field::plain(b""),
            source: Field::plain(os),
            volume: Field::plain(b""),
            os_came: false,
        }
    }

    /// The same fields.
    pub fn copy(&self) -> Fields
        ensures { result ≡ self.now }
    {
        Fields {
            title: self.title.copy(),
            section: self.section.copy(),
            date: self.date.copy(),
            source: self.source.copy(),
            volume: self.volume.copy(),
            os_came: self.os_came,
        }
    }

    /// Takes the fields that a macro of the prologue sets by its arguments, for a page of an operating system.
    pub fn take(&mut self, name: Prologue, os: &[u8], arguments: Arguments<'_>)
        requires { length os.now ≤ 256 }
        ensures { self.new ≡ fields.fields_after name os.now arguments.entry self.old }
    {
        match name {
            Prologue::TH => self.take_title(os, arguments),
            Prologue::Dd => self.date = Field::joined(arguments).without_keyword(),
            Prologue::Dt => self.take_page_title(arguments),
            Prologue::Os => {
                self.source = Field::joined(arguments).or_else(os);
                self.os_came = true;
            }
        }
    }

    // Takes the fields of `TH`.
    fn take_title(&mut self, os: &[u8], arguments: Arguments<'_>)
        requires { length os.now ≤ 256 }
        ensures { self.new ≡ fields.fields_after TH os.now arguments.entry self.old }
    {
        let mut arguments = arguments;
        self.title = Field::next(&mut arguments);
        self.section = Field::next(&mut arguments);
        self.date = Field::next(&mut arguments);
        self.source = Field::next(&mut arguments).or_else(os);
        let volume = Field::next(&mut arguments);
        self.volume = volume.or_else(volume_of(self.section.text()).as_bytes());
    }

    // Takes the fields of `Dt`.
    fn take_page_title(&mut self, arguments: Arguments<'_>)
        ensures { self.new ≡ fields.fields_after Dt [] arguments.entry self.old }
    {
        let mut arguments = arguments;
        self.title = Field::next(&mut arguments);
        self.section = Field::next(&mut arguments);
        let volume = volume_of(self.section.text());
        self.volume = Field::bracketed(volume.as_bytes(), &mut arguments);
    }
}

// The fields of `TH`: title, section, date, source and volume.
const FIELDS: usize = 5;

// Reports a text of a length that is cut as a field.
fn report_cut<O: PieceOut>(out: &mut O, place: Place, len: usize)
    ensures { Came O.left out.old (cut_item place len) out.new }
{
    if len > FIELD {
        report(out, NoteKind::Limit, place, Limit::Field.name().as_bytes());
    }
}

// Reports the arguments of `TH` that are cut as fields.
fn report_title<O: PieceOut>(out: &mut O, place: Place, arguments: Arguments<'_>)
    ensures { Came O.left out.old (flat_map (argument_cut place) (take 5 arguments.entry)) out.new }
{
    let mut arguments = arguments;
    let mut left = FIELDS;
    while left > 0 {
        match arguments.next_argument() {
            None => return,
            Some(argument) => report_cut(out, place, argument.value_len()),
        }
        left -= 1;
    }
}

// Reports the arguments of `Dt` that are cut as fields, and its volume.
fn report_page_title<O: PieceOut>(out: &mut O, place: Place, arguments: Arguments<'_>)
    ensures { Came O.left out.old (fields.cut_items Dt place arguments.entry) out.new }
{
    let mut arguments = arguments;
    let Some(title) = arguments.next_argument() else {
        return;
    };
    report_cut(out, place, title.value_len());
    let Some(section) = arguments.next_argument() else {
        return;
    };
    report_cut(out, place, section.value_len());
    let volume = volume_of(Field::of(section).text());
    if let Some(arch) = arguments.next_argument() {
        report_cut(out, place, volume.len() + 3 + arch.value_len());
    }
}

// Whether arguments that are joined by one blank are longer than a field.
fn is_long(arguments: Arguments<'_>) -> bool
    ensures { result ≡ nat_lt FIELD (fields.joined_len arguments.entry) }
{
    let mut arguments = arguments;
    // the first has no blank before it
    let mut room = FIELD + 1;
    while let Some(argument) = arguments.next_argument() {
        let len = argument.value_len();
        if len >= room {
            return true;
        }
        room -= len + 1;
    }
    false
}

// Reports arguments that are cut as one field.
fn report_joined<O: PieceOut>(out: &mut O, place: Place, arguments: Arguments<'_>)
    ensures { Came O.left out.old (cut_item place (fields.joined_len arguments.entry)) out.new }
{
    if is_long(arguments) {
        report(out, NoteKind::Limit, place, Limit::Field.name().as_bytes());
    }
}

/// Reports what is cut of the fields that a macro of the prologue sets, which is at a place.
pub fn report_cut_fields<O: PieceOut>(
    out: &mut O,
    place: Place,
    name: Prologue,
    arguments: Arguments<'_>,
)
    ensures { Came O.left out.old (fields.cut_items name place arguments.entry) out.new }
{
    match name {
        Prologue::TH => report_title(out, place, arguments),
        Prologue::Dt => report_page_title(out, place, arguments),
        Prologue::Dd | Prologue::Os => report_joined(out, place, arguments),
    }
}
