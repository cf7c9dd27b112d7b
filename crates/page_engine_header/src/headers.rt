//! The header and the footer of a page (man(7), `TH`; mdoc(7), `Dd`, `Dt`, `Os`; mandoc(1), "ASCII Output").

ghost use Rattle.std.specs.Prelude.{◌≡◌, ◌≤◌, ◌<◌, ◌+◌, ◌-◌, ◌^◌, max};
ghost use Rattle.page_core_base.specs.declared.limits.TheConstants.{CELLS};
ghost use Rattle.page_core_base.specs.laws.Views.{Came};
ghost use Rattle.page_engine_header.specs.Header.{second_start, in_rows, row_characters, row_items, if_empty, missing_items, header_items, header_row, footer_row};
ghost use Rattle.page_engine_header.specs.laws.Views.{part_tokens, IsShort};

use crate::fields::volume_of;
use crate::full_rows::FullRows;
use crate::printing::give_blanks;
use crate::{Fields, Part, RunOut};
use page_core_base::{Font, NoteKind, Output, Piece, PieceOut, Place};
use page_scopes_words::report;

/// The measure of a page's rows.
#[derive(Clone, Copy)]
pub struct Measure {
    /// The columns of a row with its margin.
    pub width: u32,
    /// The margin of text, in columns.
    pub indent: u32,
    pub output: Output,
}

// The column of the second part, from the columns of the row and of its parts.
fn second_start(width: u32, first: u32, second: u32) -> u32
    requires { first < 2 ^ 32 - 1 }
    ensures { result ≡ second_start width first second }
{
    (first + 1).max(width.saturating_sub(second) / 2)
}

// The column of the third part.
fn third_start(width: u32, first: u32, second: u32, third: u32) -> u32
    requires first { first ≤ 512002 }
    requires second { second ≤ 512002 }
    ensures { result ≡ max (second_start width first second + second + 1) (width - third) }
{
    let start = second_start(width, first, second);
    (start + second + 1).max(width.saturating_sub(third))
}

// Gives the characters of a row of three parts.
#[tactic(auto, unfolding(crate::specs::Header::row_characters))]
fn give_characters<O: RunOut>(
    out: &mut O,
    measure: Measure,
    place: Place,
    first: Part<'_>,
    second: Part<'_>,
    third: Part<'_>,
)
    requires first { IsShort first }
    requires second { IsShort second }
    requires third { IsShort third }
    ensures { Came O.left out.old
        (row_characters measure place (part_tokens first.entry) (part_tokens second.entry)
        (part_tokens third.entry)) out.new }
{
    let output = measure.output;
    let columns = (
        first.columns(output),
        second.columns(output),
        third.columns(output),
    );
    let start = second_start(measure.width, columns.0, columns.1);
    let last = third_start(measure.width, columns.0, columns.1, columns.2);
    first.give(out, output, place);
    give_blanks(out, Font::R, place, start - columns.0);
    second.give(out, output, place);
    give_blanks(out, Font::R, place, last - (start + columns.1));
    third.give(out, output, place);
}

// Gives the characters of a row of three parts: where a row is full, they go on in the next one.
fn give_rows<O: PieceOut>(
    out: &mut O,
    measure: Measure,
    place: Place,
    first: Part<'_>,
    second: Part<'_>,
    third: Part<'_>,
)
    requires first { IsShort first }
    requires second { IsShort second }
    requires third { IsShort third }
    ensures { Came O.left out.old
        (in_rows CELLS (row_characters measure place (part_tokens first.entry) (part_tokens second.entry)
        (part_tokens third.entry))) out.new }
{
    let mut rows = FullRows::new(out);
    give_characters(&mut rows, measure, place, first, second, third);
}

// Gives a row of three parts, which is kept as it is; one that is too long goes on in the next rows.
#[tactic(auto, unfolding(crate::specs::Header::row_items))]
fn give_row<O: PieceOut>(
    out: &mut O,
    measure: Measure,
    place: Place,
    first: Part<'_>,
    second: Part<'_>,
    third: Part<'_>,
)
    requires first { IsShort first }
    requires second { IsShort second }
    requires third { IsShort third }
    ensures { Came O.left out.old
        (row_items measure place (part_tokens first.entry) (part_tokens second.entry)
        (part_tokens third.entry)) out.new }
{
    out.give(Piece::Literal(true));
    out.give(Piece::Indent { first: 0, rest: 0 });
    give_rows(out, measure, place, first, second, third);
    out.give(Piece::Break);
    out.give(Piece::Literal(false));
}

// Gives the header's row.
fn give_header_row<O: PieceOut>(out: &mut O, measure: Measure, place: Place, fields: &Fields)
    ensures { Came O.left out.old (header_row measure place fields.now) out.new }
{
    let name = Part::Name {
        title: fields.title.text(),
        section: fields.section.text(),
    };
    give_row(
        out,
        measure,
        place,
        name,
        Part::Text(fields.volume.text()),
        name,
    );
}

/// Gives the footer's row.
pub fn give_footer_row<O: PieceOut>(out: &mut O, measure: Measure, place: Place, fields: &Fields)
    ensures { Came O.left out.old (footer_row measure place fields.now) out.new }
{
    let name = Part::Name {
        title: fields.title.text(),
        section: fields.section.text(),
    };
    let source = Part::Text(fields.source.text());
    give_row(
        out,
        measure,
        place,
        source,
        Part::Text(fields.date.text()),
        name,
    );
}

// Reports that a field is missing, with a detail.
fn report_empty<O: PieceOut>(out: &mut O, text: &[u8], kind: NoteKind, place: Place, detail: &[u8])
    ensures { Came O.left out.old (if_empty text.now kind place detail.now) out.new }
{
    if text.is_empty() {
        report(out, kind, place, detail);
    }
}

// Reports the fields that are missing, in a page of mdoc(7) or of man(7).
fn report_missing<O: PieceOut>(out: &mut O, is_mdoc: bool, place: Place, fields: &Fields)
    ensures { Came O.left out.old (missing_items is_mdoc place fields.now) out.new }
{
    let section = fields.section.text();
    let volume = if is_mdoc {
        volume_of(section).as_bytes()
    } else {
        fields.volume.text()
    };
    report_empty(out, fields.title.text(), NoteKind::MissingTitle, place, b"");
    report_empty(out, volume, NoteKind::UnknownSection, place, section);
    report_empty(out, fields.date.text(), NoteKind::MissingDate, place, b"");
    if is_mdoc && !fields.os_came {
        report_empty(out, fields.source.text(), NoteKind::MissingOs, place, b"");
    }
}

/// Gives the header of a page of mdoc(7) or of man(7), a blank row and the messages of missing fields; then text is at the indent.
pub fn give_header<O: PieceOut>(
    out: &mut O,
    is_mdoc: bool,
    measure: Measure,
    place: Place,
    fields: &Fields,
)
    ensures { Came O.left out.old (header_items is_mdoc measure place fields.now) out.new }
{
    give_header_row(out, measure, place, fields);
    out.give(Piece::Space(1));
    report_missing(out, is_mdoc, place, fields);
    out.give(Piece::Indent {
        first: measure.indent,
        rest: measure.indent,
    });
}
