//! Pieces as they are spelled.

ghost use Rattle.std.specs.Prelude.{◌<◌, length};

use page_core_base::{Fault, Font, NoteSink, Place, RowSink};
use page_fill::{Filler, Piece, TagForm};
use page_test_streams::font_named;

/// Where each piece is.
const HERE: Place = Place { line: 3, column: 7 };

// The cells of two rows and one more.
static BLANKS: [u8; 8193] = [b' '; 8193];

fn text_in(text: &[u8], font: Font) -> Piece<&[u8]> {
    Piece::Text {
        text,
        font,
        place: HERE,
    }
}

fn blank(count: u32, has_tab: bool) -> Piece<&'static [u8]> {
    Piece::Blank { count, has_tab }
}

fn tag(hang: u32, form: TagForm) -> Piece<&'static [u8]> {
    Piece::Tag { hang, form }
}

// The piece that a byte of a script stands for; most letters are a text.
fn scripted(script: &[u8], at: usize) -> Piece<&[u8]>
    requires { at < length script.now }
{
    match script[at] {
        b'_' => blank(1, false),
        b'=' => blank(2, false),
        b'>' => blank(1, true),
        b'+' => Piece::Glue,
        b'-' => Piece::Split,
        b'/' => Piece::Break,
        b'|' => Piece::RowEnd,
        b'O' => Piece::Para(0),
        b'P' => Piece::Para(1),
        b'Q' => Piece::Para(2),
        b'S' => Piece::Space(1),
        b'H' => Piece::Heading,
        b'L' => Piece::Literal(true),
        b'M' => Piece::Indent { first: 1, rest: 2 },
        b'R' => tag(4, TagForm::Row),
        b'N' => tag(4, TagForm::Hang),
        b'I' => tag(4, TagForm::Inset(2)),
        b'E' => Piece::TagEnd,
        b'C' => Piece::Column(4),
        b'T' => Piece::Tab {
            font: Font::R,
            place: HERE,
        },
        b'.' => text_in(b"", Font::R),
        _ => text_in(&script[at..at + 1], Font::R),
    }
}

/// Gives a piece. No caller has to know more of what a filler does, so that this says nothing of it: their proofs stay short.
pub(crate) fn give_piece<R: RowSink, N: NoteSink>(
    filler: &mut Filler,
    piece: Piece<&[u8]>,
    rows: &mut R,
    notes: &mut N,
) -> Result<(), Fault> {
    filler.piece(piece, rows, notes)
}

/// Ends the page.
pub(crate) fn end<R: RowSink, N: NoteSink>(
    filler: &mut Filler,
    rows: &mut R,
    notes: &mut N,
) -> Result<(), Fault> {
    filler.finish(rows, notes)
}

/// Gives the pieces of a script.
pub(crate) fn give_script<R: RowSink, N: NoteSink>(
    filler: &mut Filler,
    script: &[u8],
    rows: &mut R,
    notes: &mut N,
) -> Result<(), Fault> {
    for at in 0..script.len() {
        give_piece(filler, scripted(script, at), rows, notes)?;
    }
    Ok(())
}

// So many blanks in a font, as a text.
fn blank_text<'a>(count: &str, font: &str) -> Piece<&'a [u8]> {
    let count: usize = count.parse().unwrap_or(0);
    let text: &'static [u8] = &BLANKS[..count.min(BLANKS.len())];
    text_in(text, font_named(font.as_bytes().first().copied()))
}

/// The piece of a call, if it is one.
pub(crate) fn one_piece<'a>(call: &str, text: &'a str) -> Option<Piece<&'a [u8]>> {
    let (number, rest) = text.split_once(' ').unwrap_or((text, ""));
    let count: u32 = number.parse().unwrap_or(0);
    let piece = match call {
        "text" => text_in(text.as_bytes(), Font::R),
        "glyph" => Piece::Glyph {
            name: text.as_bytes(),
            font: Font::R,
            place: HERE,
        },
        "blanks" => blank_text(number, rest),
        "filled" => Piece::Literal(false),
        "space" => Piece::Space(count),
        "para" => Piece::Para(count),
        "indent" => Piece::Indent {
            first: count,
            rest: count,
        },
        "tag" => tag(count, TagForm::Row),
        _ => return None,
    };
    Some(piece)
}

/// Gives a text so many times as stands before it.
pub(crate) fn give_repeated<R: RowSink, N: NoteSink>(
    filler: &mut Filler,
    text: &str,
    rows: &mut R,
    notes: &mut N,
) -> Result<(), Fault> {
    let (count, text) = text.split_once(' ').unwrap_or(("0", text));
    let count: u32 = count.parse().unwrap_or(0);
    for _ in 0..count {
        give_piece(filler, text_in(text.as_bytes(), Font::R), rows, notes)?;
    }
    Ok(())
}

/// Gives a word of 4,096 cells in 64 parts, each of 63 accents and a hyphen.
pub(crate) fn give_parts<R: RowSink, N: NoteSink>(
    filler: &mut Filler,
    rows: &mut R,
    notes: &mut N,
) -> Result<(), Fault> {
    for cell in 1..4097u32 {
        if cell % 64 == 0 {
            give_piece(filler, text_in(b"-", Font::R), rows, notes)?;
            give_piece(filler, Piece::Split, rows, notes)?;
        } else {
            give_piece(filler, text_in("\u{301}".as_bytes(), Font::R), rows, notes)?;
        }
    }
    Ok(())
}
