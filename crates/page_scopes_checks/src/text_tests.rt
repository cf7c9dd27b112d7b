//! What texts give, in rows that are filled and in rows that are kept.

use page_core_base::{Font, Note, Piece};
use page_roff_syntax::{Argument, Quoting};
use page_scopes_layout::Context;
use page_scopes_phrases::{Formatting, give_line_word};
use page_scopes_text::give_text;
use page_scopes_words::{Pen, Setting, TextStyle};
use page_sets_lines::{Join, Role, Word};
use page_test_streams::{Brief, Notation, Shown, ShownBy};
use std::alloc::Global;
use std::process::Abort;
use std::test::Fail;

// The bytes at most of a text here.
const MOST: usize = 64;

pub(crate) fn check_bytes(rt: &impl Abort, got: &[u8], wanted: &[u8], at: &str) {
    assert_eq!(rt; got, wanted, "of {at}");
}

// What a text gives after a count of blanks, and then the blanks that are to follow it, with "c" where it ends in `\c` and "e" where it ends in a blank.
fn given_by(alloc: Global, style: TextStyle, gap: u32, is_after_word: bool, text: &str) -> Shown {
    let mut out = Shown::new(alloc, false);
    let mut pen = Pen {
        fonts: Context::start(7).fonts,
        column: 1,
        gap,
        is_after_word,
        has_cell: false,
        is_cut: false,
        ends_blank: false,
        splits: !style.is_literal,
    };
    if text.len() <= MOST {
        give_text(&mut out, style, 1, 1, &mut pen, text.as_bytes());
    }
    out.add(b" ");
    out.add_number(pen.gap);
    out.add(if pen.is_cut { b"c" } else { b"" });
    out.add(if pen.ends_blank { b"e" } else { b"" });
    out
}

pub(crate) const LINE: TextStyle = TextStyle {
    is_quoted: false,
    is_literal: false,
    is_line: true,
};

pub(crate) const KEPT_LINE: TextStyle = TextStyle {
    is_quoted: false,
    is_literal: true,
    is_line: true,
};

pub(crate) const QUOTED: TextStyle = TextStyle {
    is_quoted: true,
    is_literal: false,
    is_line: false,
};

const KEPT: TextStyle = TextStyle {
    is_quoted: true,
    is_literal: true,
    is_line: false,
};

// Texts after a sentence, and what they give.
static TEXTS: [(TextStyle, &str, &str); 29] = [
    (LINE, "a  b", "2[a]1[b] 1"),
    (LINE, "a\t b", "2[a]1t[b] 1"),
    (LINE, "a \\fBb\\fP c", "2[a]1B[b]1[c] 1"),
    (LINE, " a", "/[ ][a] 1"),
    (LINE, "\tx\\qy", "/!UndefEscape \\q;T[x]c[y] 1"),
    (LINE, "a\\c", "2[a] 1c"),
    (LINE, "a\\c ", "2[a] 1e"),
    (LINE, "\\&", "2[] 1"),
    (LINE, "a\\h'2n'b", "2[a][  ][b] 1"),
    (LINE, "a\\h'x'b", "!NotNumeric;2[a][b] 1"),
    (LINE, "a\\fQ b", "!UnknownFont Q;2[a]1[b] 1"),
    (
        LINE,
        "a few words and  two blanks",
        "2[a]1[few]1[words]1[and]1[two]1[blanks] 1",
    ),
    (
        LINE,
        "a few words and a\ttab",
        "2[a]1[few]1[words]1[and]1[a]1t[tab] 1",
    ),
    (
        LINE,
        "a few words and one\\fBword\\fP ",
        "2[a]1[few]1[words]1[and]1[one]B[word] 1e",
    ),
    (
        QUOTED,
        "a few words and a \"\"quote",
        "2[a]1[few]1[words]1[and]1[a]1c[quote] 1",
    ),
    (LINE, "w a-b-c", "2[w]1[a-]|[b-]|[c] 1"),
    (LINE, "--x x-1 -x x-", "2[--x]1[x-1]1[-x]1[x-] 1"),
    (LINE, "\\fBa-b\\fR-c", "2B[a-]|B[b][-c] 1"),
    (LINE, "a\\-b", "2[a]c[b] 1"),
    (LINE, "\u{e9}-a", "2[\u{e9}-a] 1"),
    (QUOTED, "a\"\"-b", "2[a]c[-b] 1"),
    (KEPT_LINE, "a-b", "[ ][ ][a-b] 1"),
    (QUOTED, "", "2[] 1"),
    (QUOTED, "  ", " 2e"),
    (QUOTED, "a\"\"b ", "2[a]c[b] 1e"),
    (KEPT_LINE, " a  b", "[ ][ ][a][ ][ ][b] 1"),
    (KEPT, "a b", "[ ][ ][a][ ][b] 1"),
    (KEPT, " ", "[ ][ ] 0e"),
    (KEPT, "", "[ ][ ][] 1"),
];

#[test]
fn texts(rt: HostRuntime) -> Result<(), Fail> {
    for (style, text, wanted) in &TEXTS {
        let given = given_by(rt.alloc(), *style, 2, true, text);
        check_bytes(&rt, given.text(), wanted.as_bytes(), text);
    }
    Ok(())
}

// At the front of a line that is kept no blank is before the first word.
#[test]
fn a_kept_line(rt: HostRuntime) -> Result<(), Fail> {
    let line = given_by(rt.alloc(), KEPT_LINE, 2, false, " a");
    check_bytes(&rt, line.text(), b"[ ][a] 1", "a line");
    let words = given_by(rt.alloc(), KEPT, 2, false, "a");
    check_bytes(&rt, words.text(), b"[a] 1", "words");
    Ok(())
}

// The columns at which cells are.
#[derive(Drop)]
struct Columns {
    brief: Brief,
}

impl Notation for Columns {
    fn show_piece(&mut self, piece: Piece<&[u8]>) {
        if let Piece::Text { place, .. } = piece {
            self.brief.add(b" ");
            self.brief.add_number(place.column);
        }
    }

    fn show_message(&mut self, _note: &Note) {}
}

// The columns at which the cells of a text at column 10 are, after a word at column 5, in a row that is kept.
fn columns_of(alloc: Global, text: &str) -> ShownBy<Columns> {
    let brief = Brief::new(alloc, false);
    let mut out = ShownBy {
        notation: Columns { brief },
    };
    let mut pen = Pen {
        fonts: Context::start(7).fonts,
        column: 10,
        gap: 1,
        is_after_word: true,
        has_cell: false,
        is_cut: false,
        ends_blank: false,
        splits: false,
    };
    if text.len() <= MOST {
        give_text(&mut out, KEPT, 1, 5, &mut pen, text.as_bytes());
    }
    out
}

// A blank before the text, its words, and the white space before each; at its end white space is where its last word is, or the word before it.
static COLUMNS: [(&str, &str); 6] = [
    ("a b", " 10 10 12 12"),
    ("a b  ", " 10 10 12 12 12 12"),
    ("a\\fBb ", " 10 10 10 10"),
    ("  b", " 10 12 12 12"),
    ("  ", " 5 5 5"),
    ("", " 10 10"),
];

#[test]
fn columns_of_white_space(rt: HostRuntime) -> Result<(), Fail> {
    for (text, wanted) in &COLUMNS {
        let columns = columns_of(rt.alloc(), text);
        check_bytes(&rt, columns.notation.brief.text(), wanted.as_bytes(), text);
    }
    Ok(())
}

// Gives an argument of a macro, with a font of its own.
fn give_argument(
    out: &mut Shown,
    text: &str,
    style: (Quoting, Font, Join),
    state: &mut Formatting,
) {
    if text.len() > MOST {
        return;
    }
    let word = Word {
        arg: Argument {
            text: text.as_bytes(),
            column: 5,
            quoting: style.0,
        },
        role: Role::Argument,
        font: Some(style.1),
        before: style.2,
        after: Join::Apart,
    };
    give_line_word(out, 1, &word, state);
}

const BOLD: (Quoting, Font, Join) = (Quoting::Closed, Font::B, Join::Apart);

const ITALIC: (Quoting, Font, Join) = (Quoting::Unclosed, Font::I, Join::Glued);

// What two arguments give that are glued, and then the blanks after their line.
fn glued_by(alloc: Global, is_literal: bool, first: &str, second: &str) -> Shown {
    let mut out = Shown::new(alloc, false);
    let mut state = Formatting::start(7);
    state.context.is_literal = Setting::set_to(is_literal);
    give_argument(&mut out, first, BOLD, &mut state);
    give_argument(&mut out, second, ITALIC, &mut state);
    state.end_line();
    out.add(if state.context.fonts.value.font == Font::R {
        b" "
    } else {
        b"?"
    });
    out.add_number(state.gap);
    out
}

// Two arguments, in rows that are filled and in rows that are kept.
static GLUED: [(bool, &str, &str, &str); 5] = [
    (false, "a", "b", "1B[a]!Unterminated;I[b] 1"),
    (false, "int ", "b.", "1B[int]!Unterminated;1I[b.] 2"),
    (true, "int ", "b", "B[int][ ]!Unterminated;I[b] 1"),
    (false, "\\fRa", "b\\fB", "1[a]!Unterminated;I[b] 1"),
    (false, "a", "b\\c", "1B[a]!Unterminated;I[b] 0"),
];

#[test]
fn arguments_side_by_side(rt: HostRuntime) -> Result<(), Fail> {
    for (is_literal, first, second, wanted) in &GLUED {
        let glued = glued_by(rt.alloc(), *is_literal, first, second);
        check_bytes(&rt, glued.text(), wanted.as_bytes(), first);
    }
    Ok(())
}
