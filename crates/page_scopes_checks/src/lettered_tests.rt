//! What texts give where words of letters are taken at once.

use crate::text_tests::{KEPT_LINE, LINE, QUOTED, check_bytes};
use page_core_base::{Font, Note, Piece, PieceOut};
use page_scopes_layout::Context;
use page_scopes_text::give_text;
use page_scopes_words::{Pen, TextStyle};
use page_test_streams::Shown;
use std::alloc::Global;
use std::test::Fail;

// The bytes at most of a text here.
const MOST: usize = 300;

// Shows pieces, and words that are taken at once in parentheses, after the count of blanks before them if it is not one: each letter after its font,
// where that is another one than the letter's before. Characters of kept rows that are taken at once are shown between `<` and `>`.
#[derive(Drop)]
struct Taken {
    shown: Shown,
    // How often words are taken: from then on none are.
    times: u32,
}

// A font as a letter.
fn font_letter(font: Font) -> &'static [u8] {
    match font {
        Font::R => b"R",
        Font::I => b"I",
        Font::B => b"B",
        Font::BI => b"Z",
    }
}

impl Taken {
    // Shows letters, each after its font.
    fn add_letters(&mut self, text: &[u8], fonts: &[Font]) {
        let mut before: &[u8] = b"";
        for (letter, font) in text.chunks(1).zip(fonts) {
            let name = font_letter(*font);
            if name != before {
                self.shown.add(name);
            }
            self.shown.add(letter);
            before = name;
        }
    }
}

impl PieceOut for Taken {
    ghost Plan = { Unit {0} };

    ghost left = { λ plan s rest. Unit {0} };

    fn give(&mut self, piece: Piece<&[u8]>) {
        self.shown.give(piece);
    }

    fn give_words(&mut self, blanks: u32, text: &[u8], fonts: &[Font]) -> bool {
        if self.times == 0 || text.is_empty() {
            return self.times > 0;
        }
        self.times -= 1;
        if blanks != 1 {
            self.shown.add_number(blanks);
        }
        self.shown.add(b"(");
        self.add_letters(text, fonts);
        self.shown.add(b")");
        true
    }

    fn give_kept(&mut self, text: &[u8], font: Font) -> bool {
        if self.times == 0 {
            return false;
        }
        self.times -= 1;
        self.shown.add(b"<");
        self.shown.add(font_letter(font));
        self.shown.add(text);
        self.shown.add(b">");
        true
    }

    fn report(&mut self, note: &Note) {
        self.shown.report(note);
    }
}

// What a text in a font gives after some blanks, where words are taken so many times, and then the font that is left.
fn given_in(
    alloc: Global,
    font: Font,
    style: TextStyle,
    times: u32,
    gap: u32,
    text: &str,
) -> Taken {
    let shown = Shown::new(alloc, false);
    let mut out = Taken { shown, times };
    let mut fonts = Context::start(7).fonts;
    fonts.value.font = font;
    let mut pen = Pen {
        fonts,
        column: 1,
        gap,
        is_after_word: true,
        has_cell: false,
        is_cut: false,
        ends_blank: false,
        splits: !style.is_literal,
    };
    if text.len() <= MOST {
        give_text(&mut out, style, 1, 1, &mut pen, text.as_bytes());
    }
    out.shown.add(font_letter(pen.fonts.value.font));
    out
}

// What a text in the roman font gives.
fn given_by(alloc: Global, style: TextStyle, times: u32, gap: u32, text: &str) -> Taken {
    given_in(alloc, Font::R, style, times, gap, text)
}

// Texts after one blank, how often words of them are taken, and what they give.
static TEXTS: [(TextStyle, u32, &str, &str); 38] = [
    (LINE, 9, "a b cd", "(Ra b cd)R"),
    (LINE, 0, "a b cd", "1[a]1[b]1[cd]R"),
    (LINE, 9, "abc", "(Rabc)R"),
    (LINE, 9, "a \\fBb\\fP c", "(Ra BbR c)R"),
    (LINE, 0, "a \\fBb\\fP c", "1[a]1B[b]1[c]R"),
    (LINE, 9, "a \\fBb", "(Ra Bb)B"),
    (LINE, 9, "\\fBa b c", "(BaR BbR Bc)B"),
    (LINE, 9, "a b\\-c\\&d \\e", "(Ra b-cd \\)R"),
    (LINE, 9, "a b-c d e", "(Ra)1[b-]|[c](Rd e)R"),
    (LINE, 9, "a-b c", "1[a-]|[b](Rc)R"),
    (LINE, 9, "a \\fBb-c\\fP d e", "(Ra)1B[b-]|B[c](Rd e)R"),
    (LINE, 9, "a \\fB\\fP b", "(Ra)1[](Rb)R"),
    (LINE, 9, "\\& b", "1[](Rb)R"),
    (LINE, 9, "a b  c d", "(Ra b)(Rc d)R"),
    (LINE, 9, "a \\(bu b c", "(Ra)1bu(Rb c)R"),
    (LINE, 9, "a \\fQb c", "(Ra)!UnknownFont Q;1[b](Rc)R"),
    (LINE, 9, "a b\\c", "(Ra)1[b]R"),
    (LINE, 9, "a éb c d", "(Ra)1[éb](Rc d)R"),
    (LINE, 9, "é b c", "1[é](Rb c)R"),
    (LINE, 9, "a b\u{1}c d e", "(Ra)1[b\u{1}c](Rd e)R"),
    (
        LINE,
        9,
        "abcdefgh ijklmnop qrsté uv",
        "(Rabcdefgh ijklmnop)1[qrsté](Ruv)R",
    ),
    (
        LINE,
        9,
        "\\fBabcédef ghijklmnop\\fP more",
        "1B[abcédef](BghijklmnopR more)R",
    ),
    (
        LINE,
        1,
        "a \\fIb\\fP c-d \\fIe\\fP f g",
        "(Ra Ib)1[c-]|[d]1I[e]1[f]1[g]R",
    ),
    (QUOTED, 9, "a \"\"\\fBb\\fP\"\" c", "(Ra \"BbR\" c)R"),
    (KEPT_LINE, 9, "a b", "[ ][a]<R b>R"),
    (KEPT_LINE, 0, "a b", "[ ][a][ ][b]R"),
    (KEPT_LINE, 9, "a  b-c \"d\"", "[ ][a]<R  b-c \"d\">R"),
    (KEPT_LINE, 9, "a b ", "[ ][a]<R b>[ ]R"),
    (KEPT_LINE, 9, "a b\tc d", "[ ][a]<R b>T[c]<R d>R"),
    (KEPT_LINE, 9, "\\& a b", "[ ][]<R a b>R"),
    (KEPT_LINE, 9, "a \\fBb\\fP c d", "[ ][a][ ]B[b]<R c d>R"),
    (
        KEPT_LINE,
        1,
        "a b \\&c d e",
        "[ ][a]<R b>[ ][c][ ][d][ ][e]R",
    ),
    (
        LINE,
        9,
        "a \\fBbold word\\fP and more of it",
        "(Ra BboldR BwordR and more of it)R",
    ),
    (
        LINE,
        9,
        "a \\fBbold\\fP word-part more text",
        "(Ra Bbold)1[word-]|[part](Rmore text)R",
    ),
    (
        LINE,
        9,
        "a \\fBabcdefghijklmnopqrst\\fP and more",
        "(Ra BabcdefghijklmnopqrstR and more)R",
    ),
    (
        LINE,
        9,
        "a \\fBabcdefghijklmno\\fP",
        "(Ra Babcdefghijklmno)R",
    ),
    (LINE, 9, "a \\fBabcdefghijklm\\fP", "(Ra Babcdefghijklm)R"),
    (
        QUOTED,
        9,
        "a \\fBbold\"\"word\\fP and more",
        "(Ra Bbold\"wordR and more)R",
    ),
];

// Texts that do not come after one blank: the blanks before them, how often words are taken, and what they give.
static FIRST: [(u32, u32, &str, &str); 8] = [
    (0, 9, "a b cd", "[a](Rb cd)R"),
    (2, 9, "a b cd", "2(Ra b cd)R"),
    (2, 0, "a b cd", "2[a]1[b]1[cd]R"),
    (2, 9, "a \\fBb\\fP c", "2(Ra BbR c)R"),
    (2, 9, "\\fBa\\fP b", "2(BaR b)R"),
    (2, 9, "a-b c", "2[a-]|[b](Rc)R"),
    (2, 9, "a b  c d", "2(Ra b)(Rc d)R"),
    (2, 9, "\\& b", "2[](Rb)R"),
];

// Texts in a font after one blank: how often words are taken, and what they give.
static IN_FONTS: [(Font, u32, &str, &str); 9] = [
    (Font::B, 9, "word", "(Bword)B"),
    (Font::B, 0, "word", "1B[word]B"),
    (Font::I, 9, "a", "(Ia)I"),
    (Font::BI, 9, "ab,", "(Zab,)Z"),
    (Font::B, 9, "a b", "(BaR Bb)B"),
    (Font::B, 9, "a\\&b", "(Bab)B"),
    (Font::B, 9, "a\\fRb", "(BaRb)R"),
    (Font::B, 9, "a-b", "1B[a-]|B[b]B"),
    (
        Font::B,
        9,
        "0123456789abcdef0123456789abcdef0123456789abcdef0123456789abcdef",
        "(B0123456789abcdef0123456789abcdef0123456789abcdef0123456789abcdef)B",
    ),
];

#[test]
fn words_at_once(rt: HostRuntime) -> Result<(), Fail> {
    for (style, times, text, wanted) in &TEXTS {
        let given = given_by(rt.alloc(), *style, *times, 1, text);
        check_bytes(&rt, given.shown.text(), wanted.as_bytes(), text);
    }
    for (gap, times, text, wanted) in &FIRST {
        let given = given_by(rt.alloc(), LINE, *times, *gap, text);
        check_bytes(&rt, given.shown.text(), wanted.as_bytes(), text);
    }
    for (font, times, text, wanted) in &IN_FONTS {
        let given = given_in(rt.alloc(), *font, LINE, *times, 1, text);
        check_bytes(&rt, given.shown.text(), wanted.as_bytes(), text);
    }
    Ok(())
}
