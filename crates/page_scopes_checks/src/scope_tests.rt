//! What events open and end, and what is reported.

use crate::nested::Nested;
use page_core_base::{Font, Note, Piece, Place, SCOPES};
use page_roff_syntax::{Argument, Quoting};
use page_scopes_tree::ScopeStack;
use page_sets_lines::{
    BlockCloser, BlockOpener, Closer, Event, EventKind, FontMacro, HeadingName, Join, Leaf,
    LineOpener, Link, Marks, OneLineName, Opener, ParagraphName, Quotation, RequestLeaf, Role,
    TagName, Word,
};
use page_test_streams::{Brief, Notation, ShownBy};
use std::alloc::{AllocError, Global};
use std::process::Abort;
use std::test::Fail;

// A scope's name, ")" and the level where one ends, and messages.
#[derive(Drop)]
struct Levels {
    brief: Brief,
}

impl Notation for Levels {
    fn show_piece(&mut self, piece: Piece<&[u8]>) {
        match piece {
            Piece::Text { text, .. } => self.brief.add(text),
            Piece::Indent { first, .. } => {
                self.brief.add(b")");
                self.brief.add_number(first / 4 % 10);
            }
            _ => self.brief.add(b"."),
        }
    }

    fn show_message(&mut self, note: &Note) {
        self.brief.show_message(note);
    }
}

type Shown = ShownBy<Levels>;

// Nothing is shown yet.
fn nothing(alloc: Global) -> Shown {
    ShownBy {
        notation: Levels {
            brief: Brief::new(alloc, false),
        },
    }
}

const TEXT: Argument<&[u8]> = Argument {
    text: b"w",
    column: 1,
    quoting: Quoting::Bare,
};

// What a letter opens.
fn opener(letter: u8) -> Option<Opener<&'static [u8]>> {
    match letter {
        b'H' => Some(Opener::Section),
        b'h' => Some(Opener::Subsection),
        b'P' => Some(Opener::Paragraph(ParagraphName::PP)),
        b'T' => Some(Opener::Tagged(None)),
        b'R' => Some(Opener::RelativeMargin(None)),
        b'U' => Some(Opener::Target(Link::UR, TEXT)),
        b'M' => Some(Opener::Target(Link::MT, TEXT)),
        b'S' => Some(Opener::Syntax(TEXT)),
        b'O' => Some(Opener::Block(BlockOpener::Quotation(Quotation::Oo))),
        b'A' => Some(Opener::Block(BlockOpener::Quotation(Quotation::Ao))),
        b'y' => Some(Opener::Block(BlockOpener::Extension)),
        _ => None,
    }
}

// What a letter closes.
fn closer(letter: u8) -> Option<Closer<&'static [u8]>> {
    match letter {
        b'L' => Some(Closer::Line),
        b'r' => Some(Closer::RelativeMargin(None)),
        b'0' => Some(Closer::RelativeMargin(Some(b"0"))),
        b'1' => Some(Closer::RelativeMargin(Some(b"1"))),
        b'2' => Some(Closer::RelativeMargin(Some(b"1+1"))),
        b'3' => Some(Closer::RelativeMargin(Some(b"3"))),
        b'u' => Some(Closer::Target(Link::UR, None)),
        b'm' => Some(Closer::Target(Link::MT, None)),
        b's' => Some(Closer::Syntax),
        b'x' => Some(Closer::Enclosures),
        b'o' => Some(Closer::Block(BlockCloser::Quotation(Quotation::Oo))),
        b'a' => Some(Closer::Block(BlockCloser::Quotation(Quotation::Ao))),
        b'z' => Some(Closer::Block(BlockCloser::Extension)),
        _ => None,
    }
}

// What else a letter does.
fn other(letter: u8) -> EventKind<&'static [u8]> {
    match letter {
        b't' => EventKind::LineScope(LineOpener::Tag(TagName::TP)),
        b'b' => EventKind::LineScope(LineOpener::FontWords(FontMacro::B)),
        b'd' => EventKind::LineScope(LineOpener::Heading(HeadingName::SH)),
        b'q' => EventKind::LineScope(LineOpener::Enclosure(Marks::Square)),
        b'n' => EventKind::LineScope(LineOpener::Description),
        b'l' => EventKind::LineScope(LineOpener::OneLine(OneLineName::Dl)),
        b'B' => EventKind::Leaf(Leaf::BlankLine),
        b'.' => EventKind::Leaf(Leaf::Request(RequestLeaf::Break)),
        b'X' => EventKind::Raw(b"x"),
        b'e' => EventKind::End { fills: false },
        b'E' => EventKind::End { fills: true },
        _ => EventKind::Word(Word {
            arg: TEXT,
            role: Role::Argument,
            font: None,
            before: Join::Apart,
            after: Join::Apart,
        }),
    }
}

fn kind(letter: u8) -> EventKind<&'static [u8]> {
    if let Some(opener) = opener(letter) {
        return EventKind::Open(opener);
    }
    if let Some(closer) = closer(letter) {
        return EventKind::Close(closer);
    }
    other(letter)
}

fn apply_letter(scopes: &mut ScopeStack<Nested>, out: &mut Shown, letter: u8) {
    let event = Event {
        place: Place { line: 1, column: 2 },
        kind: kind(letter),
    };
    scopes.apply(&event, out);
}

// Applies an event as often as there may be scopes, and shows nothing of it.
fn apply_often(alloc: Global, scopes: &mut ScopeStack<Nested>, letter: u8) {
    let mut out = nothing(alloc);
    for _ in 0..SCOPES {
        apply_letter(scopes, &mut out, letter);
    }
}

// Applies the event of a letter, or what a sign stands for.
fn apply_sign(alloc: Global, scopes: &mut ScopeStack<Nested>, out: &mut Shown, sign: u8) {
    match sign {
        b'*' => apply_often(alloc, scopes, b'R'),
        b'/' => apply_often(alloc, scopes, b'r'),
        b'#' => {
            let depth = scopes.depth().min(1_000) as u32;
            out.notation.brief.add_number(depth);
        }
        _ => apply_letter(scopes, out, sign),
    }
}

fn apply_script(alloc: Global, scopes: &mut ScopeStack<Nested>, out: &mut Shown, script: &str) {
    for sign in script.as_bytes() {
        apply_sign(alloc, scopes, out, *sign);
    }
}

// What the events of a script give, up to the page's end. A stack is made and dropped here alone, since this takes most of the proof.
fn given_by(alloc: Global, script: &str) -> Result<Shown, AllocError> {
    let mut out = nothing(alloc);
    let mut scopes = ScopeStack::new(alloc, Nested { margin: 0 })?;
    apply_script(alloc, &mut scopes, &mut out, script);
    out.notation.brief.add(b" ");
    scopes.finish(1, &mut out);
    Ok(out)
}

// Letters as above; then what they give, and what the page's end gives. A `#` shows how many scopes are open; `*` opens as many margins as there
// may be scopes, and `/` closes as many, of which nothing is shown.
static CASES: [(&str, &str); 34] = [
    ("RUr", "RSUR!BadNest UR;)1)0 "),
    ("R3", "RS!FewerRs; !MissingEnd RS;)0"),
    ("R0", "RS!FewerRs; !MissingEnd RS;)0"),
    ("3", "!FewerRs; "),
    ("RRR2", "RSRSRS)2)1 !MissingEnd RS;)0"),
    ("RUR2", "RSURRS)2 !MissingEnd UR;)1!MissingEnd RS;)0"),
    ("RUR1", "RSURRS)2!BadNest UR;)1)0 "),
    ("RSR1", "RSSYRS)2!BadNest SY;)1)0 "),
    ("HRUH", "SHRSUR!MissingEnd UR;)2!MissingEnd RS;)1)0SH )0"),
    ("HhPh", "SHSSPP)2)1SS )1)0"),
    ("PRPP", "PPRSPP)2PP )2!MissingEnd RS;)1)0"),
    ("PUP", "PPUR!MissingEnd UR;)1)0PP )0"),
    ("UPu", "URPP)1)0 "),
    ("Hde", "SHSH )1)0"),
    ("HdewE", "SHSHw)1 )0"),
    ("TteL", "PPTP!LineScope TP;)1 )0"),
    ("TtbL", "PPTPB!LineScope B;)2!LineScope TP;)1 )0"),
    ("TtbwE", "PPTPBw)2)1 )0"),
    ("bXbB", "B!LineScope B;)0B!LineScope B;)0 "),
    ("b.E.", "B)0. "),
    (
        "uEmErs",
        "!NotOpen UE;!NotOpen ME;!NotOpen RE;!NotOpen YS; ",
    ),
    ("SUS", "SYUR!MissingEnd UR;)1)0SY !MissingEnd SY;)0"),
    ("MUm", "MTUR!BadNest UR;)1)0 "),
    ("qOwx", "BqOow !MissingEnd Oo;)1)0"),
    ("qOwEowxwE", "BqOow)1w)0w "),
    ("qOoxw", "BqOo)1)0w "),
    ("HdqwxwE", "SHSHBqw)2w)1 )0"),
    ("nqwxwE", "NdBqw)1w)0 "),
    ("lwxE", "Dlw)0 "),
    ("OAo", "OoAo!BadNest Ao;)1)0 "),
    ("oaz", "!NotOpen Oc;!NotOpen Ac;!NotOpen Xc; "),
    ("Oqo", "OoBq)1)0 "),
    ("OHy", "Oo!MissingEnd Oo;)0SHXo !MissingEnd Xo;)1)0"),
    // The 65th scope is refused; so is a paragraph, which passes over the rest of its line, as a description and a row that is alone do. The
    // words of an enclosure stay.
    (
        "*#RewETtwEwErRnwElwEqwEr#/",
        "64!Limit SCOPES;w!Limit SCOPES;w)3RS!Limit SCOPES;!Limit SCOPES;!Limit SCOPES;w)363 ",
    ),
];

fn check_script(rt: &impl Abort, alloc: Global, script: &str, wanted: &str) -> Result<(), Fail> {
    let given = given_by(alloc, script)?;
    assert_eq!(rt;
        given.notation.brief.text(),
        wanted.as_bytes(),
        "of {script}"
    );
    Ok(())
}

#[test]
fn scopes_of_events(rt: HostRuntime) -> Result<(), Fail> {
    for (script, wanted) in &CASES {
        check_script(&rt, rt.alloc(), script, wanted)?;
    }
    Ok(())
}
