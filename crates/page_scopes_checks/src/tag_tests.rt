//! Tags of arguments, which are in front of the text of their paragraph.

ghost use Rattle.std.specs.Prelude.{◌≤◌, length};
ghost use Rattle.page_sets_lines.specs.laws.Views.{ArgumentFits};
ghost use Rattle.page_sets_lines.specs.laws.Events.{word_view};

use crate::leaf_pages::{MOST, check_shown};
use page_core_base::{Font, Place};
use page_roff_syntax::{Argument, Quoting};
use page_scopes_blocks::{TagPlace, give_tag};
use page_scopes_nodes::{end_line, give_leaf, give_raw_line};
use page_scopes_phrases::{Formatting, give_generated_word, give_line_word};
use page_sets::{GeneratedText, GeneratedWord, Join, Leaf, Role, Word};
use page_test_streams::Shown;
use std::alloc::Global;
use std::process::Abort;

// An argument in column 5.
fn argument(text: &str, font: Option<Font>) -> Word<&[u8]>
    requires { length text.now ≤ MOST }
    ensures { ArgumentFits (word_view result).arg }
{
    Word {
        arg: Argument {
            text: text.as_bytes(),
            column: 5,
            quoting: Quoting::Closed,
        },
        role: Role::Argument,
        font,
        before: Join::Apart,
        after: Join::Apart,
    }
}

// What a tag at column 7 gives whose text hangs by 4 columns, and a word after it.
fn tagged(
    rt: &impl Abort,
    alloc: Global,
    is_literal: bool,
    tag: &str,
    font: Option<Font>,
) -> Shown {
    let mut out = Shown::new(alloc, false);
    let mut state = Formatting::start(7);
    assert!(rt; tag.len() < MOST);
    state.context.hang = 4;
    state.context.is_literal.value = is_literal;
    let place = TagPlace { margin: 7, hang: 4 };
    give_tag(&mut out, place, 1, &argument(tag, font), &mut state);
    end_line(&mut out, &mut state);
    give_line_word(&mut out, 2, &argument("text", None), &mut state);
    end_line(&mut out, &mut state);
    out
}

// Whether rows are kept, a tag and its font, and what is given.
type Row = (bool, &'static str, Option<Font>, &'static str);

const TAGS: &[Row] = &[
    (false, "ab", None, "{7 11}<4;1[ab]>{11 11}[text]"),
    (
        false,
        "a b.",
        Some(Font::B),
        "{7 11}<4;1B[a]1B[b.]>{11 11}[text]",
    ),
    (false, "a\\c", None, "{7 11}<4;1[a]>{11 11}[text]"),
    (true, "ab", None, "{7 11}<4;[ab]>{11 11}[text]="),
    (false, "", None, "{7 11}<4;1[]>{11 11}[text]"),
];

// A mark keeps the sentence that ended before it, and is in the page's font.
fn marked(alloc: Global) -> Shown {
    let mut out = Shown::new(alloc, false);
    let mut state = Formatting::start(7);
    let place = Place {
        line: 1,
        column: u32::MAX,
    };
    let mark = GeneratedWord {
        text: GeneratedText::CloseBracket,
        font: None,
        before: Join::Glued,
        after: Join::Apart,
    };
    give_line_word(&mut out, 1, &argument("a.", None), &mut state);
    give_generated_word(&mut out, place, mark, &mut state);
    end_line(&mut out, &mut state);
    give_leaf(&mut out, place, &Leaf::Generated(mark), &None, &mut state);
    give_raw_line(&mut out, place, b"b", &mut state);
    out.add_number(state.gap);
    out
}

#[test]
fn tags_and_marks(rt: HostRuntime) {
    for (is_literal, tag, font, wanted) in TAGS {
        let out = tagged(&rt, rt.alloc(), *is_literal, tag, *font);
        check_shown(&rt, &out, wanted, tag);
    }
    check_shown(&rt, &marked(rt.alloc()), "1[a.][]][]]/L[b]=F1", "marks");
}
