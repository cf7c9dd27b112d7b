//! The record in a section's text: names, and what the page is for (mandoc(1), `makewhatis`).

ghost use Rattle.std.specs.Prelude.{◌≡◌, ◌≤◌, ◌<◌, ◌+◌, ◌*◌, [], ◌∷◌, length, IfSome, MatchOption, true};
ghost use Rattle.std.specs.List.{slice_split};
ghost use Rattle.page_engine_records.specs.declared.texts.TheConstants.{NAMES};
ghost use Rattle.page_engine_records.specs.Records.{begins_dash, dash_place, is_comma, record_of, trimmed, with_names, without_front};

use crate::texts::{NAMES, TEXT, add_name};
use memchr::memchr;
use page_core_base::BoundedText;
use page_engine_index::{Record, Text};
use page_roff_syntax::kept_len;

/// What is between a page's names and what it is for.
const DASH: &[u8] = b" - ";

// Whether a dash is at the front of a text.
#[tactic(auto, unfolding(crate::specs::Records::begins_dash))]
fn begins_dash(text: &[u8]) -> bool
    ensures value { result ≡ begins_dash text.now }
    ensures room { result ≡ true → 3 ≤ length text.now }
{
    text.starts_with(DASH)
}

// The bytes before the first dash, all of them where there is none.
fn dash_place(text: &[u8]) -> usize
    ensures value { result ≡ dash_place text.now }
    ensures bound { result ≤ length text.now }
    ensures room { result < length text.now → result + 3 ≤ length text.now }
{
    let mut rest = text;
    while let Some((_byte, after)) = rest.split_first() {
        if begins_dash(rest) {
            return text.len() - rest.len();
        }
        rest = after;
    }
    text.len()
}

// A text without the blanks at its front.
fn without_front<'a>(text: &'a [u8]) -> &'a [u8]
    ensures value { result.now ≡ without_front text.now }
    ensures bound { length result.now ≤ length text.now }
{
    let mut rest = text;
    while let Some((byte, after)) = rest.split_first() {
        if *byte != b' ' {
            return rest;
        }
        rest = after;
    }
    rest
}

// A text without the blanks at its ends.
fn trimmed<'a>(text: &'a [u8]) -> &'a [u8]
    ensures value { result.now ≡ trimmed text.now }
    ensures bound { length result.now ≤ length text.now }
{
    let rest = without_front(text);
    &rest[..kept_len(rest, |byte| byte == b' ')]
}

// The text before the first comma and the text after it.
fn split_at_comma<'a>(text: &'a [u8]) -> Option<(&'a [u8], &'a [u8])>
    ensures split { MatchOption result
        (slice_split is_comma text.now ≡ text.now ∷ [])
        (λ parts. slice_split is_comma text.now ≡ parts.0.now ∷ slice_split is_comma parts.1.now) }
    ensures room { IfSome result (λ parts. length parts.0.now + 1 + length parts.1.now ≡ length text.now) }
{
    let end = memchr(b',', text)?;
    Some((&text[..end], &text[end + 1..]))
}

// Adds the names in a text, which commas part.
fn add_names(names: &mut BoundedText<NAMES>, text: &[u8])
    requires { length names.old + 2 * length text.now + 2 ≤ NAMES }
    ensures { names.new ≡ with_names names.old (slice_split is_comma text.now) }
{
    let mut rest = text;
    while let Some((name, after)) = split_at_comma(rest) {
        add_name(names, trimmed(name));
        rest = after;
    }
    add_name(names, trimmed(rest));
}

/// The record in the text of a section NAME, with the number of the manual's section; the names go into memory that has none.
pub(crate) fn record_of(
    text: BoundedText<TEXT>,
    section: Vec<u8>,
    names: BoundedText<NAMES>,
) -> Option<Record>
    requires { names ≡ [] }
    ensures { result ≡ record_of text section.items }
{
    let mut text = text;
    let mut names = names;
    let place = dash_place(text.bytes());
    if place == text.bytes().len() {
        return None;
    }
    add_names(&mut names, &text.bytes()[..place]);
    let names = names.into_bytes();
    if names.is_empty() {
        return None;
    }
    text.cut_front(place + DASH.len());
    Some(Record {
        names: Text::new(names),
        section: Text::new(section),
        description: Text::new(text.into_bytes()),
    })
}
