//! Texts that are remembered, with how many bytes are copied from each of their places on (roff(7), "Escape sequences").

ghost use Rattle.std.specs.Prelude.{◌≡◌, ◌+◌, ◌-◌, ◌<◌, ◌≤◌, length, vec_capacity, take, drop, false, IfSome, IsTrue};
ghost use Rattle.page_core_base.specs.Bytes.{begins_escape};
ghost use Rattle.page_roff_parts.specs.declared.known_fronts.TheConstants.{COUNT, TEXTS};
ghost use Rattle.page_roff_parts.specs.machine.Verbatim as brackets;
ghost use Rattle.page_roff_parts.specs.machine.Verbatim.{IsFront};
ghost use Rattle.page_roff_parts.specs.machine.Known.{AreFronts, AreKnown, IsKnown, StayBefore};
ghost use Rattle.page_roff_syntax.specs.machine.Closed.{AreMarked};
ghost use Rattle.page_roff_syntax.specs.declared.closed_widths.TheConstants.{MET_WORDS};

use crate::endings::after;
use crate::fronts::pair_len;
use crate::room::fill_up;
use page_core_base::append;
use page_roff_syntax::{MET_WORDS, is_lone, mark_closed};
use std::alloc::{AllocError, Global};

// The bytes of all texts: more than the definitions of a page have together.
const TEXTS: usize = 81_920;

// How many texts are remembered.
const COUNT: usize = 320;

/// Where a text begins in the texts, and where it ends.
#[derive(Clone, Copy)]
pub(crate) struct KnownText {
    start: u32,
    end: u32,
}

/// Texts, one after the other, and beside each byte how many bytes are copied from it on.
#[derive(Drop)]
pub(crate) struct KnownFronts {
    texts: Vec<u8>,
    fronts: Vec<u32>,
    known: Vec<KnownText>,
    // The characters that are met in a text, and its marks. These and the fronts have no numbers before the first text.
    met: Vec<u64>,
    marks: Vec<u8>,
    ghost within: { length texts.items ≤ TEXTS },
    ghost room: { (TEXTS ≤ vec_capacity texts) × (TEXTS ≤ vec_capacity fronts) × (COUNT ≤ vec_capacity known)
        × (MET_WORDS ≤ vec_capacity met) × (TEXTS ≤ vec_capacity marks) },
    ghost are_known: { AreKnown texts.items fronts.items known.items },
}

// How many bytes are copied from a place of a text on, where that is known.
fn front_at(text: &[u8], fronts: &[u32], before: usize, at: usize) -> usize
    requires within { at ≤ length text.now }
    requires room { before + length text.now ≤ length fronts.now }
    requires known { AreFronts fronts.now before text.now at }
    ensures front { IsFront false result (drop at text.now) }
    ensures within { at + result ≤ length text.now }
{
    if at == text.len() {
        0
    } else {
        fronts[before + at] as usize
    }
}

// The place up to which bytes are copied from a backslash on, where that is known of the places behind it.
fn copied_end(
    text: &[u8],
    marks: &[u8],
    fronts: &[u32],
    before: usize,
    at: usize,
    is_unclosed: bool,
) -> usize
    requires within { at < length text.now }
    requires room { before + length text.now ≤ length fronts.now }
    requires escape { IsTrue (begins_escape (drop at text.now)) }
    requires marked { AreMarked marks.now text.now 0 }
    requires known { AreFronts fronts.now before text.now (at + 1) }
    requires brackets { brackets.IsKnown is_unclosed (drop at text.now) }
    ensures front { IsFront false (result - at) (drop at text.now) }
    ensures least { at ≤ result }
    ensures within { result ≤ length text.now }
{
    let is_lone = is_lone(text, marks, at + 2);
    let len = pair_len(after(text, at), false, is_unclosed, is_lone);
    if len == 0 {
        return at;
    }
    at + len + front_at(text, fronts, before, at + len)
}

// Whether it is known that no bracket closes from a place on, where that is known of the next place.
fn lacks_bracket(text: &[u8], at: usize, is_unclosed: bool) -> bool
    requires within { at < length text.now }
    requires known { brackets.IsKnown is_unclosed (drop (at + 1) text.now) }
    ensures { brackets.IsKnown result (drop at text.now) }
{
    is_unclosed && text[at] != b']'
}

// Writes beside each byte of a text how many bytes are copied from it on, from the text's end to its front.
fn write_fronts(text: &[u8], marks: &[u8], fronts: &mut [u32], before: usize)
    requires room { before + length text.now ≤ length fronts.old }
    requires fits { length text.now ≤ TEXTS }
    requires marked { AreMarked marks.now text.now 0 }
    ensures fronts { AreFronts fronts.new before text.now 0 }
    ensures stay { StayBefore before fronts.old fronts.new }
{
    let mut at = text.len();
    let mut next = at;
    let mut end = at;
    let mut is_unclosed = true;
    while 0 < at {
        at -= 1;
        is_unclosed = lacks_bracket(text, at, is_unclosed);
        if text[at] == b'\\' {
            end = copied_end(text, marks, fronts, before, at, is_unclosed);
            next = at;
        }
        fronts[before + at] = (end - at) as u32;
    }
}

impl KnownFronts {
    /// Nothing is known. All memory is reserved here.
    pub(crate) fn new(alloc: Global) -> Result<KnownFronts, AllocError> {
        Ok(KnownFronts {
            texts: Vec::with_capacity(alloc, TEXTS)?,
            fronts: Vec::with_capacity(alloc, TEXTS)?,
            known: Vec::with_capacity(alloc, COUNT)?,
            met: Vec::with_capacity(alloc, MET_WORDS)?,
            marks: Vec::with_capacity(alloc, TEXTS)?,
        })
    }

    // Whether a text that is remembered ends with this one. The lengths are compared first.
    #[inline(always)]
    fn ends_with(&self, known: KnownText, text: &[u8]) -> bool
        requires { IsKnown self.now.texts.items self.now.fronts.items known }
        ensures within { IsTrue result → known.start + length text.now ≤ known.end }
        ensures text { IsTrue result
            → text.now ≡ take (length text.now) (drop (known.end - length text.now) self.now.texts.items) }
    {
        let start = known.start as usize;
        let end = known.end as usize;
        text.len() <= end - start && &self.texts[end - text.len()..end] == text
    }

    /// How many bytes at a text's front are copied, if that is remembered.
    pub(crate) fn find(&self, text: &[u8]) -> Option<usize>
        requires { 0 < length text.now }
        ensures { IfSome result (λ n. (n ≤ length text.now) × IsFront false n text.now) }
    {
        for known in &self.known {
            if self.ends_with(*known, text) {
                return Some(self.fronts[known.end as usize - text.len()] as usize);
            }
        }
        None
    }

    // Makes room for one more text of so many bytes. Where there is none, all are forgotten.
    fn make_room(&mut self, len: usize)
        requires { len ≤ TEXTS }
        ensures texts { length self.new.texts.items + len ≤ TEXTS }
        ensures known { length self.new.known.items < COUNT }
        ensures fronts { TEXTS ≤ length self.new.fronts.items }
        ensures marks { TEXTS ≤ length self.new.marks.items }
    {
        if TEXTS - len < self.texts.len() || COUNT <= self.known.len() {
            self.known.clear();
            self.texts.clear();
        }
        if self.fronts.len() < TEXTS {
            self.known.clear();
            fill_up(&mut self.fronts, TEXTS, 0);
        }
        fill_up(&mut self.marks, TEXTS, 0);
        fill_up(&mut self.met, MET_WORDS, 0);
    }

    /// Remembers a text. Answers how many bytes at its front are copied.
    pub(crate) fn add(&mut self, text: &[u8]) -> Option<usize>
        requires { 0 < length text.now }
        ensures { IfSome result (λ n. (n ≤ length text.now) × IsFront false n text.now) }
    {
        if TEXTS < text.len() {
            return None;
        }
        self.make_room(text.len());
        let start = self.texts.len();
        self.met.as_mut_slice().fill(0);
        mark_closed(text, self.met.as_mut_slice(), self.marks.as_mut_slice());
        write_fronts(text, &self.marks, self.fronts.as_mut_slice(), start);
        append(&mut self.texts, text);
        let end = start + text.len();
        self.known.push_reserved(KnownText {
            start: start as u32,
            end: end as u32,
        });
        Some(front_at(text, &self.fronts, start, 0))
    }
}
