//! Rows as bytes of a writer (mandoc(1), "ASCII Output").

ghost use Rattle.std.specs.Prelude.{◌≡◌, ◌+◌, ◌<◌, ◌≤◌, MatchOption, length, take, false, replicate};
ghost use Rattle.std.specs.Borrow.{GName};
ghost use Rattle.page_core_base.specs.laws.Views.{AreAscii, cells_in};
ghost use Rattle.page_core_streams.specs.laws.Views.{FailsBy, StopsBy, count_of, GrowsUpTo, Writes, adds-sink, adds-whole};
ghost use Rattle.page_core_streams.specs.Streams.{Adds, AddsInto, GrowsInto, row_bytes, printed};

use crate::ascii_rows::{TEXT_GROUP, shown_len, write_first};
use crate::cells::{without_blanks_at_end, write_group, write_mixed};
use crate::targets::Target;
use page_core_base::{Cell, Fault, Font, RowSink};

// The bytes of a row that may wait before more of its cells come.
const WAITING: usize = 256;

// The cells of a row that are written at a time: a number that the compiler knows, so that it needs no loop over them.
const GROUP: usize = 8;

// There is room for the bytes that wait, for those of a group of either kind, and for a row's end.
const ROW_BYTES: usize = 640;

/// Writes rows as bytes (mandoc(1), "ASCII Output").
#[derive(Drop)]
pub struct TextRows<'a, W> {
    out: &'a mut W,
    failures: u64,
    // The bytes of a row that wait; what they are between two rows means nothing.
    bytes: [u8; ROW_BYTES],
}

impl<'a, W: Target> TextRows<'a, W> {
    /// A sink over a writer.
    pub fn new(out: &'a mut W) -> TextRows<'a, W>
        ensures loan { result.out.ghost_name ≡ out.entry.ghost_name }
        ensures out { result.out.now ≡ out.entry.now }
        ensures failures { result.failures ≡ 0 }
    {
        TextRows {
            out,
            failures: 0,
            bytes: [b' '; ROW_BYTES],
        }
    }
}

// Puts blanks at the front of the bytes. Few are put as a whole group, for which the compiler needs no loop: those after the count mean nothing.
#[inline(always)]
fn put_blanks(bytes: &mut [u8; ROW_BYTES], count: usize)
    requires { count ≤ length bytes.old }
    ensures { take count bytes.new ≡ replicate count 32 }
{
    if count <= TEXT_GROUP {
        bytes[..TEXT_GROUP].fill(b' ');
    } else {
        bytes[..count].fill(b' ');
    }
}

// Writes a margin in blanks, but for a few that wait in the bytes, and answers where the next one goes.
fn put_margin<W: Target>(out: &mut W, bytes: &mut [u8; ROW_BYTES], margin: u32) -> Option<usize>
    ensures writes { MatchOption result
        (GrowsInto (W.contents out.old) (W.contents out.new) (replicate margin 32))
        (λ at. (at ≤ 256) × GrowsUpTo (W.contents out.old) (W.contents out.new) (replicate margin 32) (take at bytes.new)) }
    ensures fails { StopsBy W.counts result (W.failures out.old) (W.failures out.new) }
{
    let mut left = margin as usize;
    while left > WAITING {
        let blanks = [b' '; WAITING];
        if !out.put(&blanks) {
            return None;
        }
        left -= WAITING;
    }
    put_blanks(bytes, left);
    Some(left)
}

// Makes room after the bytes that wait, by a write where they are too many, and answers where the next one goes.
fn room_after<W: Target>(out: &mut W, bytes: &[u8], end: usize) -> Option<usize>
    requires { end ≤ length bytes.now }
    ensures writes { MatchOption result
        (GrowsInto (W.contents out.old) (W.contents out.new) (take end bytes.now))
        (λ at. (at ≤ 256) × GrowsUpTo (W.contents out.old) (W.contents out.new) (take end bytes.now) (take at bytes.now)) }
    ensures fails { StopsBy W.counts result (W.failures out.old) (W.failures out.new) }
{
    if end <= WAITING {
        return Some(end);
    }
    out.put(&bytes[..end]).then_some(0)
}

// Writes a margin, cells and a line feed, or the line feed alone where there is no cell; the bytes have room for what waits.
fn put_row<W: Target>(out: &mut W, bytes: &mut [u8; ROW_BYTES], margin: u32, cells: &[Cell]) -> bool
    ensures writes { Writes result (W.contents out.old) (W.contents out.new) (printed margin cells.now) }
    ensures fails { FailsBy W.counts result (W.failures out.old) (W.failures out.new) }
{
    if cells.is_empty() {
        return out.put(b"\n");
    }
    let Some(mut end) = put_margin(out, bytes, margin) else {
        return false;
    };
    let mut rest = cells;
    while rest.len() >= GROUP {
        let Some(room) = room_after(out, bytes, end) else {
            return false;
        };
        let (group, later) = rest.split_at(GROUP);
        end = write_mixed(bytes, room, group);
        rest = later;
    }
    end = write_group(bytes, end, rest);
    bytes[end] = b'\n';
    out.put(&bytes[..end + 1])
}

// Writes a row of characters of ASCII in the same way.
fn put_text<W: Target>(
    out: &mut W,
    bytes: &mut [u8; ROW_BYTES],
    margin: u32,
    text: &[u8],
    fonts: &[Font],
) -> bool
    requires { AreAscii text.now fonts.now false }
    ensures writes { Writes result (W.contents out.old) (W.contents out.new) (printed margin (cells_in text.now fonts.now)) }
    ensures fails { FailsBy W.counts result (W.failures out.old) (W.failures out.new) }
{
    if text.is_empty() {
        return out.put(b"\n");
    }
    let Some(mut end) = put_margin(out, bytes, margin) else {
        return false;
    };
    // The first group has as many as make the others whole ones.
    let mut i = (text.len() - 1) % TEXT_GROUP + 1;
    end = write_first(bytes, end, text, fonts, i);
    while i < text.len() {
        let Some(room) = room_after(out, bytes, end) else {
            return false;
        };
        let next = i + TEXT_GROUP;
        end = write_first(bytes, room, &text[i..next], &fonts[i..next], TEXT_GROUP);
        i = next;
    }
    bytes[end] = b'\n';
    out.put(&bytes[..end + 1])
}

impl<W: Target> RowSink for TextRows<'_, W> {
    ghost gave = { Adds (λ s. W.contents s.out.now) row_bytes };

    ghost within = { AddsInto (λ s. W.contents s.out.now) row_bytes };

    ghost failed = { λ s. count_of W.counts (W.failures s.out.now) s.failures };

    ghost Loans = { GName };

    ghost loans = { λ s. s.out.ghost_name };

    ghost is_out = { λ s. W.is_out s.out.now };

    ghost laws = { adds-sink (λ s. W.contents s.out.now) row_bytes };

    ghost whole = { adds-whole (λ s. W.contents s.out.now) row_bytes };

    fn row(&mut self, margin: u32, cells: &[Cell]) -> Result<(), Fault> {
        let cells = without_blanks_at_end(cells);
        if put_row(self.out, &mut self.bytes, margin, cells) {
            return Ok(());
        }
        self.failures = self.failures.saturating_add(1);
        Err(Fault::WriteText)
    }

    fn ascii_row(
        &mut self,
        margin: u32,
        bytes: &[u8],
        fonts: &[Font],
        is_blank: bool,
        _places: &mut Vec<Cell>,
    ) -> Result<(), Fault> {
        let len = shown_len(bytes, is_blank);
        let (text, fonts) = (&bytes[..len], &fonts[..len]);
        if put_text(self.out, &mut self.bytes, margin, text, fonts) {
            return Ok(());
        }
        self.failures = self.failures.saturating_add(1);
        Err(Fault::WriteText)
    }

    #[tactic(auto, using(crate::proofs::AsciiLemmas::blank_bytes))]
    fn blank_row(&mut self, _margin: u32, _cells: &[Cell]) -> Result<(), Fault> {
        if self.out.put(b"\n") {
            return Ok(());
        }
        self.failures = self.failures.saturating_add(1);
        Err(Fault::WriteText)
    }

    fn put_out(&mut self) -> Result<(), Fault> {
        if self.out.put_out() {
            return Ok(());
        }
        self.failures = self.failures.saturating_add(1);
        Err(Fault::WriteText)
    }
}
