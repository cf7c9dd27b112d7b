//! Writing bytes, in few calls.

ghost use Rattle.std.specs.Prelude.{◌≡◌, ◌+◌, [], ◌++◌, true};
ghost use Rattle.std.specs.List.{flat_map};
ghost use Rattle.page_core_streams.specs.laws.Views.{FailsBy, Writes, WritesUpTo};

use crate::targets::Target;
use arrayvec::ArrayVec;
use std::io::{ErrorKind, Write};

/// The bytes that are collected before they are written.
pub(crate) const BUFFER: usize = 512;

/// How often an interrupted write is tried again.
const TRIES: u32 = 1_000_000;

// Bytes that are still to be written.
type Unsent = ArrayVec<u8, 512>;

/// Writes all bytes. A write of 0 bytes is a failure; an interrupted one is tried again.
pub(crate) fn write_bytes<W: Write>(out: &mut W, bytes: &[u8]) -> bool
    ensures { Writes result (W.contents out.old) (W.contents out.new) bytes.now }
{
    if bytes.is_empty() {
        return true;
    }
    match out.write(bytes) {
        Ok(count) if count == bytes.len() => true,
        Ok(count) if count > 0 => write_rest(out, &bytes[count..], TRIES),
        Err(error) if error.kind() == ErrorKind::Interrupted => write_rest(out, bytes, TRIES - 1),
        _ => false,
    }
}

// Writes all bytes in the same way, with a number of tries left. Most writes take all at once, so that this is seldom called.
#[inline(never)]
fn write_rest<W: Write>(out: &mut W, bytes: &[u8], mut tries: u32) -> bool
    ensures { Writes result (W.contents out.old) (W.contents out.new) bytes.now }
{
    let mut rest = bytes;
    while !rest.is_empty() {
        match out.write(rest) {
            Ok(count) if count > 0 => rest = &rest[count..],
            Err(error) if error.kind() == ErrorKind::Interrupted && tries > 0 => tries -= 1,
            _ => return false,
        }
    }
    true
}

// Collects the bytes of a text, and writes what has no room.
fn add<W: Target>(out: &mut W, unsent: &mut Unsent, text: &[u8]) -> bool
    ensures sent { WritesUpTo result (W.contents out.old) (W.contents out.new) (unsent.old.items
        ++ text.now) unsent.new.items }
    ensures fails { FailsBy W.counts result (W.failures out.old) (W.failures out.new) }
{
    if text.len() > BUFFER {
        return send(out, unsent) && out.put(text);
    }
    if unsent.remaining_capacity() < text.len() && !send(out, unsent) {
        return false;
    }
    unsent.try_extend_from_slice(text).is_ok()
}

// Writes what was collected.
fn send<W: Target>(out: &mut W, unsent: &mut Unsent) -> bool
    ensures sent { Writes result (W.contents out.old) (W.contents out.new) unsent.old.items }
    ensures fails { FailsBy W.counts result (W.failures out.old) (W.failures out.new) }
    ensures empty { result ≡ true → unsent.new.items ≡ [] }
{
    if !out.put(unsent.as_slice()) {
        return false;
    }
    unsent.clear();
    true
}

/// Writes texts one after another, short ones at once, and says whether that succeeded; else a front was written. A write of 0 bytes is a failure.
pub fn put_all<W: Target>(out: &mut W, texts: &[&[u8]]) -> bool
    ensures writes { Writes result (W.contents out.old) (W.contents out.new)
        (flat_map (λ text. text.now) texts.now) }
    ensures fails { FailsBy W.counts result (W.failures out.old) (W.failures out.new) }
{
    let mut unsent = Unsent::new();
    for text in texts {
        if !add(out, &mut unsent, *text) {
            return false;
        }
    }
    out.put(unsent.as_slice())
}
