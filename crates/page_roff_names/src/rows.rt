//! A row of names with what they stand for, their bytes in one text.
ghost use Rattle.std.specs.Prelude.{◌≡◌, ◌+◌, ◌<◌, ◌≤◌, IfOk, [], ◌++◌, length};
ghost use Rattle.std.specs.List.{All, insert, remove};
ghost use Rattle.std.specs.Vec.{vec_len, vec_capacity};
ghost use Rattle.page_roff_names.specs.Names.{size, definition};
ghost use Rattle.page_roff_names.specs.laws.Views.{name_at, definition_at};
ghost use Rattle.page_roff_names.specs.machine.Changes.{slice, entry, cut, IsWithin, EndsBy};

use page_core_base::{DEFS, NAMES, append};
use std::alloc::{AllocError, Global};
use std::marker::Model;

/// What a name stands for: a string or a macro, which has a value, or a number register.
#[derive(Clone, Copy)]
pub enum EntryKind {
    String,
    Macro,
    Register(i32),
}

/// Where some bytes are in the text.
#[derive(Clone, Copy)]
pub struct Part {
    start: usize,
    len: usize,
}

/// Where an entry's name and its value are, and what it stands for.
#[derive(Clone, Copy)]
pub struct Span {
    name: Part,
    value: Part,
    meaning: EntryKind,
}

/// Entries in a row, their bytes in any order in the text. Those of a removed one stay until there is no more room.
#[derive(Drop)]
pub struct Row {
    spans: Vec<Span>,
    text: Vec<u8>,
    // The bytes of all names and values.
    bytes: usize,
    spare: Vec<u8>,
}

impl Model for Row {
    ghost use Rattle.std.specs.Vec.{vec_capacity};
    ghost use Rattle.page_roff_names.specs.Names.{Entries};
    ghost use Rattle.page_roff_names.specs.machine.Changes.{cut, IsLaid};

    ghost Value = { Entries };

    ghost view = { λ r. cut r.spans.items r.text.items };

    ghost invariant = { λ r. IsLaid r.spans.items r.text.items r.bytes (vec_capacity r.spans) (vec_capacity r.text) (vec_capacity r.spare) };
}

/// Puts bytes at the end of a text.
fn put(text: &mut Vec<u8>, bytes: &[u8]) -> Part
    requires { vec_len text.old + length bytes.now ≤ vec_capacity text.old }
    ensures is { (slice text.new.items result ≡ bytes.now) × (result.len ≡ length bytes.now) × EndsBy (length text.new.items) result }
    ensures items { text.new.items ≡ text.old.items ++ bytes.now }
    ensures capacity { vec_capacity text.old ≤ vec_capacity text.new }
{
    let start = text.len();
    append(text, bytes);
    Part {
        start,
        len: bytes.len(),
    }
}

/// Puts a name and a value at the end of a text.
fn put_entry(text: &mut Vec<u8>, name: &[u8], meaning: EntryKind, value: &[u8]) -> Span
    requires { vec_len text.old + (length name.now + length value.now) ≤ vec_capacity text.old }
    ensures is { (entry text.new.items result ≡ (name.now, definition meaning value.now)) × IsWithin (length text.new.items) result }
    ensures items { text.new.items ≡ text.old.items ++ (name.now ++ value.now) }
    ensures capacity { vec_capacity text.old ≤ vec_capacity text.new }
{
    Span {
        name: put(text, name),
        value: put(text, value),
        meaning,
    }
}

/// Puts a span among the others.
fn put_span(spans: &mut Vec<Span>, i: usize, span: Span)
    requires place { i ≤ vec_len spans.old }
    requires room { vec_len spans.old < vec_capacity spans.old }
    ensures items { spans.new.items ≡ insert spans.old.items i span }
    ensures capacity { vec_capacity spans.old ≤ vec_capacity spans.new }
{
    match spans.insert(i, span) {
        Ok(()) => (),
        Err(_) => unreachable!(),
    }
}

fn bytes_at(text: &[u8], part: Part) -> &[u8]
    requires { EndsBy (length text.now) part }
    ensures { result.now ≡ slice text.now part }
{
    &text[part.start..part.start + part.len]
}

/// Copies the bytes of spans, and nothing between them, to another text.
fn gather(spans: &mut [Span], text: &[u8], other: &mut Vec<u8>)
    requires within { All (IsWithin (length text.now)) spans.old }
    requires room { size (cut spans.old text.now) ≤ vec_capacity other.old }
    ensures same { cut spans.new other.new.items ≡ cut spans.old text.now }
    ensures within { All (IsWithin (length other.new.items)) spans.new }
    ensures bytes { length other.new.items ≡ size (cut spans.old text.now) }
    ensures capacity { vec_capacity other.old ≤ vec_capacity other.new }
{
    other.clear();
    for i in 0..spans.len() {
        let Span {
            name,
            value,
            meaning,
        } = spans[i];
        spans[i] = put_entry(other, bytes_at(text, name), meaning, bytes_at(text, value));
    }
}

/// Makes room for bytes at the end of a text.
fn make_room(spans: &mut Vec<Span>, text: &mut Vec<u8>, spare: &mut Vec<u8>, count: usize)
    requires within { All (IsWithin (length text.old.items)) spans.old.items }
    requires room { size (cut spans.old.items text.old.items) + count ≤ vec_capacity text.old }
    requires spare { size (cut spans.old.items text.old.items) ≤ vec_capacity spare.old }
    ensures same { cut spans.new.items text.new.items ≡ cut spans.old.items text.old.items }
    ensures within { All (IsWithin (length text.new.items)) spans.new.items }
    ensures room { vec_len text.new + count ≤ vec_capacity text.new }
    ensures spans { vec_capacity spans.old ≤ vec_capacity spans.new }
    ensures capacity { vec_capacity text.old ≤ vec_capacity text.new }
    ensures spare { vec_capacity spare.old ≤ vec_capacity spare.new }
{
    if count > text.capacity() - text.len() {
        gather(spans, text, spare);
        text.clear();
        append(text, spare);
    }
}

impl Row {
    /// No entry, with the memory for all.
    pub fn new(alloc: Global) -> Result<Row, AllocError>
        ensures { IfOk result (λ row. row ≡ []) }
    {
        Ok(Row {
            spans: Vec::with_capacity(alloc, NAMES)?,
            text: Vec::with_capacity(alloc, 2 * DEFS)?,
            bytes: 0,
            spare: Vec::with_capacity(alloc, DEFS)?,
        })
    }

    /// The same entries, with the memory for all.
    pub fn copy(&self, alloc: Global) -> Result<Row, AllocError>
        ensures { IfOk result (λ row. row ≡ self.now) }
    {
        let mut spans = Vec::with_capacity(alloc, NAMES)?;
        spans.extend_from_slice(&self.spans)?;
        let mut text = Vec::with_capacity(alloc, 2 * DEFS)?;
        text.extend_from_slice(&self.text)?;
        let spare = Vec::with_capacity(alloc, DEFS)?;
        Ok(Row {
            spans,
            text,
            bytes: self.bytes,
            spare,
        })
    }

    pub fn len(&self) -> usize
        ensures { result ≡ length self.now }
    {
        self.spans.len()
    }

    /// The bytes of all names and values.
    pub fn bytes(&self) -> usize
        ensures { result ≡ size self.now }
    {
        self.bytes
    }

    pub fn name(&self, i: usize) -> &[u8]
        requires { i < length self.now }
        ensures { result.now ≡ name_at self.now i }
    {
        bytes_at(&self.text, self.spans[i].name)
    }

    pub fn value(&self, i: usize) -> &[u8]
        requires { i < length self.now }
        ensures { result.now ≡ (definition_at self.now i).value }
    {
        bytes_at(&self.text, self.spans[i].value)
    }

    pub fn meaning(&self, i: usize) -> EntryKind
        requires { i < length self.now }
        ensures { result ≡ (definition_at self.now i).meaning }
    {
        self.spans[i].meaning
    }

    /// Puts an entry in the place of the i-th.
    pub fn set(&mut self, i: usize, name: &[u8], meaning: EntryKind, value: &[u8])
        requires place { i < length self.old }
        requires bytes { size (remove self.old i) + (length name.now + length value.now) ≤ DEFS }
        ensures { self.new ≡ insert (remove self.old i) i (name.now, definition meaning value.now) }
    {
        let bytes = name.len() + value.len();
        make_room(&mut self.spans, &mut self.text, &mut self.spare, bytes);
        let old = self.spans[i];
        self.spans[i] = put_entry(&mut self.text, name, meaning, value);
        self.bytes = self.bytes - (old.name.len + old.value.len) + bytes;
    }

    /// Puts an entry in before the i-th.
    pub fn insert(&mut self, i: usize, name: &[u8], meaning: EntryKind, value: &[u8])
        requires place { i ≤ length self.old }
        requires names { length self.old < NAMES }
        requires bytes { size self.old + (length name.now + length value.now) ≤ DEFS }
        ensures { self.new ≡ insert self.old i (name.now, definition meaning value.now) }
    {
        let bytes = name.len() + value.len();
        make_room(&mut self.spans, &mut self.text, &mut self.spare, bytes);
        let span = put_entry(&mut self.text, name, meaning, value);
        put_span(&mut self.spans, i, span);
        self.bytes += bytes;
    }

    /// Gives the i-th entry another name, and with it another place among the others.
    pub fn rename(&mut self, i: usize, name: &[u8], to: usize)
        requires from { i < length self.old }
        requires to { to < length self.old }
        requires bytes { size (remove self.old i) + (length name.now + length (definition_at self.old i).value) ≤ DEFS }
        ensures { self.new ≡ insert (remove self.old i) to (name.now, definition_at self.old i) }
    {
        make_room(&mut self.spans, &mut self.text, &mut self.spare, name.len());
        let span = self.spans.remove(i);
        let renamed = Span {
            name: put(&mut self.text, name),
            ..span
        };
        put_span(&mut self.spans, to, renamed);
        self.bytes = self.bytes - span.name.len + name.len();
    }

    /// Takes the i-th entry out.
    pub fn remove(&mut self, i: usize)
        requires { i < length self.old }
        ensures { self.new ≡ remove self.old i }
    {
        let span = self.spans.remove(i);
        self.bytes -= span.name.len + span.value.len;
    }
}
