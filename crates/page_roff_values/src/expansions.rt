//! The finished line (roff(7), "Escape sequences").

ghost use Rattle.std.specs.Prelude.{◌≡◌, ◌+◌, ◌-◌, ◌*◌, ◌^◌, ◌<◌, ◌≤◌, ℕ, length, not, false, nat_lt, IfOk, MatchOption, if◌then◌else◌};
ghost use Rattle.std.specs.Fmt.{decimal, signed_decimal};
ghost use Rattle.page_core_base.specs.declared.limits.TheConstants.{LINE};
ghost use Rattle.page_roff_values.specs.laws.Views.{Goes};
ghost use Rattle.page_roff_values.specs.machine.Rest.{Reads, calling, going_on, size, steps, texts_of, outermost, over, going_inside, going_outside, surroundings_of};
ghost use Rattle.page_roff_values.specs.Values as laying;
ghost use Rattle.page_roff_values.specs.laws.Views as laying_laws;
ghost use Rattle.page_roff_parts.specs.machine.Verbatim.{call_of};
ghost use Rattle.page_roff_values.specs.Values.{units_of};

use crate::endings::kept;
use crate::environments::Environment;
use crate::known_widths::KnownWidths;
use crate::sources::Sources;
use itoa::Buffer;
use memchr::memchr;
use page_core_base::{EXPAND, LINE, Limit, NEST, Note, NoteKind, NoteOut, Output, Place};
use page_roff_parts::{Call, LoneWidths, Part, is_verbatim, without_lone};
use std::alloc::{AllocError, Global};
use std::marker::Model;

/// A line that is being expanded: the text that is finished, how many interpolations it made, and whether it has ended.
#[derive(Drop)]
pub struct Expansion {
    nested: Nested,
}

impl Model for Expansion {
    ghost use Rattle.std.specs.Prelude.{◌≡◌, []};
    ghost use Rattle.page_roff_values.specs.Values.{TextSoFar};

    ghost Value = { TextSoFar };

    ghost view = { λ a. a.nested.spot };

    // Between calls it is inside of no other.
    ghost invariant = { λ a. a.nested.before ≡ [] };
}

/// A line, or the text of a width, with what is finished of those that it is inside of, in one buffer.
#[derive(Drop)]
struct Nested {
    text: Vec<u8>,
    // Where its own text begins, after theirs.
    start: usize,
    // The number of the line, for messages.
    line: u32,
    // The bytes before the text in its raw line, from which columns are counted.
    bytes_before: u32,
    // The column of all messages, inside a width.
    width_column: Option<u32>,
    count: u32,
    ended: bool,
    // What is known of widths without their ends, and of long texts that were measured.
    lone_widths: LoneWidths,
    known_widths: KnownWidths,
}

impl Model for Nested {
    ghost use Rattle.page_roff_values.specs.machine.Rest.{IsHeld, NestedSpot, nested_of};

    ghost Value = { NestedSpot };

    ghost view = { nested_of };

    ghost invariant = { IsHeld };
}

/// Where the line went on before the text of a width.
#[derive(Clone, Copy)]
struct Outside {
    start: usize,
    width_column: Option<u32>,
}

impl Nested {
    // Nothing yet. All memory is reserved here.
    fn new(alloc: Global) -> Result<Nested, AllocError>
        ensures { IfOk result (λ r. r ≡ outermost (laying.start 0)) }
    {
        Ok(Nested {
            text: Vec::with_capacity(alloc, LINE * (NEST + 1))?,
            start: 0,
            line: 0,
            bytes_before: 0,
            width_column: None,
            count: 0,
            ended: false,
            lone_widths: LoneWidths::new(alloc)?,
            known_widths: KnownWidths::new(alloc)?,
        })
    }

    // The beginning of a line with this number.
    fn begin(&mut self, line: u32)
        ensures { self.new ≡ outermost (laying.start line) }
    {
        self.text.clear();
        self.start = 0;
        self.line = line;
        self.bytes_before = 0;
        self.width_column = None;
        self.count = 0;
        self.ended = false;
        self.lone_widths.begin();
    }

    // Sets how many bytes of the line are before the text that comes.
    fn set_bytes_before(&mut self, bytes_before: u32)
        requires { bytes_before ≤ 2 ^ 31 }
        ensures { self.new ≡ over (laying.after_bytes bytes_before) self.old }
    {
        self.bytes_before = bytes_before;
    }

    // What is finished.
    fn text(&self) -> &[u8]
        ensures value { result.now ≡ self.now.spot.text }
        ensures bound { length result.now ≤ LINE }
    {
        &self.text[self.start..]
    }

    // How many interpolations were made.
    fn count(&self) -> u32
        ensures { result ≡ self.now.spot.count }
    {
        self.count
    }

    // Whether the line goes on.
    fn is_going(&self) -> bool
        ensures { result ≡ not self.now.spot.ended }
    {
        !self.ended
    }

    // How many bytes of the line are before the text: of a width's own text none count.
    fn bytes_before(&self) -> usize
        ensures value { result ≡ laying.bytes_before_in self.now.spot.around.width_column self.now.spot.around.bytes_before }
        ensures bound { result ≤ 2 ^ 31 }
    {
        match self.width_column {
            Some(_) => 0,
            None => self.bytes_before as usize,
        }
    }

    // How many bytes still fit.
    fn room(&self) -> usize
        ensures { result ≡ LINE - laying.finished_len self.now.spot }
    {
        LINE.saturating_sub(self.bytes_before() + (self.text.len() - self.start))
    }

    // The column of a message.
    fn column(&self) -> u32
        ensures { result ≡ laying.column_of self.now.spot }
    {
        match self.width_column {
            Some(column) => column,
            None => self.bytes_before + (self.text.len() - self.start) as u32 + 1,
        }
    }

    // The next part of the texts that are read.
    #[inline(always)]
    fn next_part<'e>(&mut self, copy: bool, sources: &mut Sources<'e>) -> Option<Part<&'e [u8]>>
        ensures same { self.new ≡ self.old }
        ensures reads { Reads copy (LINE - laying.finished_len self.old.spot) (texts_of sources.old) result (texts_of sources.new) }
        ensures falls { MatchOption result ℕ (λ p. size (texts_of sources.new) < size (texts_of sources.old)) }
    {
        let fits = self.room();
        sources.next(copy, fits, &mut self.lone_widths)
    }

    // Copies bytes, for which there is room.
    fn add(&mut self, run: &[u8])
        requires { length run.now ≤ LINE - length self.old.spot.text }
        ensures { self.new ≡ over (laying.adds run.now) self.old }
    {
        let _ = self.text.extend_from_slice(run);
    }

    // Gives a message at the end of what is finished.
    fn report<O: NoteOut>(&self, kind: NoteKind, detail: &[u8], out: &mut O)
        ensures { Goes O.left out.old (laying.says kind detail.now self.now.spot) out.new
            (laying.nothing self.now.spot) }
    {
        let place = Place {
            line: self.line,
            column: self.column(),
        };
        out.report(&Note::about(kind, place, detail));
    }

    // Ends the line, with a message.
    fn report_end<O: NoteOut>(&mut self, kind: NoteKind, detail: &[u8], out: &mut O)
        ensures goes { Goes O.left out.old (laying.ends kind detail.now self.old.spot) out.new
            (laying.nothing self.new.spot) }
        ensures before { self.new.before ≡ self.old.before }
    {
        self.report(kind, detail, out);
        self.ended = true;
    }

    // Counts an interpolation, unless it is one too many.
    fn charge(&mut self) -> bool
        ensures fits { result ≡ nat_lt self.old.spot.count EXPAND }
        ensures counted { self.new ≡ (if result then over laying.counts self.old else self.old) }
    {
        if EXPAND <= self.count {
            return false;
        }
        self.count += 1;
        true
    }

    // Copies bytes. Beyond `LINE` the line is cut at a character's end, and ends.
    #[inline(always)]
    #[tactic(auto, unfolding(crate::specs::Values::put))]
    fn put<O: NoteOut>(&mut self, run: &[u8], out: &mut O)
        ensures goes { Goes O.left out.old (laying.put run.now self.old.spot) out.new
            (laying.nothing self.new.spot) }
        ensures before { self.new.before ≡ self.old.before }
    {
        let end = kept(run, self.room());
        self.add(&run[..end]);
        if end < run.len() {
            self.report_end(NoteKind::Limit, Limit::Line.name().as_bytes(), out);
        }
    }

    // Puts a register's number.
    fn put_number<O: NoteOut>(&mut self, number: i32, out: &mut O)
        ensures goes { Goes O.left out.old (laying.put (signed_decimal number) self.old.spot)
            out.new (laying.nothing self.new.spot) }
        ensures before { self.new.before ≡ self.old.before }
    {
        let mut buffer = Buffer::new();
        self.put(buffer.format(number).as_bytes(), out);
    }

    // Puts a width.
    fn put_units<O: NoteOut>(&mut self, units: u32, out: &mut O)
        ensures goes { Goes O.left out.old (laying.put (decimal units) self.old.spot) out.new
            (laying.nothing self.new.spot) }
        ensures before { self.new.before ≡ self.old.before }
    {
        let mut buffer = Buffer::new();
        self.put(buffer.format(units).as_bytes(), out);
    }

    // Begins the text of a width.
    fn go_inside(&mut self) -> Outside
        requires { length self.old.before ≤ LINE * (NEST - 1) }
        ensures inside { self.new ≡ going_inside self.old }
        ensures start { result.start ≡ length self.old.before }
        ensures width_column { result.width_column ≡ self.old.spot.around.width_column }
        ensures bound { length self.new.before ≤ length self.old.before + LINE }
    {
        let outside = Outside {
            start: self.start,
            width_column: self.width_column,
        };
        self.width_column = Some(self.column());
        self.start = self.text.len();
        outside
    }

    // The width of the text that is finished. That of a long text is remembered.
    fn units(&mut self, output: Output) -> u32
        ensures units { result ≡ units_of output self.old.spot.text }
        ensures same { self.new ≡ self.old }
    {
        let text = &self.text[self.start..];
        if let Some(units) = self.known_widths.find(text, output) {
            return units;
        }
        match std::str::from_utf8(text) {
            Ok(text) => self.known_widths.measure(text, output),
            Err(_) => 0,
        }
    }

    // Goes on with the line after the text of a width.
    fn go_outside(&mut self, outside: Outside)
        requires start { outside.start ≤ length self.old.before }
        requires fits { length self.old.before ≤ outside.start + LINE }
        ensures { self.new ≡ going_outside outside.start outside.width_column self.old }
    {
        self.text.truncate(self.start);
        self.start = outside.start;
        self.width_column = outside.width_column;
    }

    // Puts the width of a text, which is expanded by itself.
    #[cycle(texts)]
    fn put_width<'e, O: NoteOut>(
        &mut self,
        env: &'e Environment<'e>,
        room: usize,
        text: &'e [u8],
        out: &mut O,
    )
        requires going { self.old.spot.ended ≡ false }
        requires fits { length self.old.before + LINE * (room + 1) ≤ LINE * NEST }
        ensures goes { Goes O.left out.old
            (laying.width (units_of env.now.output) (laying.value (surroundings_of env.now) room text.now) self.old.spot)
            out.new (laying.nothing self.new.spot) }
        ensures before { self.new.before ≡ self.old.before }
    {
        let outside = self.go_inside();
        let mut sources = Sources::new(text);
        self.run(env, room, &mut sources, out);
        let units = self.units(env.output);
        self.go_outside(outside);
        if self.is_going() {
            self.put_units(units, out);
        }
    }

    // Interpolates: a value is read before the rest.
    #[cycle(texts)]
    fn call<'e, O: NoteOut>(
        &mut self,
        env: &'e Environment<'e>,
        room: usize,
        call: Call<&'e [u8]>,
        sources: &mut Sources<'e>,
        out: &mut O,
    )
        requires going { self.old.spot.ended ≡ false }
        requires fits { length self.old.before + LINE * room ≤ LINE * NEST }
        ensures goes { Goes O.left out.old
            (calling (surroundings_of env.now) room (call_of call.entry) (texts_of sources.old) self.old.spot)
            out.new (going_on (surroundings_of env.now) room (texts_of sources.new) self.new.spot) }
        ensures before { self.new.before ≡ self.old.before }
        ensures falls { steps self.new.spot (texts_of sources.new) ≤ steps self.old.spot (texts_of sources.old) }
    {
        if !self.charge() {
            self.report_end(NoteKind::Loop, Limit::Expand.name().as_bytes(), out);
            return;
        }
        if room <= sources.depth() {
            self.report(NoteKind::Loop, Limit::Nest.name().as_bytes(), out);
            return;
        }
        match call {
            Call::Register(name) => self.put_number(env.register(name), out),
            Call::Width(text) => self.put_width(env, room - sources.depth() - 1, text, out),
            Call::String(name) => match env.names.string(name) {
                Some(value) => sources.enter(without_lone(value)),
                None => self.report(NoteKind::UndefString, name, out),
            },
            Call::Argument(escape) => match env.arguments.argument(escape) {
                Some(value) => sources.enter(without_lone(value)),
                None => self.report(NoteKind::ArgOutside, escape, out),
            },
        }
    }

    // Reads texts to their ends: the value of the innermost one, and then the rest of those around it.
    #[cycle(texts)]
    fn run<'e, O: NoteOut>(
        &mut self,
        env: &'e Environment<'e>,
        room: usize,
        sources: &mut Sources<'e>,
        out: &mut O,
    )
        requires { length self.old.before + LINE * room ≤ LINE * NEST }
        ensures goes { Goes O.left out.old (going_on (surroundings_of env.now) room
            (texts_of sources.old) self.old.spot)
            out.new (laying.nothing self.new.spot) }
        ensures before { self.new.before ≡ self.old.before }
    {
        'parts: while self.is_going() {
            match self.next_part(env.copy, sources) {
                None => return,
                Some(Part::Copied(run)) => self.put(run, out),
                Some(Part::Called(call)) => self.call(env, room, call, sources, out),
            }
        }
    }
}

impl Expansion {
    /// Nothing yet. All memory is reserved here.
    pub fn new(alloc: Global) -> Result<Expansion, AllocError>
        ensures { IfOk result (λ r. r ≡ laying.start 0) }
    {
        Ok(Expansion {
            nested: Nested::new(alloc)?,
        })
    }

    /// The beginning of a line with this number.
    pub fn begin(&mut self, line: u32)
        ensures { self.new ≡ laying.start line }
    {
        self.nested.begin(line);
    }

    /// Expands a text after what is finished of its line, of which `bytes_before` bytes are before the text, with what is left of the
    /// line's interpolations.
    pub fn expand_more<O: NoteOut>(
        &mut self,
        env: &Environment<'_>,
        text: &[u8],
        bytes_before: u32,
        out: &mut O,
    )
        requires going { self.old.ended ≡ false }
        requires bytes_before { bytes_before ≤ 2 ^ 31 }
        ensures { Goes O.left out.old
            (laying.value (surroundings_of env.now) laying.NEST text.now (laying.after_bytes bytes_before self.old))
            out.new (laying.nothing self.new) }
    {
        self.nested.set_bytes_before(bytes_before);
        if !text.is_empty() && memchr(b'\\', text).is_none() {
            self.nested.put(text, out);
            return;
        }
        let mut sources = Sources::new(text);
        self.nested.run(env, NEST, &mut sources, out);
    }

    /// Expands the line of this number. Answers whether the line itself is what it gives: then it isn't copied.
    pub fn expand<O: NoteOut>(
        &mut self,
        env: &Environment<'_>,
        text: &[u8],
        line: u32,
        out: &mut O,
    ) -> bool
        requires { length text.now ≤ LINE }
        ensures { Goes O.left out.old (laying.expanded (surroundings_of env.now) line text.now)
            out.new (laying.nothing (laying_laws.taken result line text.now self.new)) }
    {
        self.begin(line);
        if is_verbatim(text, env.copy) {
            return true;
        }
        self.expand_more(env, text, 0, out);
        false
    }

    /// What is finished.
    pub fn text(&self) -> &[u8]
        ensures value { result.now ≡ self.now.text }
        ensures bound { length result.now ≤ LINE }
    {
        self.nested.text()
    }

    /// How many interpolations were made.
    pub fn count(&self) -> u32
        ensures { result ≡ self.now.count }
    {
        self.nested.count()
    }

    /// Whether the line was cut, since a limit was passed.
    pub fn has_ended(&self) -> bool
        ensures { result ≡ self.now.ended }
    {
        !self.nested.is_going()
    }
}
