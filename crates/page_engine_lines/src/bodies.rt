//! The body of a page: the events of its lines, with the header before the event that begins it (man(7)).

ghost use Rattle.std.specs.Prelude.{◌≡◌, ◌≤◌, length, IfOk};
ghost use Rattle.page_core_base.specs.laws.Views.{Came, line_view};
ghost use Rattle.page_engine_lines.specs.Bodies as bodies;
ghost use Rattle.page_engine_lines.specs.laws.Views as bodies_laws;
ghost use Rattle.page_engine_lines.specs.laws.Views.{GivesEvent, GivesEvents, plain_event, BodyFits};
ghost use Rattle.page_sets_lines.specs.laws.Views.{IsShort};
ghost use Rattle.page_sets_lines.specs.laws.Events.{event_view};
ghost use Rattle.page_sets_lines.specs.Lines.{line_end, plain_events};

use crate::languages::language_of;
use crate::titles::give_title;
use arrayvec::ArrayString;
use page_core_base::{LINE, Language, NoteKind, Output, Piece, PieceOut, Place, Settings, Taken};
use page_engine_header::{Fields, Measure, give_footer_row, give_header};
use page_scopes::{OpenScopes, PageLayout};
use page_scopes_words::report;
use page_sets::{Either, Event, EventKind, Leaf, MacroSet};
use page_sets_lines::{EventOut, PlainLine};
use std::alloc::{AllocError, Global};
use std::marker::Model;

/// What decides the pieces of the lines to come: the fields of header and footer, the set of macros, and the open scopes.
#[derive(Drop)]
pub struct Body {
    measure: Measure,
    // the indent that the settings give
    indent: Option<u32>,
    set: Either,
    is_decided: bool,
    os: ArrayString<256>,
    fields: Fields,
    scopes: OpenScopes,
}

impl Model for Body {
    ghost use Rattle.page_engine_lines.specs.Bodies.{BodyEdge};

    ghost Value = { BodyEdge };

    ghost view = { λ b. record {
      header = record {
        measure = b.measure;
        indent = b.indent;
        set = b.set;
        is_decided = b.is_decided;
        os = b.os.bytes;
        fields = b.fields;
      };
      scopes = b.scopes;
    } };
}

// The layout of a page by its measure.
fn layout_of(measure: Measure) -> PageLayout
    ensures { result ≡ record { indent = measure.indent; output = measure.output } }
{
    PageLayout {
        indent: measure.indent,
        output: measure.output,
    }
}

// Takes the events of a line: gives their pieces and messages to a latch, and the body keeps what they leave.
#[derive(Drop)]
struct BodyOut<'b, 'o, O> {
    body: &'b mut Body,
    out: &'o mut O,
}

impl<O: PieceOut> EventOut for BodyOut<'_, '_, O> {
    ghost use Rattle.page_engine_lines.specs.machine.Given.{PlannedEvents, LeftEvents};

    ghost Plan = { PlannedEvents O.Plan };

    ghost left = { λ plan s events. LeftEvents O.left plan s.body.ghost_name s.out.ghost_name s.body.now s.out.now events };

    #[inline(always)]
    fn give(&mut self, event: Event<&[u8]>) {
        self.body.give_event(self.out, &event);
    }
}

// The set of macros that the settings ask for, and whether they ask for one.
fn asked(language: Language) -> (Either, bool)
    ensures { result ≡ bodies.asked language }
{
    match language {
        Language::Auto => (Either::Man, false),
        Language::Man => (Either::Man, true),
        Language::Mdoc => (Either::Mdoc, true),
    }
}

impl Body {
    /// The body of a page that begins, by settings that pass their check.
    pub fn new(alloc: Global, settings: &Settings) -> Result<Body, AllocError>
        ensures { IfOk result (λ body. body ≡ bodies.start_of settings.now) }
    {
        let (set, is_decided) = asked(settings.language);
        let measure = Measure {
            width: settings.width,
            indent: settings.indent.unwrap_or(set.indent()),
            output: settings.output,
        };
        Ok(Body {
            measure,
            indent: settings.indent,
            set,
            is_decided,
            os: settings.os,
            fields: Fields::new(settings.os.as_str().as_bytes()),
            scopes: OpenScopes::new(alloc, layout_of(measure))?,
        })
    }

    /// The same body. All memory is reserved here.
    pub fn copy(&self, alloc: Global) -> Result<Body, AllocError>
        ensures { IfOk result (λ body. body ≡ self.now) }
    {
        let scopes = self.scopes.copy(alloc, self.scopes.page())?;
        Ok(Body {
            measure: self.measure,
            indent: self.indent,
            set: self.set,
            is_decided: self.is_decided,
            os: self.os,
            fields: self.fields.copy(),
            scopes,
        })
    }

    /// Whether the title is settled: the body of the page has begun, and its language is decided. A macro of the title comes too late then.
    pub fn has_title(&self) -> bool
        ensures { result ≡ bodies_laws.has_title self.now }
    {
        self.is_decided && self.scopes.has_begun()
    }

    /// The output of the page.
    pub fn output(&self) -> Output
        ensures { result ≡ self.now.header.measure.output }
    {
        self.measure.output
    }

    /// The set of macros that the page is read by.
    pub fn set(&self) -> Either
        ensures { result ≡ self.now.header.set }
    {
        self.set
    }

    /// The fields of header and footer, as the lines so far set them.
    pub fn fields(&self) -> &Fields
        ensures { result.now ≡ self.now.header.fields }
    {
        &self.fields
    }

    // Begins the page anew by a set of macros.
    #[inline(never)]
    fn choose(&mut self, set: Either)
        ensures { self.new ≡ bodies.chosen self.old set }
    {
        self.set = set;
        self.is_decided = true;
        self.measure.indent = self.indent.unwrap_or(set.indent());
        self.scopes.restart(layout_of(self.measure));
    }

    /// Decides the language of the page by a line, unless it is decided.
    #[inline(always)]
    pub fn decide(&mut self, line: Taken<'_>)
        requires { length line.text.now ≤ LINE }
        ensures { self.new ≡ bodies_laws.decided self.old (line_view line.entry) }
    {
        if !self.is_decided {
            if let Some(set) = language_of(line) {
                self.choose(set);
            }
        }
    }

    // Whether the page is read by the macros of mdoc(7).
    fn is_mdoc(&self) -> bool
        ensures { result ≡ bodies.is_mdoc self.now.header.set }
    {
        matches!(self.set, Either::Mdoc)
    }

    // Gives the header before an event that begins the body.
    fn give_begin<O: PieceOut>(&self, out: &mut O, event: &Event<&[u8]>)
        ensures { Came O.left out.old (bodies_laws.begin_items self.now (event_view event.now)) out.new }
    {
        if self.scopes.begins_body(event) {
            let place = Place {
                line: event.place.line,
                column: 1,
            };
            give_header(out, self.is_mdoc(), self.measure, place, &self.fields);
        }
    }

    // Gives an event, and keeps what it leaves.
    #[tactic(auto, unfolding(crate::specs::laws::Views::event_items, crate::specs::laws::Views::event_after))]
    #[inline(always)]
    fn give_event<O: PieceOut>(&mut self, out: &mut O, event: &Event<&[u8]>)
        requires { IsShort (event_view event.now) }
        ensures { GivesEvent O.left (event_view event.now) self.old out.old self.new out.new }
    {
        if let EventKind::Leaf(Leaf::Prologue(name, rest)) = event.kind {
            let os = self.os.as_str().as_bytes();
            let has_begun = self.scopes.has_begun();
            give_title(
                out,
                event.place,
                name,
                rest,
                has_begun,
                os,
                &mut self.fields,
            );
            return;
        }
        self.give_begin(out, event);
        self.scopes.give_event(event, out);
    }

    // Gives the event of a line that is no control line, before its end.
    #[inline(always)]
    fn give_plain_event<O: PieceOut>(&mut self, out: &mut O, line: Taken<'_>, plain: PlainLine)
        requires { length line.text.now ≤ LINE }
        ensures { GivesEvent O.left (plain_event line.entry.line line.entry.text.now plain)
            self.old out.old self.new out.new }
    {
        let event = Event {
            place: Place {
                line: line.line,
                column: 1,
            },
            kind: plain.kind(line.text),
        };
        self.give_event(out, &event);
    }

    // `give_plain_event` as a call, for lines without a word, which are few.
    #[inline(never)]
    fn give_wordless<O: PieceOut>(&mut self, out: &mut O, line: Taken<'_>, plain: PlainLine)
        requires { length line.text.now ≤ LINE }
        ensures { GivesEvent O.left (plain_event line.entry.line line.entry.text.now plain)
            self.old out.old self.new out.new }
    {
        self.give_plain_event(out, line, plain);
    }

    // `give_plain_event`, without a call where the line is text with a word, as most lines are.
    #[inline(always)]
    fn give_generated<O: PieceOut>(&mut self, out: &mut O, line: Taken<'_>, plain: PlainLine)
        requires { length line.text.now ≤ LINE }
        ensures { GivesEvent O.left (plain_event line.entry.line line.entry.text.now plain)
            self.old out.old self.new out.new }
    {
        match plain {
            PlainLine::Words => self.give_plain_event(out, line, PlainLine::Words),
            other => self.give_wordless(out, line, other),
        }
    }

    // Gives a line's end.
    #[inline(always)]
    fn give_line_end<O: PieceOut>(&mut self, out: &mut O, number: u32, fills: bool)
        ensures { GivesEvent O.left (line_end number fills) self.old out.old self.new out.new }
    {
        let event = Event {
            place: Place {
                line: number,
                column: 1,
            },
            kind: EventKind::End { fills },
        };
        self.give_event(out, &event);
    }

    /// Gives the pieces and messages of a line that is no control line, and keeps what it leaves. All sets of macros give
    /// the same events of it.
    #[inline(always)]
    pub fn give_plain<O: PieceOut>(&mut self, line: Taken<'_>, plain: PlainLine, out: &mut O)
        requires { length line.text.now ≤ LINE }
        ensures { GivesEvents O.left (plain_events line.entry.line line.entry.text.now plain)
            self.old out.old self.new out.new }
    {
        self.give_generated(out, line, plain);
        self.give_line_end(out, line.line, plain.fills());
    }

    /// Gives the pieces and messages of a finished line, and keeps what it leaves.
    #[inline(always)]
    pub fn give_line<S: MacroSet, O: PieceOut>(&mut self, set: &S, taken: Taken<'_>, out: &mut O)
        requires { length taken.text.now ≤ LINE }
        ensures { GivesEvents O.left (S.table set.now (line_view taken.entry))
            self.old out.old self.new out.new }
    {
        let mut events = BodyOut { body: self, out };
        set.give(taken, &mut events);
    }

    /// Ends the body after a line: the header and a message where no body began, and the end of all scopes.
    #[tactic(auto, unfolding(crate::specs::laws::Views::end_items))]
    pub fn give_end<O: PieceOut>(&mut self, line: u32, out: &mut O)
        ensures came { Came O.left out.old (bodies_laws.end_items self.old line) out.new }
        ensures header { self.new.header ≡ self.old.header }
    {
        if !self.scopes.has_begun() {
            let place = Place { line, column: 1 };
            give_header(out, self.is_mdoc(), self.measure, place, &self.fields);
            report(out, NoteKind::NoBody, place, b"");
        }
        self.scopes.give_end(line, out);
    }

    /// Gives the footer, and before it a blank row, unless one is there.
    #[tactic(auto, unfolding(crate::specs::Bodies::footer_items))]
    pub fn give_footer<O: PieceOut>(&self, line: u32, blank_rows: u32, out: &mut O)
        ensures { Came O.left out.old (bodies.footer_items self.now.header line blank_rows) out.new }
    {
        if blank_rows == 0 {
            out.give(Piece::Space(1));
        }
        give_footer_row(out, self.measure, Place { line, column: 1 }, &self.fields);
    }

    /// What is held between two lines is within its limits. Nothing is done: the fields, the name and the scopes show it.
    pub fn caps_law(&self)
        ensures { BodyFits self.now }
    {
        self.fields.title.text();
        self.fields.section.text();
        self.fields.date.text();
        self.fields.source.text();
        self.fields.volume.text();
        self.os.as_str();
        self.scopes.caps_law();
    }
}
