//! Heads and lines of regions (roff(7), "de", "am", "ig").

ghost use Rattle.std.specs.Prelude.{◌≡◌, ◌≤◌, ◌∷◌, [], codes, length, None, Some};
ghost use Rattle.page_core_base.specs.Messages.{message_about};
ghost use Rattle.page_core_base.specs.declared.note_kinds.NoteKind.TheVariants as kinds;
ghost use Rattle.page_core_base.specs.Limits.{name_of};
ghost use Rattle.page_core_base.specs.declared.limits.Limit.TheVariants as limits;
ghost use Rattle.page_core_base.specs.declared.limits.TheConstants.{LINE};
ghost use Rattle.page_roff_syntax.specs.Regions.{within_limit, macro_name};
ghost use Rattle.page_roff_syntax.specs.laws.Views.{opened_view, region_view, text_view};
ghost use Rattle.page_roff_definitions.specs.laws.Views as defining;
ghost use Rattle.page_core_base.specs.laws.Views.{Came};
ghost use Rattle.page_roff_effects.specs.machine.Acting.{measured, Does, Gives};
ghost use Rattle.page_roff_effects.specs.Regions as regions;
ghost use Rattle.page_roff_effects.specs.States.{reports, with_body};

use crate::actions::{Actions, report_at};
use crate::commands::{ProductKind, body_or_nothing};
use page_core_base::{Form, LINE, Limit, NAME, Note, NoteKind, NoteOut, Place};
use page_roff_definitions::BodyBuffer;
use page_roff_names::Names;
use page_roff_syntax::{OpenRegion, RegionHead, RegionKind};

// Reports a name or an end name that is longer than names may be.
fn report_name<O: NoteOut>(head: &RegionHead<&[u8]>, line: u32, out: &mut O)
    ensures { Came O.left out.old (regions.name_notes (region_view head.now) line) out.new }
{
    if head.has_long_name() {
        report_at(
            NoteKind::Limit,
            line,
            head.column,
            Limit::Name.name().as_bytes(),
            out,
        );
    }
}

// Reports a table, an equation or a picture.
fn report_table<O: NoteOut>(kind: RegionKind, column: u32, line: u32, out: &mut O)
    ensures { Came O.left out.old (regions.table_notes kind column line) out.new }
{
    match kind {
        RegionKind::Define | RegionKind::Append | RegionKind::Ignore => {}
        RegionKind::Table | RegionKind::Equation | RegionKind::Picture => {
            report_at(NoteKind::Table, line, column, b"", out)
        }
    }
}

// Begins the body of a macro.
fn begin_named(kind: RegionKind, name: &[u8], names: &Names, body: &mut BodyBuffer)
    ensures { body.new ≡ regions.first_body kind name.now names.now }
{
    match kind {
        RegionKind::Define => body.begin(b""),
        RegionKind::Append => body.begin(body_or_nothing(name, names)),
        RegionKind::Ignore | RegionKind::Table | RegionKind::Equation | RegionKind::Picture => {
            body.clear()
        }
    }
}

// Begins the body of a macro, where its name is within the limit of names.
#[tactic(auto, unfolding(page_roff_syntax::specs::Regions::within_limit))]
fn begin_within(kind: RegionKind, name: &[u8], names: &Names, body: &mut BodyBuffer)
    ensures { body.new ≡ regions.body_begun kind (within_limit (Some name.now)) names.now }
{
    if name.len() <= NAME {
        begin_named(kind, name, names, body);
    } else {
        body.clear();
    }
}

// Begins the body that a region defines, where it defines one.
#[tactic(auto, unfolding(page_roff_syntax::specs::Regions::within_limit))]
fn begin_body(head: &RegionHead<&[u8]>, names: &Names, body: &mut BodyBuffer)
    ensures { body.new
        ≡ regions.body_begun head.now.kind (within_limit (macro_name (region_view head.now))) names.now }
{
    match &head.name {
        Some(argument) => begin_within(head.kind, argument.name().as_slice(), names, body),
        None => body.clear(),
    }
}

// Defines a macro.
fn define_macro<O: NoteOut>(name: &[u8], body: &[u8], place: Place, names: &mut Names, out: &mut O)
    ensures { defining.Does O.left out.old out.new names.new
        (regions.defines_macro name.now body.now place names.old) }
{
    if let Err(limit) = names.define_macro(name, body) {
        out.report(&Note::about(NoteKind::Limit, place, limit.name().as_bytes()));
    }
}

// Defines the macro of a region, if it has a name and a body.
fn define_body<O: NoteOut>(
    name: Option<&[u8]>,
    body: Option<&[u8]>,
    place: Place,
    names: &mut Names,
    out: &mut O,
)
    ensures { defining.Does O.left out.old out.new names.new
        (regions.macro_definition (text_view name.entry) (text_view body.entry) place names.old) }
{
    if let Some(name) = name {
        if let Some(body) = body {
            define_macro(name, body, place, names, out);
        }
    }
}

/// Reports the line that passes the limit of bodies.
pub(crate) fn report_long_body<O: NoteOut>(line: u32, out: &mut O)
    ensures { Came O.left out.old (message_about kinds.Limit
        (record { line = line; column = 1 }) (name_of limits.Body) ∷ []) out.new }
{
    report_at(NoteKind::Limit, line, 1, Limit::Body.name().as_bytes(), out);
}

// Reports that what is open at the end of a source lacks its end.
fn report_missing<O: NoteOut>(name: &[u8], line: u32, out: &mut O)
    ensures { Came O.left out.old (message_about kinds.MissingEnd
        (record { line = line; column = 1 }) name.now ∷ []) out.new }
{
    report_at(NoteKind::MissingEnd, line, 1, name, out);
}

impl Actions {
    /// A region begins, which is run or passed over.
    #[tactic(auto, unfolding(crate::specs::Regions::head_outcome))]
    pub fn open_region<O: NoteOut>(&mut self, head: &RegionHead<&[u8]>, is_run: bool, out: &mut O)
        ensures { Does O.left self.old out.old
            (regions.head_outcome (region_view head.now) is_run self.old.memory) self.new out.new }
    {
        if is_run {
            report_name(head, self.number, out);
            report_table(head.kind, head.column, self.number, out);
            begin_body(head, &self.names, &mut self.body);
        }
    }

    // Adds the line that is finished to the body.
    fn lengthen<O: NoteOut>(&mut self, out: &mut O)
        ensures { Does O.left self.old out.old
            (regions.longer self.old.memory.body self.old.finished.text self.old.memory) self.new out.new }
    {
        if self.body.text().is_some() && !self.body.add_line(self.expansion.text()) {
            report_long_body(self.number, out);
        }
    }

    // Expands a line of a body in copy mode, and adds it.
    fn collect<O: NoteOut>(&mut self, line: &[u8], out: &mut O)
        ensures { Does O.left self.old out.old
            (regions.body_outcome (measured self.old.setting) line.now self.old.memory) self.new out.new }
    {
        if self.body.text().is_none() {
            return;
        }
        self.expand(true, line, out);
        self.lengthen(out);
    }

    /// A line of a region comes, which is run or passed over. What comes of it is lent from then on.
    #[tactic(auto, unfolding(crate::specs::Regions::line_outcome))]
    pub fn read_line<O: NoteOut>(
        &mut self,
        region: &OpenRegion,
        is_run: bool,
        line: &[u8],
        out: &mut O,
    ) -> ProductKind
        requires { length line.now ≤ LINE }
        ensures { Gives O.left self.old out.old
            (regions.line_outcome (measured self.old.setting) region.now is_run line.now self.old.memory) result self.new out.new }
    {
        if !is_run {
            return ProductKind::Nothing;
        }
        match region.kind() {
            RegionKind::Define | RegionKind::Append => {
                self.collect(line, out);
                ProductKind::Nothing
            }
            RegionKind::Ignore => ProductKind::Nothing,
            RegionKind::Table | RegionKind::Equation | RegionKind::Picture => {
                self.take_raw(Form::Raw, line)
            }
        }
    }

    /// The end line of a region comes, which is run or passed over.
    #[tactic(auto, unfolding(crate::specs::Regions::end_outcome))]
    pub fn end_region<O: NoteOut>(&mut self, region: &OpenRegion, is_run: bool, out: &mut O)
        ensures { Does O.left self.old out.old
            (regions.end_outcome region.now is_run self.old.memory) self.new out.new }
    {
        if is_run {
            let place = Place {
                line: self.number,
                column: 1,
            };
            define_body(region.name(), self.body.text(), place, &mut self.names, out);
        }
        if region.is_run() {
            self.body.clear();
        }
    }

    // A source ends in a region, with whether all was given up.
    fn finish_region<O: NoteOut>(&mut self, region: &OpenRegion, gave_up: bool, out: &mut O)
        ensures { Does O.left self.old out.old
            (regions.finish_region (Some region.now) gave_up self.old.memory) self.new out.new }
    {
        if !gave_up {
            report_missing(region.kind().name(), self.number, out);
        }
        if region.is_run() {
            self.body.clear();
        }
    }

    // A source ends in a loop that is collected, with whether all was given up.
    fn finish_loop<O: NoteOut>(&mut self, gave_up: bool, out: &mut O)
        ensures { Does O.left self.old out.old
            (reports (regions.missing_notes (codes "while") gave_up self.old.memory) (with_body None self.old.memory))
            self.new out.new }
    {
        if !gave_up {
            report_missing(b"while", self.number, out);
        }
        self.body.clear();
    }

    /// A source ends, in an open region or not, in a loop that is collected or not, with whether all was given up.
    #[tactic(auto, unfolding(crate::specs::Regions::finish_outcome))]
    pub fn finish<O: NoteOut>(
        &mut self,
        region: Option<&OpenRegion>,
        in_loop: bool,
        gave_up: bool,
        out: &mut O,
    )
        ensures { Does O.left self.old out.old
            (regions.finish_outcome (opened_view region.entry) in_loop gave_up self.old.memory) self.new out.new }
    {
        if in_loop {
            self.finish_loop(gave_up, out);
        } else if let Some(region) = region {
            self.finish_region(region, gave_up, out);
        }
    }
}
