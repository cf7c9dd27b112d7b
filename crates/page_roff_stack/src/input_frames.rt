//! A source that is being run: a line of the page, or the body of a macro or of a loop.

ghost use Rattle.std.specs.Prelude.{◌≡◌, ℕ, List, [], ◌∷◌, ◌+◌, ◌≤◌, ◌<◌, ◌^◌, ◌++◌, true, length, take, drop, IfSome, None};
ghost use Rattle.std.specs.Vec.{vec_capacity};
ghost use Rattle.page_core_base.specs.Texts.{IsLine};
ghost use Rattle.page_core_base.specs.declared.limits.TheConstants.{ARGS, BODY, LINE};
ghost use Rattle.page_roff_blocks.specs.declared.line_parts.LinePart.TheVariants.{Leaf};
ghost use Rattle.page_roff_blocks.specs.laws.Views.{line_part_view, FitsLinePart, PlaceFits, passed};
ghost use Rattle.page_roff_blocks.specs.machine.Steps.{opens_block};
ghost use Rattle.page_roff_syntax.specs.laws.Views.{opened_view, text_view};
ghost use Rattle.page_roff_blocks.specs.machine.Languages.{arguments_of, page, body};
ghost use Rattle.page_roff_blocks.specs.machine.Machine.{entered, looped};
ghost use Rattle.page_roff_values.specs.Values.{arguments_in, lines_in};
ghost use Rattle.page_roff_stack.specs.machine.Stacks.{first_frame, page_at, page_line, page_passed, past, first_region, in_region, next_line, in_turn, first_line_parts, is_page, begins_line, is_over, went, HasPart, IfEnters, MayGo, span_text, kind_in, arguments_at, turning_in, AreArgumentsAt, AreLinesOf, IsSpanIn, IsFirstLine, IsCut, frame_of, IsHeld, first_text, turn_in, has_begun, parts_view, packed_text, unpacked, IsNextLine};

use crate::ahead::{place_past, read_ahead};
use crate::movements::Movement;
use crate::source_kinds::SourceKind;
use crate::spans::{NOWHERE, Span};
use crate::turns::Turns;
use memchr::memchr;
use page_core_base::{ARGS, BODY, LINE, REREAD, append};
use page_roff_blocks::{BlockCursor, LinePart, LinePlace, Pass, Standing};
use page_roff_syntax::OpenRegion;

// The turns that a loop has at most, and one more: each takes a line, or is given up.
const TURNS: usize = REREAD + 2;

/// A source that is being run, as places in a text, which each of its functions is given. The text holds its lines, each with a line feed at
/// its end, and after them the arguments of a macro.
#[derive(Drop)]
pub(crate) struct InputFrame {
    kind: SourceKind,
    // The present line, and the place in it.
    line: Span,
    place: LinePlace,
    // The place after the part that comes next there, if that was read.
    ahead: Option<LinePlace>,
    // The lines after it.
    lines: Span,
    region: Option<OpenRegion>,
    /// Where it is in its line.
    pub(crate) cursor: BlockCursor,
    // The turns of a loop.
    turning: Option<Turns>,
}

// Puts the arguments of the macro in which a loop is at the end, if it is in one: where they begin.
fn append_arguments(text: &mut Vec<u8>, arguments: Option<&[u8]>) -> Option<usize>
    requires short { length (packed_text (text_view arguments)) ≤ ARGS }
    requires room { length text.old.items + ARGS ≤ vec_capacity text.old }
    ensures items { text.new.items ≡ text.old.items ++ packed_text (text_view arguments.entry) }
    ensures arguments { arguments_at result text.new.items ≡ unpacked (text_view arguments.entry) }
    ensures within { AreArgumentsAt result text.new.items }
    ensures capacity { vec_capacity text.old ≤ vec_capacity text.new }
{
    match arguments {
        Some(packed) => {
            let start = text.len();
            append(text, packed);
            Some(start)
        }
        None => None,
    }
}

// The bytes of the first line of a body, without the line feed at its end.
fn body_line_len(lines: &[u8]) -> usize
    ensures first { IsFirstLine (lines_in lines.now) (take result lines.now) }
    ensures rest { lines_in (drop (result + 1) lines.now) ≡ drop 1 (lines_in lines.now) }
    ensures bound { result ≤ length lines.now }
{
    match memchr(b'\n', lines) {
        Some(end) => end,
        None => lines.len(),
    }
}

// The bytes of the first line of a source, without the line feed at its end. A line of the page is the only one.
fn line_len(kind: SourceKind, lines: &[u8]) -> usize
    requires { AreLinesOf kind lines.now }
    ensures first { IsFirstLine (lines_in lines.now) (take result lines.now) }
    ensures rest { lines_in (drop (result + 1) lines.now) ≡ drop 1 (lines_in lines.now) }
    ensures bound { result ≤ length lines.now }
{
    match kind {
        SourceKind::Page => lines.len().saturating_sub(1),
        SourceKind::Body(_) => body_line_len(lines),
    }
}

// Goes past the first of these lines of a source, and answers where it is.
fn pass_line(kind: SourceKind, text: &[u8], lines: &mut Span) -> Span
    requires within { IsSpanIn lines.old text.now }
    requires lines { AreLinesOf kind (span_text lines.old text.now) }
    ensures first { IsFirstLine (lines_in (span_text lines.old text.now)) (span_text result text.now) }
    ensures rest { lines_in (span_text lines.new text.now)
        ≡ drop 1 (lines_in (span_text lines.old text.now)) }
    ensures spans { IsSpanIn result text.now × IsSpanIn lines.new text.now }
    ensures cut { IsCut lines.old result lines.new }
{
    let line = Span {
        start: lines.start,
        end: lines.start + line_len(kind, lines.of(text)),
    };
    lines.start = if line.end < lines.end {
        line.end + 1
    } else {
        lines.end
    };
    line
}

// The region of a part that heads one.
fn region_of(part: &Option<LinePart<&[u8]>>, is_run: bool) -> Option<OpenRegion>
    requires { IfSome part.now (λ part. FitsLinePart (line_part_view part)) }
    ensures { result ≡ first_region is_run (parts_view part.now) }
{
    match part {
        Some(LinePart::Region(head)) => Some(OpenRegion::new(head, is_run)),
        _ => None,
    }
}

impl InputFrame {
    /// The page, before its first line.
    pub(crate) fn page() -> InputFrame
        ensures held { IsHeld result [] }
        ensures frame { frame_of result [] ≡ first_frame }
    {
        InputFrame {
            kind: SourceKind::Page,
            line: NOWHERE,
            place: LinePlace::end(),
            ahead: None,
            lines: NOWHERE,
            region: None,
            cursor: BlockCursor::new(),
            turning: None,
        }
    }

    /// The page between two lines, where it is so.
    pub(crate) fn at(standing: &Standing) -> InputFrame
        requires { standing.now.levels.skipped < 2 ^ 62 }
        ensures held { IsHeld result [] }
        ensures frame { frame_of result [] ≡ page_at standing.now }
    {
        InputFrame {
            kind: SourceKind::Page,
            line: NOWHERE,
            place: LinePlace::end(),
            ahead: None,
            lines: NOWHERE,
            region: standing.region(),
            cursor: BlockCursor::at(standing.levels()),
            turning: None,
        }
    }

    /// Where it is, outside of lines.
    pub(crate) fn standing(&self) -> Standing
        ensures { result ≡ record { region = self.now.region; levels = self.now.cursor.levels } }
    {
        Standing::of(self.region(), self.cursor.levels())
    }

    /// A line of the page is to come, and is all of the text.
    pub(crate) fn set_line(&mut self, text: &mut Vec<u8>, line: &[u8])
        requires page { kind_in self.old.kind text.old.items ≡ page }
        requires line { IsLine line.now }
        requires skips { self.old.cursor.levels.skipped < 2 ^ 62 }
        requires room { LINE + 1 ≤ vec_capacity text.old }
        ensures held { IsHeld self.new text.new.items }
        ensures frame { frame_of self.new text.new.items ≡ page_line line.now (frame_of self.old text.old.items) }
        ensures fits { length text.new.items ≤ LINE + 1 }
        ensures capacity { vec_capacity text.old ≤ vec_capacity text.new }
    {
        text.clear();
        append(text, line);
        text.push_reserved(b'\n');
        self.line = NOWHERE;
        self.place = LinePlace::end();
        self.ahead = None;
        self.lines = Span {
            start: 0,
            end: text.len(),
        };
        self.cursor.begin_line();
        self.turning = None;
    }

    /// A line of the page came that is one part, and is passed: nothing of it is left. The text needs no copy of it.
    pub(crate) fn pass_page_line(&mut self)
        requires { self.old.cursor.levels.skipped < 2 ^ 62 }
        ensures { (text : List ℕ) → kind_in self.old.kind text ≡ page →
            IsHeld self.new text × (frame_of self.new text ≡ page_passed (frame_of self.old text)) }
    {
        self.line = NOWHERE;
        self.place = LinePlace::end();
        self.ahead = None;
        self.lines = NOWHERE;
        self.cursor.pass(Pass::Leaf);
        self.turning = None;
    }

    /// A macro begins: its body and its arguments come to the end of the text.
    pub(crate) fn enter(text: &mut Vec<u8>, body: &[u8], arguments: &[u8]) -> InputFrame
        requires body { length body.now ≤ BODY }
        requires arguments { length arguments.now ≤ ARGS }
        requires room { length text.old.items + BODY + ARGS ≤ vec_capacity text.old }
        ensures held { IsHeld result text.new.items }
        ensures frame { frame_of result text.new.items ≡ entered (lines_in body.now) (arguments_in arguments.now) }
        ensures text { text.new.items ≡ text.old.items ++ (body.now ++ arguments.now) }
        ensures capacity { vec_capacity text.old ≤ vec_capacity text.new }
    {
        let start = text.len();
        append(text, body);
        let end = text.len();
        append(text, arguments);
        InputFrame {
            kind: SourceKind::Body(Some(end)),
            line: NOWHERE,
            place: LinePlace::end(),
            ahead: None,
            lines: Span { start, end },
            region: None,
            cursor: BlockCursor::new(),
            turning: None,
        }
    }

    /// A loop begins: its condition, which is the first line of the text that is given, and the lines of its body, which are the others, come to
    /// the end of the text, and then the arguments of the macro in which it is. No line of it is to come before its first turn.
    pub(crate) fn repeat(text: &mut Vec<u8>, more: &[u8], arguments: Option<&[u8]>) -> InputFrame
        requires text { length more.now ≤ BODY }
        requires arguments { length (packed_text (text_view arguments)) ≤ ARGS }
        requires room { length text.old.items + BODY + ARGS ≤ vec_capacity text.old }
        ensures held { IsHeld result text.new.items }
        ensures frame { frame_of result text.new.items ≡ looped (body (unpacked (text_view arguments.entry))) (first_text (lines_in more.now)) (drop 1 (lines_in more.now)) }
        ensures text { text.new.items ≡ text.old.items ++ (more.now ++ packed_text (text_view arguments.entry)) }
        ensures capacity { vec_capacity text.old ≤ vec_capacity text.new }
    {
        let start = text.len();
        append(text, more);
        let mut lines = Span {
            start,
            end: text.len(),
        };
        let arguments = append_arguments(text, arguments);
        let kind = SourceKind::Body(arguments);
        let condition = pass_line(kind, text, &mut lines);
        InputFrame {
            kind,
            line: NOWHERE,
            place: LinePlace::end(),
            ahead: None,
            lines: NOWHERE,
            region: None,
            cursor: BlockCursor::new(),
            turning: Some(Turns {
                condition,
                lines,
                left: TURNS,
                begun: false,
            }),
        }
    }

    /// The part that comes next in the present line.
    #[inline(always)]
    pub(crate) fn part<'a>(&self, text: &'a [u8]) -> Option<LinePart<&'a [u8]>>
        requires { IsHeld self.now text.now }
        ensures value { parts_view result ≡ take 1 (frame_of self.now text.now).parts }
        ensures fits { IfSome result (λ part. FitsLinePart (line_part_view part)) }
    {
        if self.place.is_at_end() {
            return None;
        }
        let mut place = self.place;
        place.next_line_part(self.line.of(text))
    }

    /// The present line, if all of it comes next as one part.
    pub(crate) fn whole_line<'a>(&self, text: &'a [u8]) -> Option<&'a [u8]>
        requires { IsHeld self.now text.now }
        ensures value { IfSome result (λ line. take 1 (frame_of self.now text.now).parts ≡ Leaf line.now ∷ []) }
        ensures short { IfSome result (λ line. length line.now ≤ LINE) }
    {
        self.place.whole(self.line.of(text))
    }

    /// The part that comes next in the present line. Remembers where the line goes on after it.
    #[inline(always)]
    pub(crate) fn read_part<'a>(&mut self, text: &'a [u8]) -> Option<LinePart<&'a [u8]>>
        requires { IsHeld self.old text.now }
        ensures value { parts_view result ≡ take 1 (frame_of self.old text.now).parts }
        ensures fits { IfSome result (λ part. FitsLinePart (line_part_view part)) }
        ensures held { IsHeld self.new text.now }
        ensures same { frame_of self.new text.now ≡ frame_of self.old text.now }
    {
        if self.place.is_at_end() {
            return None;
        }
        let (part, after) = read_ahead(self.line.of(text), self.place);
        self.ahead = Some(after);
        part
    }

    /// Whether the part that comes next in the present line opens a block.
    pub(crate) fn opens_block(&self, text: &[u8]) -> bool
        requires { IsHeld self.now text.now }
        ensures { result ≡ opens_block (frame_of self.now text.now).parts }
    {
        self.place.opens_block(self.line.of(text))
    }

    /// Whether a line begins next, outside of regions.
    pub(crate) fn begins_line(&self) -> bool
        ensures { (text : List ℕ) → IsHeld self.now text → result ≡ begins_line (frame_of self.now text) }
    {
        if self.region.is_some() {
            return false;
        }
        if !self.place.is_at_end() {
            return false;
        }
        self.lines.start < self.lines.end
    }

    /// Whether nothing is left, in a region or not.
    pub(crate) fn is_over(&self) -> bool
        ensures { (text : List ℕ) → IsHeld self.now text → result ≡ is_over (frame_of self.now text) }
    {
        if self.lines.start < self.lines.end {
            return false;
        }
        if self.region.is_some() {
            return true;
        }
        self.place.is_at_end()
    }

    /// The line that comes next.
    pub(crate) fn line<'a>(&self, text: &'a [u8]) -> Option<&'a [u8]>
        requires { IsHeld self.now text.now }
        ensures { IsNextLine (frame_of self.now text.now).lines (text_view result) }
    {
        let lines = self.lines.of(text);
        if lines.is_empty() {
            return None;
        }
        Some(&lines[..line_len(self.kind, lines)])
    }

    /// The open region.
    pub(crate) fn region(&self) -> Option<&OpenRegion>
        ensures { opened_view result ≡ self.now.region }
    {
        match &self.region {
            Some(region) => Some(region),
            None => None,
        }
    }

    /// Whether it is the page.
    pub(crate) fn is_page(&self) -> bool
        ensures { (text : List ℕ) → result ≡ is_page (kind_in self.now.kind text) }
    {
        matches!(self.kind, SourceKind::Page)
    }

    /// The arguments of a macro, or of the one in which a loop is, each with a line feed at its end.
    pub(crate) fn arguments<'a>(&self, text: &'a [u8]) -> Option<&'a [u8]>
        requires { IsHeld self.now text.now }
        ensures value { unpacked (text_view result) ≡ arguments_of (kind_in self.now.kind text.now) }
        ensures short { IfSome result (λ packed. length packed.now ≤ ARGS) }
    {
        match self.kind {
            SourceKind::Body(Some(start)) => Some(&text[start..]),
            SourceKind::Body(None) | SourceKind::Page => None,
        }
    }

    /// The condition of a loop that may have one more turn.
    pub(crate) fn turn<'a>(&self, text: &'a [u8]) -> Option<&'a [u8]>
        requires { IsHeld self.now text.now }
        ensures value { text_view result ≡ turn_in (turning_in self.now.turning text.now) }
        ensures short { IfSome result (λ condition. length condition.now ≤ LINE) }
    {
        match self.turning {
            Some(turns) if turns.left > 0 => Some(turns.condition.of(text)),
            _ => None,
        }
    }

    /// Whether it was begun: a loop is by its first turn.
    pub(crate) fn has_begun(&self) -> bool
        ensures { (text : List ℕ) → result ≡ has_begun (turning_in self.now.turning text) }
    {
        match self.turning {
            Some(turns) => turns.begun,
            None => true,
        }
    }

    /// Goes past what comes next.
    #[inline(always)]
    pub(crate) fn go(&mut self, text: &[u8], movement: Movement)
        requires held { IsHeld self.old text.now }
        requires may { MayGo movement (frame_of self.old text.now) }
        ensures held { IsHeld self.new text.now }
        ensures frame { frame_of self.new text.now ≡ went movement (frame_of self.old text.now) }
    {
        match movement {
            Movement::Part(pass) => self.pass(text, pass),
            Movement::Region(is_run) => self.open_region(text, is_run),
            Movement::Line => self.begin_line(text),
            Movement::RegionLine => self.pass_region_line(text),
            Movement::RegionEnd => self.end_region(text),
            Movement::Turn => self.begin_turn(),
        }
    }

    // Goes past a part. It is a call of its own, so that `go` is small where it is made.
    #[inline(never)]
    fn pass(&mut self, text: &[u8], pass: Pass)
        requires held { IsHeld self.old text.now }
        requires part { IfEnters pass (HasPart (frame_of self.old text.now)) }
        ensures held { IsHeld self.new text.now }
        ensures frame { frame_of self.new text.now ≡ past (passed pass self.old.cursor) (frame_of self.old text.now) }
    {
        self.place = place_past(self.line.of(text), self.place, self.ahead);
        self.ahead = None;
        self.cursor.pass(pass);
    }

    // Goes past the head of a region, which opens. It is a call of its own too.
    #[inline(never)]
    fn open_region(&mut self, text: &[u8], is_run: bool)
        requires { IsHeld self.old text.now }
        ensures held { IsHeld self.new text.now }
        ensures frame { frame_of self.new text.now ≡ in_region
            (first_region is_run (frame_of self.old text.now).parts) (frame_of self.old text.now) }
    {
        let part = self.place.next_line_part(self.line.of(text));
        self.region = region_of(&part, is_run);
        self.place = LinePlace::end();
        self.ahead = None;
        self.cursor.begin_line();
    }

    // A line begins.
    fn begin_line(&mut self, text: &[u8])
        requires held { IsHeld self.old text.now }
        requires line { begins_line (frame_of self.old text.now) ≡ true }
        ensures held { IsHeld self.new text.now }
        ensures frame { frame_of self.new text.now ≡ next_line None
            (first_line_parts (frame_of self.old text.now).lines) (frame_of self.old text.now) }
    {
        self.line = pass_line(self.kind, text, &mut self.lines);
        self.place = LinePlace::start(self.line.of(text));
        self.ahead = None;
        self.cursor.begin_line();
    }

    // Goes past a line in the open region.
    fn pass_region_line(&mut self, text: &[u8])
        requires { IsHeld self.old text.now }
        ensures held { IsHeld self.new text.now }
        ensures frame { frame_of self.new text.now ≡ next_line self.old.region [] (frame_of self.old text.now) }
    {
        let _line = pass_line(self.kind, text, &mut self.lines);
        self.place = LinePlace::end();
        self.ahead = None;
        self.cursor.begin_line();
    }

    // Goes past the end of the open region.
    #[tactic(auto, using(crate::proofs::InputFrameLemmas::ended_held))]
    fn end_region(&mut self, text: &[u8])
        requires { IsHeld self.old text.now }
        ensures held { IsHeld self.new text.now }
        ensures frame { frame_of self.new text.now ≡ next_line None [] (frame_of self.old text.now) }
    {
        self.region = None;
        self.pass_region_line(text);
    }

    // A turn of a loop begins: all lines of its body are to come.
    fn begin_turn(&mut self)
        ensures { (text : List ℕ) → IsHeld self.old text →
            IsHeld self.new text × (frame_of self.new text ≡ in_turn (frame_of self.old text)) }
    {
        if let Some(turns) = self.turning {
            self.place = LinePlace::end();
            self.ahead = None;
            self.lines = turns.lines;
            self.region = None;
            self.cursor = BlockCursor::new();
            self.turning = Some(turns.begin());
        }
    }

    /// Its place is within its limits. Nothing is done: the region and the levels show it.
    pub(crate) fn caps_law(&self)
        ensures { PlaceFits (record { region = self.now.region; levels = self.now.cursor.levels }) }
    {
        self.cursor.caps_law();
        if let Some(region) = &self.region {
            region.caps_law();
        }
    }
}
