//! Cutting a page into decoded lines.
ghost use Rattle.std.specs.Prelude.{◌≡◌, ℕ, List, ◌++◌, ◌+◌, ◌-◌, ◌^◌, ◌<◌, ◌≤◌, ⊤, ◌∷◌, [], length, take, true, false, IfOk, OnErr, MatchResult, if◌then◌else◌};
ghost use mathlib.Core.Option.{none};
ghost use Rattle.std.specs.Borrow.{sem, follows_so};
ghost use Rattle.page_core_base.specs.declared.page_settings.Encoding.{Encoding as AnyEncoding};
ghost use Rattle.page_roff_decoding.specs.Decoding.{choice_of};
ghost use Rattle.page_roff_lines.specs.Lines.{lines, whole_lines, lines_made, line_left};
ghost use Rattle.page_roff_lines.specs.laws.Cutting.{Point, first_point, point_after, lines_within, last_line, lines_from};
ghost use Rattle.page_core_base.specs.laws.Views.{Gives, FailsAs, IsFreeLine};
ghost use Rattle.page_core_base.specs.Messages.{Rose};
ghost use Rattle.page_core_base.specs.Texts.{IsLine};

use crate::open::OpenLine;
use page_core_base::{BoundedText, Encoding, Fault, LINE, NoteSink};
use page_roff_decoding::{choose, decode, report, report_limit};
use std::alloc::Global;
use std::marker::Model;

/// Cuts the bytes of a page, in whatever chunks they come, into logical lines (roff(7), "Comments" and "Escape
/// sequences"), and decodes them (mandoc(1), -K).
#[derive(Drop)]
pub struct Cutter {
    line: OpenLine,
    decoded: BoundedText<LINE>,
    encoding: Encoding,
    ready: bool,
    printable: bool,
}

impl Model for Cutter {
    ghost use Rattle.std.specs.Prelude.{if◌then◌else◌};
    ghost use Rattle.page_roff_lines.specs.laws.Cutting.{Cutting, encoding_after};

    ghost Value = { Cutting };

    ghost view = { λ c. record {
      point = record {
        line = c.line;
        encoding = if c.ready then encoding_after c.encoding c.line else c.encoding;
      };
      ready = c.ready;
      text = if c.printable then c.line.text.bytes else c.decoded;
    } };
}

impl Cutter {
    ghost use Rattle.page_roff_lines.specs.laws.Cutting.{first_point, point_after, lines_within, line_of, end_point, line_at, IsAfter, IsFed};
    ghost use Rattle.page_roff_lines.specs.contracts.cutter.Cutter.{the_row};

    /// A cutter before the first byte of a page, with all the memory that it will ever hold. Its fault is
    /// [`Fault::Memory`].
    pub fn new(alloc: Global, encoding: Encoding) -> Result<Cutter, Fault>
        ensures value { IfOk result (λ c. (c.point ≡ first_point encoding) × (c.ready ≡ false)) }
        ensures fault { OnErr result (result ≡ Err Fault.Memory) }
    {
        let Ok(line) = OpenLine::new(alloc) else {
            return Err(Fault::Memory);
        };
        let Ok(decoded) = BoundedText::new(alloc) else {
            return Err(Fault::Memory);
        };
        Ok(Cutter {
            line,
            decoded,
            encoding,
            ready: false,
            printable: false,
        })
    }

    /// Reads a chunk of the page: up to and with the line feed that ends a logical line, or all of it. How many bytes
    /// it consumed, and whether a line is whole, which is asked for by [`Cutter::line`] before more comes.
    pub fn feed(&mut self, chunk: &[u8]) -> (usize, bool)
        requires free { self.old.ready ≡ false }
        requires consumed { self.old.point.line.consumed + length chunk.now < 2 ^ 31 }
        ensures within { result.0 ≤ length chunk.now }
        ensures all { result.1 ≡ false → result.0 ≡ length chunk.now }
        ensures point { self.new.point ≡ point_after self.old.point (take result.0 chunk.now) }
        ensures lines { lines_within self.old.point (take result.0 chunk.now)
            ≡ (if result.1 then line_of self.new.point ∷ [] else []) }
        ensures before { result.1 ≡ true → lines_within self.old.point (take (result.0 - 1) chunk.now) ≡ [] }
        ensures ready { self.new.ready ≡ result.1 }
        ensures consumed { self.new.point.line.consumed ≡ self.old.point.line.consumed + result.0 }
        ensures of_page { (set : AnyEncoding) (bytes : List ℕ) → IsAfter self.old.point set bytes
            → IsFed self.new.point set bytes (take result.0 chunk.now) (if result.1 then line_of self.new.point ∷ [] else []) }
        ensures held { (set : AnyEncoding) (bytes : List ℕ) → IsAfter self.old.point set bytes
            → length self.new.point.line.text.bytes ≤ LINE }
    {
        let (consumed, whole) = self.line.read(chunk);
        self.ready = whole;
        (consumed, whole)
    }

    /// Ends the page; whether a last line is there, which is asked for by [`Cutter::line`].
    pub fn end(&mut self) -> bool
        requires { self.old.ready ≡ false }
        ensures point { self.new.point ≡ end_point self.old.point }
        ensures line { line_at self.new.point ≡ (if result then line_of self.new.point ∷ [] else []) }
        ensures ready { self.new.ready ≡ result }
        ensures of_page { (set : AnyEncoding) (bytes : List ℕ) → IsAfter self.old.point set bytes
            → lines set bytes ≡ lines_within (first_point set) bytes ++ (if result then line_of self.new.point ∷ [] else []) }
    {
        self.ready = self.line.end();
        self.ready
    }

    // The encoding with the line that is whole, which may be known to be printable.
    #[inline(always)]
    #[tactic(auto, unfolding(crate::specs::laws::Cutting::encoding_after))]
    fn line_encoding(&self, printable: bool) -> Encoding
        requires waits { self.now.ready ≡ true }
        requires printable { printable ≡ true → choice_of self.now.point.line.text.bytes ≡ Encoding.Auto }
        ensures { result ≡ self.now.point.encoding }
    {
        match self.encoding {
            Encoding::Auto if self.line.is_marked() => Encoding::Utf8,
            Encoding::Auto if printable => Encoding::Auto,
            Encoding::Auto => choose(self.line.text()),
            known => known,
        }
    }

    // Decodes the line that waits, and reports what is to be said of its cutting.
    fn prepare<N: NoteSink>(&mut self, notes: &mut N) -> Result<(), Fault>
        requires { self.old.ready ≡ true }
        ensures point { self.new.point ≡ self.old.point }
        ensures ready { self.new.ready ≡ false }
        ensures text { self.new.text ≡ (line_of self.old.point).text }
        ensures line { IsLine self.new.text }
        ensures gives { Gives result N.gave N.within notes.old (line_of self.old.point).notes notes.new }
        ensures fault { FailsAs Fault.WriteNotes result (N.failed notes.old) (N.failed notes.new) }
        ensures same { N.loans notes.new ≡ N.loans notes.old }
    {
        let printable = self.line.is_printable();
        self.encoding = self.line_encoding(printable);
        self.ready = false;
        self.printable = printable;
        let number = self.line.number();
        let cut = self.line.is_cut();
        if self.printable {
            return report_limit(cut, number, notes);
        }
        let passed = decode(&mut self.decoded, self.line.text(), self.encoding);
        report(
            self.line.text(),
            self.encoding,
            number,
            cut || passed,
            notes,
        )
    }

    // The text and the number of the line that was given last.
    fn text_and_number(&self) -> (&[u8], u32)
        ensures text { result.0.now ≡ self.now.text }
        ensures number { result.1 ≡ self.now.point.line.number }
    {
        let text = if self.printable {
            self.line.text()
        } else {
            self.decoded.bytes()
        };
        (text, self.line.number())
    }

    /// Whether the line that is whole is known to be free: no comment, no end of a block and no interpolation of roff begins in it. It is asked before
    /// [`Cutter::line`].
    pub fn is_free(&self) -> bool
        requires { self.now.ready ≡ true }
        ensures { result ≡ true → IsFreeLine (line_of self.now.point).text }
    {
        self.line.is_free()
    }

    /// The line that is whole: its text, decoded, and the number of its first physical line. What is to be said of
    /// its cutting is reported first. Its fault is [`Fault::WriteNotes`].
    pub fn line<N: NoteSink>(&mut self, notes: &mut N) -> Result<(&[u8], u32), Fault>
        requires { self.old.ready ≡ true }
        ensures text { IfOk result (λ r. r.0.now ≡ (line_of self.old.point).text) }
        ensures number { IfOk result (λ r. r.1 ≡ (line_of self.old.point).number) }
        ensures line { IfOk result (λ r. IsLine r.0.now) }
        ensures gives { MatchResult result (λ _. N.gave notes.old (line_of self.old.point).notes notes.new)
            (λ _. N.within notes.old (line_of self.old.point).notes notes.new) }
        ensures fault { MatchResult result (λ _. N.failed notes.new ≡ N.failed notes.old)
            (λ e. (e ≡ Fault.WriteNotes) × Rose (N.failed notes.old) (N.failed notes.new)) }
        ensures same { N.loans notes.new ≡ N.loans notes.old }
        ensures* after { sem 𝓛 (follows_so the_row the_row self.entry.ghost_name none (λ _ _. ⊤)
            (λ v. (v.point ≡ self.old.point) × (v.ready ≡ false))) }
    {
        self.prepare(notes)?;
        Ok(self.text_and_number())
    }
}

/// The lines of a page are those that its bytes give one by one from its first point on.
pub fn one_by_one_law()
    ensures { (set : AnyEncoding) (bytes : List ℕ) → lines set bytes ≡ lines_from (first_point set) bytes }
{}

/// What the point of a page gives is said by lists of its lines alone: the lines that are whole within its bytes, those that more bytes make whole, and
/// the line that is left at the end.
pub fn whole_law()
    ensures whole { (set : AnyEncoding) (bytes : List ℕ) → whole_lines set bytes ≡ lines_within (first_point set) bytes }
    ensures made { (set : AnyEncoding) (before own : List ℕ) → lines_made set before own
        ≡ lines_within (point_after (first_point set) before) own }
    ensures left { (set : AnyEncoding) (bytes : List ℕ) → line_left set bytes ≡ last_line (point_after (first_point set) bytes) }
{}

/// A page cut anywhere gives the same lines: those within the part above the cut, and those that come from the point
/// there on.
pub fn cut_law()
    ensures lines { (set : AnyEncoding) (above below : List ℕ) → lines set (above ++ below)
        ≡ lines_within (first_point set) above ++ lines_from (point_after (first_point set) above) below }
    ensures within { (p : Point) (above below : List ℕ) → lines_within p (above ++ below)
        ≡ lines_within p above ++ lines_within (point_after p above) below }
    ensures point { (p : Point) (above below : List ℕ) → point_after p (above ++ below)
        ≡ point_after (point_after p above) below }
{}

/// A line that is open keeps no more than [`LINE`] bytes.
pub fn held_law()
    ensures { (set : AnyEncoding) (bytes : List ℕ)
        → length (point_after (first_point set) bytes).line.text.bytes ≤ LINE }
{}
