//! The filler of a page, alone or with what it keeps of its open row.

ghost use Rattle.std.specs.Prelude.{◌≡◌, ◌<◌, ◌≤◌, ℕ, true, false, List, [], ◌∷◌, length, map, replicate, IfOk, IfErr, IfSome, MatchOption, OnOk, Some, None, Err, MatchResult};
ghost use Rattle.page_core_base.specs.laws.Views.{Gets, piece_of, is_printable_ascii, lettered_pieces};
ghost use Rattle.page_core_base.specs.Rows.{nothing, shown};
ghost use Rattle.page_core_base.specs.declared.blank_texts.TheConstants.{BLANK_TEXT};
ghost use Rattle.page_core_base.specs.declared.limits.TheConstants.{CELLS};
ghost use Rattle.page_core_base.specs.declared.pieces.Piece.{Piece};
ghost use Rattle.page_core_base.specs.declared.pieces.Piece.TheVariants.{Text};
ghost use Rattle.page_fill.specs.laws.Views.{FillFits, UsesFiller, is_sound, AreKept, can_keep, AreWords, can_take};
ghost use Rattle.page_fill_rows.specs.laws.Views.{IsHeld};
ghost use Rattle.page_fill.specs.Words as fill;
ghost use Rattle.page_fill.specs.laws.Views as fill_laws;
ghost use Rattle.page_fill.specs.declared.edges.FillEdge.{FillEdge};
ghost use Rattle.page_fill.specs.Filling.{filled, row_end};

use crate::FillEdge;
use page_core_base::{Cell, Fault, Font, NoteSink, Output, Piece, Place, RowSink, Settings};
use page_fill_rows::{KeepsRow, NoCells, OpenCells};
use std::alloc::{AllocError, Global};
use std::marker::Model;

/// Turns pieces into rows, and holds one row: the open one.
///
/// A row is given to the sink as soon as no later piece can change it. After a failure or the end a filler is of no use. Contracts see it
/// as what it holds between two pieces ([`FillEdge`]): the open row with its margins, the open word and the blanks that wait before the next
/// one, and the open tag; or as none, where it is of no use.
#[derive(Drop)]
pub struct FillerWith<K: KeepsRow> {
    edge: FillEdge,
    is_going: bool,
    kept: K,
}

/// A filler that holds its open row and nothing beside it, as a page does.
pub type PieceFiller = FillerWith<NoCells>;

/// A filler that shows the cells of its open row, which are made anew after each call that changes it.
pub type Filler = FillerWith<OpenCells>;

impl<K: KeepsRow> Model for FillerWith<K> {
    ghost use Rattle.std.specs.Prelude.{◌≡◌, true, Option, None, Some, if◌then◌else◌};
    ghost use Rattle.page_fill_rows.specs.laws.Views.{IsHeld};
    ghost use Rattle.page_fill.specs.laws.Views.{is_sound};
    ghost use Rattle.page_fill.specs.declared.edges.FillEdge.{FillEdge};

    ghost Value = { Option FillEdge };

    ghost view = { λ f. if f.is_going then Some f.edge else None };

    ghost invariant = { λ f. (f.is_going ≡ true → IsHeld f.edge.sheet × (is_sound f.edge.word ≡ true))
        × K.shows f.kept f.edge.sheet };
}

/// What a filler holds between two pieces.
#[derive(Drop)]
pub struct FillerPart {
    edge: FillEdge,
}

impl Model for FillerPart {
    ghost use Rattle.std.specs.Prelude.{◌≡◌, true};
    ghost use Rattle.page_fill_rows.specs.laws.Views.{IsHeld};
    ghost use Rattle.page_fill.specs.laws.Views.{is_sound};
    ghost use Rattle.page_fill.specs.declared.edges.FillEdge.{FillEdge};

    ghost Value = { FillEdge };

    ghost view = { λ p. p.edge };

    ghost invariant = { λ p. IsHeld p.edge.sheet × (is_sound p.edge.word ≡ true) };
}

impl FillerPart {
    /// What characters and glyphs print.
    pub fn output(&self) -> Output
        ensures { result ≡ self.now.output }
    {
        self.edge.output
    }

    /// A filler that holds this, under the settings from which it came. It reserves all memory that it will ever hold.
    pub fn filler<K: KeepsRow>(&self, alloc: Global) -> Result<FillerWith<K>, AllocError>
        ensures { IfOk result (λ f. f ≡ Some self.now) }
    {
        FillerWith::copy_of(alloc, &self.edge, self.edge.sheet.width(), self.edge.output)
    }
}

impl<K: KeepsRow> FillerWith<K> {
    // A filler that goes on where this is held, on a page of this width in columns, of an output.
    fn copy_of(
        alloc: Global,
        edge: &FillEdge,
        width: u32,
        output: Output,
    ) -> Result<FillerWith<K>, AllocError>
        requires { IsHeld edge.now.sheet × (is_sound edge.now.word ≡ true) }
        ensures { IfOk result (λ f. f ≡ Some (fill_laws.under width output edge.now)) }
    {
        let edge = edge.copy(alloc, width, output)?;
        let kept = K::of(alloc, &edge.sheet)?;
        Ok(FillerWith {
            edge,
            is_going: true,
            kept,
        })
    }

    /// What is held between two pieces, in memory of its own.
    ///
    /// Its fault is [`Fault::Failed`] after a failure and after the end; else [`Fault::Memory`].
    pub fn part(&self, alloc: Global) -> Result<FillerPart, Fault>
        ensures open { (e : FillEdge) → self.now ≡ Some e
            → MatchResult result (λ part. part ≡ e) (λ fault. fault ≡ Fault.Memory) }
        ensures closed { self.now ≡ None → result ≡ Err Fault.Failed }
    {
        if !self.is_going {
            return Err(Fault::Failed);
        }
        match self
            .edge
            .copy(alloc, self.edge.sheet.width(), self.edge.output)
        {
            Ok(edge) => Ok(FillerPart { edge }),
            Err(_) => Err(Fault::Memory),
        }
    }

    /// A filler for a page of settings that pass their check, where it holds this part. Its fault is [`Fault::Memory`], with the part as it came.
    pub fn from_part(
        alloc: Global,
        settings: &Settings,
        part: FillerPart,
    ) -> Result<FillerWith<K>, (FillerPart, Fault)>
        ensures { MatchResult result
            (λ f. f ≡ Some (fill_laws.under settings.now.width settings.now.output part))
            (λ refused. (refused.0 ≡ part) × (refused.1 ≡ Fault.Memory)) }
    {
        match FillerWith::copy_of(alloc, &part.edge, settings.width, settings.output) {
            Ok(filler) => Ok(filler),
            Err(_) => Err((part, Fault::Memory)),
        }
    }

    /// A filler for a page of these settings, below its header, with one blank row. It reserves all memory that it will ever
    /// hold, and its fault is [`Fault::Memory`].
    pub fn new(alloc: Global, settings: &Settings) -> Result<FillerWith<K>, Fault>
        ensures ok { IfOk result (λ f. f ≡ Some (fill.start settings.now)) }
        ensures fault { IfErr result (λ fault. fault ≡ Fault.Memory) }
    {
        let Ok(edge) = FillEdge::new(alloc, settings) else {
            return Err(Fault::Memory);
        };
        let Ok(kept) = K::of(alloc, &edge.sheet) else {
            return Err(Fault::Memory);
        };
        Ok(FillerWith {
            edge,
            is_going: true,
            kept,
        })
    }

    /// How many blank rows are at the end of the rows that were given, the open row left aside.
    pub fn blank_rows(&self) -> u32
        ensures { IfSome self.now (λ e. result ≡ fill_laws.blank_rows_at_end e) }
    {
        self.edge.sheet.blank_rows()
    }

    /// What is held between two pieces is within its limits. Nothing is done: the open row shows it.
    pub fn caps_law(&self)
        ensures { IfSome self.now FillFits }
    {
        self.edge.sheet.held_law();
        self.edge.sheet.tag_columns();
        self.edge.sheet.blank_rows();
    }

    /// The places of the row's last word lie within the row, and what waits before the next word holds together. Nothing is done: a filler
    /// keeps to it.
    #[inline(always)]
    pub fn held_law(&self)
        ensures row { IfSome self.now (λ e. IsHeld e.sheet) }
        ensures word { IfSome self.now (λ e. is_sound e.word ≡ true) }
    {
        let _is_going = self.is_going;
    }

    /// Takes a piece, and gives the rows and messages that it settles. It succeeds if the sinks do.
    ///
    /// Its faults are those of the sinks; after one, and after [`finish`](FillerWith::finish), it is [`Fault::Failed`].
    #[inline(always)]
    pub fn piece<R: RowSink, N: NoteSink>(
        &mut self,
        piece: Piece<&[u8]>,
        rows: &mut R,
        notes: &mut N,
    ) -> Result<(), Fault>
        ensures gets { (e : FillEdge) → self.old ≡ Some e
            → Gets result R.gave R.within N.gave N.within rows.old rows.new notes.old notes.new
            (filled e (shown (piece_of piece.entry) ∷ [])) }
        ensures edge { (e : FillEdge) → self.old ≡ Some e
            → OnOk result (self.new ≡ Some (filled e (shown (piece_of piece.entry) ∷ [])).edge) }
        ensures sinks { UsesFiller result self.old self.new R.failed R.loans N.failed N.loans rows.old rows.new notes.old notes.new }
    {
        if !self.is_going {
            return Err(Fault::Failed);
        }
        let result = self.edge.piece(piece, rows, notes);
        self.kept.keep(&self.edge.sheet);
        if result.is_err() {
            self.is_going = false;
        }
        result
    }

    /// Takes as many texts of a count of blanks that are cells, at most [`BLANK_TEXT`](page_core_base::BLANK_TEXT) of them in each.
    ///
    /// Its faults are those of the sinks; after one, and after [`finish`](FillerWith::finish), it is [`Fault::Failed`].
    pub fn take_blanks<R: RowSink, N: NoteSink>(
        &mut self,
        count: usize,
        times: usize,
        font: Font,
        place: Place,
        rows: &mut R,
        notes: &mut N,
    ) -> Result<(), Fault>
        requires { count ≤ BLANK_TEXT }
        ensures gets { (e : FillEdge) → self.old ≡ Some e
            → Gets result R.gave R.within N.gave N.within rows.old rows.new notes.old notes.new
            (filled e (replicate times (shown (Text (replicate count 32) font place)))) }
        ensures edge { (e : FillEdge) → self.old ≡ Some e
            → OnOk result (self.new ≡ Some (filled e (replicate times (shown (Text (replicate count 32) font place)))).edge) }
        ensures sinks { UsesFiller result self.old self.new R.failed R.loans N.failed N.loans rows.old rows.new notes.old notes.new }
    {
        if !self.is_going {
            return Err(Fault::Failed);
        }
        let taken = self
            .edge
            .take_blanks(count, times, font, place, rows, notes);
        self.kept.keep(&self.edge.sheet);
        if taken.is_err() {
            self.is_going = false;
        }
        taken
    }

    /// Whether the open row takes words of a text at once, the first after a count of blanks: it is filled, has a cell and as much room, and where
    /// there is not one blank before the first word, that word goes into the row.
    #[inline(always)]
    pub fn takes_words(&self, blanks: u32, text: &[u8]) -> bool
        ensures takes { IfSome self.now (λ e. can_take e blanks text.now ≡ result) }
        ensures closed { self.now ≡ None → result ≡ false }
    {
        self.is_going && self.edge.takes_words(blanks, text)
    }

    /// Takes words that the open row takes at once, the first after a count of blanks and each other after one. Each byte of the text, printable
    /// ASCII, is a letter of them, in the font beside it, or the one blank between two of them. Gives the rows that end among them. Of any other text
    /// nothing is promised.
    ///
    /// Its faults are those of the sinks; after one, and after [`finish`](FillerWith::finish), it is [`Fault::Failed`].
    #[inline(always)]
    pub fn words<R: RowSink, N: NoteSink>(
        &mut self,
        blanks: u32,
        text: &[u8],
        fonts: &[Font],
        rows: &mut R,
        notes: &mut N,
    ) -> Result<(), Fault>
        requires takes { IfSome self.old (λ e. can_take e blanks text.now ≡ true) }
        requires some { 0 < length text.now }
        requires ascii { is_printable_ascii text.now ≡ true }
        requires fonts { length fonts.now ≡ length text.now }
        ensures gets { (e : FillEdge) (words : List (List (Piece (List ℕ)))) → self.old ≡ Some e → AreWords text.now fonts.now words
            → Gets result R.gave R.within N.gave N.within rows.old rows.new notes.old notes.new
            (filled e (map shown (lettered_pieces blanks words))) }
        ensures edge { (e : FillEdge) (words : List (List (Piece (List ℕ)))) → self.old ≡ Some e → AreWords text.now fonts.now words
            → OnOk result (self.new ≡ Some (filled e (map shown (lettered_pieces blanks words))).edge) }
        ensures sinks { UsesFiller result self.old self.new R.failed R.loans N.failed N.loans rows.old rows.new notes.old notes.new }
    {
        if !self.is_going {
            return Err(Fault::Failed);
        }
        let taken = self.edge.words(blanks, text, fonts, rows, notes);
        self.edge.sheet.held_law();
        self.kept.keep(&self.edge.sheet);
        if taken.is_err() {
            self.is_going = false;
        }
        taken
    }

    /// Takes characters in a font at once, if they are printable ASCII and go on with the last word of a row that is kept as it is and has room for
    /// them. Says whether it took them; they settle nothing.
    #[inline(always)]
    pub fn take_kept(&mut self, text: &[u8], font: Font) -> bool
        ensures answer { MatchOption self.old (result ≡ false) (λ e. result ≡ can_keep e text.now) }
        ensures kept { (e : FillEdge) (pieces : List (Piece (List ℕ))) → self.old ≡ Some e → result ≡ true → AreKept text.now font pieces
            → (f : FillEdge) × (self.new ≡ Some f) × (filled e (map shown pieces) ≡ nothing f) }
        ensures same { result ≡ false → self.new ≡ self.old }
    {
        if !self.is_going || !self.edge.take_kept(text, font) {
            return false;
        }
        self.edge.sheet.held_law();
        self.kept.keep(&self.edge.sheet);
        true
    }

    /// The open row ends, if there is one. From then on the filler takes nothing.
    ///
    /// Its faults are those of the sinks; after one, and after an earlier end, it is [`Fault::Failed`].
    pub fn finish<R: RowSink, N: NoteSink>(
        &mut self,
        rows: &mut R,
        notes: &mut N,
    ) -> Result<(), Fault>
        ensures gets { (e : FillEdge) → self.old ≡ Some e
            → Gets result R.gave R.within N.gave N.within rows.old rows.new notes.old notes.new (row_end e) }
        ensures ended { self.new ≡ None }
        ensures sinks { UsesFiller result self.old self.new R.failed R.loans N.failed N.loans rows.old rows.new notes.old notes.new }
    {
        if !self.is_going {
            return Err(Fault::Failed);
        }
        self.is_going = false;
        let ended = self.edge.end(rows, notes);
        self.kept.keep(&self.edge.sheet);
        ended
    }
}

impl FillerWith<OpenCells> {
    /// The open row's cells, at most `CELLS`.
    pub fn pending(&self) -> &[Cell]
        ensures cells { IfSome self.now (λ e. result.now ≡ fill_laws.open_cells e) }
        ensures bound { length result.now ≤ CELLS }
    {
        self.kept.as_slice()
    }
}
