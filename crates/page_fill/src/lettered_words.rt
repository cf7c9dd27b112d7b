//! Words of letters, the first after a count of blanks and each other after one, which the open row takes at once, and the rows that end among
//! them.

ghost use Rattle.std.specs.Prelude.{◌≡◌, ◌≤◌, ◌<◌, ◌+◌, ◌-◌, ◌==◌, ◌||◌, ℕ, List, drop, length, true};
ghost use Rattle.page_core_base.specs.laws.Views.{Gets, LaysOut, is_printable_ascii, lettered_pieces};
ghost use Rattle.page_core_base.specs.Rows.{Laid};
ghost use Rattle.page_core_base.specs.declared.limits.TheConstants.{CELLS};
ghost use Rattle.page_core_base.specs.declared.pieces.Piece.{Piece};
ghost use Rattle.page_fill.specs.laws.Views.{UsesSinks, is_sound, AreWords, can_take, fits_after, is_in_row};
ghost use Rattle.page_fill.specs.declared.edges.FillEdge.{FillEdge};
ghost use Rattle.page_fill.specs.machine.Fill as fill;
ghost use Rattle.page_fill.specs.machine.Items.{LaysUpTo, LaysWords};
ghost use Rattle.page_fill.specs.machine.Words as plain_words;
ghost use Rattle.page_fill_rows.specs.machine.Plain as rows;

use crate::FillEdge;
use crate::edges::OpenWord;
use page_core_base::{CELLS, Fault, Font, NoteSink, RowOut, RowSink};
use page_fill_rows::{RowLatch, word_end, word_start};

// How many bytes of a text, with a blank between two words, are whole words, among as many first bytes as there is room for.
fn whole_words(text: &[u8], room: usize) -> usize
    ensures value { result ≡ plain_words.whole_words text.now room }
    ensures within { result ≤ length text.now }
    ensures fits { result ≤ room }
{
    if text.len() <= room {
        return text.len();
    }
    word_start(text, room + 1).saturating_sub(1)
}

impl FillEdge {
    // Whether the first word of a text goes into the row after a count of blanks.
    fn fits_after(&self, blanks: u32, text: &[u8]) -> bool
        requires row { is_in_row self.now ≡ true }
        requires room { length self.now.sheet.cells + blanks + length text.now ≤ CELLS }
        ensures { result ≡ fits_after self.now blanks text.now }
    {
        0 < blanks && self.sheet.has_word_room(blanks, word_end(text))
    }

    /// Whether words of a text are taken at once, the first after a count of blanks: the row is filled, has a cell and as much room, and where there
    /// is not one blank before the first word, that word goes into the row.
    #[inline(always)]
    pub(crate) fn takes_words(&self, blanks: u32, text: &[u8]) -> bool
        ensures { result ≡ can_take self.now blanks text.now }
    {
        if self.word.is_placed || self.sheet.is_literal() || self.sheet.is_empty() {
            return false;
        }
        let room = CELLS - self.sheet.len();
        text.len() <= room
            && blanks as usize <= room - text.len()
            && (blanks == 1 || self.fits_after(blanks, text))
    }

    // How many bytes the first words of a text are, before which the row ends: those that the next row has room for, or the first one.
    fn front_of_next_row(&self, text: &[u8]) -> usize
        ensures value { result ≡ plain_words.next_front self.now.sheet text.now }
        ensures fits { plain_words.whole_words text.now (rows.next_free_cells self.now.sheet) ≤ rows.next_free_cells self.now.sheet }
        ensures within { result ≤ length text.now }
    {
        let end = whole_words(text, self.sheet.next_free_cells());
        if end > 0 { end } else { word_end(text) }
    }

    // Takes the first words of a text, the first one after a count of blanks: those that the row has room for, or, where it ends before the
    // first one, those that the next row has room for. Answers how many bytes they are.
    #[inline(always)]
    fn put_front<O: RowOut>(
        &mut self,
        blanks: u32,
        text: &[u8],
        fonts: &[Font],
        out: &mut O,
    ) -> usize
        requires plain { is_printable_ascii text.now ≡ true }
        requires fonts { length fonts.now ≡ length text.now }
        requires room { length self.old.sheet.cells + blanks + length text.now ≤ CELLS }
        requires fits { (blanks == 1 || fits_after self.old blanks text.now) ≡ true }
        ensures gives { (given : Laid FillEdge) × LaysOut O.left out.old given out.new self.new × (0 < length text.now
            → LaysUpTo self.old blanks text.now fonts.now (drop result text.now) (drop result fonts.now) given) }
        ensures within { result ≤ length text.now }
        ensures room { length self.new.sheet.cells + (length text.now - result) ≤ CELLS }
        ensures sound { is_sound self.new.word ≡ true }
    {
        self.word = OpenWord::begun(false);
        let room = self.sheet.free_cells().saturating_sub(blanks as usize);
        let end = whole_words(text, room);
        if end > 0 {
            let start = word_start(text, end);
            self.sheet
                .add_words(blanks, &text[..end], &fonts[..end], start);
            return end;
        }
        let end = self.front_of_next_row(text);
        let start = word_start(text, end);
        self.sheet
            .wrap_words(&text[..end], &fonts[..end], start, out);
        end
    }

    // Takes words, the first after a count of blanks.
    fn put_words<O: RowOut>(&mut self, blanks: u32, text: &[u8], fonts: &[Font], out: &mut O)
        requires takes { can_take self.old blanks text.now ≡ true }
        requires some { 0 < length text.now }
        requires plain { is_printable_ascii text.now ≡ true }
        requires fonts { length fonts.now ≡ length text.now }
        ensures gives { (given : Laid FillEdge) × LaysOut O.left out.old given out.new self.new × LaysWords self.old blanks text.now fonts.now given }
        ensures sound { is_sound self.new.word ≡ true }
    {
        let mut rest = text;
        let mut own = fonts;
        let mut end = self.put_front(blanks, rest, own, out);
        while end < rest.len() {
            rest = &rest[end + 1..];
            own = &own[end + 1..];
            end = self.put_front(1, rest, own, out);
        }
    }

    /// Takes words, the first after a count of blanks. Its faults are those of the sinks.
    pub fn words<R: RowSink, N: NoteSink>(
        &mut self,
        blanks: u32,
        text: &[u8],
        fonts: &[Font],
        rows: &mut R,
        notes: &mut N,
    ) -> Result<(), Fault>
        requires takes { can_take self.old blanks text.now ≡ true }
        requires some { 0 < length text.now }
        requires ascii { is_printable_ascii text.now ≡ true }
        requires fonts { length fonts.now ≡ length text.now }
        ensures gets { (words : List (List (Piece (List ℕ)))) → AreWords text.now fonts.now words
            → Gets result R.gave R.within N.gave N.within rows.old rows.new notes.old notes.new (fill.laid self.old (lettered_pieces blanks words)) }
        ensures edge { (words : List (List (Piece (List ℕ)))) → AreWords text.now fonts.now words
            → self.new ≡ (fill.laid self.old (lettered_pieces blanks words)).edge }
        ensures sound { is_sound self.new.word ≡ true }
        ensures sinks { UsesSinks result R.failed R.loans N.failed N.loans rows.old rows.new notes.old notes.new }
    {
        let mut latch = RowLatch::new(rows, notes);
        self.put_words(blanks, text, fonts, &mut latch);
        latch.done()
    }
}
