//! Words, breaks and tags: what is held between two pieces.

ghost use Rattle.std.specs.Prelude.{◌≡◌, ◌≤◌, replicate, Some, true, []};
ghost use Rattle.std.specs.Str.{chars};
ghost use Rattle.page_core_base.specs.Texts.{characters_of};
ghost use Rattle.page_core_base.specs.laws.Views.{CameRows, LaysOut};
ghost use Rattle.page_core_base.specs.declared.blank_texts.TheConstants.{BLANK_TEXT};
ghost use Rattle.page_core_base.specs.declared.pieces.Piece.TheVariants.{Text};
ghost use Rattle.page_fill_rows.specs.machine.Plain as plain;
ghost use Rattle.page_fill.specs.Words.{counted_tag};
ghost use Rattle.page_fill.specs.machine.Fill as fill;

use crate::{HANG_MAX, TAB_STOP};
use page_core_base::{Cell, Font, Note, NoteKind, Output, Place, RowOut, TagForm};
use page_fill_rows::{
    OpenRow, is_long_run, is_printable_ascii, put_character, put_characters, put_glyph, put_plain,
};

// The texts of blanks that are put together.
const TOGETHER: usize = 4096;

/// The open word, and what waits before the next one.
#[derive(Clone, Copy)]
pub(crate) struct OpenWord {
    /// The next cell goes on with the row's last word; else it begins a word, with the blanks that wait.
    pub(crate) is_joined: bool,
    /// A part has come since the last word ended, perhaps without a cell.
    pub(crate) is_open: bool,
    /// The blanks place the next word, after a tag or for a column: no other blanks take their place.
    pub(crate) is_placed: bool,
    /// The blanks that wait.
    pub(crate) blanks: u32,
    /// A tab stands for one of them.
    pub(crate) has_tab: bool,
    /// A tab of the row's last word was reported.
    pub(crate) is_reported: bool,
}

/// The open tag.
#[derive(Clone, Copy)]
pub(crate) struct OpenTag {
    /// The columns that it may take with a blank after it.
    pub(crate) hang: u32,
    /// Its row ends after it where it takes more; else there is one blank.
    pub(crate) ends_row: bool,
}

/// What is held between two pieces.
#[derive(Drop)]
pub struct FillEdge {
    /// The open row with its margin and its last word; the margins of the rows after it, how they are filled, and what is above them.
    pub(crate) sheet: OpenRow,
    /// The open word, and the blanks that wait before the next one.
    pub(crate) word: OpenWord,
    /// The open tag.
    pub(crate) tag: Option<OpenTag>,
    /// The blanks after a tag that is set in, where one is open: it may be in another one.
    pub(crate) set_in: Option<u32>,
    /// What characters and glyphs print.
    pub(crate) output: Output,
}

/// No word is open, and nothing waits.
pub(crate) const NO_WORD: OpenWord = OpenWord {
    is_joined: false,
    is_open: false,
    is_placed: false,
    blanks: 0,
    has_tab: false,
    is_reported: false,
};

impl OpenWord {
    /// The word has a cell, and goes on.
    pub(crate) fn begun(is_reported: bool) -> OpenWord
        ensures { result ≡ fill.begun_word is_reported }
    {
        OpenWord {
            is_joined: true,
            is_open: true,
            is_reported,
            ..NO_WORD
        }
    }

    /// A new word is placed after a count of blanks.
    fn placed(blanks: u32) -> OpenWord
        ensures { result ≡ fill.placed_word blanks }
    {
        OpenWord {
            is_open: true,
            is_placed: true,
            blanks,
            ..NO_WORD
        }
    }

    /// The word ends, and blanks wait before the next one.
    pub(crate) fn end(&mut self, blanks: u32, has_tab: bool)
        ensures { self.new ≡ fill.blanks_wait self.old blanks has_tab }
    {
        self.has_tab = has_tab;
        if !self.is_placed {
            self.is_joined = false;
            self.is_open = false;
            self.blanks = blanks;
        }
    }

    /// The next text goes on with the word.
    pub(crate) fn glued(self) -> OpenWord
        ensures { result ≡ fill.glued_word self }
    {
        if self.is_open {
            self
        } else {
            OpenWord::begun(self.is_reported)
        }
    }
}

// Reports a tab, or not.
fn report_tab<O: RowOut>(has_tab: bool, place: Place, out: &mut O)
    ensures { CameRows O.left out.old [] (fill.tab_notes has_tab place) out.new }
{
    if has_tab {
        out.report(&Note::about(NoteKind::TabFill, place, &[]));
    }
}

impl FillEdge {
    // Whether the next word's tab is reported: in filled text alone.
    fn reports_tab(&self) -> bool
        ensures { result ≡ fill.reports_tab self.now }
    {
        self.word.has_tab && !self.sheet.is_literal()
    }

    // Whether the blanks that wait are cells of the next word.
    fn blanks_stand(&self) -> bool
        ensures { result ≡ fill.stands self.now }
    {
        self.sheet.is_literal() || self.word.is_placed && self.sheet.is_empty()
    }

    // A word begins, with the blanks that wait.
    fn begin_word<O: RowOut>(&mut self, is_reported: bool, place: Place, out: &mut O)
        ensures { LaysOut O.left out.old (fill.word_begun self.old is_reported place) out.new self.new }
    {
        let stands = self.blanks_stand();
        self.sheet.begin_word(self.word.blanks, stands, place, out);
        self.word = OpenWord::begun(is_reported);
    }

    // Before a cell: a word begins where none is open with a cell.
    #[tactic(auto, unfolding(crate::specs::machine::Fill::opening))]
    fn open_word<O: RowOut>(&mut self, place: Place, out: &mut O)
        ensures { LaysOut O.left out.old (fill.opening self.old place) out.new self.new }
    {
        if self.word.is_joined {
            return;
        }
        let is_reported = self.reports_tab();
        report_tab(is_reported, place, out);
        self.begin_word(is_reported, place, out);
    }

    /// Takes a text.
    #[tactic(auto, unfolding(crate::specs::machine::Fill::text))]
    pub(crate) fn text<O: RowOut>(&mut self, text: &str, font: Font, place: Place, out: &mut O)
        ensures { LaysOut O.left out.old (fill.text self.old (chars text.now) font place) out.new self.new }
    {
        if text.is_empty() {
            self.word.is_open = true;
            return;
        }
        self.open_word(place, out);
        put_characters(&mut self.sheet, self.output, text, font, place, out);
    }

    // Takes a plain text.
    #[inline(always)]
    #[tactic(auto, unfolding(crate::specs::machine::Fill::text))]
    fn plain<O: RowOut>(&mut self, bytes: &[u8], font: Font, place: Place, out: &mut O)
        requires { plain.is_printable_ascii bytes.now ≡ true }
        ensures { LaysOut O.left out.old (fill.text self.old bytes.now font place) out.new self.new }
    {
        if bytes.is_empty() {
            self.word.is_open = true;
            return;
        }
        self.open_word(place, out);
        put_plain(&mut self.sheet, bytes, font, place, out);
    }

    // Takes a text of a count of blanks. It is a call, since few texts are blanks alone.
    #[inline(never)]
    #[tactic(auto, unfolding(crate::specs::machine::Fill::text))]
    fn blanks<O: RowOut>(&mut self, count: usize, font: Font, place: Place, out: &mut O)
        ensures { LaysOut O.left out.old (fill.text self.old (replicate count 32) font place) out.new self.new }
    {
        if count == 0 {
            self.word.is_open = true;
            return;
        }
        self.open_word(place, out);
        self.sheet.put_blanks(count, font, place, out);
    }

    /// Takes as many texts of a count of blanks, of which many are put together.
    pub(crate) fn blank_texts<O: RowOut>(
        &mut self,
        count: usize,
        times: usize,
        font: Font,
        place: Place,
        out: &mut O,
    )
        requires { count ≤ BLANK_TEXT }
        ensures { LaysOut O.left out.old (fill.laid self.old
            (replicate times (Text (replicate count 32) font place))) out.new self.new }
    {
        let mut left = times;
        while left > 0 {
            let part = left.min(TOGETHER);
            self.blanks(part * count, font, place, out);
            left -= part;
        }
    }

    /// Takes bytes that are a text.
    pub(crate) fn bytes<O: RowOut>(&mut self, bytes: &[u8], font: Font, place: Place, out: &mut O)
        ensures { LaysOut O.left out.old (fill.text self.old
            (characters_of bytes.now) font place) out.new self.new }
    {
        if is_long_run(bytes) {
            return self.blanks(bytes.len(), font, place, out);
        }
        if is_printable_ascii(bytes) {
            return self.plain(bytes, font, place, out);
        }
        match str::from_utf8(bytes) {
            Ok(text) => self.text(text, font, place, out),
            Err(_) => self.text("", font, place, out),
        }
    }

    /// Takes a character.
    #[tactic(auto, unfolding(crate::specs::machine::Fill::one_character))]
    pub(crate) fn character<O: RowOut>(&mut self, c: char, font: Font, place: Place, out: &mut O)
        ensures { LaysOut O.left out.old (fill.one_character self.old c font place) out.new self.new }
    {
        self.open_word(place, out);
        put_character(&mut self.sheet, self.output, c, font, place, out);
    }

    /// Takes the glyph of a name.
    #[tactic(auto, unfolding(crate::specs::machine::Fill::one_glyph))]
    pub(crate) fn glyph<O: RowOut>(&mut self, name: &[u8], font: Font, place: Place, out: &mut O)
        ensures { LaysOut O.left out.old (fill.one_glyph self.old name.now font place) out.new self.new }
    {
        self.open_word(place, out);
        put_glyph(&mut self.sheet, self.output, name, font, place, out);
    }

    // A tab in a row that is kept as it is.
    fn fixed_tab<O: RowOut>(&mut self, place: Place, out: &mut O)
        ensures { LaysOut O.left out.old (fill.fixed_tab self.old place) out.new self.new }
    {
        let blanks = TAB_STOP - self.sheet.columns() % TAB_STOP;
        self.sheet.put_blanks(blanks as usize, Font::R, place, out);
    }

    // A tab in a filled row.
    fn filled_tab<O: RowOut>(&mut self, font: Font, place: Place, out: &mut O)
        ensures { LaysOut O.left out.old (fill.filled_tab self.old font place) out.new self.new }
    {
        report_tab(!self.word.is_reported, place, out);
        self.word.is_reported = true;
        self.sheet.put_letter(Cell { c: ' ', font }, place, out);
    }

    /// Takes a tab.
    #[tactic(auto, unfolding(crate::specs::machine::Fill::tab))]
    pub(crate) fn tab<O: RowOut>(&mut self, font: Font, place: Place, out: &mut O)
        ensures { LaysOut O.left out.old (fill.tab self.old font place) out.new self.new }
    {
        self.open_word(place, out);
        if self.sheet.is_literal() {
            self.fixed_tab(place, out);
        } else {
            self.filled_tab(font, place, out);
        }
    }

    /// The open row ends, and nothing waits.
    #[tactic(auto, unfolding(crate::specs::machine::Fill::ended))]
    pub(crate) fn end_row<O: RowOut>(&mut self, out: &mut O)
        ensures { LaysOut O.left out.old (fill.ended self.old) out.new self.new }
    {
        self.sheet.end_row(out);
        self.word = NO_WORD;
    }

    /// Ends the row, and gives blank rows until there are so many of them; none after a heading's row.
    #[tactic(auto, unfolding(crate::specs::machine::Fill::paragraph))]
    pub(crate) fn paragraph<O: RowOut>(&mut self, count: u32, out: &mut O)
        ensures { LaysOut O.left out.old (fill.paragraph self.old count) out.new self.new }
    {
        self.end_row(out);
        let missing = self.sheet.missing_rows(count);
        self.sheet.give_empty_rows(missing, out);
    }

    /// Ends the row, and gives a count of blank rows.
    #[tactic(auto, unfolding(crate::specs::machine::Fill::spaced))]
    pub(crate) fn space<O: RowOut>(&mut self, count: u32, out: &mut O)
        ensures { LaysOut O.left out.old (fill.spaced self.old count) out.new self.new }
    {
        self.end_row(out);
        self.sheet.give_empty_rows(count, out);
    }

    /// Ends the row of a line that is kept as it is, and gives a blank row where it has no cell.
    #[tactic(auto, unfolding(crate::specs::machine::Fill::row_ended))]
    pub(crate) fn end_line<O: RowOut>(&mut self, out: &mut O)
        ensures { LaysOut O.left out.old (fill.row_ended self.old) out.new self.new }
    {
        if self.sheet.is_empty() {
            self.space(1, out);
        } else {
            self.end_row(out);
        }
    }

    /// The row ends as a heading's row, if it has a cell.
    #[tactic(auto, unfolding(crate::specs::machine::Fill::heading))]
    pub(crate) fn heading<O: RowOut>(&mut self, out: &mut O)
        ensures { LaysOut O.left out.old (fill.heading self.old) out.new self.new }
    {
        let is_empty = self.sheet.is_empty();
        self.end_row(out);
        if !is_empty {
            self.sheet.set_heading();
        }
    }

    // A tag takes the place of the open one.
    fn open_tag(&mut self, hang: u32, ends_row: bool)
        ensures { self.new ≡ counted_tag self.old (record { hang = hang; ends_row = ends_row }) }
    {
        self.sheet.count_anew();
        self.tag = Some(OpenTag { hang, ends_row });
        self.set_in = None;
    }

    /// A tag begins.
    pub(crate) fn begin_tag(&mut self, hang: u32, form: TagForm)
        ensures { self.new ≡ fill.with_tag self.old hang form }
    {
        match form {
            TagForm::Row => self.open_tag(hang, true),
            TagForm::Hang => self.open_tag(hang, false),
            TagForm::Inset(blanks) => self.set_in = Some(blanks),
        }
    }

    // What follows a tag with a cell.
    fn after_tag<O: RowOut>(&mut self, tag: OpenTag, out: &mut O)
        ensures { LaysOut O.left out.old (fill.after_tag self.old tag) out.new self.new }
    {
        let hang = tag.hang.min(HANG_MAX);
        let taken = self.sheet.tag_columns();
        let fits = taken < hang;
        if fits {
            self.word = OpenWord::placed(hang - taken);
        } else if tag.ends_row {
            self.end_row(out);
        } else {
            self.word = OpenWord::placed(1);
        }
    }

    // A tag that is set in ends, with this count of blanks after it, where a row is open.
    fn end_inset(&mut self, blanks: u32)
        ensures { self.new ≡ (fill.tag_end self.old (Some blanks)).edge }
    {
        self.set_in = None;
        self.word = if self.sheet.is_empty() {
            OpenWord::placed(0)
        } else {
            OpenWord::placed(blanks)
        };
    }

    // The tag ends that its cells are counted for.
    fn end_counted<O: RowOut>(&mut self, out: &mut O)
        ensures { LaysOut O.left out.old (fill.tag_ended (fill.without_tag self.old) self.old.tag) out.new self.new }
    {
        let tag = self.tag;
        self.tag = None;
        match tag {
            None => self.end_row(out),
            Some(tag) if self.sheet.has_tag_cell() => self.after_tag(tag, out),
            Some(_) => self.word = NO_WORD,
        }
    }

    /// The row's last word is parted after its cells.
    pub(crate) fn part_word(&mut self)
        ensures { self.new ≡ fill.parted self.old }
    {
        if self.word.is_joined && !self.sheet.is_literal() {
            self.sheet.open_word();
        }
    }

    /// The tag ends that was opened last.
    pub(crate) fn end_tag<O: RowOut>(&mut self, out: &mut O)
        ensures { LaysOut O.left out.old (fill.tag_end self.old self.old.set_in) out.new self.new }
    {
        match self.set_in {
            Some(blanks) => self.end_inset(blanks),
            None => self.end_counted(out),
        }
    }

    /// The next word is at a column, or a blank after the last cell.
    pub(crate) fn column(&mut self, column: u32)
        ensures { self.new ≡ (fill.placed self.old (fill.to_column self.old.sheet.cells column)).edge }
    {
        let blanks = if self.sheet.is_empty() {
            column
        } else {
            column.saturating_sub(self.sheet.columns()).max(1)
        };
        self.word = OpenWord::placed(blanks);
    }
}
