//! What a kept text prints, wherever it is printed (man(7), `UR`, `MT`; mdoc(7), `Nm`).
ghost use Rattle.std.specs.Prelude.{◌≡◌, ◌≤◌, ◌<◌, ◌+◌, ◌∷◌, ◌++◌, [], length, false, if◌then◌else◌};
ghost use Rattle.page_core_base.specs.laws.Views.{Came, CameUpTo};
ghost use Rattle.page_core_base.specs.Rows.{shown};
ghost use Rattle.page_core_base.specs.declared.pieces.Piece.TheVariants.{Blank};
ghost use Rattle.page_core_escapes.specs.laws.Views.{token_view};
ghost use Rattle.page_core_escapes.specs.Tokens.{token_at, tokens_of};
ghost use Rattle.page_core_base.specs.declared.limits.TheConstants.{FIELD};
ghost use Rattle.page_roff_syntax.specs.laws.Views.{argument_view};
ghost use Rattle.page_scopes_phrases.specs.Names as kept;
ghost use Rattle.page_scopes_phrases.specs.machine.NameParts as names;
ghost use Rattle.page_scopes_words.specs.Words.{blank_text};
ghost use Rattle.page_scopes_words.specs.Words as words;

use crate::kept_names::{Known, NamePart};
use crate::phrases::is_text;
use crate::{Formatting, KeptText, ManualName};
use page_core_base::{FIELD, Font, LINE, Limit, NoteKind, Piece, PieceOut, Place};
use page_core_escapes::{Token, Tokens, read_token};
use page_roff_syntax::Argument;
use page_scopes_words::{
    Fonts, Setting, fonts_after, give_blank_cells, give_token, give_white_cells, has_tab, report,
    token_prints,
};

/// Reports at a place that what an argument says is not kept whole.
pub fn report_cut<O: PieceOut>(out: &mut O, place: Place, argument: Argument<&[u8]>)
    ensures { Came O.left out.old (kept.cut_notes place (argument_view argument.entry)) out.new }
{
    if argument.value_len() > FIELD {
        report(out, NoteKind::Limit, place, Limit::Field.name().as_bytes());
    }
}

/// Gives the blanks before a kept text.
pub fn give_kept_gap<O: PieceOut>(out: &mut O, state: &Formatting, place: Place)
    ensures { Came O.left out.old (kept.gap_items state.now place) out.new }
{
    if state.context.is_literal.value {
        if state.line.is_after_word {
            give_blank_cells(out, state.next_gap(), Font::R, place);
        }
    } else if state.next_gap() != 0 {
        out.give(Piece::Blank {
            count: state.next_gap(),
            has_tab: false,
        });
    }
}

// Gives white space in a kept text, as cells or as this many blanks.
#[inline(always)]
fn give_white<O: PieceOut>(out: &mut O, is_literal: bool, gap: u32, place: Place, white: &[u8])
    ensures { Came O.left out.old (if is_literal then words.white_cells place white.now else shown (Blank gap (words.has_tab white.now)) ∷ []) out.new }
{
    if is_literal {
        give_white_cells(out, place, white);
    } else {
        out.give(Piece::Blank {
            count: gap,
            has_tab: has_tab(white),
        });
    }
}

// Gives a token of a kept text.
#[inline(always)]
fn give_part<O: PieceOut>(
    out: &mut O,
    is_literal: bool,
    gap: u32,
    place: Place,
    font: Font,
    token: &Token<'_>,
)
    ensures { Came O.left out.old
        (kept.part_items is_literal gap place font (token_view token.now)) out.new }
{
    match *token {
        Token::White(white) => give_white(out, is_literal, gap, place, white),
        _ => give_token(out, false, font, place, token),
    }
}

// Whether a token of a kept text prints a cell.
fn part_prints(is_literal: bool, token: &Token<'_>) -> bool
    ensures { result ≡ kept.part_prints is_literal (token_view token.now) }
{
    match *token {
        Token::White(_) => is_literal,
        _ => token_prints(token),
    }
}

/// Whether a text prints a cell.
pub(crate) fn prints_cell(is_literal: bool, text: &[u8]) -> bool
    requires { length text.now ≤ LINE }
    ensures { result ≡ kept.prints_cell is_literal (tokens_of false text.now) }
{
    let mut tokens = Tokens::new(false, text);
    while let Some(token) = tokens.read() {
        if part_prints(is_literal, &token) {
            return true;
        }
    }
    false
}

/// Gives what a kept text prints without its messages, all at one place; white space at its front is this many blanks. The fonts after it.
pub fn give_kept<O: PieceOut>(
    out: &mut O,
    is_literal: bool,
    front: u32,
    place: Place,
    start: Setting<Fonts>,
    text: &KeptText,
) -> Setting<Fonts>
    ensures came { Came O.left out.old
        (kept.parts_items is_literal front place start (tokens_of false text.now.text)) out.new }
    ensures fonts { result ≡ kept.fonts_through start (tokens_of false text.now.text) }
{
    let mut tokens = Tokens::new(false, text.text.text());
    let mut fonts = start;
    let mut gap = front;
    while let Some(token) = tokens.read() {
        give_part(out, is_literal, gap, place, fonts.value.font, &token);
        fonts = fonts_after(&token, fonts);
        gap = 1;
    }
    fonts
}

// Texts of blanks that wait to be given at once: the blanks of each, and how many texts there are. Without a blank they print nothing.
#[derive(Clone, Copy)]
struct BlankTexts {
    count: u16,
    times: usize,
}

const NO_BLANKS: BlankTexts = BlankTexts { count: 0, times: 0 };

impl BlankTexts {
    // Gives them.
    fn give<O: PieceOut>(self, out: &mut O, font: Font, place: Place)
        requires { self.count ≤ 1000 }
        ensures { Came O.left out.old (names.blank_texts self.count self.times font place) out.new }
    {
        if self.count != 0 {
            out.give_blanks(self.count as usize, self.times, font, place);
        }
    }

    // What waits with one more text, of a count of blanks. Those with another count are given before it.
    fn with<O: PieceOut>(self, out: &mut O, count: u16, font: Font, place: Place) -> BlankTexts
        requires count { self.count ≤ 1000 }
        requires times { self.times < 256 }
        ensures came { CameUpTo O.left out.old
            (names.blank_texts self.count self.times font place ++ blank_text count font place)
            (names.blank_texts result.count result.times font place) out.new }
        ensures count { result.count ≡ count }
        ensures times { result.times ≤ self.times + 1 }
    {
        if count == self.count {
            return BlankTexts {
                count,
                times: self.times + 1,
            };
        }
        self.give(out, font, place);
        BlankTexts { count, times: 1 }
    }
}

// The token at a text's front, of which this is known: what prints as it is written is not read anew.
#[inline(always)]
fn token_of(part: NamePart, text: &[u8]) -> Token<'_>
    requires known { part ≡ names.part_of (token_at false text.now) }
    requires within { part.len ≤ length text.now }
    requires line { length text.now ≤ LINE }
    ensures { token_view result ≡ token_at false text.now }
{
    match part.known {
        Known::White => Token::White(&text[..part.len as usize]),
        Known::Plain => Token::Plain(&text[..part.len as usize]),
        _ => read_token(false, text),
    }
}

// Gives what a text prints without its messages, all at one place, where parts say what is known of its tokens.
fn give_known_parts<O: PieceOut>(
    out: &mut O,
    is_literal: bool,
    front: u32,
    place: Place,
    start: Setting<Fonts>,
    text: &[u8],
    parts: &[NamePart],
)
    requires within { length text.now ≤ LINE }
    requires known { parts.now ≡ names.parts_of text.now }
    requires count { length parts.now ≤ 256 }
    ensures { Came O.left out.old (kept.parts_items is_literal front place start (tokens_of false text.now)) out.new }
{
    let mut at = 0;
    let mut fonts = start;
    let mut gap = front;
    let mut blanks = NO_BLANKS;
    for part in parts {
        match part.known {
            Known::Blanks(count) => blanks = blanks.with(out, count, fonts.value.font, place),
            Known::Nothing => {}
            Known::White | Known::Plain | Known::Unread => {
                blanks.give(out, fonts.value.font, place);
                blanks = NO_BLANKS;
                let token = token_of(*part, &text[at..]);
                give_part(out, is_literal, gap, place, fonts.value.font, &token);
                fonts = fonts_after(&token, fonts);
            }
        }
        at += part.len as usize;
        gap = 1;
    }
    blanks.give(out, fonts.value.font, place);
}

/// Gives what a name prints without its messages, all at one place; white space at its front is this many blanks.
pub(crate) fn give_name<O: PieceOut>(
    out: &mut O,
    is_literal: bool,
    front: u32,
    place: Place,
    start: Setting<Fonts>,
    name: &ManualName,
)
    ensures { Came O.left out.old (kept.parts_items is_literal front place start (tokens_of false name.now.text)) out.new }
{
    let text = name.kept().text.text();
    give_known_parts(out, is_literal, front, place, start, text, name.parts());
}

impl Formatting {
    /// The state after a kept text, which is a word at a place.
    pub fn pass_kept(&mut self, place: Place)
        ensures { self.new ≡ kept.after_kept place self.old }
    {
        self.has_content = true;
        self.gap = if self.context.has_spacing.value { 1 } else { 0 };
        self.line.has_words = true;
        self.line.has_row_words = self.line.has_row_words || is_text(self.context.part);
        self.line.is_after_word = true;
        self.line.is_cut = false;
        self.line.ends_blank = false;
        self.line.joins_next = false;
        if self.context.is_literal.value {
            self.line.last_word = place.column;
        }
    }
}
