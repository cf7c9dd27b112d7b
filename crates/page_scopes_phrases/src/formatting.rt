//! What a page is formatted by: the context of the open scopes, and what is known along the page and of its line so far (man(7); roff(7), "Sentences").
ghost use Rattle.std.specs.Prelude.{◌≡◌};
ghost use Rattle.page_scopes_phrases.specs.Phrases as formatting;

use page_scopes_layout::{Context, HeadingSoFar};
use page_scopes_words::{Fonts, Setting};

/// What is known of a line so far.
#[derive(Clone, Copy)]
pub struct LineSoFar {
    /// It gave a word.
    pub has_words: bool,
    /// It gave a word of the page's text, which is no tag and no heading, since its last break.
    pub has_row_words: bool,
    /// It gave a word since its last break.
    pub is_after_word: bool,
    /// Its last word ends in `\c`.
    pub is_cut: bool,
    /// Its last argument ends in a blank or a tab.
    pub ends_blank: bool,
    /// Its last word ends a sentence.
    pub is_sentence: bool,
    /// Its last word is glued to what comes after it in the line, and to nothing after that.
    pub joins_next: bool,
    /// The fonts before the words of a font macro, where it is in them.
    pub fonts_before: Option<Setting<Fonts>>,
    /// The columns of the words of `Nm` so far, each with a blank after it, where it begins a row of the SYNOPSIS.
    pub name_columns: Option<u16>,
    /// The column of its last word, where rows are kept as they are; 1 before that.
    pub last_word: u32,
}

/// What a page is formatted by. No scope restores what is known along the page.
#[derive(Clone, Copy)]
pub struct Formatting {
    /// What the open scopes say.
    pub context: Context,
    /// A word, a raw line, a blank line or `sp` came since the last heading.
    pub has_content: bool,
    /// The count of blanks before the next word.
    pub gap: u32,
    pub line: LineSoFar,
    /// How far the heading that is open is one of the words that are looked for.
    pub heading: HeadingSoFar,
}

// The front of a line.
const NO_LINE: LineSoFar = LineSoFar {
    has_words: false,
    has_row_words: false,
    is_after_word: false,
    is_cut: false,
    ends_blank: false,
    is_sentence: false,
    joins_next: false,
    fonts_before: None,
    name_columns: None,
    last_word: 1,
};

impl LineSoFar {
    // The count of blanks after the line, of its last word's; there are blanks between words, or none.
    fn gap(&self, has_spacing: bool, gap: u32) -> u32
        ensures { result ≡ formatting.line_gap has_spacing self.now gap }
    {
        if !self.has_words {
            gap
        } else if self.is_cut || gap == 0 || !has_spacing {
            0
        } else if self.is_sentence {
            2
        } else {
            1
        }
    }
}

impl Formatting {
    /// Before a page's first line, at the page's indent in columns.
    pub fn start(page_indent: u32) -> Formatting
        ensures { result ≡ formatting.start page_indent }
    {
        Formatting {
            context: Context::start(page_indent),
            has_content: false,
            gap: 1,
            line: NO_LINE,
            heading: HeadingSoFar::start(),
        }
    }

    /// The count of blanks before the next word: none after a dash that is glued to it.
    pub fn next_gap(&self) -> u32
        ensures { result ≡ formatting.next_gap self.now }
    {
        if self.line.joins_next { 0 } else { self.gap }
    }

    /// The row ends: no word is in it yet.
    pub fn end_row(&mut self)
        ensures { self.new ≡ formatting.row_ended self.old }
    {
        self.line.has_row_words = false;
        self.line.is_after_word = false;
    }

    /// The line ends.
    pub fn end_line(&mut self)
        ensures { self.new ≡ formatting.line_ended self.old }
    {
        self.gap = self.line.gap(self.context.has_spacing.value, self.gap);
        self.line = NO_LINE;
    }
}
