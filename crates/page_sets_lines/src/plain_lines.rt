//! Text lines, blank lines and raw lines (roff(7), "LANGUAGE SYNTAX"). All sets of macros give the same events of
//! them.

ghost use Rattle.std.specs.Prelude.{◌≡◌, ◌≤◌, length};
ghost use Rattle.page_sets_lines.specs.laws.Events.{kind_view, word_view};
ghost use Rattle.page_sets_lines.specs.laws.Views.{KindFits};
ghost use Rattle.page_sets_lines.specs.Lines.{line_word, plain_line, plain_kind, fills};

use crate::events::{EventKind, Join, Role, Word};
use crate::leaves::Leaf;
use page_core_base::{Form, LINE, Taken};
use page_roff_syntax::{Argument, Quoting, has_word};

/// What a line is that is no control line.
#[derive(Clone, Copy)]
pub enum PlainLine {
    /// Text with a word.
    Words,
    /// Text without one: blanks and tabs, or nothing.
    Wordless,
    /// A blank line.
    Blank,
    /// A line as it is written.
    Raw,
}

// A whole line as one word.
fn line_word(text: &[u8]) -> Word<&[u8]>
    ensures { word_view result ≡ line_word text.now }
{
    Word {
        arg: Argument {
            text,
            column: 1,
            quoting: Quoting::Bare,
        },
        role: Role::Line,
        font: None,
        before: Join::Apart,
        after: Join::Apart,
    }
}

impl PlainLine {
    /// What a line is, unless it is a control line.
    pub fn of(line: Taken<'_>) -> Option<PlainLine>
        ensures { result ≡ plain_line line.entry.form line.entry.text.now }
    {
        match line.form {
            Form::Text if has_word(line.text) => Some(PlainLine::Words),
            Form::Text => Some(PlainLine::Wordless),
            Form::Blank => Some(PlainLine::Blank),
            Form::Raw => Some(PlainLine::Raw),
            Form::Control => None,
        }
    }

    /// What it does, with its text.
    pub fn kind(self, text: &[u8]) -> EventKind<&[u8]>
        requires { length text.now ≤ LINE }
        ensures kind { kind_view result ≡ plain_kind self text.now }
        ensures fits { KindFits (kind_view result) }
    {
        match self {
            PlainLine::Words => EventKind::Word(line_word(text)),
            PlainLine::Wordless => EventKind::Leaf(Leaf::Wordless(text)),
            PlainLine::Blank => EventKind::Leaf(Leaf::BlankLine),
            PlainLine::Raw => EventKind::Raw(text),
        }
    }

    /// Whether it fills the line scopes that are open.
    pub fn fills(self) -> bool
        ensures { result ≡ fills self }
    {
        matches!(self, PlainLine::Words)
    }
}
