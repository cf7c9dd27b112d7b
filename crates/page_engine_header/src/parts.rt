//! The parts of a header or a footer (man(7), `TH`).

ghost use Rattle.std.specs.Prelude.{◌≡◌, ◌≤◌, length};
ghost use Rattle.page_core_base.specs.laws.Views.{Came};
ghost use Rattle.page_scopes_words.specs.Fonts.{roman_fonts};
ghost use Rattle.page_engine_header.specs.Header.{tokens_columns, tokens_items, name_tokens};
ghost use Rattle.page_engine_header.specs.laws.Views.{part_tokens, IsShort};

use crate::RunOut;
use crate::printing::{give_char, give_text, text_columns};
use page_core_base::{Output, Place};
use page_scopes_words::ROMAN;

/// A part of a header or a footer.
#[derive(Clone, Copy)]
pub enum Part<'a> {
    /// A title with its section in brackets.
    Name { title: &'a [u8], section: &'a [u8] },
    /// A field.
    Text(&'a [u8]),
}

// Gives a title with its section in brackets.
fn give_name<O: RunOut>(out: &mut O, output: Output, place: Place, title: &[u8], section: &[u8])
    requires title { length title.now ≤ 256 }
    requires section { length section.now ≤ 256 }
    ensures { Came O.left out.old
        (tokens_items output place roman_fonts (name_tokens title.now section.now)) out.new }
{
    let fonts = give_text(out, output, ROMAN, place, title);
    give_char(out, fonts.font, place, '(');
    let fonts = give_text(out, output, fonts, place, section);
    give_char(out, fonts.font, place, ')');
}

impl Part<'_> {
    /// The columns of what the part prints.
    pub(crate) fn columns(self, output: Output) -> u32
        requires { IsShort self }
        ensures value { result ≡ tokens_columns output (part_tokens self.entry) }
        ensures bound { result ≤ 512002 }
    {
        match self {
            Part::Name { title, section } => {
                text_columns(output, title) + 1 + text_columns(output, section) + 1
            }
            Part::Text(text) => text_columns(output, text),
        }
    }

    /// Gives what the part prints.
    pub fn give<O: RunOut>(self, out: &mut O, output: Output, place: Place)
        requires { IsShort self }
        ensures { Came O.left out.old
            (tokens_items output place roman_fonts (part_tokens self.entry)) out.new }
    {
        match self {
            Part::Name { title, section } => give_name(out, output, place, title, section),
            Part::Text(text) => {
                give_text(out, output, ROMAN, place, text);
            }
        }
    }
}
