//! The context in which a scope begins (man(7), mdoc(7)).

ghost use Rattle.std.specs.Prelude.{◌≡◌, pos, ◌+ℤ◌};
ghost use Rattle.page_scopes_layout.specs.Contexts as begins;
ghost use Rattle.page_scopes_layout.specs.declared.contexts.SeriesSoFar.TheVariants.{Empty};
ghost use Rattle.page_scopes_layout.specs.declared.contexts.PagePart.TheVariants as parts;
ghost use Rattle.page_scopes_layout.specs.declared.contexts.PageSection.TheVariants.{Other};

use crate::margins::further_in;
use crate::{Context, PREVAILING, PagePart, PageSection, SeriesSoFar, hold};
use page_core_base::Font;
use page_scopes_words::{Fonts, ROMAN, Setting};

// The columns that a row which is alone (`D1`, `Dl`) is further in.
const ONE_LINE: i64 = 6;

impl Context {
    /// The context at the front of a scope: nothing is set in it yet.
    #[inline(always)]
    pub fn entered(self) -> Context
        ensures { result ≡ begins.entered_context self }
    {
        Context {
            fonts: self.fonts.entered(),
            is_literal: self.is_literal.entered(),
            shift: self.shift.entered(),
            distance: self.distance.entered(),
            has_spacing: self.has_spacing.entered(),
            ..self
        }
    }

    // Paragraphs and headings begin in R, without a shift.
    #[inline(always)]
    fn reset(self) -> Context
        ensures { result ≡ begins.reset self }
    {
        Context {
            fonts: Setting::set_to(ROMAN),
            shift: Setting::set_to(0),
            ..self
        }
    }

    /// No paragraph is further in.
    #[inline(always)]
    pub fn flat(self) -> Context
        ensures { result ≡ begins.flat self }
    {
        Context {
            hang: 0,
            first: None,
            ..self
        }
    }

    /// A section (`SH`, `Sh`) begins, at the page's indent in columns.
    #[inline(always)]
    pub fn section_begun(self, page_indent: u32) -> Context
        ensures { result ≡ record (begins.subsection_begun page_indent self) { section = Other } }
    {
        Context {
            section: PageSection::Other,
            ..self.subsection_begun(page_indent)
        }
    }

    /// A subsection (`SS`, `Ss`) begins, at the page's indent in columns.
    #[inline(always)]
    pub fn subsection_begun(self, page_indent: u32) -> Context
        ensures { result ≡ begins.subsection_begun page_indent self }
    {
        Context {
            margin: page_indent,
            part: PagePart::Text,
            prevailing: PREVAILING,
            is_literal: Setting::set_to(false),
            ..self.reset().flat()
        }
    }

    /// A heading (of `SH`, `SS`, `Sh`, `Ss`) begins, at a column.
    #[inline(always)]
    pub fn heading_begun(self, column: u32) -> Context
        ensures { result ≡ begins.heading_begun column self }
    {
        Context {
            part: PagePart::Heading(column),
            fonts: Setting {
                value: Fonts {
                    font: Font::B,
                    former: Font::R,
                },
                is_set: self.fonts.is_set,
            },
            ..self
        }
    }

    /// A plain paragraph (`PP`, `LP`, `P`) begins.
    #[inline(always)]
    pub fn paragraph_begun(self) -> Context
        ensures { result ≡ record (begins.flat (begins.reset self)) { prevailing = begins.PREVAILING } }
    {
        Context {
            prevailing: PREVAILING,
            ..self.reset().flat()
        }
    }

    /// A paragraph begins whose text is this many columns, or the prevailing indent, further in (`TP`, `IP`). An indent that is given
    /// prevails from here on.
    #[inline(always)]
    pub fn indented_begun(self, columns: Option<i32>) -> Context
        ensures { result ≡ begins.indented_begun columns self }
    {
        let indent = columns.unwrap_or(self.prevailing);
        Context {
            prevailing: indent,
            hang: indent,
            ..self.reset().flat()
        }
    }

    // The first row is at the margin.
    #[inline(always)]
    fn first_at_margin(self) -> Context
        ensures { result ≡ begins.first_at_margin self }
    {
        Context {
            first: Some(self.margin),
            has_row: false,
            ..self
        }
    }

    /// An indented paragraph whose first row is at the margin begins (`HP`).
    #[inline(always)]
    pub fn hanging_begun(self, columns: Option<i32>) -> Context
        ensures { result ≡ begins.first_at_margin (begins.indented_begun columns self) }
    {
        self.indented_begun(columns).first_at_margin()
    }

    /// A tag (of `TP`, `TQ`) begins.
    #[inline(always)]
    pub fn tag_begun(self) -> Context
        ensures { result ≡ record (begins.first_at_margin self) { part = parts.Tag } }
    {
        Context {
            part: PagePart::Tag,
            ..self.first_at_margin()
        }
    }

    /// The words of a font macro (`B`, `I`, `SM`, `SB`) begin.
    #[inline(always)]
    pub fn font_begun(self, font: Font) -> Context
        ensures { result ≡ begins.font_begun font self }
    {
        Context {
            fonts: Setting {
                value: Fonts {
                    font,
                    former: self.fonts.value.font,
                },
                is_set: self.fonts.is_set,
            },
            ..self
        }
    }

    /// A relative margin (`RS`) begins, this many columns, or the prevailing indent, further in.
    #[inline(always)]
    pub fn margin_begun(self, columns: Option<i32>) -> Context
        ensures { result ≡ begins.margin_begun columns self }
    {
        let further = columns.unwrap_or(self.prevailing);
        Context {
            margin: hold(i64::from(self.margin) + i64::from(further)),
            prevailing: PREVAILING,
            ..self.flat()
        }
    }

    /// The margin, in columns, of the text of the open paragraph, without the shift of `in`.
    #[inline(always)]
    pub fn text_margin(&self) -> u32
        ensures { result ≡ begins.text_margin self.now }
    {
        hold(i64::from(self.margin) + i64::from(self.hang))
    }

    /// A display (`Bd`) begins, this many columns further in than the text; its rows are kept as they are, or filled.
    pub fn display_begun(self, is_literal: bool, offset: i32) -> Context
        ensures { result ≡ begins.display_begun is_literal offset self }
    {
        Context {
            margin: further_in(self.margin, self.hang, offset),
            is_literal: Setting {
                value: is_literal,
                is_set: self.is_literal.is_set,
            },
            ..self.flat()
        }
    }

    /// A block of words in a font (`Bf`) begins, where it names one.
    pub fn font_if_given(self, font: Option<Font>) -> Context
        ensures { result ≡ begins.font_if_given font self }
    {
        match font {
            Some(font) => self.font_begun(font),
            None => self,
        }
    }

    /// A reference to a work (`Rs`) begins.
    pub fn reference_begun(self) -> Context
        ensures { result ≡ record self { fields = Empty } }
    {
        Context {
            fields: SeriesSoFar::Empty,
            ..self
        }
    }

    /// A function (`Fo`) begins.
    pub fn function_begun(self) -> Context
        ensures { result ≡ record self { arguments = Empty } }
    {
        Context {
            arguments: SeriesSoFar::Empty,
            ..self
        }
    }

    /// The name of the manual (`Nm`) begins a row of the SYNOPSIS, at the margin.
    pub fn name_begun(self) -> Context
        ensures { result ≡ begins.first_at_margin (begins.flat self) }
    {
        self.flat().first_at_margin()
    }

    /// Its words have ended, and later rows are this many columns further in.
    pub fn name_ended(self, columns: u16) -> Context
        ensures { result ≡ begins.name_ended columns self }
    {
        Context {
            hang: i32::from(columns),
            ..self
        }
    }

    /// A row that is alone (`D1`, `Dl`) begins, 6 columns further in.
    #[inline(always)]
    pub fn one_line_begun(self) -> Context
        ensures { result ≡ record (begins.flat self) { margin = begins.hold (pos self.margin +ℤ (self.hang +ℤ pos 6)) } }
    {
        let further = i64::from(self.hang) + ONE_LINE;
        Context {
            margin: hold(i64::from(self.margin) + further),
            ..self.flat()
        }
    }

    /// A synopsis (`SY`) begins whose command's name is at a margin, with a hang, in columns.
    #[inline(always)]
    pub fn syntax_begun(self, at: u32, hang: u32) -> Context
        ensures { result ≡ begins.syntax_begun at hang self }
    {
        Context {
            margin: hold(i64::from(at) + i64::from(hang)),
            ..self.flat()
        }
    }
}
