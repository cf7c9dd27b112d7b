//! The font in use and the former one (roff(7), `ft` and `\f`).

ghost use Rattle.std.specs.Prelude.{◌≡◌};
ghost use Rattle.page_core_escapes.specs.laws.Views.{face_view, token_view};
ghost use Rattle.page_scopes_words.specs.Fonts.{with_font, face_fonts, fonts_after, token_fonts, token_sets};

use crate::settings::Setting;
use page_core_base::Font;
use page_core_escapes::{Escape, FontName, Token};

/// The font in use, and the former one.
#[derive(Clone, Copy)]
pub struct Fonts {
    pub font: Font,
    pub former: Font,
}

/// The fonts of a paragraph.
pub const ROMAN: Fonts = Fonts {
    font: Font::R,
    former: Font::R,
};

impl Fonts {
    // The fonts with another font in use.
    fn with(self, font: Font) -> Fonts
        ensures { result ≡ with_font font self }
    {
        Fonts {
            font,
            former: self.font,
        }
    }

    /// The fonts after a font is asked for by its name. The fonts of names are a table, so that the compiler needs no jump.
    #[inline(always)]
    pub fn named(self, name: FontName<'_>) -> Fonts
        ensures { result ≡ face_fonts (face_view name.entry) self }
    {
        let font = match name {
            FontName::I => Font::I,
            FontName::B => Font::B,
            FontName::BI => Font::BI,
            FontName::R | FontName::Former | FontName::Unknown(_) => Font::R,
        };
        match name {
            FontName::Former => self.with(self.former),
            FontName::Unknown(_) => self,
            _ => self.with(font),
        }
    }

    /// The fonts after a token.
    #[inline(always)]
    pub fn after(self, token: &Token<'_>) -> Fonts
        ensures { result ≡ token_fonts (token_view token.now) self }
    {
        match *token {
            Token::Escaped {
                meaning: Escape::Font(name),
                ..
            } => self.named(name),
            _ => self,
        }
    }
}

// Whether a token asks for a font that there is.
fn token_sets(token: &Token<'_>) -> bool
    ensures { result ≡ token_sets (token_view token.now) }
{
    match *token {
        Token::Escaped {
            meaning: Escape::Font(name),
            ..
        } => name.is_known(),
        _ => false,
    }
}

/// The fonts after a token, and whether they were set.
#[inline(always)]
pub fn fonts_after(token: &Token<'_>, fonts: Setting<Fonts>) -> Setting<Fonts>
    ensures { result ≡ fonts_after (token_view token.now) fonts }
{
    Setting {
        value: fonts.value.after(token),
        is_set: fonts.is_set || token_sets(token),
    }
}
