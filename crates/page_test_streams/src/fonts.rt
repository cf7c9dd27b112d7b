//! Fonts by their letters.

use page_core_base::Font;

/// The font that a letter stands for.
pub fn font_named(letter: Option<u8>) -> Font {
    match letter {
        Some(b'B') => Font::B,
        Some(b'I') => Font::I,
        Some(b'X') => Font::BI,
        _ => Font::R,
    }
}
