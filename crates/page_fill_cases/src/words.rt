//! Words and characters that are taken at once.

ghost use Rattle.std.specs.Prelude.{◌≡◌};
ghost use Rattle.page_core_base.specs.laws.Views.{is_printable_ascii};

use page_core_base::{Fault, Font, NoteSink, RowSink};
use page_fill::Filler;
use page_test_streams::font_named;

fn fonts_named(letters: &[u8]) -> [Font; 32] {
    let mut fonts = [Font::R; 32];
    for at in 0..32 {
        fonts[at] = font_named(letters.get(at).copied());
    }
    fonts
}

// Whether each byte is a printable character of ASCII, of which words that are taken at once consist.
fn is_printable_ascii(text: &[u8]) -> bool
    ensures { result ≡ is_printable_ascii text.now }
{
    text.iter().all(|byte| *byte >= b' ' && *byte <= b'~')
}

/// Gives words after so many blanks, in the fonts of letters, and answers whether they are taken.
pub(crate) fn give_words<R: RowSink, N: NoteSink>(
    filler: &mut Filler,
    text: &str,
    rows: &mut R,
    notes: &mut N,
) -> Result<bool, Fault> {
    let (blanks, text) = text.split_once(' ').unwrap_or((text, ""));
    let (letters, words) = text.split_once(' ').unwrap_or((text, ""));
    let (blanks, words) = (blanks.parse().unwrap_or(0), words.as_bytes());
    let fonts = fonts_named(letters.as_bytes());
    if !is_printable_ascii(words) || !filler.takes_words(blanks, words) {
        return Ok(false);
    }
    if !words.is_empty() && words.len() <= 32 {
        filler.words(blanks, words, &fonts[..words.len()], rows, notes)?;
    }
    Ok(true)
}

/// Gives characters of a kept row in a font, and shows whether they are taken.
pub(crate) fn show_kept(rt: &HostRuntime, filler: &mut Filler, text: &str) {
    let (font, characters) = text.split_once(' ').unwrap_or((text, ""));
    let font = font_named(font.as_bytes().first().copied());
    let word = if filler.take_kept(characters.as_bytes(), font) {
        "taken"
    } else {
        "not taken"
    };
    let _ = print!(rt; " -> {word}");
}
