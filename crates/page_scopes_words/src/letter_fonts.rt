//! The fonts of letters that are all in one (roff(7), `\f`).

ghost use Rattle.std.specs.Prelude.{◌≡◌, ◌≤◌, replicate};

use page_core_base::Font;

/// How many letters a call takes at most.
pub const ROOM: usize = 256;

static ROMAN: [Font; 256] = [Font::R; 256];

static ITALIC: [Font; 256] = [Font::I; 256];

static BOLD: [Font; 256] = [Font::B; 256];

static BOLD_ITALIC: [Font; 256] = [Font::BI; 256];

/// The fonts of a count of letters in one font.
#[inline(always)]
pub fn equal_fonts(font: Font, count: usize) -> &'static [Font]
    requires { count ≤ ROOM }
    ensures { result.now ≡ replicate count font }
{
    match font {
        Font::R => &ROMAN[..count],
        Font::I => &ITALIC[..count],
        Font::B => &BOLD[..count],
        Font::BI => &BOLD_ITALIC[..count],
    }
}
