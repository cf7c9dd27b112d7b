//! What a text line of a page may hold.

ghost use Rattle.std.specs.Prelude.{◌≡◌, ◌↔◌, IsTrue};
ghost use Rattle.page_core_base.specs.Texts.{IsLine, has_no_control, is_no_control};

use crate::LINE;

/// Whether a text may be a line of a page: UTF-8, at most [`LINE`] bytes, and no control character but the tab.
pub fn is_line(text: &[u8]) -> bool
    ensures { IsTrue result ↔ IsLine text.now }
{
    text.len() <= LINE && has_no_control(text) && std::str::from_utf8(text).is_ok()
}

/// Whether there is no control character but the tab in a text. Those above ASCII are the byte 0xC2 and one below 0xA0.
pub fn has_no_control(text: &[u8]) -> bool
    ensures { result ≡ has_no_control 0 text.now }
{
    let mut before = 0u8;
    for byte in text {
        if !is_no_control(before, *byte) {
            return false;
        }
        before = *byte;
    }
    true
}

// Whether a byte that follows another belongs to no control character but the tab.
fn is_no_control(before: u8, byte: u8) -> bool
    ensures { result ≡ is_no_control before byte }
{
    if byte == b'\t' {
        return true;
    }
    byte >= b' ' && byte != 0x7f && !(before == 0xc2 && byte < 0xa0)
}
