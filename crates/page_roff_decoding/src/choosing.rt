//! What decides how a line is decoded (mandoc(1), -K).
ghost use Rattle.std.specs.Prelude.{◌≡◌};
ghost use Rattle.std.specs.List.{list_all};
ghost use Rattle.page_roff_decoding.specs.Decoding.{is_printable, choice_of};

use crate::characters::{is_printable, sequence_len};
use page_core_base::Encoding;

/// Whether each byte of a text is a printable one of ASCII or a tab, so that it's the same under each
/// encoding.
pub fn is_printable_ascii(text: &[u8]) -> bool
    ensures { result ≡ list_all is_printable text.now }
{
    let mut printable = true;
    for byte in text {
        printable &= is_printable(*byte);
    }
    printable
}

/// What the first byte above 0x7F of a text decides; [`Encoding::Auto`] where there is none.
pub fn choose(text: &[u8]) -> Encoding
    ensures { result ≡ choice_of text.now }
{
    for at in 0..text.len() {
        if text[at] >= 0x80 {
            return if sequence_len(&text[at..]) == 0 {
                Encoding::Latin1
            } else {
                Encoding::Utf8
            };
        }
    }
    Encoding::Auto
}
