//! Where texts are cut.

ghost use Rattle.std.specs.Prelude.{◌≡◌, ◌≤◌, ◌<◌, length, drop};
ghost use Rattle.page_roff_parts.specs.Parts as reading;

/// A text after some bytes of it.
pub fn after(text: &[u8], bytes: usize) -> &[u8]
    requires { bytes ≤ length text.now }
    ensures { result.now ≡ drop bytes text.now }
{
    &text[bytes..]
}

// A value without a lone backslash at its end: all of it is read.
fn read_without_lone(text: &[u8]) -> &[u8]
    ensures value { result.now ≡ reading.without_lone text.now }
{
    let mut at = 0;
    while at + 1 < text.len() {
        if text[at] == b'\\' {
            at += 2;
        } else {
            at += 1;
        }
    }
    if at == text.len() {
        return text;
    }
    if text[at] == b'\\' { &text[..at] } else { text }
}

/// A value without a lone backslash at its end. Most values end with another byte.
pub fn without_lone(text: &[u8]) -> &[u8]
    ensures value { result.now ≡ reading.without_lone text.now }
{
    match text {
        [.., last] if *last == b'\\' => read_without_lone(text),
        _ => text,
    }
}
