//! Texts of which all bytes are copied (roff(7), "Escape sequences").

ghost use Rattle.std.specs.Prelude.{◌≡◌, IsTrue};
ghost use Rattle.page_roff_parts.specs.machine.Verbatim.{IsFree, IsVerbatim, may_call};

use memchr::memchr;

/// Whether a letter after a backslash may begin an interpolation.
pub(crate) fn may_call(letter: u8) -> bool
    ensures { result ≡ may_call letter }
{
    matches!(letter, b'*' | b'n' | b'$' | b'w')
}

// Whether no interpolation begins in a text.
fn is_free(text: &[u8]) -> bool
    ensures { IsTrue result → IsFree text.now }
{
    let mut at = 1;
    while at < text.len() {
        if text[at - 1] == b'\\' && may_call(text[at]) {
            return false;
        }
        at += 1;
    }
    true
}

/// Whether a text is seen to be its own value: then nothing of it has to be copied. In copy mode no backslash may be in it.
pub fn is_verbatim(text: &[u8], copy: bool) -> bool
    ensures { IsTrue result → IsVerbatim copy text.now }
{
    if copy {
        memchr(b'\\', text).is_none()
    } else {
        is_free(text)
    }
}
