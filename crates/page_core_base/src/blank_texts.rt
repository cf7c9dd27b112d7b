//! Texts of blanks alone.

ghost use Rattle.std.specs.Prelude.{◌≡◌, ◌≤◌, replicate};

/// The bytes of the longest text of blanks: more than the widest `\h` has (roff(7), `\h`).
pub const BLANK_TEXT: usize = 1000;

static BLANKS: [u8; 1000] = [b' '; 1000];

/// The text of a count of blanks, at most [`BLANK_TEXT`].
pub fn blank_text(count: usize) -> &'static [u8]
    requires { count ≤ BLANK_TEXT }
    ensures { result.now ≡ replicate count 32 }
{
    &BLANKS[..count]
}
