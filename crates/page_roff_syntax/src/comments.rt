//! The bytes of a line before a backslash, and before its comment (roff(7), "Comments").

ghost use Rattle.std.specs.Prelude.{◌≡◌, ◌≤◌, length, take};
ghost use Rattle.std.specs.List.{prefix_len};
ghost use Rattle.page_roff_syntax.specs.laws.Views.{is_plain};
ghost use Rattle.page_roff_syntax.specs.LineForms.{begins_comment, without_comment};

use crate::pairs::lacks_pair;
use memchr::memchr;

/// The number of a text's bytes before its first backslash.
pub fn plain_len(text: &[u8]) -> usize
    ensures value { result ≡ prefix_len is_plain text.now }
    ensures within { result ≤ length text.now }
{
    memchr(b'\\', text).unwrap_or(text.len())
}

/// Whether a backslash and this byte begin a comment.
pub fn begins_comment(byte: u8) -> bool
    ensures { result ≡ begins_comment byte }
{
    byte == b'"' || byte == b'#'
}

/// The number of a line's bytes up to its comment.
pub fn uncommented_len(line: &[u8]) -> usize
    ensures value { take result line.now ≡ without_comment line.now }
    ensures within { result ≤ length line.now }
{
    if lacks_pair(line, b'"', b'#') {
        return line.len();
    }
    let mut place = plain_len(line);
    while place + 1 < line.len() {
        if begins_comment(line[place + 1]) {
            return place;
        }
        place += 2;
        place += plain_len(&line[place..]);
    }
    line.len()
}
