//! How much of a text is kept.

ghost use Rattle.std.specs.Prelude.{◌≡◌, ◌≤◌, ◌<◌, length};
ghost use Rattle.page_roff_values.specs.Values as laying;

// The last place up to `room` where a character ends.
fn character_end(text: &[u8], room: usize) -> usize
    requires { room < length text.now }
    ensures value { result ≡ laying.character_end text.now room }
    ensures within { result ≤ room }
{
    let mut end = room;
    while 0 < end && 128 <= text[end] && text[end] < 192 {
        end -= 1;
    }
    end
}

/// How many bytes of a text are kept where there is room for a count of them: all, or up to a character's end.
pub(crate) fn kept(text: &[u8], room: usize) -> usize
    ensures value { result ≡ laying.kept text.now room }
    ensures within { result ≤ room }
    ensures front { result ≤ length text.now }
{
    if text.len() <= room {
        text.len()
    } else {
        character_end(text, room)
    }
}
