//! The text that is edited.

/// A change: `== N TEXT`, the number of a physical line, from 1, and what it is now.
pub(crate) fn change_of(line: &str) -> Option<(u32, &str)> {
    let (number, text) = line.strip_prefix("== ")?.split_once(' ')?;
    Some((number.parse().ok()?, text))
}

/// Where a physical line begins, and where it ends, before its line feed; both are the end of the text, where it has no such line.
pub(crate) fn line_at(text: &[u8], number: u32) -> (usize, usize) {
    let mut current: u32 = 1;
    let mut begin = 0;
    for (place, byte) in text.iter().enumerate() {
        if *byte == b'\n' {
            if current == number {
                return (begin, place);
            }
            current = current.saturating_add(1);
            begin = place.saturating_add(1);
        }
    }
    (text.len(), text.len())
}
