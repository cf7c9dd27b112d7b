//! Texts of printable ASCII.

ghost use Rattle.std.specs.Prelude.{◌≡◌, ◌≤◌, ◌<◌, length};
ghost use Rattle.page_core_base.specs.laws.Views.{is_printable_ascii};

// Whether bytes are printable ASCII. All of them are read, so that the compiler can test many at once.
#[inline(always)]
fn are_printable(bytes: &[u8]) -> bool
    ensures { result ≡ is_printable_ascii bytes.now }
{
    let mut all = true;
    for byte in bytes {
        all &= b' ' <= *byte && *byte <= b'~';
    }
    all
}

// Whether bytes are printable ASCII, tested in groups of one size, for which the compiler needs no loop. The last group may overlap the one
// before.
#[inline(always)]
fn groups_printable<const GROUP: usize>(bytes: &[u8]) -> bool
    requires some { 0 < GROUP }
    requires long { GROUP ≤ length bytes.now }
    ensures { result ≡ is_printable_ascii bytes.now }
{
    let last = bytes.len() - GROUP;
    let mut at = 0;
    while at < last {
        if !are_printable(&bytes[at..at + GROUP]) {
            return false;
        }
        at += GROUP;
    }
    are_printable(&bytes[last..])
}

/// Whether bytes are printable ASCII, of a column each: in the largest groups that have room in the text.
#[inline(always)]
pub fn is_printable_ascii(bytes: &[u8]) -> bool
    ensures { result ≡ is_printable_ascii bytes.now }
{
    match bytes.len() {
        0..8 => are_printable(bytes),
        8..16 => groups_printable::<8>(bytes),
        _ => groups_printable::<16>(bytes),
    }
}
