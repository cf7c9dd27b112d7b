//! Where names were found last.
ghost use Rattle.std.specs.Prelude.{◌<◌};

// How many places are kept.
const PLACES: usize = 64;

/// Where names were found last: each name has one of these places, which it shares with others. What is there may have changed since, so
/// whoever takes a place looks whether the name is there.
#[derive(Drop)]
pub(crate) struct Places {
    found: [usize; PLACES],
}

// Which of the places is that of a name.
fn slot(name: &[u8]) -> usize
    ensures { result < PLACES }
{
    match name {
        [] => 0,
        [byte] => *byte as usize % PLACES,
        [first, .., last] => (*first as usize * 5 + *last as usize + name.len() % PLACES) % PLACES,
    }
}

impl Places {
    /// No name was found yet.
    pub(crate) fn new() -> Places {
        Places { found: [0; PLACES] }
    }

    /// Where a name was found last, or anywhere else.
    pub(crate) fn of(&self, name: &[u8]) -> usize {
        self.found[slot(name)]
    }

    /// A name was found here.
    pub(crate) fn set(&mut self, name: &[u8], place: usize) {
        self.found[slot(name)] = place;
    }
}
