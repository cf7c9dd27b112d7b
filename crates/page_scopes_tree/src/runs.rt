//! A search among open scopes, from the inside (man(7), mdoc(7)). They are in a list with the outermost first.

ghost use Rattle.std.specs.Prelude.{◌≡◌, ◌≤◌, length, reverse};
ghost use Rattle.std.specs.List.{prefix_len};
ghost use Rattle.page_scopes_tree.specs.laws.Views.{labels};
ghost use Rattle.page_scopes_tree.specs.machine.Nestings.{run_takes};

use crate::Scope;
use page_scopes_labels::{Explicit, Label};

/// Which of the innermost scopes are counted.
#[derive(Clone, Copy)]
pub(crate) enum Run {
    /// Those inside an item.
    InsideItem,
    /// Those inside a list.
    InsideList,
    /// Those inside a list whose items have heads.
    InsideHeadedList,
    /// Those that end with a line.
    Lines,
    /// Enclosures that end with a line.
    Enclosures,
    /// Those inside a section.
    InsideSection,
    /// Those inside what parts paragraphs from those around it.
    InsideLevel,
    /// Those inside a paragraph.
    InsideParagraph,
    /// Those inside a scope of a closer.
    InsideExplicit(Explicit),
}

impl Run {
    // Whether a scope is one of them.
    #[inline(always)]
    fn takes(self, label: Label) -> bool
        ensures { result ≡ run_takes self label }
    {
        match self {
            Run::InsideItem => !label.is_item(),
            Run::InsideList => !label.is_list(),
            Run::InsideHeadedList => !label.is_headed_list(),
            Run::Lines => label.is_line(),
            Run::Enclosures => label.is_enclosure(),
            Run::InsideSection => !label.is_section(),
            Run::InsideLevel => !label.is_level(),
            Run::InsideParagraph => !label.is_paragraph(),
            Run::InsideExplicit(explicit) => !label.is_explicit(explicit),
        }
    }
}

/// How many of the innermost scopes a run goes over.
#[inline(always)]
pub(crate) fn run_len<B>(run: Run, scopes: &[Scope<Label, B>]) -> usize
    ensures value { result ≡ prefix_len (run_takes run) (labels (reverse scopes.now)) }
    ensures within { result ≤ length scopes.now }
{
    let mut outer = scopes.len();
    while outer > 0 && run.takes(scopes[outer - 1].label) {
        outer -= 1;
    }
    scopes.len() - outer
}
