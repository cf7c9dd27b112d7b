//! What may be a field of an index (makewhatis(8)).

ghost use Rattle.std.specs.Prelude.{◌≡◌};
ghost use Rattle.std.specs.List.{list_any};
ghost use Rattle.page_engine_index.specs.Entries.{is_tab};
ghost use Rattle.page_engine_index.specs.Fields.{is_field};

use page_core_base::is_line;

/// The bytes of a field at most, where it is the name of a file.
const FIELD: usize = 4_096;

/// Whether a file's name can be a field of an index: at most 4,096 bytes, and no control character, the tab included.
#[tactic(auto, unfolding(crate::specs::Fields::is_field))]
pub fn is_field(text: &str) -> bool
    ensures { result ≡ is_field text.now }
{
    text.len() <= FIELD && is_line(text.as_bytes()) && !has_tab(text.as_bytes())
}

// Whether a tab is in a text.
fn has_tab(text: &[u8]) -> bool
    ensures { result ≡ list_any is_tab text.now }
{
    text.iter().any(|byte| *byte == b'\t')
}
