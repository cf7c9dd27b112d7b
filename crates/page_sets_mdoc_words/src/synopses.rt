//! What a macro does in the section SYNOPSIS, before its words and after them (mdoc(7), "Cd", "Fd", "Fn", "Fo", "Ft", "Nm" and
//! "Vt").

ghost use Rattle.std.specs.Prelude.{◌≡◌};
ghost use Rattle.page_sets_mdoc_words.specs.Sentences as synopses;

use page_sets_lines::SynopsisStep;
use page_sets_mdoc_lines::{Inline, Pair};

// Whether a macro begins a row where it begins a line.
fn begins_row(inline: Inline) -> bool
    ensures { result ≡ synopses.begins_row inline }
{
    matches!(
        inline,
        Inline::TypeName | Inline::Function | Inline::Opens(Pair::Function)
    )
}

// A step, or none.
fn step_if(test: bool, step: SynopsisStep) -> Option<SynopsisStep>
    ensures { result ≡ synopses.step_if test step }
{
    if test { Some(step) } else { None }
}

/// What comes before the words of a macro, the first of its line or not, which has a word that is no delimiter or not.
pub(crate) fn before_words(first: bool, inline: Inline, has_real: bool) -> Option<SynopsisStep>
    ensures { result ≡ synopses.before_words first inline has_real }
{
    match inline {
        Inline::Declaration => step_if(has_real, SynopsisStep::Break),
        Inline::Name => step_if(first, SynopsisStep::NameBegins),
        _ => step_if(first && begins_row(inline) && has_real, SynopsisStep::Break),
    }
}

/// What comes after them.
pub(crate) fn after_words(first: bool, inline: Inline, has_real: bool) -> Option<SynopsisStep>
    ensures { result ≡ synopses.after_words first inline has_real }
{
    match inline {
        Inline::Declaration => step_if(has_real, SynopsisStep::Break),
        Inline::Name => step_if(first, SynopsisStep::NameEnds),
        _ => None,
    }
}
