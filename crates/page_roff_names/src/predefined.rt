//! The strings that are there before any is defined (roff(7)).

ghost use Rattle.std.specs.Prelude.{◌≤◌, length, MatchOption};
ghost use Rattle.page_roff_names.specs.Names.{predefined};
ghost use Rattle.page_roff_names.specs.laws.Views.{Lends};

/// The value of a predefined string.
#[tactic(auto, unfolding(crate::specs::Names::predefined))]
pub(crate) fn predefined(name: &[u8]) -> Option<&'static [u8]>
    ensures is { Lends result (predefined name.now) }
    ensures short { MatchOption result (Unit {0}) (λ value. length value.now ≤ 4) }
{
    match name {
        b"R" => Some(b"\\(rg"),
        b"Tm" => Some(b"(Tm)"),
        b"S" => Some(b""),
        b"lq" => Some(b"\\(lq"),
        b"rq" => Some(b"\\(rq"),
        b"q" => Some(b"\\(dq"),
        b"Ba" => Some(b"|"),
        b"Am" => Some(b"&"),
        b"Lt" => Some(b"<"),
        b"Gt" => Some(b">"),
        b"Ne" => Some(b"\\(!="),
        b"Le" => Some(b"\\(<="),
        b"Ge" => Some(b"\\(>="),
        b"Pm" => Some(b"\\(+-"),
        _ => None,
    }
}
