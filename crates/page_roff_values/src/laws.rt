//! Laws of expansion.

ghost use Rattle.std.specs.Prelude.{ℕ, List};
ghost use Rattle.page_roff_values.specs.Values.{Surroundings};
ghost use Rattle.page_roff_values.specs.Values as laying;
ghost use Rattle.page_roff_values.specs.laws.Views as laying_laws;

/// No line makes more than `EXPAND` interpolations, and none is longer than `LINE`.
pub fn is_bounded()
    ensures { (env : Surroundings) (depth : ℕ) (text : List ℕ) (s : laying.TextSoFar) → laying_laws.IsWithin s
        → laying_laws.IsWithin (laying.value env depth text s).edge }
{}
