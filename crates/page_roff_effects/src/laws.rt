//! Laws of what the parts of a source do.

ghost use Rattle.std.specs.Prelude.{ℕ, List};
ghost use Rattle.page_core_base.specs.declared.limits.TheConstants.{EXPAND};
ghost use Rattle.page_roff_blocks.specs.machine.Languages.{language};
ghost use Rattle.page_roff_blocks.specs.machine.Machine.{IsFront};
ghost use Rattle.page_roff_blocks.specs.laws.Spent.{Spends};
ghost use Rattle.page_roff_effects.specs.machine.Acting.{effects, expansions_of, in_front};
ghost use Rattle.page_roff_effects.specs.States.{Given};

/// A line that is taken makes no more than `EXPAND` interpolations.
pub fn expansions_law()
    ensures { (units : List ℕ → ℕ) → Spends expansions_of EXPAND (effects units) }
{}

/// What was given before decides nothing.
pub fn given_law()
    ensures { (units : List ℕ → ℕ) (given : List Given) → IsFront (in_front given) (language (effects units)) }
{}
