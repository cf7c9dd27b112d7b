//! Laws of arguments (roff(7), "Macro syntax").

ghost use Rattle.std.specs.Prelude.{◌≡◌, ◌<◌, ◌+◌, ℕ, List, ◌∷◌, length, drop, get_or, false};
ghost use Rattle.std.specs.List.{prefix_len};
ghost use Rattle.page_roff_syntax.specs.Arguments.{arguments, argument_len, first_argument, is_blank};

/// The arguments of a text are its first one and those of what follows it, and blanks before it make no difference: the number of parts up to
/// which their definition reads is no limit.
pub fn arguments_law()
    ensures first { (column : ℕ) (text : List ℕ) → 0 < length text → is_blank (get_or text 0 0) ≡ false
        → arguments column text ≡ first_argument column text ∷ arguments (column + argument_len text) (drop (argument_len text) text) }
    ensures blanks { (column : ℕ) (text : List ℕ)
        → arguments column text ≡ arguments (column + prefix_len is_blank text) (drop (prefix_len is_blank text) text) }
{}
