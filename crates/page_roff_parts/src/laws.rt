//! Laws of parts.

ghost use Rattle.std.specs.Prelude.{◌≡◌, ℕ, Bool, List, ◌∷◌};
ghost use Rattle.page_roff_parts.specs.Parts.{parts, seen};

/// The parts of a text are its first one and those of what follows it: the number of parts up to which their definition reads is no limit.
pub fn parts_law()
    ensures { (copy : Bool) (byte : ℕ) (bytes : List ℕ)
        → parts copy (byte ∷ bytes) ≡ (seen copy (byte ∷ bytes)).part ∷ parts copy (seen copy (byte ∷ bytes)).rest }
{}
