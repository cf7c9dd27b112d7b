//! What holds of the parts and the arguments of every line (mdoc(7), "MACRO SYNTAX").

ghost use Rattle.std.specs.Prelude.{◌≡◌, ℕ, ◌+◌, ◌-◌, ◌*◌, ◌≤◌, ◌==◌, Bool, true, List, ◌∷◌, length, take, drop, Option, None};
ghost use Rattle.std.specs.List.{list_all};
ghost use Rattle.page_roff_syntax.specs.declared.quotes.Argument.{Argument};
ghost use Rattle.page_sets_mdoc_lines.specs.declared.macros.Inline.{Inline};
ghost use Rattle.page_sets_mdoc_lines.specs.laws.Views.{arguments_after, rest_parts, parts_arguments};
ghost use Rattle.page_sets_mdoc_lines.specs.Parts.{parts, front_len};

/// The words of a macro are at the front of what is left of its line, and after them the line goes on with the next
/// call or with its last delimiters. The parts hold each argument once, in the order of the line.
pub fn parts_law()
    ensures words { (parsed : Bool) (arguments : List (Argument (List ℕ))) →
        take (length (parts None parsed arguments).words) arguments ≡ (parts None parsed arguments).words }
    ensures rest { (parsed : Bool) (arguments : List (Argument (List ℕ))) →
        parts None true (drop (length (parts None parsed arguments).words) arguments) ≡ rest_parts (parts None parsed arguments) }
    ensures whole { (begun : Option Inline) (parsed : Bool) (arguments : List (Argument (List ℕ))) →
        parts_arguments (parts begun parsed arguments) ≡ arguments }
{}

/// How many arguments come before the closing delimiters at the end, one argument further on.
pub fn front_law()
    ensures all { (closing : Argument (List ℕ) → Bool) (arguments : List (Argument (List ℕ))) →
        list_all closing arguments ≡ (front_len closing arguments == 0) }
    ensures less { (closing : Argument (List ℕ) → Bool) (argument : Argument (List ℕ)) (arguments : List (Argument (List ℕ))) →
        front_len closing arguments ≡ front_len closing (argument ∷ arguments) - 1 }
{}

/// A line's arguments are few: each but the last has two bytes, the blank after it or its quotes among them.
pub fn few_law()
    ensures few { (text : List ℕ) (start : ℕ) → 2 * length (arguments_after start text) ≤ length text - start + 1 }
{}
