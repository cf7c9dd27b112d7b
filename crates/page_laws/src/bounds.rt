//! Laws that bounds are no limits: of the steps that a definition counts, and of the room that a name or a count has.

ghost use Rattle.std.specs.Prelude.{◌≡◌, ◌≢◌, ◌≤◌, ◌<◌, ◌+◌, ◌-◌, ◌^◌, ◌++◌, ℕ, ℤ, Bool, List, [], ◌∷◌, None, MatchOption, false, length, take, drop, option_map, encode_utf8, if◌then◌else◌};
ghost use Rattle.std.specs.Str.{IsUtf8};
ghost use Rattle.page_core_base.specs.declared.page_settings.Output.{Output};
ghost use Rattle.page_core_escapes.specs.Meanings.{escape_of};
ghost use Rattle.page_core_escapes.specs.Lengths.{content_len};
ghost use Rattle.page_core_numbers.specs.Columns.{printed_escape, printed_text};
ghost use Rattle.page_core_numbers.specs.Expressions.{Read, after_operation, expression_within, first, next_operator};
ghost use Rattle.page_core_numbers.specs.declared.scales.Scale.{Scale as AnyScale};
ghost use Rattle.page_core_tables.specs.Glyphs.{char_printed, glyph_printed};
ghost use Rattle.page_core_base.specs.Limits.{NAME};
ghost use Rattle.page_roff_effects.specs.States.{sum_of_counts};
ghost use Rattle.page_roff_source.specs.Runs.{SourceLine, first_edge, done as done_lines};
ghost use Rattle.page_roff_syntax.specs.Arguments.{argument_name, argument_value};
ghost use Rattle.page_roff_syntax.specs.declared.quotes.Argument.{Argument as AnyArgument};
ghost use Rattle.page_scopes_phrases.specs.LineWords.{cell, cells, first_part, has_tab, other_cells, span};
ghost use Rattle.page_scopes_phrases.specs.Phrases.{followed_by};
ghost use Rattle.page_scopes_phrases.specs.declared.formatting.Formatting.{Formatting as AnyFormatting};
ghost use Rattle.page_scopes_phrases.specs.declared.phrases.Phrase.{Phrase as AnyPhrase};
ghost use Rattle.page_laws.specs.Contents.{content_from};
ghost use Rattle.page_laws.specs.Operations.{done, operand_of};

/// The content of a quoted argument ends where what is first in it says, or where the rest says: the number of steps in its definition is no limit
/// (roff(7), "Escape sequences").
pub fn content_law()
    ensures none { (pairs : Bool) (delimiter : List ℕ) → content_len pairs delimiter [] ≡ None }
    ensures first { (pairs : Bool) (delimiter : List ℕ) (byte : ℕ) (bytes : List ℕ)
        → content_len pairs delimiter (byte ∷ bytes) ≡ content_from pairs delimiter byte bytes }
{}

/// A text prints what the character or the escape at its front prints, and then what the rest prints: the number of steps in its definition is
/// no limit (mandoc_char(7); roff(7), "Escape sequences").
pub fn printed_law()
    ensures none { (output : Output) → printed_text output [] ≡ [] }
    ensures character { (output : Output) (c : ℕ) (rest : List ℕ) → IsUtf8 (encode_utf8 c ++ rest) → c ≢ 92
        → printed_text output (encode_utf8 c ++ rest) ≡ (char_printed output c).characters ++ printed_text output rest }
    ensures escape { (output : Output) (rest : List ℕ) → IsUtf8 (92 ∷ rest)
        → printed_text output (92 ∷ rest) ≡ printed_escape output (escape_of false (92 ∷ rest)).0
        ++ printed_text output (drop (escape_of false (92 ∷ rest)).1 (92 ∷ rest)) }
{}

/// The operations of an expression go on as long as an operator follows: the number of steps in their definition is no limit (roff(7), "Numerical
/// expressions"). `room` parentheses more may be open.
pub fn operations_law()
    ensures first { (room : ℕ) (scale : AnyScale) (text : List ℕ)
        → expression_within room scale text ≡ done room scale (first (operand_of room scale text)) }
    ensures next { (room : ℕ) (scale : AnyScale) (so_far : Read ℤ) → MatchOption (next_operator so_far.ends so_far.rest)
        (done room scale so_far ≡ so_far)
        (λ found. done room scale so_far ≡ done room scale (after_operation so_far found.0 (operand_of room scale found.1))) }
{}

/// A text in the columns of a list is its first cell, and then the cells after its first tab, where it has one: the number of steps in its definition is no
/// limit (mdoc(7), `Bl -column`).
pub fn cells_law()
    ensures { (line : ℕ) (phrase : AnyPhrase (List ℕ)) (state : AnyFormatting) → cells line phrase state
        ≡ (if has_tab phrase
        then followed_by (first_part (span phrase) line phrase state) (cells line (other_cells (span phrase) phrase))
        else cell line phrase state) }
{}

/// A name within its limit is all that its argument says, and one above it stays above it: the room of a name leaves nothing out that makes a difference
/// (roff(7), "ds", "nr", "de").
pub fn names_law()
    ensures short { (argument : AnyArgument (List ℕ)) → length (argument_value argument) ≤ NAME
        → argument_name argument ≡ argument_value argument }
    ensures long { (argument : AnyArgument (List ℕ)) → NAME < length (argument_value argument)
        → NAME < length (argument_name argument) }
{}

/// The count of interpolations in a page never comes to the greatest number of 64 bits, and below that a sum of counts is the plain sum.
pub fn expansions_law()
    ensures sum { (a b : ℕ) → a < 2 ^ 64 → sum_of_counts a b < 2 ^ 64 - 1 → sum_of_counts a b ≡ a + b }
    ensures page { (output : Output) (lines : List SourceLine) → length lines ≤ 2 ^ 31
        → (done_lines (first_edge output) lines).memory.expansions < 2 ^ 64 - 1 }
{}

/// The first 64 bytes of a glyph's name say what it prints, and are all that a message shows of it: to keep no more leaves nothing out (mandoc_char(7)).
pub fn glyphs_law()
    ensures characters { (output : Output) (name : List ℕ) → (glyph_printed output (take 64 name)).characters ≡ (glyph_printed output name).characters }
    ensures unknown { (output : Output) (name : List ℕ) → option_map (take 64) (glyph_printed output (take 64 name)).unknown
        ≡ option_map (take 64) (glyph_printed output name).unknown }
{}
