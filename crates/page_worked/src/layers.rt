//! Single layers, from the bytes of lines to rows: worked examples, by hand.

ghost use Rattle.std.specs.Prelude.{◌≡◌, List, ℕ, [], ◌∷◌, codes, map, replicate, true, false, pos};
ghost use Rattle.page_core_base.specs.Rows.{seq, LaidRow};
ghost use Rattle.page_core_base.specs.laws.Views.{word_items};
ghost use Rattle.page_core_base.specs.declared.cells.Cell.{Cell};
ghost use Rattle.page_core_base.specs.declared.cells.Font.TheVariants as fonts;
ghost use Rattle.page_core_base.specs.declared.page_settings.Encoding.TheVariants as encodings;
ghost use Rattle.page_core_escapes.specs.Meanings.{escape_of, face, bold};
ghost use Rattle.page_core_numbers.specs.Expressions.{expression_of};
ghost use Rattle.page_core_numbers.specs.declared.scales.Scale.TheVariants.{Basic};
ghost use Rattle.page_engine_index.specs.Matches.{is_match, has_match};
ghost use Rattle.page_fill.specs.Words.{start};
ghost use Rattle.page_fill.specs.Filling.{filled, row_end};
ghost use Rattle.page_roff_blocks.specs.Forest.{source_of, ends, empty, line, leaf, block};
ghost use Rattle.page_roff_blocks.specs.declared.line_parts.Branch.TheVariants.{If};
ghost use Rattle.page_roff_blocks.specs.declared.line_parts.Opening.TheVariants as openings;
ghost use Rattle.page_roff_heads.specs.declared.conditions.Test.TheVariants.{Always};
ghost use Rattle.page_roff_lines.specs.Lines.{lines};
ghost use Rattle.page_roff_syntax.specs.Arguments.{arguments};
ghost use Rattle.page_roff_syntax.specs.declared.quotes.Quoting.TheVariants.{Bare, Closed};
ghost use Rattle.page_worked.specs.Pages.{plain};

/// Bytes to lines (roff(7), "Comments" and "Line continuation").
pub fn cut_lines()
    // a line that ends in a backslash goes on; a comment is dropped later, and has a line of its own
    ensures lines_that_go_on { lines encodings.Utf8 (codes "a\\\nb\n.\\\" c\nd") ≡
        record { number = 1; text = codes "ab"; notes = [] } ∷
        record { number = 3; text = codes ".\\\" c"; notes = [] } ∷
        record { number = 4; text = codes "d"; notes = [] } ∷ [] }
    // the last line may have no end, and a carriage return before a line feed belongs to the end
    ensures ends_of_lines { lines encodings.Utf8 (codes "a\r\nb") ≡
        record { number = 1; text = codes "a"; notes = [] } ∷
        record { number = 2; text = codes "b"; notes = [] } ∷ [] }
{}

/// The arguments of a control line, whose rest begins at a column (roff(7), "Macro syntax").
pub fn argument_lists()
    // three arguments, of which the second is quoted
    ensures three_arguments { arguments 5 (codes "a \"b c\" d") ≡
        record { text = codes "a"; column = 5; quoting = Bare } ∷
        record { text = codes "b c"; column = 8; quoting = Closed } ∷
        record { text = codes "d"; column = 13; quoting = Bare } ∷ [] }
    // no argument, and an empty one
    ensures no_argument { arguments 5 (codes "  ") ≡ [] }
    ensures an_empty_argument { arguments 5 (codes "\"\"") ≡ record { text = []; column = 6; quoting = Closed } ∷ [] }
{}

/// Numbers and escapes (roff(7), "Numerical expressions" and "Escape sequences").
pub fn numbers_and_escapes()
    // from left to right, with no precedence
    ensures from_left_to_right { expression_of Basic (codes "1+2*3") ≡
        record { value = pos 9; troubles = []; ends = false; rest = [] } }
    // parentheses first
    ensures parentheses { expression_of Basic (codes "1+(2*3)") ≡
        record { value = pos 7; troubles = []; ends = false; rest = [] } }
    // an escape of a font, and its bytes
    ensures a_font { escape_of false (codes "\\fBx") ≡ (face bold, 3) }
{}

/// The raw lines of a source as a forest (roff(7), "if").
pub fn forests()
    // a block over three lines: its text, and the leaf that ends it
    ensures a_block { source_of (λ (l : List ℕ). l) (codes ".if n \\{\\" ∷ codes "x" ∷ codes ".\\}" ∷ []) ≡
        ends (line (codes ".if n \\{\\")
        (block (openings.Conditional (record {
          column = 2;
          branch = If (record { column = 5; is_turned = false; test = Always true });
        }))
        (leaf (codes "\\") (line (codes "x") (leaf (codes "x") (line (codes ".\\}") (leaf (codes ".") empty))))) empty)) }
{}

/// Words to rows (roff(7), "Filling and adjusting").
pub fn rows_of_words()
    // two words of 40 letters, which have no room in one row of 78 columns
    ensures two_rows { map (λ (row : LaidRow). map (λ (cell : Cell). cell.c) row.cells) (seq (filled (start plain)
        (word_items fonts.R (record { line = 3; column = 0 }) (replicate 40 97 ∷ replicate 40 98 ∷ []))) row_end).rows ≡
        replicate 40 97 ∷ replicate 40 98 ∷ [] }
{}

/// Words in names (whatis(1)).
pub fn matches()
    // the case of letters makes no difference
    ensures another_case { is_match (codes "ls") (codes "LS") ≡ true }
    // a part of a word is no match, and a part of a name between other characters is
    ensures a_part_of_a_word { is_match (codes "ls") (codes "lsof") ≡ false }
    ensures a_part_of_a_name { is_match (codes "ls") (codes "git-ls") ≡ true }
    // one of several names
    ensures one_of_several { has_match (codes "dir") (codes "LS, dir") ≡ true }
{}
