//! What ends a function, of `Fn` or of `Fo` (mdoc(7), "MACRO REFERENCE").
ghost use Rattle.std.specs.Prelude.{◌≡◌};
ghost use Rattle.page_scopes_phrases.specs.Names as ends;
ghost use Rattle.page_scopes_phrases.specs.LineWords.{own_word};
ghost use Rattle.page_scopes_phrases.specs.laws.Views.{GivesOutcome};
ghost use Rattle.page_scopes_phrases.specs.Phrases.{row_break};
ghost use Rattle.page_sets_lines.specs.declared.events.Join.TheVariants.{Apart, Glued};
ghost use Rattle.page_sets_names.specs.declared.generated_texts.GeneratedText.TheVariants.{CloseParenthesis, Semicolon};

use crate::{Formatting, give_generated_word};
use page_core_base::{Piece, PieceOut, Place};
use page_scopes_layout::in_synopsis;
use page_sets_lines::{GeneratedText, GeneratedWord, Join};

// What closes the arguments of a function.
fn closing_mark() -> GeneratedWord
    ensures { result ≡ own_word CloseParenthesis Glued Apart }
{
    GeneratedWord {
        text: GeneratedText::CloseParenthesis,
        font: None,
        before: Join::Glued,
        after: Join::Apart,
    }
}

// What ends a declaration of one.
fn semicolon() -> GeneratedWord
    ensures { result ≡ own_word Semicolon Glued Apart }
{
    GeneratedWord {
        text: GeneratedText::Semicolon,
        font: None,
        before: Join::Glued,
        after: Join::Apart,
    }
}

// Gives the end of a row.
fn give_row_break<O: PieceOut>(out: &mut O, state: &mut Formatting)
    ensures { GivesOutcome O.left out.old (row_break state.old) out.new state.new }
{
    out.give(Piece::Break);
    state.end_row();
}

// Gives what ends a declaration of a function, which is in the SYNOPSIS.
fn give_declaration_end<O: PieceOut>(out: &mut O, place: Place, state: &mut Formatting)
    ensures { GivesOutcome O.left out.old (ends.declaration_end place state.old) out.new state.new }
{
    if in_synopsis(&state.context) {
        give_generated_word(out, place, semicolon(), state);
        give_row_break(out, state);
    }
}

/// Gives the end of a function, of `Fn` or of `Fo`: what closes its arguments, and in the SYNOPSIS a semicolon and the end of the row.
#[tactic(auto, unfolding(crate::specs::Names::function_end))]
pub fn give_function_end<O: PieceOut>(out: &mut O, place: Place, state: &mut Formatting)
    ensures { GivesOutcome O.left out.old (ends.function_end place state.old) out.new state.new }
{
    give_generated_word(out, place, closing_mark(), state);
    give_declaration_end(out, place, state);
}
