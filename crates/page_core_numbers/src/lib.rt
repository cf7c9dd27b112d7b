//! Numbers of requests and escapes, and the columns of a finished text: roff(7), "Scaling Widths" and "Numerical expressions".
//!
//! It is below roff and the scopes, which read with it what a request, a macro or an escape is given.
//!
//! Read first: `number` below, with `specs/Expressions.antt`; `evaluate` (`evaluations.rt`), the same without a sink; then `columns` in
//! `text_columns.rt`.
//!
//! Proved: `number`: the value, the length and the messages of the expression at a text's front are those of `expression_of`
//! (`specs/Expressions.antt`). `columns`: the columns of a text are the sum over the characters that it prints (`specs/Columns.antt`).
#![tactic(auto)]

ghost use Rattle.std.specs.Prelude.{◌≡◌, ◌+◌, length, IfOk, MatchResult};
ghost use Rattle.page_core_base.specs.Messages.{Rose};
ghost use Rattle.page_core_numbers.specs.Expressions.{expression_of, messages_at};

use evaluations::report;
use page_core_base::{Fault, NoteSink, Place};

mod decimals;
mod evaluations;
mod expressions;
mod operators;
mod scales;
mod text_columns;
mod troubles;

pub use evaluations::{Evaluation, EvaluationNotes, evaluate};
pub use scales::Scale;
pub use text_columns::{columns, escape_columns, printed_columns};

/// The expression at the front of a text, and how many bytes it takes: roff(7), "Numerical expressions". Its value is in basic units,
/// held to the range of 32 bits after each operation, and operations are done from left to right. `unit` is the unit of a number
/// without one. Where an operand is missing the expression ends with its value so far, 0 at the start; so it does before a
/// parenthesis that would be the 17th open one. These, and divisions by 0, are reported at the given line and column. Its fault is
/// [`Fault::WriteNotes`], where the sink failed; then the sink got a front of these messages.
pub fn number<N: NoteSink>(
    text: &[u8],
    unit: Scale,
    line: u32,
    column: u32,
    notes: &mut N,
) -> Result<(i32, usize), Fault>
    ensures value { IfOk result (λ found. found.0 ≡ (expression_of unit text.now).value) }
    ensures len { IfOk result
        (λ found. found.1 + length (expression_of unit text.now).rest ≡ length text.now) }

    // All messages, or a front of them.
    ensures gives { MatchResult result
        (λ _. N.gave notes.old (messages_at line column (expression_of unit text.now).troubles) notes.new)
        (λ _. N.within notes.old (messages_at line column (expression_of unit text.now).troubles) notes.new) }
    ensures fault { MatchResult result
        (λ _. N.failed notes.new ≡ N.failed notes.old)
        (λ fault. (fault ≡ Fault.WriteNotes) × Rose (N.failed notes.old) (N.failed notes.new)) }
    ensures same { N.loans notes.new ≡ N.loans notes.old }
{
    let found = evaluate(text, unit);
    report(found.notes(Place { line, column }), notes)?;
    Ok((found.value, found.len))
}
