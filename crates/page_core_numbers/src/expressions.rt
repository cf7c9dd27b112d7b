//! Expressions: roff(7), "Numerical expressions". Each operation is done as its operand was read; an expression in parentheses is read
//! by a call inside the call.

ghost use Rattle.std.specs.Prelude.{◌≡◌, ◌≤◌, ◌<◌, ◌+◌, ◌^◌, length, take, min, ℤ, option_map, IfSome, None, is_some, option_copied};
ghost use Rattle.std.specs.List.{prefix_len};
ghost use Rattle.page_core_numbers.specs.Expressions.{Read, expression_within, operand_by, no_operand, number, in_parentheses, first, after_operation, next_operator, after_close, number_at};
ghost use Rattle.page_core_numbers.specs.machine.Signs.{operand_view, expression_view, found_view, count_of, after_signs, minus_count, negated_times, negated_value, inside_of, after_open, Goes, is_opening, is_over};

use crate::decimals::read_number;
use crate::operators::{FoundOperator, Operator, read_operator};
use crate::scales::Scale;
use crate::troubles::{Trouble, Troubles};

/// An operand that was wanted: its value where there is one, what is reported of it, and what follows.
#[derive(Clone, Copy)]
pub(crate) struct Operand<'a> {
    pub(crate) value: Option<i32>,
    pub(crate) troubles: Troubles,
    pub(crate) rest: &'a [u8],
}

/// An expression as far as it was read: its value so far, what is reported of it, and what follows.
#[derive(Clone, Copy)]
pub(crate) struct Expression<'a> {
    pub(crate) value: i32,
    pub(crate) troubles: Troubles,
    pub(crate) rest: &'a [u8],
}

// How often the signs at a text's front negate what follows them, and what follows.
fn split_signs(text: &[u8]) -> (usize, &[u8])
    ensures minuses { result.0 ≡ minus_count text.now }
    ensures rest { result.1.now ≡ after_signs text.now }
    ensures parts { result.0 + length result.1.now ≤ length text.now }
{
    let mut minuses = 0;
    for (place, byte) in text.iter().enumerate() {
        match *byte {
            b'-' => minuses += 1,
            b'+' => {}
            _ => return (minuses, &text[place..]),
        }
    }
    (minuses, &text[text.len()..])
}

// A value that is negated this number of times.
#[tactic(auto, using(crate::proofs::ExpressionLemmas::negated_next))]
fn negate(value: i32, times: usize) -> i32
    ensures { result ≡ negated_value times value }
{
    let mut negated = value;
    for _ in 0..times {
        negated = negated.saturating_neg();
    }
    negated
}

// An operand that is negated this number of times.
fn negate_operand(operand: Operand<'_>, times: usize) -> Operand<'_>
    ensures value { operand_view result ≡ negated_times times (operand_view operand.entry) }
    ensures rest { result.rest.now ≡ operand.entry.rest.now }
    ensures troubles { result.troubles ≡ operand.entry.troubles }
{
    match operand.value {
        None => operand,
        Some(value) => Operand {
            value: Some(negate(value, times)),
            troubles: operand.troubles,
            rest: operand.rest,
        },
    }
}

// That there is no operand where this text begins.
fn no_operand(trouble: Trouble, text: &[u8]) -> Operand<'_>
    ensures value { operand_view result ≡ no_operand trouble text.now }
    ensures bound { count_of result.troubles + length result.rest.now ≤ length text.now }
{
    Operand {
        value: None,
        troubles: Troubles::stop(trouble),
        rest: text,
    }
}

// The number at a text's front.
fn read_number_operand(text: &[u8], scale: Scale) -> Operand<'_>
    ensures value { operand_view result ≡ number text.now (number_at scale text.now) }
    ensures bound { count_of result.troubles + length result.rest.now ≤ length text.now }
{
    match read_number(text, scale) {
        None => no_operand(Trouble::NotNumeric, text),
        Some(found) => Operand {
            value: Some(found.value),
            troubles: Troubles::none(),
            rest: found.rest,
        },
    }
}

// A text after the parenthesis that closes, where one is there.
fn after_close(text: &[u8]) -> &[u8]
    ensures value { result.now ≡ after_close text.now }
    ensures bound { length result.now ≤ length text.now }
{
    match text {
        [b')', after @ ..] => after,
        _ => text,
    }
}

// An expression that was read in parentheses, as an operand.
fn in_parentheses(inside: Expression<'_>) -> Operand<'_>
    ensures value { operand_view result ≡ in_parentheses (expression_view inside.entry) }
    ensures troubles { result.troubles ≡ inside.entry.troubles }
    ensures bound { length result.rest.now ≤ length inside.entry.rest.now }
{
    Operand {
        value: Some(inside.value),
        troubles: inside.troubles,
        rest: match inside.troubles.stopped {
            None => after_close(inside.rest),
            Some(_) => inside.rest,
        },
    }
}

// What is after a parenthesis that opens at a text's front.
fn after_open(text: &[u8]) -> Option<&[u8]>
    ensures value { option_copied result ≡ after_open text.now }
    ensures bound { IfSome result (λ after. length after.now < length text.now) }
{
    match text {
        [b'(', after @ ..] => Some(after),
        _ => None,
    }
}

// The operand at a text's front, in which `room` parentheses may be open.
#[cycle(expression)]
fn read_operand<'a>(text: &'a [u8], scale: Scale, room: u32) -> Operand<'a>
    ensures value { operand_view result ≡ operand_by (inside_of room scale) scale text.now }
    ensures bound { count_of result.troubles + length result.rest.now ≤ length text.now }
{
    let (minuses, unsigned) = split_signs(text);
    let operand = match after_open(unsigned) {
        None => read_number_operand(unsigned, scale),
        Some(after) => {
            if room == 0 {
                no_operand(Trouble::Parentheses, unsigned)
            } else {
                in_parentheses(read_expression(after, scale, room - 1))
            }
        }
    };
    negate_operand(operand, minuses)
}

// An expression of its first operand.
fn first(operand: Operand<'_>) -> Expression<'_>
    ensures value { expression_view result ≡ first (operand_view operand.entry) }
    ensures troubles { result.troubles ≡ operand.entry.troubles }
    ensures rest { result.rest.now ≡ operand.entry.rest.now }
{
    Expression {
        value: operand.value.unwrap_or(0),
        troubles: operand.troubles,
        rest: operand.rest,
    }
}

// The operator that goes on with an expression.
fn next_operator(so_far: Expression<'_>) -> Option<FoundOperator<'_>>
    ensures value { option_map found_view result
        ≡ next_operator (is_some so_far.entry.troubles.stopped) so_far.entry.rest.now }
    ensures bound { IfSome result (λ found. length found.rest.now < length so_far.entry.rest.now) }
    ensures going { IfSome result (λ _. so_far.entry.troubles.stopped ≡ None) }
{
    match so_far.troubles.stopped {
        None => read_operator(so_far.rest),
        Some(_) => None,
    }
}

// An expression after one more operation.
fn after_operation<'a>(
    so_far: Expression<'a>,
    operator: Operator,
    operand: Operand<'a>,
) -> Expression<'a>
    requires going { so_far.troubles.stopped ≡ None }
    requires fits { count_of so_far.troubles + count_of operand.troubles + 1 < 2 ^ 64 }
    ensures value { expression_view result
        ≡ after_operation (expression_view so_far.entry) operator (operand_view operand.entry) }
    ensures count { count_of result.troubles
        ≤ count_of so_far.entry.troubles + count_of operand.entry.troubles + 1 }
    ensures rest { result.rest.now ≡ operand.entry.rest.now }
{
    let (value, divides_by_zero) = match operand.value {
        None => (so_far.value, false),
        Some(other) => (
            operator.apply(so_far.value, other),
            operator.divides_by_zero(other),
        ),
    };
    Expression {
        value,
        troubles: so_far
            .troubles
            .followed_by(operand.troubles, divides_by_zero),
        rest: operand.rest,
    }
}

// An expression with the operations that follow it, inside which `room` parentheses more may be open.
#[cycle(expression)]
#[inline(always)]
fn after_operations<'a>(so_far: Expression<'a>, scale: Scale, room: u32) -> Expression<'a>
    requires { count_of so_far.troubles + length so_far.rest.now < 2 ^ 64 }
    ensures value { (all : Read ℤ) → Goes (operand_by (inside_of room scale) scale) all (expression_view so_far.entry)
        → expression_view result ≡ all }
    ensures bound { count_of result.troubles + length result.rest.now
        ≤ count_of so_far.entry.troubles + length so_far.entry.rest.now }
{
    let mut read = so_far;
    while let Some(found) = next_operator(read) {
        read = after_operation(read, found.operator, read_operand(found.rest, scale, room));
    }
    read
}

// How many parentheses open one after another at a text's front, up to `room`.
fn opening_count(text: &[u8], room: u32) -> u32
    ensures value { result ≡ prefix_len is_opening (take (min (length text.now) room) text.now) }
    ensures within { result ≤ length text.now }
    ensures room { result ≤ room }
{
    let front = &text[..text.len().min(room as usize)];
    front.iter().take_while(|byte| **byte == b'(').count() as u32
}

// Whether nothing can change an expression's value any longer, be there parentheses around it or not.
fn is_over(so_far: Expression<'_>) -> bool
    ensures { result ≡ is_over (expression_view so_far.entry) }
{
    so_far.troubles.stopped.is_some() || so_far.rest.is_empty()
}

/// The expression at a text's front, inside which `room` parentheses more may be open. Those that open one after another at its front are
/// read in a loop, from the inside out.
#[cycle(expression)]
pub(crate) fn read_expression<'a>(text: &'a [u8], scale: Scale, room: u32) -> Expression<'a>
    ensures value { expression_view result ≡ expression_within room scale text.now }
    ensures bound { count_of result.troubles + length result.rest.now ≤ length text.now }
{
    let opening = opening_count(text, room);
    let inside = room - opening;
    let operand = read_operand(&text[opening as usize..], scale, inside);
    let mut so_far = after_operations(first(operand), scale, inside);
    for around in inside..room {
        if is_over(so_far) {
            return so_far;
        }
        so_far = after_operations(first(in_parentheses(so_far)), scale, around + 1);
    }
    so_far
}
