//! Operators: roff(7), "Numerical expressions". They are between the operands of an expression (`expressions`).

ghost use Rattle.std.specs.Prelude.{◌≡◌, ◌<◌, length, option_map, IfSome};
ghost use Rattle.page_core_numbers.specs.Expressions.{operator_named, operator_at, begins_equal, operator_len, truth, result_of, divides_by_zero};
ghost use Rattle.page_core_numbers.specs.machine.Signs.{found_view};

/// An operator.
#[derive(Clone, Copy)]
pub(crate) enum Operator {
    Add,
    Subtract,
    Multiply,
    Divide,
    Remainder,
    Less,
    Greater,
    AtMost,
    AtLeast,
    Equal,
    And,
    Or,
}

/// An operator, and what follows it.
#[derive(Clone, Copy)]
pub(crate) struct FoundOperator<'a> {
    pub(crate) operator: Operator,
    pub(crate) rest: &'a [u8],
}

// The operator that a character begins, where `=` follows or not.
fn operator_named(first: u8, equal: bool) -> Option<Operator>
    ensures { result ≡ operator_named first equal }
{
    match first {
        b'+' => Some(Operator::Add),
        b'-' => Some(Operator::Subtract),
        b'*' => Some(Operator::Multiply),
        b'/' => Some(Operator::Divide),
        b'%' => Some(Operator::Remainder),
        b'<' if equal => Some(Operator::AtMost),
        b'<' => Some(Operator::Less),
        b'>' if equal => Some(Operator::AtLeast),
        b'>' => Some(Operator::Greater),
        b'=' => Some(Operator::Equal),
        b'&' => Some(Operator::And),
        b':' => Some(Operator::Or),
        _ => None,
    }
}

// The bytes of an operator.
fn operator_len(first: u8, equal: bool) -> usize
    ensures value { result ≡ operator_len first equal }
    ensures some { 0 < result }
{
    match first {
        b'<' | b'>' | b'=' if equal => 2,
        _ => 1,
    }
}

// Whether a text begins with `=`.
fn begins_equal(text: &[u8]) -> bool
    ensures value { result ≡ begins_equal text.now }
{
    match text.first() {
        Some(first) => *first == b'=',
        None => false,
    }
}

/// The operator at a text's front.
#[tactic(auto, unfolding(crate::specs::Expressions::operator_at))]
pub(crate) fn read_operator(text: &[u8]) -> Option<FoundOperator<'_>>
    ensures value { option_map found_view result ≡ operator_at text.now }
    ensures bound { IfSome result (λ found. length found.rest.now < length text.now) }
{
    let first = *text.first()?;
    let equal = begins_equal(&text[1..]);
    let operator = operator_named(first, equal)?;
    let len = operator_len(first, equal).min(text.len());
    Some(FoundOperator {
        operator,
        rest: &text[len..],
    })
}

// 1 or 0.
fn truth(holds: bool) -> i32
    ensures { result ≡ truth holds }
{
    if holds { 1 } else { 0 }
}

// A quotient, cut towards 0; by 0 it is 0.
#[tactic(auto, unfolding(crate::specs::Expressions::result_of))]
fn quotient(a: i32, b: i32) -> i32
    ensures { result ≡ result_of Operator.Divide a b }
{
    if b == 0 {
        return 0;
    }
    a.checked_div(b).unwrap_or(i32::MAX)
}

// What a division leaves, with the sign of the dividend; by 0 it is 0.
#[tactic(auto, unfolding(crate::specs::Expressions::result_of))]
fn remainder(a: i32, b: i32) -> i32
    ensures { result ≡ result_of Operator.Remainder a b }
{
    if b == 0 {
        return 0;
    }
    a.wrapping_rem(b)
}

impl Operator {
    /// What an operation gives, held to the range of 32 bits.
    #[tactic(auto, unfolding(crate::specs::Expressions::result_of))]
    pub(crate) fn apply(self, a: i32, b: i32) -> i32
        ensures { result ≡ result_of self a b }
    {
        match self {
            Operator::Add => a.saturating_add(b),
            Operator::Subtract => a.saturating_sub(b),
            Operator::Multiply => a.saturating_mul(b),
            Operator::Divide => quotient(a, b),
            Operator::Remainder => remainder(a, b),
            Operator::Less => truth(a < b),
            Operator::Greater => truth(a > b),
            Operator::AtMost => truth(a <= b),
            Operator::AtLeast => truth(a >= b),
            Operator::Equal => truth(a == b),
            Operator::And => truth(a > 0 && b > 0),
            Operator::Or => truth(a > 0 || b > 0),
        }
    }

    /// Whether it divides, and that by 0.
    pub(crate) fn divides_by_zero(self, b: i32) -> bool
        ensures { result ≡ divides_by_zero self b }
    {
        match self {
            Operator::Divide | Operator::Remainder => b == 0,
            _ => false,
        }
    }
}
