//! Numbers with a fraction and a unit: roff(7), "Scaling Widths". They are the operands that an expression (`expressions`) is made of.

ghost use Rattle.std.specs.Prelude.{◌≡◌, ◌≤◌, ◌+◌, ◌-◌, length, slice_index_or, min, pos, option_map, IfSome};
ghost use Rattle.std.specs.List.{prefix_len};
ghost use Rattle.page_core_base.specs.Bytes.{is_digit};
ghost use Rattle.page_core_numbers.specs.Expressions.{in_range, digits_of, after_digits, fraction_of, after_fraction, scale_at, after_scale, decimal, ten_thousandths, units_of, number_at};
ghost use Rattle.page_core_numbers.specs.machine.Signs.{number_view};

use crate::scales::{Scale, scale_named};

// From here on a number in any unit is past what 32 bits hold.
const MOST: u64 = 1 << 31;

// The greatest number that 32 bits hold.
const LARGEST: u64 = MOST - 1;

/// A number, in basic units, and what follows it.
#[derive(Clone, Copy)]
pub(crate) struct Number<'a> {
    pub(crate) value: i32,
    pub(crate) rest: &'a [u8],
}

// How many digits are at a text's front.
fn digits_len(text: &[u8]) -> usize
    ensures value { result ≡ prefix_len is_digit text.now }
    ensures within { result ≤ length text.now }
{
    text.iter()
        .take_while(|byte| **byte >= b'0' && **byte <= b'9')
        .count()
}

// The digits at a text's front, and what follows.
fn split_digits(text: &[u8]) -> (&[u8], &[u8])
    ensures digits { result.0.now ≡ digits_of text.now }
    ensures rest { result.1.now ≡ after_digits text.now }
    ensures parts { length result.0.now + length result.1.now ≡ length text.now }
{
    text.split_at(digits_len(text))
}

// The digits after a point at a text's front, and what follows; none where no point is there.
fn split_fraction(text: &[u8]) -> (&[u8], &[u8])
    ensures digits { result.0.now ≡ fraction_of text.now }
    ensures rest { result.1.now ≡ after_fraction text.now }
    ensures parts { length result.0.now + length result.1.now ≤ length text.now }
{
    match text {
        [b'.', after @ ..] => split_digits(after),
        _ => (b"", text),
    }
}

// The unit at a text's front, and what follows.
fn split_scale(text: &[u8]) -> (Option<Scale>, &[u8])
    ensures scale { result.0 ≡ scale_at text.now }
    ensures rest { result.1.now ≡ after_scale text.now }
    ensures parts { length result.1.now ≤ length text.now }
{
    match text {
        [] => (None, text),
        [first, after @ ..] => match scale_named(*first) {
            Some(scale) => (Some(scale), after),
            None => (None, text),
        },
    }
}

// What digits are worth, up to MOST.
fn whole_value(digits: &[u8]) -> u64
    ensures value { result ≡ min (decimal digits.now) MOST }
    ensures bound { result ≤ MOST }
{
    let mut value = 0u64;
    for digit in digits {
        let next = value * 10 + u64::from(digit.saturating_sub(b'0'));
        value = next.min(MOST);
    }
    value
}

// What the digit at a place is worth; none is worth 0.
fn digit_at(digits: &[u8], place: usize) -> u64
    ensures value { result ≡ slice_index_or digits.now place 0x30 - 0x30 }
    ensures bound { result ≤ 207 }
{
    let digit = digits.get(place).copied().unwrap_or(b'0');
    u64::from(digit.saturating_sub(b'0'))
}

// What the digits after a point are worth in ten-thousandths.
fn fraction_value(digits: &[u8]) -> u64
    ensures value { result ≡ ten_thousandths digits.now }
    ensures bound { result ≤ 1_000_000 }
{
    digit_at(digits, 0) * 1000
        + digit_at(digits, 1) * 100
        + digit_at(digits, 2) * 10
        + digit_at(digits, 3)
}

// A number in basic units, held to the range of 32 bits.
fn in_units(whole: &[u8], fraction: &[u8], scale: Scale) -> i32
    ensures { result ≡ in_range (pos (units_of whole.now fraction.now scale)) }
{
    let ten_thousandths = whole_value(whole) * 10_000 + fraction_value(fraction);
    let units = ten_thousandths * scale.numerator() / (10_000 * scale.denominator());
    units.min(LARGEST) as i32
}

/// The number at a text's front, none where there is no digit. `scale` is the unit of a number without one.
pub(crate) fn read_number(text: &[u8], scale: Scale) -> Option<Number<'_>>
    ensures value { option_map number_view result ≡ number_at scale text.now }
    ensures bound { IfSome result (λ found. length found.rest.now ≤ length text.now) }
{
    let (whole, more) = split_digits(text);
    let (fraction, after) = split_fraction(more);
    if whole.is_empty() && fraction.is_empty() {
        return None;
    }
    let (written, rest) = split_scale(after);
    Some(Number {
        value: in_units(whole, fraction, written.unwrap_or(scale)),
        rest,
    })
}
