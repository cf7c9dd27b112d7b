//! The value of a number, without its messages (roff(7), "Numerical expressions").

ghost use Rattle.std.specs.Prelude.{◌≡◌};
ghost use Rattle.page_core_numbers.specs.Expressions.{expression_of};
ghost use Rattle.page_core_numbers.specs.declared.scales.Scale.TheVariants.{Basic};

use page_core_numbers::{Scale, evaluate};

/// The value of the number at a text's front; without a unit it is in basic units.
pub(crate) fn basic_number(text: &[u8]) -> i32
    ensures { result ≡ (expression_of Basic text.now).value }
{
    evaluate(text, Scale::Basic).value
}
