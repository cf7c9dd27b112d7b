//! Units of numbers: roff(7), "Scaling Widths". Numbers (`decimals`) are written in them.

ghost use Rattle.std.specs.Prelude.{◌≡◌, ◌≤◌, ◌<◌};
ghost use Rattle.page_core_numbers.specs.Expressions.{numerator, denominator, scale_named};

/// The unit of a number: roff(7), "Scaling Widths". Each is a number of basic units, of which a column has 24 and a row 40.
#[derive(Clone, Copy, Debug, PartialEq, Eq)]
pub enum Scale {
    /// `u`: the basic unit.
    Basic,
    /// `n`: the width of an `n`, 24 basic units.
    En,
    /// `m`: the width of an `m`, 24 basic units.
    Em,
    /// `v`: a row, 40 basic units.
    Vertical,
    /// `P`: a sixth of an inch, 40 basic units.
    Pica,
    /// `i`: 240 basic units.
    Inch,
    /// `p`: 1/72 inch, 10/3 basic units.
    Point,
    /// `c`: 24000/254 basic units.
    Centimeter,
}

impl Scale {
    // The basic units of a unit are this over the denominator.
    pub(crate) fn numerator(self) -> u64
        ensures value { result ≡ numerator self }
        ensures bound { result ≤ 24000 }
    {
        match self {
            Scale::Basic => 1,
            Scale::En | Scale::Em => 24,
            Scale::Vertical | Scale::Pica => 40,
            Scale::Inch => 240,
            Scale::Point => 10,
            Scale::Centimeter => 24_000,
        }
    }

    pub(crate) fn denominator(self) -> u64
        ensures value { result ≡ denominator self }
        ensures some { 0 < result }
        ensures bound { result ≤ 254 }
    {
        match self {
            Scale::Point => 3,
            Scale::Centimeter => 254,
            _ => 1,
        }
    }
}

/// The unit that a letter names.
pub(crate) fn scale_named(letter: u8) -> Option<Scale>
    ensures { result ≡ scale_named letter }
{
    match letter {
        b'u' => Some(Scale::Basic),
        b'n' => Some(Scale::En),
        b'm' => Some(Scale::Em),
        b'v' => Some(Scale::Vertical),
        b'P' => Some(Scale::Pica),
        b'i' => Some(Scale::Inch),
        b'p' => Some(Scale::Point),
        b'c' => Some(Scale::Centimeter),
        _ => None,
    }
}
