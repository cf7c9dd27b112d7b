//! The width and the indent that a command line asks for (mandoc(1), -O).

ghost use Rattle.std.specs.Prelude.{◌≡◌};
ghost use Rattle.std.specs.List.{list_all};
ghost use Rattle.std.specs.Char.{is_ascii_digit};
ghost use Rattle.mandoc_command.specs.Measures.{number_of};

/// The width and the indent of rows, in columns, where they are asked for.
#[derive(Clone, Copy, Debug, PartialEq, Eq)]
pub(crate) struct Measures {
    pub(crate) width: Option<u32>,
    pub(crate) indent: Option<u32>,
}

impl Measures {
    ghost use Rattle.std.specs.Prelude.{◌≡◌};
    ghost use Rattle.mandoc_command.specs.Measures.{no_measures, with_key, with_part, measures_of};

    /// Neither.
    pub(crate) fn none() -> Measures
        ensures { result ≡ no_measures }
    {
        Measures {
            width: None,
            indent: None,
        }
    }

    /// The measures that parts `KEY=NUMBER` between commas ask for, with the keys `width` and `indent`, each once at most.
    pub(crate) fn named(text: &str) -> Option<Measures>
        ensures { result ≡ measures_of text.now }
    {
        let mut measures = Measures::none();
        let mut rest = text;
        while let Some((part, after)) = rest.split_once(',') {
            measures = measures.with_part(part)?;
            rest = after;
        }
        measures.with_part(rest)
    }

    // With a part `KEY=NUMBER`.
    #[tactic(auto, unfolding(crate::specs::Measures::with_part))]
    fn with_part(self, part: &str) -> Option<Measures>
        ensures { result ≡ with_part self part.now }
    {
        let (key, digits) = part.split_once('=')?;
        self.with_key(key, digits)
    }

    // With what a key sets, if it isn't set before.
    #[tactic(auto, unfolding(crate::specs::Measures::with_key))]
    fn with_key(self, key: &str, digits: &str) -> Option<Measures>
        ensures { result ≡ with_key self key.now digits.now }
    {
        let number = number_of(digits)?;
        match key {
            "width" if self.width.is_none() => Some(Measures {
                width: Some(number),
                ..self
            }),
            "indent" if self.indent.is_none() => Some(Measures {
                indent: Some(number),
                ..self
            }),
            _ => None,
        }
    }
}

// The number that 1 to 9 decimal digits write.
#[tactic(auto, unfolding(crate::specs::Measures::number_of))]
fn number_of(digits: &str) -> Option<u32>
    ensures { result ≡ number_of digits.now }
{
    if digits.is_empty() || digits.len() > 9 || !has_digits_alone(digits) {
        return None;
    }
    digits.parse().ok()
}

// Whether each byte is a decimal digit.
fn has_digits_alone(text: &str) -> bool
    ensures { result ≡ list_all is_ascii_digit text.now }
{
    text.bytes().all(|byte| byte.is_ascii_digit())
}
