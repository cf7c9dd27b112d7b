//! The status that a run ends with (mandoc(1), EXIT STATUS).

ghost use Rattle.std.specs.Prelude.{◌≡◌};
ghost use Rattle.mandoc_command.specs.Status.{status};

use page_core_base::Level;

/// The status that the program ends with where no fault came, by the worst level of the messages that were given (mandoc(1), EXIT STATUS).
pub fn status_of(worst: Option<Level>) -> u8
    ensures { result ≡ status worst }
{
    match worst {
        None => 0,
        Some(Level::Base | Level::Style) => 1,
        Some(Level::Warning) => 2,
        Some(Level::Error) => 3,
        Some(Level::Unsupp) => 4,
    }
}
