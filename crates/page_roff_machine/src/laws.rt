//! Laws of the machine.

ghost use Rattle.std.specs.Prelude.{◌≡◌, true};
ghost use Rattle.page_roff_machine.specs.machine.Machines.{Machine, is_idle, outcome_of, stands};

/// Where nothing of a source line is left, nothing is given any more, and the page is where the line left it.
pub fn idle_law()
    ensures { (m : Machine) → is_idle m ≡ true → outcome_of m ≡ stands m }
{}
