//! The budget of re-read lines of a source line (mandoc(1), "input stack limit exceeded, infinite loop?").

ghost use Rattle.std.specs.Prelude.{◌≡◌, ◌+◌, ◌≤◌, ◌^◌};
ghost use Rattle.page_roff_blocks.specs.machine.Languages.{first_budget, budget_at, renewed, begun, charged, exhausts};

use page_core_base::REREAD;
use std::marker::Model;

/// How many re-read lines of a source line are left, whether one beyond them came, and how many lines were taken.
#[derive(Drop)]
pub struct Budget {
    left: usize,
    gave_up: bool,
    taken: u64,
}

impl Model for Budget {
    ghost use Rattle.page_roff_blocks.specs.machine.Languages.{Budget, IsCounted};

    ghost Value = { Budget };

    ghost view = { λ b. record { left = b.left; gave_up = b.gave_up; taken = b.taken } };

    ghost invariant = { λ b. IsCounted (record { left = b.left; gave_up = b.gave_up; taken = b.taken }) };
}

impl Budget {
    /// Before the first line of a page.
    pub fn new() -> Budget
        ensures { result ≡ first_budget }
    {
        Budget {
            left: 0,
            gave_up: false,
            taken: 0,
        }
    }

    /// Between two lines of a page of which this many lines were taken.
    pub fn at(taken: u64) -> Budget
        requires { taken ≤ 2 ^ 62 }
        ensures { result ≡ budget_at taken }
    {
        Budget {
            left: 0,
            gave_up: false,
            taken,
        }
    }

    /// A source line comes, with a budget of its own.
    pub fn renew(&mut self)
        requires { self.old.taken ≤ 2 ^ 62 }
        ensures { self.new ≡ renewed self.old }
    {
        self.left = REREAD;
        self.gave_up = false;
    }

    /// The source line is taken.
    pub fn begin(&mut self)
        requires { self.old.taken ≤ 2 ^ 62 }
        ensures { self.new ≡ begun self.old }
    {
        self.left = REREAD;
        self.gave_up = false;
        self.taken += 1;
    }

    /// One re-read line comes. It answers whether that is the one beyond the budget, with which all else of the source line is given up.
    pub fn charge(&mut self) -> bool
        ensures budget { self.new ≡ charged self.old }
        ensures exhausts { result ≡ exhausts self.old }
    {
        if self.gave_up {
            return false;
        }
        if self.left == 0 {
            self.gave_up = true;
            return true;
        }
        self.left -= 1;
        self.taken += 1;
        false
    }

    /// Whether all else of the source line is given up.
    pub fn gave_up(&self) -> bool
        ensures { result ≡ self.now.gave_up }
    {
        self.gave_up
    }

    /// The number of lines that were taken.
    pub fn taken(&self) -> u64
        ensures { result ≡ self.now.taken }
    {
        self.taken
    }
}
