//! The levels of the blocks of one source (roff(7), "if", "ie", "el", "while").

ghost use Rattle.std.specs.Prelude.{◌≡◌, ◌<◌, ◌≤◌, ◌^◌, length};
ghost use Rattle.page_core_base.specs.declared.limits.TheConstants.{CONDS};
ghost use Rattle.page_roff_blocks.specs.laws.Views.{branch_view, answered, way_of, enter, open_loop, skip, leave, what_ends};
ghost use Rattle.page_roff_blocks.specs.Forest.{outside, bit_after};

use crate::line_parts::Branch;
use arrayvec::ArrayVec;
use page_core_base::CONDS;
use std::marker::Model;

/// How a block is entered.
#[derive(Clone, Copy)]
pub enum Way {
    /// It is run.
    Runs,
    /// It is skipped.
    Skips,
    /// It is skipped as one beyond the limit of open true blocks.
    Exceeds,
}

/// What the end of a block ends.
#[derive(Clone, Copy)]
pub enum Ended {
    /// A block, one in a loop too.
    Block,
    /// The loop that is collected.
    Loop,
    /// Nothing: no block is open.
    Nothing,
}

/// What a head leaves that is run.
#[derive(Clone, Copy)]
pub struct Answer {
    /// Its value.
    pub value: bool,
    /// The bit of its level from then on.
    pub bit: bool,
}

/// The levels of the blocks of one source: for each true block that is open, and for what is outside of
/// all, the bit that `ie` leaves to `el`; whether a loop is being collected in the innermost of them; and
/// the number of skipped blocks that are open there, which are those in the loop where one is collected.
#[derive(Drop)]
pub struct Levels {
    bit: bool,
    outer: ArrayVec<bool, CONDS>,
    in_loop: bool,
    skipped: u64,
}

impl Model for Levels {
    ghost use Rattle.page_roff_blocks.specs.Forest.{Levels};

    ghost Value = { Levels };

    ghost use Rattle.std.specs.Prelude.{reverse};

    ghost view = { λ l. record { bit = l.bit; outer = reverse l.outer.items; in_loop = l.in_loop; skipped = l.skipped } };
}

impl Branch<&[u8]> {
    /// The bit of a level after a head with this value.
    #[tactic(auto, unfolding(crate::specs::Forest::bit_after))]
    fn bit_after(&self, value: bool, bit: bool) -> bool
        ensures { result ≡ bit_after (branch_view self.now) value bit }
    {
        match self {
            Branch::If(_) => bit,
            Branch::IfElse(_) => !value,
            Branch::Else => false,
        }
    }

    /// What its head leaves at a level with this bit; its value, if it is run.
    pub fn answered(&self, bit: bool, value: Option<bool>) -> Option<Answer>
        ensures { result ≡ answered (branch_view self.now) bit value }
    {
        match value {
            Some(value) => Some(Answer {
                value,
                bit: self.bit_after(value, bit),
            }),
            None => None,
        }
    }
}

// The same bits.
fn copy_of(bits: &[bool]) -> ArrayVec<bool, CONDS>
    requires { length bits.now ≤ CONDS }
    ensures { result.items ≡ bits.now }
{
    let mut copy = ArrayVec::new();
    let _ = copy.try_extend_from_slice(bits);
    copy
}

impl Levels {
    /// The same levels.
    pub fn copy(&self) -> Levels
        ensures { result ≡ self.now }
    {
        Levels {
            bit: self.bit,
            outer: copy_of(self.outer.as_slice()),
            in_loop: self.in_loop,
            skipped: self.skipped,
        }
    }

    /// Outside all blocks.
    #[tactic(auto, unfolding(crate::specs::Forest::outside))]
    pub fn new() -> Levels
        ensures { result ≡ outside }
    {
        Levels {
            bit: false,
            outer: ArrayVec::new(),
            in_loop: false,
            skipped: 0,
        }
    }

    /// The bit that `ie` leaves to `el`.
    pub fn bit(&self) -> bool
        ensures { result ≡ self.now.bit }
    {
        self.bit
    }

    /// Whether a loop is being collected here.
    pub fn in_loop(&self) -> bool
        ensures { result ≡ self.now.in_loop }
    {
        self.in_loop
    }

    /// The number of skipped blocks that are open here.
    pub fn skipped(&self) -> u64
        ensures { result ≡ self.now.skipped }
    {
        self.skipped
    }

    /// How a block is entered whose head has this value.
    #[tactic(auto, unfolding(crate::specs::laws::Views::way_of, crate::specs::laws::Views::way_in))]
    pub fn way(&self, value: bool) -> Way
        ensures { result ≡ way_of value (length self.now.outer) }
    {
        if !value {
            Way::Skips
        } else if self.outer.is_full() {
            Way::Exceeds
        } else {
            Way::Runs
        }
    }

    /// What the end of a block ends here.
    #[tactic(auto, unfolding(crate::specs::laws::Views::what_ends, crate::specs::laws::Views::ends_from, crate::specs::laws::Views::loop_ends, crate::specs::laws::Views::level_ends))]
    pub fn ended(&self) -> Ended
        ensures { result ≡ what_ends self.now }
    {
        if self.skipped > 0 {
            Ended::Block
        } else if self.in_loop {
            Ended::Loop
        } else if self.outer.is_empty() {
            Ended::Nothing
        } else {
            Ended::Block
        }
    }

    // A head is run that leaves this bit.
    pub(crate) fn turn(&mut self, bit: bool)
        ensures { self.new ≡ record self.old { bit = bit } }
    {
        self.bit = bit;
    }

    // Enters a block whose head is run, and leaves this.
    #[tactic(auto, unfolding(crate::specs::laws::Views::way_of, crate::specs::laws::Views::way_in, crate::specs::laws::Views::enter))]
    pub(crate) fn enter(&mut self, answer: Answer)
        ensures { self.new ≡ enter (way_of answer.value (length self.old.outer)) answer.bit self.old }
    {
        self.in_loop = false;
        self.bit = answer.bit;
        if !answer.value || self.outer.is_full() {
            self.skipped = 1;
            return;
        }
        self.outer.push(answer.bit);
        self.bit = false;
        self.skipped = 0;
    }

    // Enters a block that is passed over.
    #[tactic(auto, unfolding(crate::specs::laws::Views::skip))]
    pub(crate) fn skip(&mut self)
        requires { self.old.skipped < 2 ^ 63 }
        ensures { self.new ≡ skip self.old }
    {
        self.skipped += 1;
    }

    // Begins to collect a loop.
    #[tactic(auto, unfolding(crate::specs::laws::Views::open_loop))]
    pub(crate) fn open_loop(&mut self)
        ensures { self.new ≡ open_loop self.old }
    {
        self.in_loop = true;
    }

    // The innermost block ends, or the loop that is collected.
    #[tactic(auto, unfolding(crate::specs::laws::Views::leave, crate::specs::laws::Views::leave_from, crate::specs::laws::Views::leave_loop, crate::specs::laws::Views::leave_level))]
    pub(crate) fn leave(&mut self)
        ensures { self.new ≡ leave self.old }
    {
        if self.skipped > 0 {
            self.skipped -= 1;
            return;
        }
        if self.in_loop {
            self.in_loop = false;
            return;
        }
        if let Some(bit) = self.outer.pop() {
            self.bit = bit;
        }
    }

    /// The open true blocks are at most [`CONDS`]. Nothing is done: the array of their bits shows it.
    pub fn caps_law(&self)
        ensures { length self.now.outer ≤ CONDS }
    {
        self.outer.as_slice();
    }
}
