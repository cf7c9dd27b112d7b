//! Where a source is in a line (roff(7), "if", "ie", "el", "while").

ghost use Rattle.std.specs.Prelude.{◌≡◌, ◌<◌, ◌≤◌, ◌^◌, true, length};
ghost use Rattle.page_core_base.specs.declared.limits.TheConstants.{CONDS};
ghost use Rattle.page_roff_blocks.specs.Forest.{outside};
ghost use Rattle.page_roff_blocks.specs.laws.Views.{at_line, passed, reached};

use crate::levels::{Answer, Levels};
use std::marker::Model;

/// How a part of a line is reached.
#[derive(Clone, Copy)]
pub enum Reached {
    /// A skipped block, a loop that is collected or the head before it passes it over.
    PassedOver,
    /// It is the first part of its line.
    First,
    /// It is a remainder.
    Remainder,
}

/// How a source goes past a part of a line.
#[derive(Clone, Copy)]
pub enum Pass {
    /// Past what opens nothing and ends nothing: a leaf, or a loop without a block.
    Leaf,
    /// Past a head without a block; what it leaves, if it is run.
    Guard(Option<Answer>),
    /// Into the block of a conditional; what its head leaves, if it is run.
    Block(Option<Answer>),
    /// Into the block of a loop, which is collected or passed over.
    Loop(bool),
    /// Out of the innermost block, or of the loop that is collected.
    End,
}

/// Where a source is in a line, outside of regions: the levels of its blocks, whether a part of the
/// line was reached, and whether a head passes over the next one.
#[derive(Drop)]
pub struct BlockCursor {
    levels: Levels,
    begun: bool,
    passing: bool,
}

impl Model for BlockCursor {
    ghost use Rattle.page_roff_blocks.specs.laws.Views.{BlockCursor};

    ghost Value = { BlockCursor };

    ghost view = { λ s. record { levels = s.levels; begun = s.begun; passing = s.passing } };
}

impl BlockCursor {
    /// Before the first line of a source.
    #[tactic(auto, unfolding(crate::specs::laws::Views::at_line))]
    pub fn new() -> BlockCursor
        ensures { result ≡ at_line outside }
    {
        BlockCursor {
            levels: Levels::new(),
            begun: false,
            passing: false,
        }
    }

    /// Before a line, at these levels.
    #[tactic(auto, unfolding(crate::specs::laws::Views::at_line))]
    pub fn at(levels: Levels) -> BlockCursor
        ensures { result ≡ at_line levels }
    {
        BlockCursor {
            levels,
            begun: false,
            passing: false,
        }
    }

    /// The levels of its blocks.
    pub fn levels(&self) -> &Levels
        ensures { result.now ≡ self.now.levels }
    {
        &self.levels
    }

    /// A line begins, or has ended.
    #[tactic(auto, unfolding(crate::specs::laws::Views::at_line))]
    pub fn begin_line(&mut self)
        ensures { self.new ≡ at_line self.old.levels }
    {
        self.begun = false;
        self.passing = false;
    }

    /// How the next part of the line is reached.
    #[tactic(auto, unfolding(crate::specs::laws::Views::reached, crate::specs::laws::Views::reached_in, crate::specs::laws::Views::reached_from, crate::specs::laws::Views::reached_if))]
    pub fn reached(&self) -> Reached
        ensures { result ≡ reached self.now }
    {
        if self.passing || self.levels.in_loop() || self.levels.skipped() > 0 {
            Reached::PassedOver
        } else if self.begun {
            Reached::Remainder
        } else {
            Reached::First
        }
    }

    /// Goes past a part of the line.
    #[tactic(auto, unfolding(crate::specs::laws::Views::after_part))]
    pub fn pass(&mut self, pass: Pass)
        requires { self.old.levels.skipped < 2 ^ 63 }
        ensures { self.new ≡ passed pass self.old }
    {
        self.begun = true;
        match pass {
            Pass::Guard(None) => return,
            Pass::Guard(Some(answer)) => {
                self.levels.turn(answer.bit);
                self.passing = !answer.value;
                return;
            }
            Pass::Leaf => {}
            Pass::Block(Some(answer)) => self.levels.enter(answer),
            Pass::Block(None) => self.levels.skip(),
            Pass::Loop(true) => self.levels.open_loop(),
            Pass::Loop(false) => self.levels.skip(),
            Pass::End => self.levels.leave(),
        }
        self.passing = false;
    }

    /// The open true blocks are within their limit. Nothing is done: the levels show it.
    pub fn caps_law(&self)
        ensures { length self.now.levels.outer ≤ CONDS }
    {
        self.levels.caps_law();
    }
}
