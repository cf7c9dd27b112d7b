//! What a raw line is made of (roff(7), "if", "ie", "el", "while").

use page_roff_heads::{Condition, LoopHead};
use page_roff_syntax::RegionHead;

/// What the head of a conditional asks; `W` is a text.
#[derive(Clone, Copy)]
pub enum Branch<W> {
    /// `if`.
    If(Condition<W>),
    /// `ie`.
    IfElse(Condition<W>),
    /// `el`.
    Else,
}

/// The head of a conditional; `W` is a text.
#[derive(Clone, Copy)]
pub struct Head<W> {
    /// The column of its name.
    pub column: u32,
    pub branch: Branch<W>,
}

/// A head that opens a block; `W` is a text.
#[derive(Clone, Copy)]
pub enum Opening<W> {
    /// That of a conditional.
    Conditional(Head<W>),
    /// That of a loop.
    Loop(LoopHead<W>),
}

/// A part of a raw line; `W` is a text. What follows a part on its line is a remainder, a line of its own:
/// columns are those of the remainder in which they are.
#[derive(Clone, Copy)]
pub enum LinePart<W> {
    /// A line that heads no conditional, no loop and no region, or what is in such a line before the end of a
    /// block.
    Leaf(W),
    /// The head of a conditional without a block. It guards the next part of its line, if there is one.
    Guard(Head<W>),
    /// The head of a conditional or of a loop that opens a block.
    Block(Opening<W>),
    /// A loop without a block. Nothing follows it on its line.
    Loop(LoopHead<W>),
    /// The end of the innermost block.
    End,
    /// The head of a region. Nothing follows it on its line.
    Region(RegionHead<W>),
}
