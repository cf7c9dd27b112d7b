//! Laws of the input stack.

ghost use Rattle.std.specs.Prelude.{◌≡◌};
ghost use Rattle.page_roff_blocks.specs.machine.Languages.{Language};
ghost use Rattle.page_roff_blocks.specs.machine.Machine.{next};
ghost use Rattle.page_roff_stack.specs.machine.Stacks.{Stack, running, next_of, step_of};

/// What comes next says which step of the machine is made.
pub fn stack_law<S>()
    ensures { (l : Language S) (s : Stack) (state : S) →
        next l (running s state) ≡ step_of l (next_of s) s state }
{}
