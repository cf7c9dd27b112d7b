//! The latch over a sink of messages: what inner functions that give no pieces report to, so that they need not hand on its faults.

ghost use Rattle.std.specs.Prelude.{◌≡◌, List, [], ◌∷◌, None, Some, MatchResult};
ghost use Rattle.page_core_base.specs.Messages.{Message};
ghost use Rattle.page_core_base.specs.laws.Views.{message_of, Came};
ghost use Rattle.page_core_base.specs.machine.Plans.{Planned, Left, TookNotes, BrokeNotes};

use crate::{Fault, Note, NoteSink};

/// Takes messages, and never fails: after a fault of the sink below it takes nothing.
pub trait NoteOut {
    ghost use Rattle.page_core_base.specs.Messages.{Message};

    // What is planned; what of a plan is still to come.
    ghost Plan: { Type 0 };

    ghost left: { Plan → Self → List Message → Type 0 };

    /// Takes a message.
    fn report(&mut self, note: &Note)
        ensures { Came left self.old (message_of note.now ∷ []) self.new };
}

/// A sink of messages, and its fault once it has failed.
#[derive(Drop)]
pub struct NoteLatch<'a, N> {
    notes: &'a mut N,
    fault: Option<Fault>,
}

impl<'a, N: NoteSink> NoteLatch<'a, N> {
    /// A latch over a sink.
    pub fn new(notes: &'a mut N) -> NoteLatch<'a, N>
        ensures loan { result.notes.ghost_name ≡ notes.entry.ghost_name }
        ensures notes { result.notes.now ≡ notes.entry.now }
        ensures fault { result.fault ≡ None }
    {
        NoteLatch { notes, fault: None }
    }

    /// The fault that came, if one did.
    pub fn done(&self) -> Result<(), Fault>
        ensures { MatchResult result (λ _. self.now.fault ≡ None) (λ fault. self.now.fault ≡ Some fault) }
    {
        self.fault.map_or(Ok(()), Err)
    }
}

impl<N: NoteSink> NoteOut for NoteLatch<'_, N> {
    ghost Plan = { Planned N N.Loans Message };

    ghost left = { λ plan s rest. Left (TookNotes N.gave N.failed) (BrokeNotes N.within N.failed) N.loans
        plan s.notes.ghost_name s.notes.now s.fault rest };

    fn report(&mut self, note: &Note) {
        if self.fault.is_none() {
            self.fault = self.notes.note(note).err();
        }
    }
}
