//! Sinks that take messages.

ghost use Rattle.std.specs.Prelude.{◌≡◌, ℕ, false, List, [], ◌∷◌, OnOk};
ghost use Rattle.page_core_base.specs.laws.Views.{IsSink, Gives, FailsAs, message_of};
ghost use Rattle.page_core_base.specs.Messages.{Message};

use crate::{Fault, Note, NoteKind};

/// Takes messages.
pub trait NoteSink {
    ghost use Rattle.page_core_base.specs.Messages.{Message};

    // These messages came, and no other; a front of them came, perhaps with a part of the next.
    ghost gave: { Self → List Message → Self → Type 0 };

    ghost within: { Self → List Message → Self → Type 0 };

    // How often the sink has failed, up to the greatest number.
    ghost failed: { Self → ℕ };

    // The loans that the sink holds, which stay.
    ghost Loans: { Type 0 };

    ghost loans: { Self → Loans };

    // Nothing waits in a buffer.
    ghost is_out: { Self → Type 0 };

    /// Takes a message. Its fault is [`Fault::WriteNotes`].
    fn note(&mut self, note: &Note) -> Result<(), Fault>
        ensures gives { Gives result gave within self.old (message_of note.now ∷ []) self.new }
        ensures fault { FailsAs Fault.WriteNotes result (failed self.old) (failed self.new) }
        ensures same { loans self.new ≡ loans self.old };

    /// Whether the sink does anything with messages of a kind: one that it does not take need not be given, nor made.
    fn takes(&self, kind: NoteKind) -> bool
        ensures { result ≡ false → (message : Message) → message.kind ≡ kind → gave self.now (message ∷ []) self.now }
    {
        let _ = kind;
        true
    }

    /// Puts out what waits in a buffer, where the sink has one. Its fault is [`Fault::WriteNotes`].
    fn put_out(&mut self) -> Result<(), Fault>
        ensures gives { Gives result gave within self.old [] self.new }
        ensures fault { FailsAs Fault.WriteNotes result (failed self.old) (failed self.new) }
        ensures same { loans self.new ≡ loans self.old }
        ensures out { OnOk result (is_out self.new) };

    ghost laws: { IsSink gave within };

    ghost whole: { (s t : Self) (xs : List Message) → gave s xs t → within s xs t };
}
