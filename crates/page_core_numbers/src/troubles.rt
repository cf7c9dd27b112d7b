//! What is reported of an expression: mandoc(1), "DIAGNOSTICS". It is collected as the expression is read (`expressions`), and then taken
//! message by message (`evaluations`).

ghost use Rattle.std.specs.Prelude.{◌≡◌, ◌≤◌, ◌<◌, ◌+◌, ◌^◌, [], ◌∷◌, ◌++◌, is_some, if◌then◌else◌, MatchOption};
ghost use Rattle.page_core_base.specs.laws.Views.{message_of};
ghost use Rattle.page_core_numbers.specs.Expressions.{message_at};
ghost use Rattle.page_core_numbers.specs.machine.Signs.{troubles_view, count_of};

use page_core_base::{Limit, Note, NoteKind, Place};

/// What may be wrong in an expression.
#[derive(Clone, Copy)]
pub(crate) enum Trouble {
    /// There is no operand where one is wanted.
    NotNumeric,
    /// A division by 0.
    DivZero,
    /// A parenthesis more than may be open.
    Parentheses,
}

/// What is reported of an expression, in its order: divisions by 0, and why the expression ended early, if it did.
#[derive(Clone, Copy)]
pub(crate) struct Troubles {
    pub(crate) divisions: usize,
    pub(crate) stopped: Option<Stopped>,
}

/// Why an expression ended early, and the divisions by 0 after that: of what stood before parentheses that were open there.
#[derive(Clone, Copy)]
pub(crate) struct Stopped {
    pub(crate) trouble: Trouble,
    pub(crate) divisions: usize,
}

impl Troubles {
    /// None.
    pub(crate) fn none() -> Troubles
        ensures value { troubles_view result ≡ [] }
        ensures count { count_of result ≡ 0 }
        ensures going { result.stopped ≡ None }
    {
        Troubles {
            divisions: 0,
            stopped: None,
        }
    }

    /// That an expression ends early.
    pub(crate) fn stop(trouble: Trouble) -> Troubles
        ensures value { troubles_view result ≡ trouble ∷ [] }
        ensures count { count_of result ≡ 0 }
        ensures stopped { result.stopped ≡ Some (record { trouble = trouble; divisions = 0 }) }
    {
        Troubles {
            divisions: 0,
            stopped: Some(Stopped {
                trouble,
                divisions: 0,
            }),
        }
    }

    /// What is reported of an expression that did not end, then of an operand, and then perhaps that a division is by 0.
    pub(crate) fn followed_by(self, operand: Troubles, divides_by_zero: bool) -> Troubles
        requires going { self.stopped ≡ None }
        requires fits { count_of self + count_of operand + 1 < 2 ^ 64 }
        ensures value { troubles_view result ≡ troubles_view self
            ++ (troubles_view operand ++ (if divides_by_zero then Trouble.DivZero ∷ [] else [])) }
        ensures count { count_of result ≤ count_of self + count_of operand + 1 }
        ensures stopped { is_some result.stopped ≡ is_some operand.stopped }
    {
        let more = if divides_by_zero { 1 } else { 0 };
        let divisions = self.divisions + operand.divisions;
        match operand.stopped {
            None => Troubles {
                divisions: divisions + more,
                stopped: None,
            },
            Some(stopped) => Troubles {
                divisions,
                stopped: Some(Stopped {
                    trouble: stopped.trouble,
                    divisions: stopped.divisions + more,
                }),
            },
        }
    }
    /// Takes the first of them.
    pub(crate) fn take_first(&mut self) -> Option<Trouble>
        ensures { MatchOption result ((troubles_view self.old ≡ []) × (troubles_view self.new ≡ []))
            (λ trouble. troubles_view self.old ≡ trouble ∷ troubles_view self.new) }
    {
        if self.divisions > 0 {
            self.divisions -= 1;
            return Some(Trouble::DivZero);
        }
        let stopped = self.stopped.take()?;
        self.divisions = stopped.divisions;
        Some(stopped.trouble)
    }
}

impl Trouble {
    /// The message of it at a place.
    #[tactic(auto, unfolding(page_core_base::specs::Messages::text_front))]
    pub(crate) fn note(self, place: Place) -> Note
        ensures { message_of result ≡ message_at place.line place.column self }
    {
        match self {
            Trouble::NotNumeric => Note::about(NoteKind::NotNumeric, place, b""),
            Trouble::DivZero => Note::about(NoteKind::DivZero, place, b""),
            Trouble::Parentheses => {
                Note::about(NoteKind::Limit, place, Limit::Parens.name().as_bytes())
            }
        }
    }
}
