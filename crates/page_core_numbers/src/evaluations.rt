//! What an expression comes to: its value, its length and its messages, which a caller gives to what it reports to.

ghost use Rattle.std.specs.Prelude.{◌≡◌, ◌+◌, length};
ghost use Rattle.page_core_base.specs.laws.Views.{FailsAs, Gives};
ghost use Rattle.page_core_numbers.specs.Expressions.{expression_of, messages_at};
ghost use Rattle.page_core_numbers.specs.machine.Signs.{reported, TakesFirst};

use crate::expressions::read_expression;
use crate::scales::Scale;
use crate::troubles::Troubles;
use page_core_base::{Fault, Note, NoteSink, PARENS, Place};
use std::marker::Model;

/// What the expression at the front of a text comes to.
#[derive(Clone, Copy)]
pub struct Evaluation {
    /// In basic units.
    pub value: i32,
    /// How many bytes the expression takes.
    pub len: usize,
    troubles: Troubles,
}

/// The messages of an expression, which are taken one after another. Contracts see the list of those still to be taken.
#[derive(Drop)]
pub struct EvaluationNotes {
    troubles: Troubles,
    place: Place,
}

impl Model for EvaluationNotes {
    ghost use Rattle.std.specs.Prelude.{List};
    ghost use Rattle.page_core_base.specs.Messages.{Message};
    ghost use Rattle.page_core_numbers.specs.Expressions.{messages_at};
    ghost use Rattle.page_core_numbers.specs.machine.Signs.{troubles_view};

    ghost Value = { List Message };

    ghost view = { λ n. messages_at n.place.line n.place.column (troubles_view n.troubles) };
}

/// Evaluates the expression at the front of a text: roff(7), "Numerical expressions". `unit` is the unit of a number without one. What
/// its value is says [`number`](crate::number).
pub fn evaluate(text: &[u8], unit: Scale) -> Evaluation
    ensures value { result.value ≡ (expression_of unit text.now).value }
    ensures len { result.len + length (expression_of unit text.now).rest ≡ length text.now }
    ensures troubles { reported result ≡ (expression_of unit text.now).troubles }
{
    let expression = read_expression(text, unit, PARENS);
    Evaluation {
        value: expression.value,
        len: text.len() - expression.rest.len(),
        troubles: expression.troubles,
    }
}

impl Evaluation {
    /// Its messages, which are all at one place.
    pub fn notes(self, place: Place) -> EvaluationNotes
        ensures { result ≡ messages_at place.line place.column (reported self) }
    {
        EvaluationNotes {
            troubles: self.troubles,
            place,
        }
    }
}

impl EvaluationNotes {
    /// Takes the next message, if there is one more.
    pub fn next_note(&mut self) -> Option<Note>
        ensures { TakesFirst self.old result self.new }
    {
        let trouble = self.troubles.take_first()?;
        Some(trouble.note(self.place))
    }
}

/// Gives the messages of an expression to a sink.
pub(crate) fn report<N: NoteSink>(mut left: EvaluationNotes, notes: &mut N) -> Result<(), Fault>
    ensures gives { Gives result N.gave N.within notes.old left notes.new }
    ensures fault { FailsAs Fault.WriteNotes result (N.failed notes.old) (N.failed notes.new) }
    ensures same { N.loans notes.new ≡ N.loans notes.old }
{
    while let Some(note) = left.next_note() {
        notes.note(&note)?;
    }
    Ok(())
}
