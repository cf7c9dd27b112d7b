//! Whether a condition holds (roff(7), "Conditional expressions").

ghost use Rattle.std.specs.Prelude.{◌≡◌, false, ◌-◌, ◌≤◌, ◌^◌, take, drop};
ghost use Rattle.std.specs.Str.{bytes_eq};
ghost use Rattle.page_roff_values.specs.Answers as asked;
ghost use Rattle.page_roff_values.specs.laws.Views.{Gives, Goes};
ghost use Rattle.page_roff_heads.specs.laws.Views.{condition_view, test_view, FitsTest, placed_view, FitsPlaced};
ghost use Rattle.page_roff_values.specs.machine.Rest.{surroundings_of};
ghost use Rattle.page_roff_values.specs.Values.{nothing};

use crate::environments::Environment;
use crate::expansions::Expansion;
use crate::numbers::expression;
use page_core_base::{Note, NoteKind, NoteOut, Place};
use page_roff_heads::{Condition, Placed, Test};
use page_roff_names::Names;
use page_roff_syntax::Request;

// Whether a string, a macro or a request has a name.
fn is_defined(name: &[u8], names: &Names) -> bool
    ensures { result ≡ asked.is_defined name.now names.now }
{
    names.string(name).is_some() || names.body(name).is_some() || Request::of(name).is_some()
}

// What `!` makes of a test.
fn turned(is_turned: bool, holds: bool) -> bool
    ensures { result ≡ asked.turned is_turned holds }
{
    holds != is_turned
}

// Expands a text after what is finished of its line, of which `bytes_before` bytes are before the text. Answers whether that was cut.
fn expand_text<O: NoteOut>(
    text: &[u8],
    bytes_before: u32,
    env: &Environment<'_>,
    line: &mut Expansion,
    out: &mut O,
) -> bool
    requires going { line.old.ended ≡ false }
    requires bytes_before { bytes_before ≤ 2 ^ 31 }
    ensures goes { Goes O.left out.old (asked.expands (surroundings_of env.now) bytes_before text.now line.old)
        out.new (nothing line.new) }
    ensures ended { result ≡ line.new.ended }
{
    line.expand_more(env, text, bytes_before, out);
    line.has_ended()
}

// Whether an expression is above 0.
fn is_positive<O: NoteOut>(
    text: &Placed<&[u8]>,
    place: Place,
    is_turned: bool,
    env: &Environment<'_>,
    line: &mut Expansion,
    out: &mut O,
) -> bool
    requires fits { FitsPlaced (placed_view text.now) }
    requires going { line.old.ended ≡ false }
    ensures { Gives O.left out.old out.new result line.new
        (asked.test_answer (surroundings_of env.now) place is_turned
        (Test.Expression (placed_view text.now)) line.old) }
{
    if expand_text(text.text, text.column.saturating_sub(1), env, line, out) {
        return false;
    }
    turned(is_turned, expression(line.text(), place, out) > 0)
}

// Whether the texts up to `len` and from there on are equal.
fn has_equal_parts(text: &[u8], len: usize) -> bool
    ensures { result ≡ bytes_eq (take len text.now) (drop len text.now) }
{
    let middle = len.min(text.len());
    text[..middle] == text[middle..]
}

// Whether two texts are equal.
fn are_equal<O: NoteOut>(
    first: &Placed<&[u8]>,
    second: &Placed<&[u8]>,
    place: Place,
    is_turned: bool,
    env: &Environment<'_>,
    line: &mut Expansion,
    out: &mut O,
) -> bool
    requires first { FitsPlaced (placed_view first.now) }
    requires second { FitsPlaced (placed_view second.now) }
    requires going { line.old.ended ≡ false }
    ensures { Gives O.left out.old out.new result line.new
        (asked.test_answer (surroundings_of env.now) place is_turned
        (Test.Texts (placed_view first.now) (placed_view second.now)) line.old) }
{
    if expand_text(first.text, first.column.saturating_sub(1), env, line, out) {
        return false;
    }
    let len = line.text().len();
    let bytes_between = second
        .column
        .saturating_sub(1)
        .saturating_sub(first.text.len() as u32);
    if expand_text(second.text, bytes_between, env, line, out) {
        return false;
    }
    turned(is_turned, has_equal_parts(line.text(), len))
}

/// Whether the condition of a head in a source line holds. Its texts are expanded in `expansion`, with one budget for both.
#[tactic(auto, unfolding(crate::specs::Answers::condition_answer))]
pub fn holds<O: NoteOut>(
    condition: &Condition<&[u8]>,
    line: u32,
    env: &Environment<'_>,
    expansion: &mut Expansion,
    out: &mut O,
) -> bool
    requires { FitsTest (test_view condition.now.test) }
    ensures { Gives O.left out.old out.new result expansion.new
        (asked.condition_answer (surroundings_of env.now) line (condition_view condition.now)) }
{
    expansion.begin(line);
    let is_turned = condition.is_turned;
    let place = Place {
        line,
        column: condition.column,
    };
    match &condition.test {
        Test::Always(answer) => turned(is_turned, *answer),
        Test::Unknown(letter) => {
            out.report(&Note::about(NoteKind::BadCondition, place, letter));
            turned(is_turned, false)
        }
        Test::IsDefined(name) => turned(is_turned, is_defined(name, env.names)),
        Test::IsRegister(name) => turned(is_turned, env.find_register(name).is_some()),
        Test::Expression(text) => is_positive(text, place, is_turned, env, expansion, out),
        Test::Texts { first, second } => {
            are_equal(first, second, place, is_turned, env, expansion, out)
        }
        Test::Missing => false,
    }
}
