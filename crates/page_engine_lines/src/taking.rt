//! What roff gives of a source line, as pieces and messages.

ghost use Rattle.std.specs.Prelude.{◌≡◌, ◌≤◌, length, None};
ghost use Rattle.page_core_base.specs.laws.Views.{Came, line_view};
ghost use Rattle.page_roff_source.specs.laws.Views.{given_of};
ghost use Rattle.page_engine_lines.specs.laws.Views.{events_after, events_items};
ghost use Rattle.page_engine_lines.specs.machine.Lines as lines;
ghost use Rattle.page_engine_lines.specs.machine.Given.{given_items, body_after, line_after, line_items, set_events};

use crate::Body;
use crate::item_outs::ItemOut;
use page_core_base::{LINE, NoteKind, PieceOut, Place, Taken};
use page_roff_source::RoffLines;
use page_roff_syntax::{is_white, kept_len};
use page_scopes_words::report;
use page_sets_lines::PlainLine;

/// Reports white space at a line's end.
pub(crate) fn report_trailing<O: PieceOut>(out: &mut O, number: u32, text: &[u8])
    requires { length text.now ≤ LINE }
    ensures { Came O.left out.old (lines.trailing_notes number text.now) out.new }
{
    let len = kept_len(text, |byte| is_white(byte));
    if len < text.len() {
        let column = len as u32 + 1;
        report(
            out,
            NoteKind::TrailingBlank,
            Place {
                line: number,
                column,
            },
            b"",
        );
    }
}

// Gives the pieces and messages of a finished line as the set of macros makes them. It is a call of its own, so that its code is there once.
#[inline(never)]
fn give_by_set<L: PieceOut>(body: &mut Body, line: Taken<'_>, out: &mut ItemOut<L>)
    requires { length line.text.now ≤ LINE }
    ensures came { Came L.left out.old.latch
        (events_items body.old (set_events body.old (line_view line.entry))) out.new.latch }
    ensures after { body.new ≡ events_after body.old (set_events body.old (line_view line.entry)) }
{
    let set = body.set();
    body.give_line(&set, line, out);
}

/// Gives the pieces and messages of a finished line, at once where it is no control line. It decides the language, unless it is decided.
#[inline(always)]
pub(crate) fn give_finished<L: PieceOut>(body: &mut Body, line: Taken<'_>, out: &mut ItemOut<L>)
    requires { length line.text.now ≤ LINE }
    ensures came { Came L.left out.old.latch
        (line_items body.old (line_view line.entry)) out.new.latch }
    ensures after { body.new ≡ line_after body.old (line_view line.entry) }
{
    body.decide(line);
    match PlainLine::of(line) {
        Some(plain) => body.give_plain(line, plain, out),
        None => give_by_set(body, line, out),
    }
}

// `give_finished`, without a way of its own for lines that are no control lines: for those that roff made of a source line.
#[inline(always)]
fn give_made<L: PieceOut>(body: &mut Body, made: Taken<'_>, out: &mut ItemOut<L>)
    requires { length made.text.now ≤ LINE }
    ensures came { Came L.left out.old.latch
        (line_items body.old (line_view made.entry)) out.new.latch }
    ensures after { body.new ≡ line_after body.old (line_view made.entry) }
{
    body.decide(made);
    give_by_set(body, made, out);
}

/// Takes what is still to come of a source line, and gives the pieces and messages of its finished lines. It is a call, since most source lines are
/// taken as they are written.
#[inline(never)]
pub(crate) fn give_taken<L: PieceOut>(roff: &mut RoffLines, body: &mut Body, out: &mut ItemOut<L>)
    ensures came { Came L.left out.old.latch (given_items body.old (given_of roff.old.edge)) out.new.latch }
    ensures body { body.new ≡ body_after body.old (given_of roff.old.edge) }
    ensures roff { roff.new.edge ≡ record roff.old.edge { to_come = None } }
{
    while let Some(taken) = roff.take_into(out) {
        give_made(body, taken, out);
    }
}
