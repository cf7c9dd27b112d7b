//! The columns of the words of `Nm` that begin a row of the SYNOPSIS: later rows are as many further in (mdoc(7), `Nm`).

ghost use Rattle.std.specs.Prelude.{◌≡◌, ◌≤◌, ◌*◌, Some, min, ◌+◌};
ghost use Rattle.page_core_base.specs.declared.limits.TheConstants.{LINE};
ghost use Rattle.page_roff_syntax.specs.Arguments.{is_quoted};
ghost use Rattle.page_scopes_blocks.specs.Blocks as hangs;
ghost use Rattle.page_scopes_words.specs.Widths.{name_columns};
ghost use Rattle.page_sets_lines.specs.laws.Views.{KindFits, FitsAt};
ghost use Rattle.page_sets_lines.specs.laws.Events.{kind_view, word_view};
ghost use Rattle.page_sets_lines.specs.declared.events.EventKind.TheVariants as kinds;
ghost use Rattle.page_sets_lines.specs.declared.leaves.Leaf.TheVariants as leaves;
ghost use Rattle.page_sets_lines.specs.declared.line_steps.LineStep.TheVariants as steps;
ghost use Rattle.page_scopes_layout.specs.Contexts.{MARGIN as spec_MARGIN};

use page_core_base::Output;
use page_scopes_layout::MARGIN;
use page_scopes_phrases::{Formatting, ManualName};
use page_scopes_words::name_columns;
use page_sets_lines::{EventKind, Leaf, LineStep, Role, Word};

// The columns with those of a word more, and the blank after it.
fn columns_after(so_far: u16, columns: u32) -> u16
    requires { columns ≤ 1000 * LINE }
    ensures { result ≡ min (so_far + columns + 1) spec_MARGIN }
{
    (u32::from(so_far) + columns + 1).min(MARGIN) as u16
}

// Counts a word of this many columns.
fn count(columns: u32, so_far: u16, state: &mut Formatting)
    requires { columns ≤ 1000 * LINE }
    ensures { state.new ≡ hangs.counted (Some so_far) (Some columns) state.old }
{
    state.line.name_columns = Some(columns_after(so_far, columns));
}

// Counts a word that is no delimiter.
#[inline(never)]
fn count_word(output: Output, word: &Word<&[u8]>, so_far: u16, state: &mut Formatting)
    requires { FitsAt word.now.arg.column word.now.arg.text.now }
    ensures { let word = word_view word.now
        in state.new ≡ hangs.counted (Some so_far) (Some (name_columns output (is_quoted word.arg.quoting) word.arg.text)) state.old }
{
    count(
        name_columns(output, word.arg.is_quoted(), word.arg.text),
        so_far,
        state,
    );
}

// Counts the name of the manual.
#[inline(never)]
fn count_manual_name(output: Output, name: &Option<ManualName>, so_far: u16, state: &mut Formatting)
    ensures { state.new ≡ hangs.counted (Some so_far) (hangs.kind_columns output (kinds.Leaf (leaves.Step steps.ManualName)) name.now) state.old }
{
    match name {
        Some(name) => count(
            name_columns(output, false, name.kept().text.text()),
            so_far,
            state,
        ),
        None => count(0, so_far, state),
    }
}

/// Counts the columns of what an event prints, before it is laid out, where the words of a name that begins a row of the SYNOPSIS are counted; delimiters
/// do not count. The name is that of the manual.
#[tactic(auto, unfolding(crate::specs::Blocks::kind_counted))]
#[inline(always)]
pub fn count_name(
    output: Output,
    kind: &EventKind<&[u8]>,
    name: &Option<ManualName>,
    state: &mut Formatting,
)
    requires { KindFits (kind_view kind.now) }
    ensures { state.new ≡ hangs.kind_counted output (kind_view kind.now) name.now state.old }
{
    let Some(so_far) = state.line.name_columns else {
        return;
    };
    match kind {
        EventKind::Word(word) if !matches!(word.role, Role::Delimiter) => {
            let word = *word;
            count_word(output, &word, so_far, state);
        }
        EventKind::Leaf(Leaf::Step(LineStep::ManualName)) => {
            count_manual_name(output, name, so_far, state);
        }
        _ => {}
    }
}
