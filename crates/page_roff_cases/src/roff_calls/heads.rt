//! The heads of conditionals, and the ends of blocks.

use super::texts::show_bytes;
use page_core_base::LINE;
use page_roff_heads::{Guarded, Placed, Test, block_end, read_conditional, read_guarded};
use page_test_streams::shown;

/// The column of what follows the name in `.if`.
const COLUMN: u32 = 4;

/// Shows the head of a conditional, of which what follows `.if` is given.
pub(crate) fn show_head(rt: &HostRuntime, rest: &str) {
    if rest.len() > LINE / 2 {
        return;
    }
    let head = read_conditional(rest.as_bytes(), COLUMN);
    let _ = print!(rt; " ->{}", if head.condition.is_turned { " not" } else { "" });
    show_test(rt, head.condition.test, head.condition.column);
    show_guards(rt, head.guarded);
}

fn show_test(rt: &HostRuntime, test: Test<&[u8]>, column: u32) {
    match test {
        Test::Always(true) => show_word(rt, "always"),
        Test::Always(false) => show_word(rt, "never"),
        Test::Unknown(text) => show_placed(rt, "unknown", Placed { text, column }),
        Test::IsDefined(text) => show_placed(rt, "defined", Placed { text, column }),
        Test::IsRegister(text) => show_placed(rt, "register", Placed { text, column }),
        Test::Expression(text) => show_placed(rt, "expression", text),
        Test::Texts { first, second } => {
            show_placed(rt, "text", first);
            show_placed(rt, "text", second);
        }
        Test::Missing => show_word(rt, "missing"),
    }
}

/// Shows what `.el` guards, of which what follows it is given.
pub(crate) fn show_guarded(rt: &HostRuntime, rest: &str) {
    if rest.len() > LINE / 2 {
        return;
    }
    show_word(rt, "->");
    show_guards(rt, read_guarded(rest.as_bytes(), COLUMN));
}

fn show_guards(rt: &HostRuntime, guarded: Guarded<&[u8]>) {
    if guarded.opens_block {
        show_word(rt, "opens a block");
    }
    show_remainder(rt, guarded.remainder);
}

/// Shows where a line ends a block.
pub(crate) fn show_end(rt: &HostRuntime, line: &str) {
    if line.len() > LINE {
        return;
    }
    match block_end(line.as_bytes()) {
        Some(end) => {
            let _ = print!(rt; " -> after {},", shown(end.before));
            show_remainder(rt, end.remainder);
        }
        None => show_word(rt, "-> no end"),
    }
}

fn show_remainder(rt: &HostRuntime, remainder: Option<Placed<&[u8]>>) {
    match remainder {
        Some(text) => show_placed(rt, "line", text),
        None => show_word(rt, "no line"),
    }
}

fn show_placed(rt: &HostRuntime, word: &str, placed: Placed<&[u8]>) {
    let _ = print!(rt; " {word} ");
    show_bytes(rt, placed.text);
    let _ = print!(rt; " at {}", placed.column);
}

fn show_word(rt: &HostRuntime, word: &str) {
    let _ = print!(rt; " {word}");
}
