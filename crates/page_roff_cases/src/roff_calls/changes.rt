//! Changes of names, and what a name stands for after them.

use super::names::Roff;
use super::texts::{show_bytes, show_word};
use page_core_base::Limit;
use page_roff_names::Names;

/// Changes the names, where this is such a call, and shows the limit that is exceeded, if one is: a string or a macro NAME=VALUE that is defined or
/// goes on, a register NAME=NUMBER, or a definition OLD=NEW that gets another name.
pub(crate) fn show_change(rt: &HostRuntime, roff: &mut Roff, call: &str, text: &str) {
    let (name, value) = text.split_once('=').unwrap_or((text, ""));
    let names = &mut roff.names;
    match call {
        "set-register" => show_limit(
            rt,
            names.set_register(name.as_bytes(), value.parse().unwrap_or(0)),
        ),
        "rename" => show_limit(rt, names.rename(name.as_bytes(), value.as_bytes())),
        _ => show_limit(
            rt,
            change_text(names, call, name.as_bytes(), value.as_bytes()),
        ),
    }
}

fn change_text(names: &mut Names, call: &str, name: &[u8], value: &[u8]) -> Result<(), Limit> {
    match call {
        "set-string" => names.define_string(name, value),
        "add-string" => names.append_string(name, value),
        "set-macro" => names.define_macro(name, value),
        "add-macro" => names.append_macro(name, value),
        _ => Ok(()),
    }
}

fn show_limit(rt: &HostRuntime, done: Result<(), Limit>) {
    match done {
        Ok(()) => show_word(rt, "done"),
        Err(limit) => show_word(rt, limit.name()),
    }
}

/// Shows whether a name is that of a string or of a macro, and its value.
pub(crate) fn show_meaning(rt: &HostRuntime, names: &Names, name: &str) {
    if let Some(value) = names.string(name.as_bytes()) {
        show_word(rt, "string ");
        show_bytes(rt, value);
    }
    if let Some(value) = names.body(name.as_bytes()) {
        show_word(rt, "macro ");
        show_bytes(rt, value);
    }
}

/// Shows the number that a register was given.
pub(crate) fn show_given(rt: &HostRuntime, names: &Names, name: &str) {
    match names.register(name.as_bytes()) {
        Some(number) => {
            let _ = print!(rt; " -> {number}");
        }
        None => show_word(rt, "none"),
    }
}
