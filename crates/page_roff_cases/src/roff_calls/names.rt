//! Names and arguments that the calls work on.

use page_core_base::Output;
use page_roff_names::Names;
use page_roff_values::{CallArguments, Environment, Expansion};
use page_test_streams::shown;
use std::alloc::{AllocError, Global};

/// The most bytes of the arguments of a case.
const MOST: usize = 64;

/// What the calls work on.
#[derive(Drop)]
pub(crate) struct Roff {
    pub(crate) names: Names,
    pub(crate) arguments: CallArguments,
    pub(crate) line: Expansion,
    pub(crate) output: Output,
}

impl Roff {
    pub(crate) fn new(alloc: Global) -> Result<Roff, AllocError> {
        // (names last, so that no failure has to drop them: a proof of that is long)
        let line = Expansion::new(alloc)?;
        let arguments = CallArguments::new(alloc)?;
        let names = Names::new(alloc)?;
        Ok(Roff {
            names,
            arguments,
            line,
            output: Output::Ascii,
        })
    }

    /// Changes what the calls work on, where this is such a call; it shows nothing: a definition NAME=VALUE of a string or a macro, the
    /// arguments of a macro that runs, each with a `;` after it, the output, so many registers, a name that goes, or a line that begins.
    pub(crate) fn change(&mut self, call: &str, text: &str) {
        let (name, value) = text.split_once('=').unwrap_or((text, ""));
        match call {
            "define" => {
                let _ = self.names.define_string(name.as_bytes(), value.as_bytes());
            }
            "macro" => {
                let _ = self.names.define_macro(name.as_bytes(), value.as_bytes());
            }
            "arguments" => self.set_arguments(text),
            "outside" => self.arguments.leave(),
            "utf8" => self.output = Output::Utf8,
            "fill" => self.fill(text.parse().unwrap_or(0)),
            "remove" => self.names.remove(text.as_bytes()),
            "remove-register" => self.names.remove_register(text.as_bytes()),
            "begin" => self.line.begin(7),
            _ => {}
        }
    }

    fn set_arguments(&mut self, text: &str) {
        let text = text.as_bytes();
        let mut packed = [0; MOST];
        for at in 0..MOST {
            if at < text.len() {
                packed[at] = if text[at] == b';' { b'\n' } else { text[at] };
            }
        }
        self.arguments.set(&packed[..text.len().min(MOST)]);
    }

    // Gives a number to so many registers.
    fn fill(&mut self, count: u32) {
        for number in 0..count {
            let name = [b'A' + (number / 32 % 32) as u8, b'A' + (number % 32) as u8];
            let _ = self.names.set_register(&name, 1);
        }
    }

    /// What interpolations read.
    pub(crate) fn environment(&self, copy: bool) -> Environment<'_> {
        Environment {
            copy,
            names: &self.names,
            arguments: &self.arguments,
            output: self.output,
        }
    }
}

/// Shows the number in a register, a read-only one too.
pub(crate) fn show_register(rt: &HostRuntime, roff: &Roff, name: &str) {
    let _ = match roff.environment(false).find_register(name.as_bytes()) {
        Some(number) => print!(rt; " -> {number}"),
        None => print!(rt; " -> none"),
    };
}

/// Shows the number that an interpolation of a register reads.
pub(crate) fn show_number(rt: &HostRuntime, roff: &Roff, name: &str) {
    let number = roff.environment(false).register(name.as_bytes());
    let _ = print!(rt; " -> {number}");
}

/// Shows a string.
pub(crate) fn show_string(rt: &HostRuntime, roff: &Roff, name: &str) {
    let _ = match roff.names.string(name.as_bytes()) {
        Some(value) => print!(rt; " -> {}", shown(value)),
        None => print!(rt; " -> none"),
    };
}
