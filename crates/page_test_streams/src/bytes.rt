//! Bytes that calls give, as text; and texts whose parts are bytes.

ghost use Rattle.std.specs.Prelude.{◌≡◌};
ghost use Rattle.std.specs.List.{list_all};
ghost use Rattle.page_core_base.specs.laws.Views.{is_ascii};

use crate::notation::repeated;
use std::alloc::{AllocError, Global};

/// The most bytes of a text that is shown as it is.
const MOST: usize = 1_000;

/// A text that a call gives.
pub fn shown(text: &[u8]) -> &str {
    std::str::from_utf8(text).unwrap_or("not UTF-8")
}

/// Whether all characters of a text are of ASCII.
pub fn are_ascii(text: &[u8]) -> bool
    ensures { result ≡ list_all is_ascii text.now }
{
    text.iter().all(|c| *c < 128)
}

/// Shows messages, a line for each.
pub fn show_messages(rt: &HostRuntime, messages: &[u8]) {
    for message in shown(messages).lines() {
        let _ = print!(rt; "\n{message}");
    }
}

/// Shows a text; of a long one each run of a character, as `N*C`.
pub fn show_runs(rt: &HostRuntime, text: &str) {
    if text.len() <= MOST {
        let _ = print!(rt; "{text}");
        return;
    }
    let mut run = None;
    let mut times = 0u32;
    for character in text.chars() {
        if run != Some(character) {
            show_run(rt, run, times);
            run = Some(character);
            times = 0;
        }
        times = times.saturating_add(1);
    }
    show_run(rt, run, times);
}

fn show_run(rt: &HostRuntime, run: Option<char>, times: u32) {
    let Some(character) = run else {
        return;
    };
    let _ = if times == 1 {
        print!(rt; "{character}")
    } else {
        print!(rt; "{times}*{character}")
    };
}

/// The bytes of a text in which `^` and two digits of base 16 stand for a byte, and `~N*TEXT~` for the text N times.
pub fn bytes_of(alloc: Global, text: &str) -> Result<Vec<u8>, AllocError> {
    let text = repeated(alloc, text)?;
    let mut bytes = Vec::new(alloc);
    for (index, part) in text.as_str().split('^').enumerate() {
        match part.as_bytes() {
            [high, low, rest @ ..] if index > 0 => {
                bytes.push(digit(*high).wrapping_mul(16).wrapping_add(digit(*low)))?;
                bytes.extend_from_slice(rest)?;
            }
            all => bytes.extend_from_slice(all)?,
        }
    }
    Ok(bytes)
}

// The value of a digit.
fn digit(byte: u8) -> u8 {
    match byte {
        b'0'..=b'9' => byte - b'0',
        b'A'..=b'F' => byte - b'A' + 10,
        _ => 0,
    }
}

/// Shows rows, with a bar after each.
pub fn show_rows(rt: &HostRuntime, rows: &str) {
    if !rows.is_empty() {
        let _ = print!(rt; " -> ");
    }
    for row in rows.lines() {
        show_runs(rt, row);
        let _ = print!(rt; "|");
    }
}
