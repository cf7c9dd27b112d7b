//! What the words of a title say of a page's run.

use page_core::{Level, Output, Settings};
use page_test_streams::Fails;

/// How a page is run, and what is shown of it.
#[derive(Clone, Copy)]
pub(crate) struct Words {
    pub(crate) settings: Settings,
    pub(crate) rows: Fails,
    pub(crate) messages: Fails,
    /// Whether each line is shown before what it gives.
    pub(crate) each: bool,
    /// The line after which the page goes on from what is held of it, if there is one.
    pub(crate) cut: Option<u32>,
    /// The line after which the page goes on from what is held of it with memory refused, if there is one.
    pub(crate) scarce: Option<u32>,
    /// Whether each character of the page, up to U+00FF, is the byte of its number.
    pub(crate) bytes: bool,
}

// The level of this name in messages, if there is one.
fn level_of(name: &str) -> Option<Level> {
    match name {
        "WARNING" => Some(Level::Warning),
        "ERROR" => Some(Level::Error),
        _ => None,
    }
}

impl Words {
    /// All messages are given, and nothing fails.
    pub(crate) fn new() -> Words {
        Words {
            settings: Settings {
                least: Some(Level::Base),
                ..Settings::new()
            },
            rows: Fails::Never,
            messages: Fails::Never,
            each: false,
            cut: None,
            scarce: None,
            bytes: false,
        }
    }

    /// Those of a title `WORDS: what it shows`: `utf8`, `width=N`, `indent=N`, `level=LEVEL`, the least level of messages, `rows=N` and
    /// `messages=N`, after how many bytes the writer of the rows or of the messages fails, `each`, `cut=N`, the line after which the page goes on
    /// from what is held of it, `scarce=N`, the same with memory refused, and `bytes`, a character for each byte of the page.
    pub(crate) fn of(title: &str) -> Words {
        let mut words = Words::new();
        let (all, _) = title.split_once(": ").unwrap_or(("", title));
        for word in all.split(' ') {
            words.set(word);
        }
        words
    }

    fn set(&mut self, word: &str) {
        match word.split_once('=') {
            Some(("width", digits)) => self.settings.width = digits.parse().unwrap_or(0),
            Some(("indent", digits)) => self.settings.indent = digits.parse().ok(),
            Some(("level", name)) => self.settings.least = level_of(name),
            Some(("cut", digits)) => self.cut = digits.parse().ok(),
            Some(("scarce", digits)) => self.scarce = digits.parse().ok(),
            Some(("rows", digits)) => self.rows = Fails::Past(digits.parse().unwrap_or(0)),
            Some(("messages", digits)) => self.messages = Fails::Past(digits.parse().unwrap_or(0)),
            _ => match word {
                "utf8" => self.settings.output = Output::Utf8,
                "each" => self.each = true,
                "bytes" => self.bytes = true,
                _ => {}
            },
        }
    }

    /// Whether no writer fails.
    pub(crate) fn are_well(&self) -> bool {
        matches!((self.rows, self.messages), (Fails::Never, Fails::Never))
    }
}
