//! Settings: how a page is formatted (mandoc(1), -T, -O, -K, -I, -W and -m).

ghost use Rattle.std.specs.Prelude.{◌≡◌, ◌≤◌, ◌<◌, [], length, OnOk, IfErr};
ghost use Rattle.page_core_base.specs.Texts.{IsLine};
ghost use Rattle.page_core_base.specs.laws.Settings.{IsChecked, SameButOs};

use crate::Level;
use crate::texts::is_line;
use arrayvec::ArrayString;
use thiserror::Error;

/// What is written: rows in ASCII or UTF-8, or messages alone (mandoc(1), -T).
#[derive(Clone, Copy, Debug, PartialEq, Eq)]
pub enum Output {
    Ascii,
    Utf8,
    Lint,
}

/// The language of the page: decided by the page, or man(7), or mdoc(7) (mandoc(1), -m).
#[derive(Clone, Copy, Debug, PartialEq, Eq)]
pub enum Language {
    Auto,
    Man,
    Mdoc,
}

/// The encoding of the page's bytes (mandoc(1), -K).
#[derive(Clone, Copy, Debug, PartialEq, Eq)]
pub enum Encoding {
    Auto,
    Ascii,
    Latin1,
    Utf8,
}

/// Why settings are refused.
#[derive(Clone, Copy, Debug, PartialEq, Eq, Error)]
pub enum SettingFault {
    /// The width is not 58 to 300 columns.
    #[error("bad width")]
    Width,
    /// The indent is above 20 columns.
    #[error("bad indent")]
    Indent,
    /// The name of the operating system is no line of a page, or too long.
    #[error("bad operating system")]
    Os,
}

/// The least and the greatest width of rows, in columns.
pub const WIDTH_MIN: u32 = 58;

pub const WIDTH_MAX: u32 = 300;

/// The greatest indent, in columns.
pub const INDENT_MAX: u32 = 20;

/// How a page is formatted.
#[derive(Clone, Copy, Debug, PartialEq, Eq)]
pub struct Settings {
    pub output: Output,
    /// The width of rows, in columns.
    pub width: u32,
    /// The indent of text, in columns; none: that of the language.
    pub indent: Option<u32>,
    pub language: Language,
    pub encoding: Encoding,
    /// The least level of the messages that are given; none: no message is.
    pub least: Option<Level>,
    /// The operating system that a page is of where it names none; empty: none.
    pub os: ArrayString<256>,
}

impl Settings {
    /// The settings of a run with no options: ASCII, 78 columns, no messages.
    pub fn new() -> Settings
        ensures width { result.width ≡ 78 }
        ensures indent { result.indent ≡ None }
        ensures output { result.output ≡ Output.Ascii }
        ensures language { result.language ≡ Language.Auto }
        ensures encoding { result.encoding ≡ Encoding.Auto }
        ensures least { result.least ≡ None }
        ensures os { result.os.bytes ≡ [] }
    {
        Settings {
            output: Output::Ascii,
            width: 78,
            indent: None,
            language: Language::Auto,
            encoding: Encoding::Auto,
            least: None,
            os: ArrayString::new(),
        }
    }

    /// Whether a page can be formatted by these settings: the width is tested first, then the indent, then the operating system.
    pub fn check(&self) -> Result<(), SettingFault>
        ensures { IsChecked result self.now }
    {
        if self.width < WIDTH_MIN || self.width > WIDTH_MAX {
            return Err(SettingFault::Width);
        }
        if let Some(indent) = self.indent {
            if indent > INDENT_MAX {
                return Err(SettingFault::Indent);
            }
        }
        if !is_line(self.os.as_str().as_bytes()) {
            return Err(SettingFault::Os);
        }
        Ok(())
    }

    /// Sets the operating system. A name of more than 256 bytes, or with a control character but the tab, is refused, and the settings stay.
    pub fn set_os(&mut self, name: &str) -> Result<(), SettingFault>
        ensures ok { OnOk result (IsLine name.now × (length name.now ≤ 256) × SameButOs self.old self.new × (self.new.os.bytes ≡ name.now)) }
        ensures err { IfErr result (λ e. (e ≡ SettingFault.Os) × (self.new ≡ self.old) × (IsLine name.now → 256 < length name.now)) }
    {
        if !is_line(name.as_bytes()) {
            return Err(SettingFault::Os);
        }
        let Ok(os) = ArrayString::from(name) else {
            return Err(SettingFault::Os);
        };
        self.os = os;
        Ok(())
    }
}
