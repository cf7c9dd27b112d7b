//! What a case is, and how a page is run and shown, by the words of its title.

use page_core_base::{Encoding, Language, Level, Output, Settings};

/// What a case is, by the front of its title.
#[derive(Clone, Copy)]
pub(crate) enum Kind<'a> {
    /// A page.
    Page,
    /// A page whose record is shown.
    Record,
    /// An index, and what is asked of it.
    Search { asked: &'a str, is_scarce: bool },
}

impl<'a> Kind<'a> {
    /// What a title `WORDS: what it shows` makes of its case: `record` makes it a record, `whatis` a search, which `scarce` before it has run
    /// with memory refused too.
    pub(crate) fn of_title(title: &'a str) -> Kind<'a> {
        let front = front_of(title);
        let (words, is_scarce) = match front.strip_prefix("scarce ") {
            Some(words) => (words, true),
            None => (front, false),
        };
        match words.split_once(' ').unwrap_or((words, "")) {
            ("record", _) => Kind::Record,
            ("whatis", asked) => Kind::Search { asked, is_scarce },
            _ => Kind::Page,
        }
    }
}

// The words of a title `WORDS: what it shows`, if it has some.
fn front_of(title: &str) -> &str {
    let (front, _) = title.split_once(": ").unwrap_or(("", title));
    front
}

/// What the words of a title say of its page. A page whose record is shown has settings, and may be scarce.
#[derive(Drop)]
pub(crate) struct Words {
    pub(crate) settings: Settings,
    /// It is run once, at once.
    pub(crate) is_once: bool,
    /// It is written with `~N*TEXT~` for a text that comes N times.
    pub(crate) is_repeated: bool,
    /// Each of its characters, up to U+00FF, is the byte of its number.
    pub(crate) is_bytes: bool,
    /// Its last line has no line feed.
    pub(crate) is_unended: bool,
    /// What it gives is shown as `is_repeated` writes it.
    pub(crate) is_shortened: bool,
    /// It is also run with memory refused.
    pub(crate) is_scarce: bool,
}

impl Words {
    /// The words of no title.
    pub(crate) fn new() -> Words {
        let mut settings = Settings::new();
        settings.least = Some(Level::Base);
        Words {
            settings,
            is_once: false,
            is_repeated: false,
            is_bytes: false,
            is_unended: false,
            is_shortened: false,
            is_scarce: false,
        }
    }

    /// The words of a title `WORDS: what it shows`: `once`, `times`, `bytes`, `unended`, `short`, `scarce`, and of its settings `utf8`, `lint`, `man`,
    /// `mdoc`, `ascii-bytes`, `latin1-bytes`, `utf8-bytes`, `os=NAME`, `width=N`, `indent=N`, a level in capitals below which no message is given, or NONE for no
    /// message at all. With none of these words the output is ASCII, the page decides its encoding and its language, and all messages are given.
    pub(crate) fn of_title(title: &str) -> Words {
        let mut words = Words::new();
        for word in front_of(title).split(' ') {
            match word {
                "once" => words.is_once = true,
                "times" => words.is_repeated = true,
                "bytes" => words.is_bytes = true,
                "unended" => words.is_unended = true,
                "short" => words.is_shortened = true,
                "scarce" => words.is_scarce = true,
                _ => set_from(&mut words.settings, word),
            }
        }
        words
    }
}

fn set_from(settings: &mut Settings, word: &str) {
    if let Some(digits) = word.strip_prefix("width=") {
        settings.width = digits.parse().unwrap_or(0);
    } else if let Some(digits) = word.strip_prefix("indent=") {
        settings.indent = digits.parse().ok();
    } else if let Some(name) = word.strip_prefix("os=") {
        let _ = settings.set_os(name);
    } else {
        set(settings, word);
    }
}

fn set(settings: &mut Settings, word: &str) {
    match word {
        "utf8" => settings.output = Output::Utf8,
        "lint" => settings.output = Output::Lint,
        "man" => settings.language = Language::Man,
        "mdoc" => settings.language = Language::Mdoc,
        "ascii-bytes" => settings.encoding = Encoding::Ascii,
        "latin1-bytes" => settings.encoding = Encoding::Latin1,
        "utf8-bytes" => settings.encoding = Encoding::Utf8,
        "NONE" => settings.least = None,
        "STYLE" => settings.least = Some(Level::Style),
        "WARNING" => settings.least = Some(Level::Warning),
        "ERROR" => settings.least = Some(Level::Error),
        "UNSUPP" => settings.least = Some(Level::Unsupp),
        _ => {}
    }
}
