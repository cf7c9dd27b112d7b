//! The names of the values of options (mandoc(1), -K, -m, -T and -W).

ghost use Rattle.std.specs.Prelude.{◌≡◌};
ghost use Rattle.mandoc_command.specs.Names.{output_named, level_named, encoding_named, language_named};

use page_core_base::{Encoding, Language, Level, Output};

/// What is written (mandoc(1), -T).
#[tactic(auto, unfolding(crate::specs::Names::output_named))]
pub(crate) fn output_named(name: &str) -> Option<Output>
    ensures { result ≡ output_named name.now }
{
    match name {
        "ascii" => Some(Output::Ascii),
        "utf8" => Some(Output::Utf8),
        "lint" => Some(Output::Lint),
        _ => None,
    }
}

/// The least level of the messages that are given (mandoc(1), -W).
#[tactic(auto, unfolding(crate::specs::Names::level_named))]
pub(crate) fn level_named(name: &str) -> Option<Level>
    ensures { result ≡ level_named name.now }
{
    match name {
        "base" | "all" => Some(Level::Base),
        "style" => Some(Level::Style),
        "warning" => Some(Level::Warning),
        "error" => Some(Level::Error),
        "unsupp" => Some(Level::Unsupp),
        _ => None,
    }
}

/// The encoding of the pages (mandoc(1), -K).
#[tactic(auto, unfolding(crate::specs::Names::encoding_named))]
pub(crate) fn encoding_named(name: &str) -> Option<Encoding>
    ensures { result ≡ encoding_named name.now }
{
    match name {
        "us-ascii" => Some(Encoding::Ascii),
        "iso-8859-1" => Some(Encoding::Latin1),
        "utf-8" => Some(Encoding::Utf8),
        _ => None,
    }
}

/// The language of the pages (mandoc(1), -m).
#[tactic(auto, unfolding(crate::specs::Names::language_named))]
pub(crate) fn language_named(name: &str) -> Option<Language>
    ensures { result ≡ language_named name.now }
{
    match name {
        "doc" => Some(Language::Mdoc),
        "an" => Some(Language::Man),
        "andoc" => Some(Language::Auto),
        _ => None,
    }
}
