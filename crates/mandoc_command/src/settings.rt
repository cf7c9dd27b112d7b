//! The settings that a command line asks for (mandoc(1), OPTIONS).

ghost use Rattle.std.specs.Prelude.{◌≡◌, IfSome, option_map};
ghost use Rattle.page_core_base.specs.Settings.{IsGood};
ghost use Rattle.page_core_base.specs.Texts.{IsLine};
ghost use Rattle.mandoc_command.specs.Asked.{values_of, asked_of, asked, text_in, least_of, system_of, checked, checked_system, chosen, with_os};

use crate::given::Given;
use crate::measures::Measures;
use crate::names::{encoding_named, language_named, level_named, output_named};
use page_core_base::{Encoding, Language, Level, Output, Settings};

/// The settings by the values of the options; none where a value is refused.
#[tactic(auto, unfolding(crate::specs::Asked::asked))]
pub(crate) fn settings_of(given: Given) -> Option<Settings>
    ensures value { option_map asked_of result ≡ asked (values_of given.entry) }
    ensures good { IfSome result IsGood }
{
    let output = given.output.map_or(Some(Output::Ascii), output_named)?;
    let least = least_of(given.level, output)?;
    let measures = given
        .measures
        .map_or(Some(Measures::none()), Measures::named)?;
    let encoding = given.encoding.map_or(Some(Encoding::Auto), encoding_named)?;
    let language = given.language.map_or(Some(Language::Auto), language_named)?;
    let settings = Settings {
        output,
        width: measures.width.unwrap_or(78),
        indent: measures.indent,
        language,
        encoding,
        least,
        ..Settings::new()
    };
    checked(with_system(settings, given.system)?)
}

// The least level of the messages that are given: where none is asked for, no message is given, but under lint each one is.
#[tactic(auto, unfolding(crate::specs::Asked::least_of))]
fn least_of(level: Option<&str>, output: Output) -> Option<Option<Level>>
    ensures { result ≡ least_of (text_in level.entry) output }
{
    match level {
        Some(name) => Some(Some(level_named(name)?)),
        None if output == Output::Lint => Some(Some(Level::Base)),
        None => Some(None),
    }
}

// With the operating system of a value `os=NAME`, where there is one.
#[tactic(auto, unfolding(crate::specs::Asked::system_of))]
fn with_system(settings: Settings, system: Option<&str>) -> Option<Settings>
    requires { IsLine settings.os.bytes }
    ensures value { option_map asked_of result
        ≡ with_os (asked_of settings) (chosen settings.os.bytes system_of (text_in system.entry)) }
    ensures line { IfSome result (λ s. IsLine s.os.bytes) }
{
    let Some(value) = system else {
        return Some(settings);
    };
    let name = value.strip_prefix("os=")?;
    with_os(settings, name)
}

// With a name of the operating system, where it is no bad one.
fn with_os(mut settings: Settings, name: &str) -> Option<Settings>
    ensures value { option_map asked_of result ≡ with_os (asked_of settings) (checked_system name.now) }
    ensures line { IfSome result (λ s. IsLine s.os.bytes) }
{
    if settings.set_os(name).is_err() {
        return None;
    }
    Some(settings)
}

// The settings, where a page can be formatted by them.
#[tactic(auto, unfolding(crate::specs::Asked::checked))]
fn checked(settings: Settings) -> Option<Settings>
    requires { IsLine settings.os.bytes }
    ensures value { option_map asked_of result ≡ checked (asked_of settings) }
    ensures good { IfSome result IsGood }
{
    if settings.check().is_err() {
        return None;
    }
    Some(settings)
}
