//! Settings, and how they are checked.

use crate::checks::{check, check_text};
use page_core::{Encoding, Language, Output, SettingFault, Settings};
use std::process::Abort;
use std::test::Fail;

fn check_settings(rt: &impl Abort, got: Result<(), SettingFault>, want: Result<(), SettingFault>) {
    assert_eq!(rt; got, want);
}

#[test]
fn settings_begin_as_a_run_with_no_options(rt: HostRuntime) {
    let settings = Settings::new();
    check(&rt, settings.output == Output::Ascii, "the output");
    check(&rt, settings.width == 78, "the width");
    check(&rt, settings.indent.is_none(), "the indent");
    check(&rt, settings.language == Language::Auto, "the language");
    check(&rt, settings.encoding == Encoding::Auto, "the encoding");
    check(&rt, settings.least.is_none(), "the least level");
    check_text(&rt, settings.os.as_str(), "", "the operating system");
    check_settings(&rt, settings.check(), Ok(()));
}

#[test]
fn settings_are_checked_in_order(rt: HostRuntime) {
    let cases = [
        (58, None, "", Ok(())),
        (300, Some(20), "BSD\t1", Ok(())),
        (78, Some(0), "", Ok(())),
        (57, None, "", Err(SettingFault::Width)),
        (301, None, "", Err(SettingFault::Width)),
        (0, Some(0), "", Err(SettingFault::Width)),
        (78, Some(21), "", Err(SettingFault::Indent)),
        (57, Some(21), "\n", Err(SettingFault::Width)),
        (58, Some(21), "\n", Err(SettingFault::Indent)),
        (58, Some(20), "\n", Err(SettingFault::Os)),
    ];
    for (width, indent, os, want) in cases {
        let mut settings = Settings::new();
        settings.width = width;
        settings.indent = indent;
        let _ = settings.os.try_push_str(os);
        check_settings(&rt, settings.check(), want);
    }
}

#[test]
fn an_operating_system_is_set_or_refused(rt: HostRuntime) -> Result<(), Fail> {
    let long = [b'x'; 257];
    let whole = std::str::from_utf8(&long[..256])?;
    let mut settings = Settings::new();
    settings.width = 90;
    for name in ["OpenBSD 7.5", "", whole] {
        check_settings(&rt, settings.set_os(name), Ok(()));
        check_text(&rt, settings.os.as_str(), name, name);
        check(&rt, settings.width == 90, name);
    }
    let before = settings;
    for name in ["a\u{7}b", "\n", "\u{9f}", std::str::from_utf8(&long)?] {
        check_settings(&rt, settings.set_os(name), Err(SettingFault::Os));
        check(&rt, settings == before, name);
    }
    Ok(())
}
