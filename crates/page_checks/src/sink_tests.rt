//! Runs over sources and sinks that count their calls: what fails, why, and what is left alone after it.

ghost use Rattle.page_core_streams.specs.laws.Views.{source_state};

use crate::checks::{all_messages, check_count, check_outcome, outcome};
use page_core_base::{Fault, Level, SettingFault, Settings};
use page_engine::{Outcome, Reading, Source, run_sinks};
use page_test_streams::CountingSink;
use std::process::Abort;
use std::test::Fail;

// Gives a page, one byte a call, and fails at the call of a number.
#[derive(Drop)]
struct Bytes<'a> {
    page: &'a [u8],
    failing: u64,
    calls: u64,
    failures: u64,
    given: u64,
}

impl<'a> Bytes<'a> {
    fn new(page: &'a [u8], failing: u64) -> Bytes<'a> {
        Bytes {
            page,
            failing,
            calls: 0,
            failures: 0,
            given: 0,
        }
    }
}

impl Source for Bytes<'_> {
    ghost use Rattle.std.specs.Prelude.{None};
    ghost use Rattle.page_core_streams.specs.laws.Views.{source_state};

    ghost state = { λ s. source_state None s.failures s.calls s.given 0 };

    ghost Loans = { Unit {0} };

    ghost loans = { λ _. tt };

    fn read(&mut self, buffer: &mut [u8]) -> Reading {
        let given = self.given;
        self.calls = self.calls.saturating_add(1);
        if self.calls == self.failing {
            self.failures = self.failures.saturating_add(1);
            return Reading::Failure;
        }
        if self.page.is_empty() {
            return Reading::End;
        }
        buffer[0] = self.page[0];
        self.page = &self.page[1..];
        self.given = given.saturating_add(1);
        Reading::Bytes(1)
    }
}

// An unknown macro in line 3, and a blank line in line 5.
const PAGE: &[u8] = b".TH T 1 2020-01-01 S\n.SH A\n.ZZ\na\n\nb\n";

// The call that fails of the source, of the rows and of the messages, 0 for none; the fault; and the calls of the source, its bytes, and
// the calls of the rows and of the messages.
type Case = ((u64, u64, u64), Option<Fault>, (u64, u64, u64, u64));

// A run that counts its calls.
fn counts<R: Abort + AllocGlobal>(
    rt: &R,
    settings: &Settings,
    failing: (u64, u64, u64),
    counts: (u64, u64, u64, u64),
    want: Result<Outcome, Fault>,
) {
    let mut source = Bytes::new(PAGE, failing.0);
    let mut rows = CountingSink::new(failing.1);
    let mut notes = CountingSink::new(failing.2);
    let result = run_sinks(rt.alloc(), &mut source, &mut rows, &mut notes, settings);
    check_outcome(rt, result, want);
    check_count(rt, source.calls, counts.0);
    check_count(rt, source.given, counts.1);
    check_count(rt, rows.calls, counts.2);
    check_count(rt, notes.calls, counts.3);
}

// The first row comes with the section header, the first message with line 3, and the footer at the end.
static CASES: [Case; 14] = [
    ((0, 0, 0), None, (37, 36, 8, 2)),
    ((1, 0, 0), Some(Fault::Read), (1, 0, 0, 0)),
    ((22, 0, 0), Some(Fault::Read), (22, 21, 0, 0)),
    ((28, 0, 0), Some(Fault::Read), (28, 27, 3, 0)),
    ((37, 0, 0), Some(Fault::Read), (37, 36, 5, 2)),
    ((0, 1, 0), Some(Fault::WriteText), (27, 27, 1, 0)),
    ((0, 3, 0), Some(Fault::WriteText), (27, 27, 3, 0)),
    ((0, 4, 0), Some(Fault::WriteText), (34, 34, 4, 2)),
    ((0, 5, 0), Some(Fault::WriteText), (34, 34, 5, 2)),
    ((0, 6, 0), Some(Fault::WriteText), (37, 36, 6, 2)),
    ((0, 8, 0), Some(Fault::WriteText), (37, 36, 8, 2)),
    ((0, 0, 1), Some(Fault::WriteNotes), (31, 31, 3, 1)),
    ((0, 0, 2), Some(Fault::WriteNotes), (34, 34, 3, 2)),
    ((0, 9, 3), None, (37, 36, 8, 2)),
];

// After a fault nothing is read, and nothing is given to the other sink.
#[test]
fn stops_where_something_fails(rt: HostRuntime) {
    let settings = all_messages();
    for (failing, fault, calls) in &CASES {
        let want = match fault {
            None => outcome(Some(Level::Error), 6),
            Some(fault) => Err(*fault),
        };
        counts(&rt, &settings, *failing, *calls, want);
    }
}

// Messages that are not given cannot fail.
#[test]
fn gives_no_message_below_the_level(rt: HostRuntime) {
    let of_errors = Settings {
        least: Some(Level::Error),
        ..Settings::new()
    };
    let error = outcome(Some(Level::Error), 6);
    counts(&rt, &of_errors, (0, 0, 2), (37, 36, 8, 1), error);
    let none = Settings::new();
    counts(&rt, &none, (0, 0, 1), (37, 36, 8, 0), outcome(None, 6));
}

// Refused settings come before all else: nothing is read and nothing is given, whatever would fail.
#[test]
fn reads_nothing_with_refused_settings(rt: HostRuntime) {
    let cases = [
        (57, None, SettingFault::Width),
        (301, Some(21), SettingFault::Width),
        (78, Some(21), SettingFault::Indent),
    ];
    for (width, indent, fault) in cases {
        let settings = Settings {
            width,
            indent,
            ..all_messages()
        };
        let want = Err(Fault::Settings(fault));
        counts(&rt, &settings, (1, 1, 1), (0, 0, 0, 0), want);
    }
}
