//! What is asserted, one function a type. `at` names the case.

use page_core::Fault;
use std::process::Abort;

pub(crate) fn check(rt: &impl Abort, holds: bool, at: &str) {
    assert!(rt; holds, "at {at}");
}

pub(crate) fn check_text(rt: &impl Abort, got: &str, want: &str, at: &str) {
    assert_eq!(rt; got, want, "at {at}");
}

pub(crate) fn check_bytes(rt: &impl Abort, got: &[u8], want: &[u8], at: &str) {
    assert_eq!(rt; got, want, "at {at}");
}

pub(crate) fn check_count(rt: &impl Abort, got: usize, want: usize, at: &str) {
    assert_eq!(rt; got, want, "at {at}");
}

pub(crate) fn check_answer(rt: &impl Abort, got: Result<(), Fault>, want: Result<(), Fault>) {
    assert_eq!(rt; got, want);
}
