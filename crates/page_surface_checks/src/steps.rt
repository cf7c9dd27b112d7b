//! A page line by line: what came of it, what it has open, and what is counted after each line.

use crate::checks::{check, check_answer, check_counts, check_text, counts_of};
use crate::lines::FedPage;
use page_core::Fault;
use std::process::Abort;

/// A line, which is taken once and interpolates nothing; the rows so far, after it; how many scopes are open then, and how many cells the open row has.
pub(crate) type Step = (&'static str, &'static str, (usize, usize));

// Feeds a line of a number, and compares what holds then.
fn check_step<P: FedPage>(rt: &impl Abort, page: &mut P, number: u32, step: &Step) {
    let (line, rows, open) = *step;
    check_answer(rt, page.line(line.as_bytes(), number), Ok(()));
    check(rt, page.open() == open);
    check_counts(rt, page.counts(), counts_of(u64::from(number)));
    check_text(rt, page.kept().rows.text.as_slice(), rows);
}

/// Feeds lines to a page, which have no message, and its end, after which it takes nothing more and holds nothing.
pub(crate) fn check_steps<P: FedPage + Drop>(rt: &impl Abort, mut page: P, steps: &[Step]) {
    let mut number = 0u32;
    for step in steps {
        number = number.saturating_add(1);
        check_step(rt, &mut page, number, step);
    }
    check_answer(rt, page.end(), Ok(()));
    check_answer(rt, page.line(b"x", 1), Err(Fault::Failed));
    check_answer(rt, page.cut(), Err(Fault::Failed));
    check_answer(rt, page.end(), Err(Fault::Failed));
    check_text(rt, page.kept().notes.text.as_slice(), "");
}
