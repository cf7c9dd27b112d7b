//! A page whose run is refused memory.

use crate::ways::{Case, FILE, Given};
use page_core_base::Fault;
use page_engine::run_page;
use page_test_streams::{Chunks, Ended, Fails, Scarce, Store, scarce_difference};
use std::alloc::{AllocError, Global};

/// A run over a page, into stores that have their room.
#[derive(Drop)]
struct Run<'a> {
    case: Case<'a>,
    whole: &'a Given,
    rows: Store,
    messages: Store,
}

impl<'a> Run<'a> {
    fn new(alloc: Global, case: Case<'a>, whole: &'a Given) -> Result<Run<'a>, AllocError> {
        let rows = Store::with_room(alloc, whole.rows.kept.len(), Fails::Never)?;
        let messages = Store::with_room(alloc, whole.messages.kept.len(), Fails::Never)?;
        Ok(Run {
            case,
            whole,
            rows,
            messages,
        })
    }

    // Whether nothing was written.
    fn is_untouched(&self) -> bool {
        self.rows.calls == 0 && self.messages.calls == 0
    }

    // Whether all was written that is written with ample memory.
    fn has_all(&self) -> bool {
        self.rows.kept == self.whole.rows.kept && self.messages.kept == self.whole.messages.kept
    }
}

impl Scarce for Run<'_> {
    fn once(&mut self, alloc: Global) -> Ended {
        self.rows.clear();
        self.messages.clear();
        let mut reader = Chunks::new(self.case.page, usize::MAX, None);
        let result = run_page(
            alloc,
            &mut reader,
            &mut self.rows,
            &mut self.messages,
            FILE,
            self.case.settings,
        );
        if result == Err(Fault::Memory) && reader.calls == 0 && self.is_untouched() {
            Ended::Refused
        } else if result == self.whole.result && self.has_all() {
            Ended::Whole
        } else {
            Ended::Otherwise
        }
    }
}

/// In which way a run over a page is not right where memory is refused to it, if in any.
pub(crate) fn refusal_difference(alloc: Global, case: Case, whole: &Given) -> Option<&'static str> {
    match Run::new(alloc, case, whole) {
        Ok(mut run) => scarce_difference(alloc, &mut run),
        Err(_) => Some("scarce"),
    }
}
