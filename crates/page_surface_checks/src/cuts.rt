//! Pages that go on after each line from what their layers hold, in place of the layers themselves.

use crate::lines::FedPage;
use crate::sinks::Kept;
use page_core::Fault;
use page_roff::Counts;

/// A page that goes on so after each line.
#[derive(Drop)]
pub(crate) struct CutPage<P> {
    pub(crate) page: P,
}

impl<P: FedPage> FedPage for CutPage<P> {
    fn line(&mut self, text: &[u8], number: u32) -> Result<(), Fault> {
        self.page.line(text, number)?;
        self.page.cut()
    }

    fn cut(&mut self) -> Result<(), Fault> {
        self.page.cut()
    }

    fn end(&mut self) -> Result<(), Fault> {
        self.page.end()
    }

    fn kept(&self) -> &Kept {
        self.page.kept()
    }

    fn counts(&self) -> Counts {
        self.page.counts()
    }

    fn open(&self) -> (usize, usize) {
        self.page.open()
    }
}
