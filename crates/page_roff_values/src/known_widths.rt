//! Long texts that are remembered with their widths (roff(7), `\w`): a line may measure a text of one string as often as it may interpolate.
//! Of a text that ends as one that is remembered the front alone is measured (`fronts.rt`).

ghost use Rattle.std.specs.Prelude.{◌≡◌, ◌+◌, ◌-◌, ◌*◌, ◌<◌, ◌≤◌, length, vec_capacity, take, drop, IfSome, IsTrue};
ghost use Rattle.page_core_base.specs.declared.limits.TheConstants.{LINE};
ghost use Rattle.page_roff_values.specs.declared.known_widths.TheConstants.{TEXTS, WIDTHS};
ghost use Rattle.page_roff_values.specs.machine.Held.{AreMeasured, IsMeasured, units_of_text};
ghost use Rattle.page_roff_values.specs.Values.{units_of};

use crate::fronts::{common_len, read_front};
use page_core_base::{Output, append};
use page_core_numbers::columns;
use std::alloc::{AllocError, Global};

// The bytes of all texts: more than the definitions of a page have together.
const TEXTS: usize = 81_920;

// How many texts are remembered.
const WIDTHS: usize = 64;

// The bytes of a text for which that is worth it.
const LONG: usize = 256;

// How many texts that may end as another one does are compared with it.
const TRIES: usize = 4;

/// The text between two places in the texts, and its width in an output, in basic units.
#[derive(Clone, Copy)]
pub(crate) struct KnownWidth {
    start: u32,
    end: u32,
    output: Output,
    units: u32,
}

/// Texts, one after the other, and their widths.
#[derive(Drop)]
pub(crate) struct KnownWidths {
    texts: Vec<u8>,
    widths: Vec<KnownWidth>,
    ghost within: { length texts.items ≤ TEXTS },
    ghost room: { (TEXTS ≤ vec_capacity texts) × (WIDTHS ≤ vec_capacity widths) },
    ghost known: { AreMeasured texts.items widths.items },
}

impl KnownWidths {
    /// Nothing is known. All memory is reserved here.
    pub(crate) fn new(alloc: Global) -> Result<KnownWidths, AllocError> {
        Ok(KnownWidths {
            texts: Vec::with_capacity(alloc, TEXTS)?,
            widths: Vec::with_capacity(alloc, WIDTHS)?,
        })
    }

    // The text of a width.
    #[inline(always)]
    fn text_of(&self, width: KnownWidth) -> &str
        requires { IsMeasured self.now.texts.items width }
        ensures { result.now ≡ take (width.end - width.start) (drop width.start self.now.texts.items) }
    {
        let text = &self.texts[width.start as usize..width.end as usize];
        // Safety: only what is in UTF-8 is remembered.
        unsafe { str::from_utf8_unchecked(text) }
    }

    // Whether it is the width of this text in this output. The lengths are compared first.
    #[inline(always)]
    fn is_of(&self, width: KnownWidth, text: &[u8], output: Output) -> bool
        requires { IsMeasured self.now.texts.items width }
        ensures text { IsTrue result → text.now ≡ take (width.end - width.start) (drop width.start self.now.texts.items) }
        ensures output { IsTrue result → output ≡ width.output }
    {
        let known = self.text_of(width);
        known.len() == text.len() && output == width.output && known.as_bytes() == text
    }

    /// The width of a text, if it is remembered.
    pub(crate) fn find(&self, text: &[u8], output: Output) -> Option<u32>
        ensures { IfSome result (λ units. units ≡ units_of output text.now) }
    {
        if text.len() < LONG {
            return None;
        }
        for width in &self.widths {
            if self.is_of(*width, text, output) {
                return Some(width.units);
            }
        }
        None
    }

    // The width of a text by that of another one, if from a place on where an escape or a character begins in both they are the same. That many
    // bytes may be.
    fn units_by(&self, width: KnownWidth, common: usize, text: &str) -> Option<u32>
        requires known { IsMeasured self.now.texts.items width }
        requires line { length text.now ≤ LINE }
        ensures { IfSome result (λ units. units ≡ units_of_text width.output text.now) }
    {
        let front = read_front(text, common, width.output)?;
        let known = read_front(self.text_of(width), front.rest.len(), width.output)?;
        if known.rest.as_bytes() != front.rest.as_bytes() {
            return None;
        }
        Some(width.units - 24 * known.columns + 24 * front.columns)
    }

    // The width of a text by that of one that is remembered and ends as it does.
    fn find_alike(&self, text: &str, output: Output) -> Option<u32>
        requires { length text.now ≤ LINE }
        ensures { IfSome result (λ units. units ≡ units_of_text output text.now) }
    {
        let mut tried = 0;
        for width in &self.widths {
            if tried == TRIES {
                return None;
            }
            if output != width.output {
                continue;
            }
            let Some(common) = common_len(self.text_of(*width).as_bytes(), text.as_bytes()) else {
                continue;
            };
            if let Some(units) = self.units_by(*width, common, text) {
                return Some(units);
            }
            tried += 1;
        }
        None
    }

    // Makes room for one more text. Where there is none, all are forgotten.
    fn make_room(&mut self, len: usize)
        requires { len ≤ TEXTS }
        ensures texts { length self.new.texts.items + len ≤ TEXTS }
        ensures widths { length self.new.widths.items < WIDTHS }
    {
        if TEXTS - len < self.texts.len() || WIDTHS <= self.widths.len() {
            self.widths.clear();
            self.texts.clear();
        }
    }

    // Remembers the width of a long text.
    fn add(&mut self, text: &str, output: Output, units: u32)
        requires line { length text.now ≤ LINE }
        requires units { units ≡ units_of_text output text.now }
        requires bound { units ≤ 24000 * length text.now }
    {
        self.make_room(text.len());
        let start = self.texts.len() as u32;
        append(&mut self.texts, text.as_bytes());
        let width = KnownWidth {
            start,
            end: self.texts.len() as u32,
            output,
            units,
        };
        self.widths.push_reserved(width);
    }

    /// Measures a text. A long one is remembered, unless it ends as one that is: that one serves for all that end so.
    pub(crate) fn measure(&mut self, text: &str, output: Output) -> u32
        requires { length text.now ≤ LINE }
        ensures { result ≡ units_of_text output text.now }
    {
        if text.len() < LONG {
            return 24 * columns(text.as_bytes(), output);
        }
        if let Some(units) = self.find_alike(text, output) {
            return units;
        }
        let units = 24 * columns(text.as_bytes(), output);
        self.add(text, output, units);
        units
    }
}
