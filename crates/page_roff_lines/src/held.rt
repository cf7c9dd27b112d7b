//! The first bytes of a text that grows and shrinks at its end.
ghost use Rattle.std.specs.Prelude.{◌≡◌, ◌+◌, ◌^◌, ◌<◌, ◌≤◌, ◌∷◌, [], length, true, IfOk};
ghost use Rattle.std.specs.List.{list_all};
ghost use Rattle.page_roff_decoding.specs.Decoding.{is_printable};
ghost use Rattle.page_roff_lines.specs.machine.Open.{extend, shorten, nothing_held};
ghost use Rattle.page_core_base.specs.laws.Views.{IsFreeLine};

use page_core_base::LINE;
use page_roff_decoding::{is_printable, is_printable_ascii};
use std::alloc::{AllocError, Global};
use std::marker::Model;

/// The first [`LINE`] bytes of a text, and how many bytes it has.
#[derive(Drop)]
pub struct HeldText {
    bytes: Vec<u8>,
    total: u32,
    // Whether the bytes that are held are known to be printable.
    printable: bool,
    // Whether they are known to be printable, and to be free: no comment, no end of a block and no interpolation begins in them.
    free: bool,
}

impl Model for HeldText {
    ghost use Rattle.std.specs.Prelude.{◌≡◌, ◌≤◌, true, vec_len, vec_capacity};
    ghost use Rattle.std.specs.List.{list_all};
    ghost use Rattle.page_core_base.specs.declared.limits.TheConstants.{LINE};
    ghost use Rattle.page_roff_decoding.specs.Decoding.{is_printable};
    ghost use Rattle.page_roff_lines.specs.machine.Open.{Held};
    ghost use Rattle.page_core_base.specs.laws.Views.{IsFreeLine};

    ghost Value = { Held };

    ghost view = { λ h. record { bytes = h.bytes.items; total = h.total } };

    ghost invariant = { λ h. (vec_len h.bytes ≤ LINE) × (LINE ≤ vec_capacity h.bytes)
        × (h.printable ≡ true → list_all is_printable h.bytes.items ≡ true)
        × (h.free ≡ true → IsFreeLine h.bytes.items × (list_all is_printable h.bytes.items ≡ true)) };
}

impl HeldText {
    /// An empty text, with the memory that it will ever hold.
    pub fn new(alloc: Global) -> Result<HeldText, AllocError>
        ensures { IfOk result (λ h. h ≡ nothing_held) }
    {
        let bytes = Vec::with_capacity(alloc, LINE)?;
        Ok(HeldText {
            bytes,
            total: 0,
            printable: true,
            free: false,
        })
    }

    /// The bytes that are held.
    pub fn bytes(&self) -> &[u8]
        ensures value { result.now ≡ self.now.bytes }
        ensures bound { length result.now ≤ LINE }
    {
        self.bytes.as_slice()
    }

    /// How many bytes the text has.
    pub fn total(&self) -> u32
        ensures { result ≡ self.now.total }
    {
        self.total
    }

    /// Appends a byte.
    #[tactic(auto, unfolding(crate::specs::machine::Open::extend))]
    pub fn push(&mut self, byte: u8)
        requires { self.old.total < 2 ^ 31 }
        ensures { self.new ≡ extend self.old (byte ∷ []) }
    {
        if self.bytes.len() < LINE {
            self.bytes.push_reserved(byte);
            self.printable = self.printable && is_printable(byte);
        }
        self.free = false;
        self.total += 1;
    }

    /// Appends bytes, which may be known to be printable.
    #[inline(always)]
    #[tactic(auto, unfolding(crate::specs::machine::Open::extend))]
    pub fn extend(&mut self, more: &[u8], printable: bool)
        requires total { self.old.total + length more.now < 2 ^ 31 }
        requires printable { printable ≡ true → list_all is_printable more.now ≡ true }
        ensures { self.new ≡ extend self.old more.now }
    {
        let room = LINE - self.bytes.len();
        let fits = room.min(more.len());
        let _ = self.bytes.extend_from_slice(&more[..fits]);
        self.total += more.len() as u32;
        self.printable = self.printable && printable;
        self.free = false;
    }

    /// Takes printable bytes in the place of all, which may be known to be free.
    #[inline(always)]
    #[tactic(auto, unfolding(crate::specs::machine::Open::extend))]
    pub fn set(&mut self, text: &[u8], free: bool)
        requires total { length text.now < 2 ^ 31 }
        requires printable { list_all is_printable text.now ≡ true }
        requires free { free ≡ true → IsFreeLine text.now }
        ensures { self.new ≡ extend nothing_held text.now }
    {
        self.clear();
        self.extend(text, true);
        self.free = free;
    }

    /// Whether each byte that is held is a printable one of ASCII or a tab.
    pub fn is_printable(&self) -> bool
        ensures value { result ≡ list_all is_printable self.now.bytes }
        ensures bound { length self.now.bytes ≤ LINE }
    {
        self.printable || is_printable_ascii(self.bytes())
    }

    /// Whether the bytes that are held are known to be free, and each to be a printable one of ASCII or a tab.
    pub fn is_free(&self) -> bool
        ensures free { result ≡ true → IsFreeLine self.now.bytes }
        ensures printable { result ≡ true → list_all is_printable self.now.bytes ≡ true }
        ensures bound { length self.now.bytes ≤ LINE }
    {
        self.free
    }

    /// Takes the last byte away.
    #[tactic(auto, unfolding(crate::specs::machine::Open::shorten))]
    pub fn shorten(&mut self)
        ensures { self.new ≡ shorten self.old }
    {
        self.total = self.total.saturating_sub(1);
        self.bytes.truncate(self.total as usize);
        self.free = false;
    }

    /// Takes all bytes away.
    pub fn clear(&mut self)
        ensures { self.new ≡ nothing_held }
    {
        self.bytes.clear();
        self.total = 0;
        self.printable = true;
        self.free = false;
    }
}
