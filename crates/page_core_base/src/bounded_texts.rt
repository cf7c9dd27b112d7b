//! Texts within a limit, in memory that is reserved once.

use std::alloc::{AllocError, Global};
use std::marker::Model;

/// A text of at most `MOST` bytes. Contracts see the list of them.
#[derive(Drop)]
pub struct BoundedText<const MOST: usize> {
    bytes: Vec<u8>,
}

impl<const MOST: usize> Model for BoundedText<MOST> {
    ghost use Rattle.std.specs.Prelude.{ℕ, List, ◌≤◌, vec_len, vec_capacity};

    ghost Value = { List ℕ };

    ghost view = { λ text. text.bytes.items };

    ghost invariant = { λ text. (vec_len text.bytes ≤ MOST) × (MOST ≤ vec_capacity text.bytes) };
}

impl<const MOST: usize> BoundedText<MOST> {
    ghost use Rattle.std.specs.Prelude.{◌≡◌, ◌≤◌, ◌-◌, [], ◌∷◌, ◌++◌, drop, length, take, nat_le, if◌then◌else◌, IfOk};

    /// An empty text, with the memory that it will ever hold.
    pub fn new(alloc: Global) -> Result<BoundedText<MOST>, AllocError>
        ensures { IfOk result (λ text. text ≡ []) }
    {
        let bytes = Vec::with_capacity(alloc, MOST)?;
        Ok(BoundedText { bytes })
    }

    /// The same text, in memory of its own.
    pub fn copy(&self, alloc: Global) -> Result<BoundedText<MOST>, AllocError>
        ensures { IfOk result (λ text. text ≡ self.now) }
    {
        let mut copy = BoundedText::new(alloc)?;
        copy.set(self.bytes());
        Ok(copy)
    }

    /// The bytes.
    #[inline(always)]
    pub fn bytes(&self) -> &[u8]
        ensures value { result.now ≡ self.now }
        ensures bound { length result.now ≤ MOST }
    {
        self.bytes.as_slice()
    }

    /// Adds bytes at its end, where there is room for all of them, and answers whether there was.
    #[inline(always)]
    pub fn add(&mut self, more: &[u8]) -> bool
        ensures fits { result ≡ nat_le (length more.now) (MOST - length self.old) }
        ensures after { self.new ≡ (if result then self.old ++ more.now else self.old) }
        ensures bound { length self.new ≤ MOST }
    {
        if more.len() > MOST - self.bytes.len() {
            return false;
        }
        let _ = self.bytes.extend_from_slice(more);
        true
    }

    /// Adds a byte at its end, where there is room for it, and answers whether there was.
    #[inline(always)]
    pub fn add_byte(&mut self, byte: u8) -> bool
        ensures fits { result ≡ nat_le 1 (MOST - length self.old) }
        ensures after { self.new ≡ (if result then self.old ++ byte ∷ [] else self.old) }
        ensures bound { length self.new ≤ MOST }
    {
        if self.bytes.len() >= MOST {
            return false;
        }
        self.bytes.push_reserved(byte);
        true
    }

    /// Puts bytes in place of what is there.
    #[inline(always)]
    pub fn set(&mut self, bytes: &[u8])
        requires { length bytes.now ≤ MOST }
        ensures { self.new ≡ bytes.now }
    {
        self.bytes.clear();
        let _ = self.bytes.extend_from_slice(bytes);
    }

    /// Takes all bytes away.
    #[inline(always)]
    pub fn clear(&mut self)
        ensures { self.new ≡ [] }
    {
        self.bytes.clear();
    }

    /// Takes away all but a front.
    pub fn truncate(&mut self, len: usize)
        ensures { self.new ≡ take len self.old }
    {
        self.bytes.truncate(len);
    }

    /// Takes away a front.
    pub fn cut_front(&mut self, len: usize)
        requires { len ≤ length self.old }
        ensures { self.new ≡ drop len self.old }
    {
        let left = self.bytes.len() - len;
        self.bytes.rotate_left(len);
        self.bytes.truncate(left);
    }

    /// The bytes, in the memory that was reserved for them.
    pub fn into_bytes(self) -> Vec<u8>
        ensures { result.items ≡ self.entry }
    {
        self.bytes
    }
}
