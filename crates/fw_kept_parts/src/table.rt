//! Parts by number, each found by what it is a part of.

ghost use Rattle.std.specs.Prelude.{◌≡◌, ◌<◌, ◌≤◌, ◌^◌, [], length, slice_index_or, IfOk, IfSome, IsTrue, OnErr, OnOk};
ghost use Rattle.fw_kept_parts.specs.Tables.{Keeps, KeepsAll};

use crate::full::Full;
use crate::part::Part;
use std::alloc::{AllocError, Global};
use std::marker::Model;

/// How many chains there are.
const CHAINS: usize = 4096;

// The chain of a mark: its bits are spread over all (the golden ratio, times 2^64).
fn chain_of(mark: u64) -> usize {
    (mark.wrapping_mul(0x9E37_79B9_7F4A_7C15) >> 52) as usize
}

/// Parts that are kept once, by number: clauses see them in the order in which they came.
#[derive(Drop)]
pub struct Table<T> {
    alloc: Global,
    parts: Vec<T>,
    // The part before each in its chain, from 1, or 0 for none. They only make a part found sooner.
    links: Vec<u32>,
    // The last part of each chain.
    heads: Vec<u32>,
}

impl<T> Model for Table<T> {
    ghost use Rattle.std.specs.Prelude.{List};

    ghost Value = { List T };

    ghost view = { λ t. t.parts.items };
}

impl<T: Part> Table<T> {
    /// No parts.
    pub fn new(alloc: Global) -> Result<Table<T>, AllocError>
        ensures { IfOk result (λ t. t ≡ []) }
    {
        let heads = vec![in alloc; 0; CHAINS]?;
        Ok(Table {
            alloc,
            parts: Vec::new(alloc),
            links: Vec::new(alloc),
            heads,
        })
    }

    /// All parts, by number.
    pub fn as_slice(&self) -> &[T]
        ensures { result.now ≡ self.now }
    {
        self.parts.as_slice()
    }

    // The number of the part of a whole, if it is found in a chain.
    fn find(&self, chain: usize, whole: &T::Whole) -> Option<u32>
        ensures { IfSome result (λ n. (n < length self.now) × ((d : T) → T.IsOf (slice_index_or self.now n d) whole.now)) }
    {
        let mut at = *self.heads.get(chain)?;
        for _ in 0..self.parts.len() {
            let n = at.checked_sub(1)?;
            if self.parts.get(n as usize)?.is_of(whole) {
                return Some(n);
            }
            at = *self.links.get(n as usize)?;
        }
        None
    }

    // Whether this is the number of the part of a whole.
    fn has(&self, n: u32, whole: &T::Whole) -> bool
        ensures { IsTrue result → (n < length self.now) × ((d : T) → T.IsOf (slice_index_or self.now n d) whole.now) }
    {
        match self.parts.get(n as usize) {
            Some(part) => part.is_of(whole),
            None => false,
        }
    }

    // Keeps the part of a whole in a chain. It stands alone, since few wholes come here and the part that it makes is large.
    #[inline(never)]
    fn add(&mut self, chain: usize, whole: &T::Whole) -> Result<u32, Full>
        ensures ok { IfOk result (λ n. Keeps T.IsOf self.old self.new whole.now n) }
        ensures err { OnErr result (self.new ≡ self.old) }
    {
        let n = self.parts.len();
        if n >= 0xFFFF_FFFF {
            return Err(Full::TooLarge);
        }
        let part = T::of(self.alloc, whole)?;
        let link = self.heads.get(chain).copied().unwrap_or(0);
        self.links.truncate(n);
        self.links.push(link)?;
        self.parts.push(part)?;
        if let Some(head) = self.heads.get_mut(chain) {
            *head = n as u32 + 1;
        }
        Ok(n as u32)
    }

    // The number of the part of a whole, which is kept if none is found.
    #[inline(never)]
    fn keep_marked(&mut self, whole: &T::Whole) -> Result<u32, Full>
        ensures ok { IfOk result (λ n. Keeps T.IsOf self.old self.new whole.now n) }
        ensures err { OnErr result (self.new ≡ self.old) }
    {
        let chain = chain_of(T::mark(whole));
        match self.find(chain, whole) {
            Some(n) => Ok(n),
            None => self.add(chain, whole),
        }
    }

    /// The number of the part of a whole, which is kept if none is found. One number is looked at before all others.
    pub fn keep(&mut self, likely: u32, whole: &T::Whole) -> Result<u32, Full>
        ensures ok { IfOk result (λ n. Keeps T.IsOf self.old self.new whole.now n) }
        ensures err { OnErr result (self.new ≡ self.old) }
    {
        if self.has(likely, whole) {
            return Ok(likely);
        }
        self.keep_marked(whole)
    }

    /// Appends the numbers of the parts of wholes, in their order. Of each the number at its place in `near` is looked at before all others.
    pub fn keep_all(
        &mut self,
        near: &[u32],
        wholes: &[T::Whole],
        out: &mut Vec<u32>,
    ) -> Result<(), Full>
        ensures { OnOk result (KeepsAll T.IsOf self.old self.new wholes.now out.old.items out.new.items) }
    {
        for k in 0..wholes.len() {
            let likely = near.get(k).copied().unwrap_or(0);
            out.push(self.keep(likely, &wholes[k])?)?;
        }
        Ok(())
    }
}
