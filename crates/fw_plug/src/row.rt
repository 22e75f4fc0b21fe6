//! A row of plugs, of output or of input plugs, with their control registers.

ghost use Rattle.std.specs.Prelude.{◌≡◌, ◌≤◌, ◌<◌, ◌^◌, Some, IfSome, length, slice_index, slice_index_or, map, replicate, false};
ghost use Rattle.fw_csr.specs.Replies.{reply_at};
ghost use Rattle.fw_csr.specs.declared.register.RegisterAccess.TheVariants.{ReadSwap};
ghost use Rattle.fw_plug.specs.Plugs.{active, after_at, disconnected, is_active, lingering_after, lingering_of, plug_after_reset, plug_after_second, plug_at, plug_register, words_of};

use crate::plug::Plug;
use arrayvec::ArrayVec;
use fw_csr::{RegisterAccess, RegisterRequest, Reply};
use std::marker::Model;

/// At most 31 plugs.
#[derive(Drop)]
pub struct Row {
    pub(crate) plugs: ArrayVec<Plug, 31>,
    /// The plugs are as a bus reset left them, so that another changes nothing.
    pub(crate) is_reset: bool,
}

impl Model for Row {
    ghost use Rattle.std.specs.Prelude.{◌≡◌, IsTrue};
    ghost use Rattle.fw_plug.specs.Plugs.{RowWords, words_of, lingering_of};
    ghost use Rattle.fw_plug.specs.Kept.{AreReset};

    ghost Value = { RowWords };

    ghost view = { λ r. record { words = words_of r.plugs.items; lingering = lingering_of r.plugs.items } };

    ghost invariant = { λ r. IsTrue r.is_reset → AreReset r.plugs.items };
}

impl Row {
    /// So many plugs, with the same word in the register of each.
    #[tactic(auto, using(crate::proofs::Rows::words_of_copies, crate::proofs::Rows::lingering_of_copies))]
    pub fn new(count: u8, word: u32) -> Row
        requires { count ≤ 31 }
        ensures { result ≡ record { words = replicate count word; lingering = replicate count false } }
    {
        Row {
            plugs: copies(count, word),
            is_reset: false,
        }
    }

    /// How many plugs there are.
    pub fn len(&self) -> usize
        ensures { result ≡ length self.now.words }
    {
        self.plugs.len()
    }

    /// The register at `offset` if the registers begin at `first`, if there is one.
    pub fn register(&self, first: u64, offset: u64) -> Option<RegisterAccess>
        requires { first < 2 ^ 48 }
        ensures { result ≡ plug_register (slice_index self.now.words) (plug_at first (length self.now.words) offset) }
    {
        let n = plug_at(offset, first, self.plugs.len())?;
        Some(RegisterAccess::ReadSwap(self.plugs[n].word.get()))
    }

    /// The number of the plug whose register stands at `offset` if the registers begin at `first`, if there is one.
    #[inline(always)]
    pub fn place(&self, first: u64, offset: u64) -> Option<usize>
        requires { first < 2 ^ 48 }
        ensures value { result ≡ plug_at first (length self.now.words) offset }
        ensures within { IfSome result (λ n. n < length self.now.words) }
    {
        plug_at(offset, first, self.plugs.len())
    }

    /// Carries a request out at the register of plug `n`.
    #[inline(always)]
    pub fn answer_at<R: RegisterRequest>(&mut self, n: usize, r: &R) -> Reply
        requires { n < length self.old.words }
        ensures reply { result ≡ reply_at (ReadSwap (slice_index self.old.words n)) (R.request r.now) }
        ensures words { self.new.words ≡ after_at (Some n) (R.request r.now) self.old.words }
        ensures lingering { self.new.lingering ≡ lingering_after (Some n) (R.request r.now) self.old.words self.old.lingering }
    {
        self.is_reset = false;
        answer_in(self.plugs.as_mut_slice(), n, r)
    }

    /// A bus reset: no plug is connected any more, and those that were active linger.
    pub fn reset(&mut self)
        ensures words { self.new.words ≡ map disconnected self.old.words }
        ensures lingering { self.new.lingering ≡ active self.old.words self.old.lingering }
    {
        if self.is_reset {
            return;
        }
        reset_each(self.plugs.as_mut_slice());
        self.is_reset = true;
    }

    /// The second after a bus reset is over: no plug lingers.
    pub fn second_over(&mut self)
        ensures words { self.new.words ≡ self.old.words }
        ensures lingering { self.new.lingering ≡ map (λ l. false) self.old.lingering }
    {
        self.is_reset = false;
        end_second_of_each(self.plugs.as_mut_slice());
    }

    /// The word of plug `n`.
    pub fn word(&self, n: u8) -> u32
        requires { n < length self.now.words }
        ensures { result ≡ slice_index self.now.words n }
    {
        self.plugs[usize::from(n)].word.get()
    }

    /// Plug `n` talks or hears.
    pub fn is_active(&self, n: u8) -> bool
        requires { n < length self.now.words }
        ensures { result ≡ is_active (slice_index self.now.words n) (slice_index_or self.now.lingering n false) }
    {
        self.plugs[usize::from(n)].is_active()
    }
}

/// So many plugs with the same word.
fn copies(count: u8, word: u32) -> ArrayVec<Plug, 31>
    requires { count ≤ 31 }
    ensures { result.items ≡ replicate count (record { word = word; lingers = false }) }
{
    let mut plugs = ArrayVec::new();
    for _ in 0..count {
        plugs.push(Plug::new(word));
    }
    plugs
}

#[inline(always)]
fn answer_in<R: RegisterRequest>(plugs: &mut [Plug], n: usize, r: &R) -> Reply
    requires { n < length plugs.old }
    ensures reply { result ≡ reply_at (ReadSwap (slice_index (words_of plugs.old) n)) (R.request r.now) }
    ensures words { words_of plugs.new ≡ after_at (Some n) (R.request r.now) (words_of plugs.old) }
    ensures lingering { lingering_of plugs.new ≡ lingering_after (Some n) (R.request r.now) (words_of plugs.old) (lingering_of plugs.old) }
    ensures count { length plugs.new ≡ length plugs.old }
{
    plugs[n].answer(r)
}

fn reset_each(plugs: &mut [Plug])
    ensures { plugs.new ≡ map plug_after_reset plugs.old }
{
    for plug in plugs.iter_mut() {
        *plug = plug.after_reset();
    }
}

fn end_second_of_each(plugs: &mut [Plug])
    ensures { plugs.new ≡ map plug_after_second plugs.old }
{
    for plug in plugs.iter_mut() {
        *plug = plug.after_second();
    }
}

/// The number of the plug whose register stands at `offset`, in a row of `plugs` registers from `first` on.
#[inline(always)]
fn plug_at(offset: u64, first: u64, plugs: usize) -> Option<usize>
    requires first { first < 2 ^ 48 }
    requires plugs { plugs ≤ 31 }
    ensures value { result ≡ plug_at first plugs offset }
    ensures within { IfSome result (λ n. n < plugs) }
{
    // An offset before the first is at a distance that no plug has.
    let distance = offset.wrapping_sub(first);
    let n = (distance / 4) as usize;
    if distance % 4 == 0 && n < plugs {
        Some(n)
    } else {
        None
    }
}
