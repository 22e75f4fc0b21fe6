//! What is kept of the 64 channels.

ghost use Rattle.std.specs.Prelude.{◌≡◌, ◌+◌, ◌≤◌, ◌<◌, IfOk, IfSome, IsFalse, None, length, replicate, slice_set};
ghost use Rattle.fw_watch_known.specs.Channels.{AreDueFrom, fresh, channel_at, freshened_one, freshened, plug_moved, unused, quieted, next_late, late_to, is_taken, is_to_be_used, with_due, with_dues};

use crate::change::{only_change, only_forgotten};
use crate::channel::{Channel, Due, earlier, is_kept, is_same};
use crate::lateness::{is_taken, is_to_be_used, next_late};
use crate::plugs::Plugs;
use fw_watch_remarks::Known;
use std::alloc::{AllocError, Global};
use std::marker::Model;

/// A channel that nobody has used in the second since it was taken.
#[derive(Clone, Copy)]
pub struct Late {
    /// Its number.
    pub channel: u8,
    /// Who took it, and when.
    pub due: Due,
}

/// What is kept of the 64 channels.
#[derive(Drop)]
pub struct Channels {
    rows: Vec<Channel>,
    // None has been due since before this cycle: so few looks at all of them suffice to find those that are late.
    due_from: u64,
}

impl Model for Channels {
    ghost use Rattle.std.specs.Prelude.{List};
    ghost use Rattle.fw_watch_known.specs.declared.channel.Channel.{Channel};

    ghost Value = { List Channel };

    ghost use Rattle.fw_watch_known.specs.Channels.{AreDueFrom};

    ghost view = { λ c. c.rows.items };

    ghost invariant = { λ c. AreDueFrom c.due_from c.rows.items };
}

impl Channels {
    /// Nothing was seen of any.
    pub fn new(alloc: Global) -> Result<Channels, AllocError>
        ensures { IfOk result (λ c. c ≡ replicate 64 fresh) }
    {
        Ok(Channels {
            rows: vec![in alloc; Channel::fresh(); 64]?,
            due_from: u64::MAX,
        })
    }

    /// What is kept of a channel.
    pub fn at(&self, channel: u8) -> Channel
        ensures { result ≡ channel_at self.now channel }
    {
        match self.rows.get(usize::from(channel)) {
            Some(row) => *row,
            None => Channel::fresh(),
        }
    }

    /// What is kept of a channel from now on.
    pub fn set(&mut self, channel: u8, row: Channel)
        ensures { self.new ≡ slice_set self.old channel row }
    {
        let place = usize::from(channel);
        if place < self.rows.len() {
            self.due_from = earlier(self.due_from, row.due);
            self.rows[place] = row;
        }
    }

    /// A bus reset: nothing was seen of any.
    pub fn reset(&mut self)
        ensures { self.new ≡ replicate (length self.old) fresh }
    {
        for i in 0..self.rows.len() {
            self.rows[i] = Channel::fresh();
        }
    }

    // What was seen of a channel counts no more, if its bit is forgotten.
    fn freshen_one(&mut self, channel: u8, forgotten: bool)
        ensures { self.new ≡ freshened_one forgotten channel self.old }
    {
        if forgotten {
            self.set(channel, Channel::fresh());
        }
    }

    // The same of any words.
    fn freshen_all(&mut self, first: u8, old: Known, now: Known)
        requires { first ≤ 32 }
        ensures { self.new ≡ freshened 32 first old now self.old }
    {
        if is_kept(old, now) {
            return;
        }
        for at in 0..32 {
            self.freshen_one(first + at, old.is_forgotten(now, at));
        }
    }

    /// Of half of the channels, the first of which is `first`, other bits are known than before: what changed is as if not seen.
    pub fn freshen(&mut self, first: u8, old: Known, now: Known)
        requires { first ≤ 32 }
        ensures { self.new ≡ freshened 32 first old now self.old }
    {
        match only_forgotten(old, now) {
            Some(at) => self.freshen_one(first + at, old.is_forgotten(now, at)),
            None => self.freshen_all(first, old, now),
        }
    }

    // Whose packets a channel carries is to be seen anew.
    #[tactic(auto, unfolding(crate::specs::Channels::quieted))]
    fn quieten(&mut self, channel: Option<u8>)
        ensures { self.new ≡ quieted channel self.old }
    {
        if let Some(k) = channel {
            let row = self.at(k).quiet();
            self.set(k, row);
        }
    }

    // A channel is used.
    #[tactic(auto, unfolding(crate::specs::Channels::unused))]
    pub(crate) fn note_use(&mut self, channel: Option<u8>)
        ensures { self.new ≡ unused channel self.old }
    {
        if let Some(k) = channel {
            let row = self.at(k).undue();
            self.set(k, row);
        }
    }

    /// A plug that was known to be on one channel is known to be on another.
    #[tactic(auto, unfolding(crate::specs::Channels::plug_moved))]
    pub fn move_plug(&mut self, old: Option<u8>, now: Option<u8>)
        ensures { self.new ≡ plug_moved old now self.old }
    {
        if !is_same(old, now) {
            self.quieten(old);
            self.quieten(now);
        }
        self.note_use(now);
    }

    // A cycle before which none has been due.
    fn first_due(&self) -> u64
        ensures { AreDueFrom result self.now }
    {
        let mut first = u64::MAX;
        for i in 0..self.rows.len() {
            first = earlier(first, self.rows[i].due);
        }
        first
    }

    // The channel that is late and was taken first, of several the first, found by a look at all of them.
    fn find_late(&self, cycle: u64) -> Option<Late>
        ensures value { result ≡ late_to 64 self.now cycle }
        ensures past { IfSome result (λ late. late.due.since + 8000 ≤ cycle) }
    {
        let mut best = None;
        for channel in 0..64 {
            best = next_late(best, channel, self.at(channel).due, cycle);
        }
        best
    }

    /// A channel may be late, by a test that looks at none of them.
    #[inline(always)]
    pub fn may_be_late(&self, cycle: u64) -> bool
        ensures { IsFalse result → late_to 64 self.now cycle ≡ None }
    {
        let first = self.due_from;
        if cycle < 8000 {
            return false;
        }
        cycle - 8000 >= first
    }

    /// The channel that is late and was taken first, of several the first.
    pub fn late(&mut self, cycle: u64) -> Option<Late>
        ensures kept { self.new ≡ self.old }
        ensures value { result ≡ late_to 64 self.old cycle }
        ensures past { IfSome result (λ late. late.due.since + 8000 ≤ cycle) }
    {
        if !self.may_be_late(cycle) {
            return None;
        }
        self.due_from = self.first_due();
        self.find_late(cycle)
    }

    // A channel is to be used within a second, if it is to be used at all.
    fn set_due(&mut self, channel: u8, to_be_used: bool, due: Due)
        ensures { self.new ≡ with_due to_be_used channel due self.old }
    {
        if to_be_used {
            let row = Channel {
                due: Some(due),
                ..self.at(channel)
            };
            self.set(channel, row);
        }
    }

    // The same of any words.
    fn set_all_dues(&mut self, first: u8, old: u32, new: u32, due: Due, plugs: &Plugs)
        requires { first ≤ 32 }
        ensures { self.new ≡ with_dues 32 first old new due plugs.now self.old }
    {
        for at in 0..32 {
            let channel = first + at;
            let to_be_used = is_to_be_used(is_taken(old, new, at), channel, plugs);
            self.set_due(channel, to_be_used, due);
        }
    }
    // The same of words that differ in one bit.
    fn set_one_due(&mut self, first: u8, at: u8, old: u32, new: u32, due: Due, plugs: &Plugs)
        requires half { first ≤ 32 }
        requires bit { at < 32 }
        ensures { self.new ≡ with_due (is_to_be_used (is_taken at old new) (first + at) plugs.now) (first + at) due self.old }
    {
        let channel = first + at;
        let to_be_used = is_to_be_used(is_taken(old, new, at), channel, plugs);
        self.set_due(channel, to_be_used, due);
    }

    /// The channels that a swap took are to be used within a second, but for channel 31, which a manager has for itself, and those
    /// that a plug is on.
    pub fn set_dues(&mut self, first: u8, old: u32, new: u32, due: Due, plugs: &Plugs)
        requires { first ≤ 32 }
        ensures { self.new ≡ with_dues 32 first old new due plugs.now self.old }
    {
        match only_change(old, new) {
            Some(at) => self.set_one_due(first, at, old, new, due, plugs),
            None => self.set_all_dues(first, old, new, due, plugs),
        }
    }
}
