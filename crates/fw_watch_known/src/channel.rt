//! What is kept of a channel.

ghost use Rattle.std.specs.Prelude.{◌≡◌, ◌≤◌, ◌<◌, ℕ, false, IsTrue, IfSome};
ghost use Rattle.fw_watch_remarks.specs.Knowing.{is_forgotten};
ghost use Rattle.fw_watch_known.specs.Channels.{fresh, nothing_noted, undue, quiet, same_channel, is_late};

use fw_watch_remarks::Known;

/// Who took a channel, and when: until a plug or a packet is on it, it is to be used within a second.
#[derive(Clone, Copy)]
pub struct Due {
    /// The node that took it.
    pub holder: u8,
    /// The cycle in which it did.
    pub since: u64,
}

/// Which findings were told of a channel's packets.
#[derive(Clone, Copy)]
pub struct Noted {
    /// It has two senders.
    pub two: bool,
    /// It is free.
    pub free: bool,
    /// The plug on it is another node's.
    pub plug: bool,
}

/// What is kept of a channel.
#[derive(Clone, Copy)]
pub struct Channel {
    /// Who took it that has not used it yet.
    pub due: Option<Due>,
    /// The node whose packets it carries.
    pub sender: Option<u8>,
    /// What was told of them.
    pub noted: Noted,
}

impl Noted {
    /// Nothing was told.
    pub fn nothing() -> Noted
        ensures { result ≡ nothing_noted }
    {
        Noted {
            two: false,
            free: false,
            plug: false,
        }
    }
}

impl Channel {
    /// A channel of which nothing was seen.
    pub fn fresh() -> Channel
        ensures { result ≡ fresh }
    {
        Channel {
            due: None,
            sender: None,
            noted: Noted::nothing(),
        }
    }

    /// It was used.
    pub fn undue(self) -> Channel
        ensures { result ≡ undue self }
    {
        Channel { due: None, ..self }
    }

    /// Its plugs are others, so whose packets it carries is to be seen anew.
    pub fn quiet(self) -> Channel
        ensures { result ≡ quiet self }
    {
        Channel {
            sender: None,
            noted: Noted::nothing(),
            ..self
        }
    }
}

impl Due {
    /// A second has passed since the channel was taken.
    pub fn is_late(self, cycle: u64) -> bool
        ensures { result ≡ is_late self cycle }
    {
        cycle >= self.since && cycle - self.since >= 8000
    }
}

/// The earlier of a cycle and that since which a channel is due, if it is.
pub(crate) fn earlier(cycle: u64, due: Option<Due>) -> u64
    ensures before { result ≤ cycle }
    ensures due { IfSome due (λ d. result ≤ d.since) }
{
    match due {
        Some(due) if due.since < cycle => due.since,
        _ => cycle,
    }
}

/// Each bit that was known of half of the channels is known, and is what it was.
pub(crate) fn is_kept(old: Known, now: Known) -> bool
    ensures { IsTrue result → (at : ℕ) → at < 32 → is_forgotten old now at ≡ false }
{
    old.mask & now.mask == old.mask && old.differing(now.word) == 0
}

/// Two plugs are on one channel, or both on none.
pub(crate) fn is_same(old: Option<u8>, now: Option<u8>) -> bool
    ensures { result ≡ same_channel old now }
{
    match (old, now) {
        (Some(k), Some(j)) => k == j,
        (None, None) => true,
        _ => false,
    }
}
