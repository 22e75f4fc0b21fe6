//! What is held with a channel.

ghost use Rattle.std.specs.Prelude.{◌≡◌, ◌<◌, ◌≤◌, ℕ, length, None, IsTrue};
ghost use Rattle.fw_model_account.specs.Account.{Account};
ghost use Rattle.fw_account_tables.specs.Stands.{Stands, StandsFor, place, continues_at, reclaimable_at, flow_of, charge_at, allocation_of};
ghost use Rattle.fw_holders.specs.Held.{holding_of, holding, unallocated};

use crate::place::{has_plug, place};
use fw_account_tables::{Charge, Reclaimable, Tables};
use fw_holders_text::{CHANNELS, Holding, How};
use fw_terms::PlugAt;

// The plug goes on talking, by the table of those that do.
fn continues_at(continues: &[bool], p: PlugAt) -> bool
    requires { place p < length continues.now }
    ensures { result ≡ continues_at continues.now p }
{
    continues[place(p)]
}

// In the reclaim second: the plug goes on talking after the bus reset.
fn goes_on(tables: &Tables, p: PlugAt) -> bool
    requires stands { Stands tables.now }
    ensures { (l : Account) → StandsFor tables.now l → IsTrue l.reclaiming → result ≡ l.continues p }
{
    has_plug(&tables.outs, p) && continues_at(&tables.continues, p)
}

// What is held of a channel on which a flow may be allocated again.
fn reclaimed(tables: &Tables, flow: Reclaimable) -> Option<Holding>
    requires stands { Stands tables.now }
    ensures { (l : Account) → StandsFor tables.now l → IsTrue l.reclaiming → result ≡ unallocated l.continues (flow_of flow) }
{
    match flow {
        Reclaimable::Nothing => None,
        Reclaimable::Flow { plug, units } => Some(Holding {
            how: if goes_on(tables, plug) {
                How::Continues
            } else {
                How::Reclaimable
            },
            plug,
            units,
        }),
    }
}

// What is held of a channel that is not allocated.
fn unallocated(tables: &Tables, channel: usize) -> Option<Holding>
    requires stands { Stands tables.now }
    requires within { channel < 64 }
    ensures { (l : Account) → StandsFor tables.now l → result ≡ unallocated l.continues (l.reclaimable channel) }
{
    if !tables.reclaiming {
        return None;
    }
    reclaimed(tables, tables.reclaimable[channel])
}

/// What an allocation holds.
pub(crate) fn allocated(charge: Charge) -> Option<Holding>
    ensures { result ≡ holding_of (allocation_of charge) None }
{
    let (how, plug, units) = match charge {
        Charge::Free => return None,
        Charge::Pending {
            controller,
            plug,
            units,
        } => (How::Pending(controller), plug, units),
        Charge::Connected { plug, units } => (How::Connected, plug, units),
        Charge::Orphaned { plug, units } => (How::Orphaned, plug, units),
    };
    Some(Holding { how, plug, units })
}

/// What is held with a channel, if it is held.
pub(crate) fn taken_on(tables: &Tables, channel: usize) -> Option<Holding>
    requires stands { Stands tables.now }
    requires within { channel < 64 }
    ensures { (l : Account) → StandsFor tables.now l → result ≡ holding l channel }
{
    match allocated(tables.charges[channel]) {
        Some(held) => Some(held),
        None => unallocated(tables, channel),
    }
}

// In the reclaim second: the first channel from this one on that is allocated, or on which a flow may be allocated again.
fn next_reclaimed(tables: &Tables, from: usize) -> usize
    requires stands { Stands tables.now }
    requires within { from ≤ 64 }
    ensures after { from ≤ result }
    ensures within { result ≤ 64 }
    ensures free { (l : Account) (ch : ℕ) → StandsFor tables.now l → IsTrue l.reclaiming → from ≤ ch → ch < result → holding l ch ≡ None }
{
    for channel in from..CHANNELS {
        if !matches!(tables.charges[channel], Charge::Free)
            || !matches!(tables.reclaimable[channel], Reclaimable::Nothing)
        {
            return channel;
        }
    }
    CHANNELS
}

/// A channel from which on none is held. Most of the last channels are free.
#[inline(always)]
pub(crate) fn end_of_taken(tables: &Tables) -> usize
    requires stands { Stands tables.now }
    ensures within { result ≤ 64 }
    ensures free { (l : Account) (ch : ℕ) → StandsFor tables.now l → result ≤ ch → ch < 64 → holding l ch ≡ None }
{
    if tables.reclaiming {
        return CHANNELS;
    }
    tables.end_of_used()
}

/// The first channel from this one on with which something may be held, if none is from `end` on; 64 if there is none. Most are free.
#[inline(always)]
pub(crate) fn next_taken(tables: &Tables, from: usize, end: usize) -> usize
    requires stands { Stands tables.now }
    requires within { from ≤ 64 }
    requires end { end ≤ 64 }
    requires free { (l : Account) (ch : ℕ) → StandsFor tables.now l → end ≤ ch → ch < 64 → holding l ch ≡ None }
    ensures after { from ≤ result }
    ensures within { result ≤ 64 }
    ensures free { (l : Account) (ch : ℕ) → StandsFor tables.now l → from ≤ ch → ch < result → holding l ch ≡ None }
{
    if tables.reclaiming {
        return next_reclaimed(tables, from);
    }
    for channel in from..end {
        if !matches!(tables.charges[channel], Charge::Free) {
            return channel;
        }
    }
    CHANNELS
}
