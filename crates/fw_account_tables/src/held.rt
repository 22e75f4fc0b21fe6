//! The channel and the units that a controller holds, and the flows that may be allocated again.

ghost use Rattle.std.specs.Prelude.{◌≡◌, ◌<◌, ◌||◌, not, length};
ghost use Rattle.fw_terms.specs.Tables.{same_plug};
ghost use Rattle.fw_model_account.specs.Account.{Account, is_free};
ghost use Rattle.fw_model_account.specs.Decode.{is_flow, is_flow_of, is_held};
ghost use Rattle.fw_account_tables.specs.Stands.{Stands, StandsFor, allocation_of, flow_of, charge_at, reclaimable_at};
ghost use Rattle.fw_account_tables.specs.Swaps.{IsHeld, held_of, holds_no_units};

use crate::place::pending_channel;
use crate::tables::{Charge, Reclaimable, Tables};
use fw_terms::PlugAt;

/// What a controller has allocated and not connected: a channel, the output plug that it is for, and the units with it.
#[derive(Clone, Copy)]
pub struct PendingAllocation {
    pub channel: usize,
    pub plug: PlugAt,
    pub units: u32,
}

/// The charge of a channel.
pub fn charge_at(charges: &[Charge], channel: usize) -> Charge
    requires { channel < length charges.now }
    ensures { result ≡ charge_at charges.now channel }
{
    charges[channel]
}

// The flow of a channel that may be allocated again.
fn reclaimable_at(flows: &[Reclaimable], channel: usize) -> Reclaimable
    requires { channel < length flows.now }
    ensures { result ≡ reclaimable_at flows.now channel }
{
    flows[channel]
}

// What a charge holds for its controller.
fn held_of(channel: usize, charge: Charge) -> Option<PendingAllocation>
    ensures { result ≡ held_of channel charge }
{
    match charge {
        Charge::Pending { plug, units, .. } => Some(PendingAllocation {
            channel,
            plug,
            units,
        }),
        _ => None,
    }
}

/// The channel is free.
pub fn is_free(charge: Charge) -> bool
    ensures { result ≡ is_free (allocation_of charge) }
{
    matches!(charge, Charge::Free)
}

/// Controller `c` holds the channel, with no units.
pub fn holds_no_units(charge: Charge, c: u8) -> bool
    ensures { result ≡ holds_no_units c (allocation_of charge) }
{
    match charge {
        Charge::Pending {
            controller,
            units,
            ..
        } => c == controller && units == 0,
        _ => false,
    }
}

/// Controller `c` holds the channel for the plug, with so many units.
pub fn is_held(charge: Charge, c: u8, p: PlugAt, u: u32) -> bool
    ensures { result ≡ is_held c p u (allocation_of charge) }
{
    match charge {
        Charge::Pending {
            controller,
            plug,
            units,
        } => c == controller && is_same(plug, p) && units == u,
        _ => false,
    }
}

/// The same plug.
pub fn is_same(p: PlugAt, q: PlugAt) -> bool
    ensures { result ≡ same_plug p q }
{
    p.device == q.device && p.plug == q.plug
}

// A flow of the plug.
fn is_flow_of(flow: Reclaimable, p: PlugAt) -> bool
    ensures { result ≡ is_flow_of p (flow_of flow) }
{
    match flow {
        Reclaimable::Flow { plug, .. } => is_same(plug, p),
        Reclaimable::Nothing => false,
    }
}

// A flow of the plug with so many units.
fn is_flow(flow: Reclaimable, p: PlugAt, u: u32) -> bool
    ensures { result ≡ is_flow p u (flow_of flow) }
{
    match flow {
        Reclaimable::Flow { plug, units } => is_same(plug, p) && units == u,
        Reclaimable::Nothing => false,
    }
}

impl Tables {
    /// What controller `c` holds.
    pub fn held(&self, c: u8) -> Option<PendingAllocation>
        requires stands { Stands self.now }
        ensures { (l : Account) → StandsFor self.now l → IsHeld c result l }
    {
        let channel = pending_channel(&self.charges, c, 64)?;
        held_of(channel, charge_at(&self.charges, channel))
    }

    /// The channel may be allocated for the plug: while a reclaim second runs, only if the plug's flow talked on it.
    pub fn may_reclaim_channel(&self, channel: usize, p: PlugAt) -> bool
        requires stands { Stands self.now }
        requires within { channel < 64 }
        ensures { (l : Account) → StandsFor self.now l → result ≡ (not l.reclaiming || is_flow_of p (l.reclaimable channel)) }
    {
        !self.reclaiming || is_flow_of(reclaimable_at(&self.reclaimable, channel), p)
    }

    /// The units may be allocated for the plug: while a reclaim second runs, only if its flow talked with them.
    pub fn may_reclaim_units(&self, channel: usize, p: PlugAt, u: u32) -> bool
        requires stands { Stands self.now }
        requires within { channel < 64 }
        ensures { (l : Account) → StandsFor self.now l → result ≡ (not l.reclaiming || is_flow p u (l.reclaimable channel)) }
    {
        !self.reclaiming || is_flow(reclaimable_at(&self.reclaimable, channel), p, u)
    }
}
