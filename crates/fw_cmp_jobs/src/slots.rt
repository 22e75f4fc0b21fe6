//! The slots of a controller: which are free, which are to be restored, and what a bus reset and the end of the reclaim
//! second make of them.

ghost use Rattle.std.specs.Prelude.{◌≡◌, ◌<◌, slice_index_or, is_some, map, IfSome};
ghost use Rattle.fw_terms.specs.Tables.{find_to};
ghost use Rattle.fw_cmp_jobs.specs.declared.connection.Slot.TheVariants.{Free};
ghost use Rattle.fw_cmp_jobs.specs.Slots.{is_free, is_restoring, is_breakable, job_for};
ghost use Rattle.fw_cmp_jobs.specs.Known.{NoneToRestore};
ghost use Rattle.fw_cmp_jobs.specs.Slots.{slot_reset, slot_over};

use crate::{Job, Purpose, Slot};

impl Slot {
    /// The slot is not in use.
    pub fn is_free(self) -> bool
        ensures { result ≡ is_free self }
    {
        matches!(self, Slot::Free)
    }

    /// Its connection is to be restored.
    pub fn is_restoring(self) -> bool
        ensures { result ≡ is_restoring self }
    {
        matches!(self, Slot::Restoring(..))
    }

    /// Its connection stands or is to be restored.
    pub fn is_breakable(self) -> bool
        ensures { result ≡ is_breakable self }
    {
        matches!(self, Slot::Established(..) | Slot::Restoring(..))
    }

    /// A bus reset: a connection that stands is to be restored.
    fn reset(&mut self)
        ensures { self.new ≡ slot_reset self.old }
    {
        if let Slot::Established(connection, flow) = *self {
            *self = Slot::Restoring(connection, flow, false);
        }
    }

    /// The end of the reclaim second.
    fn second_over(&mut self)
        ensures { self.new ≡ slot_over self.old }
    {
        if let Slot::Restoring(connection, flow, _) = *self {
            *self = Slot::Restoring(connection, flow, true);
        }
    }

    /// The job for what the slot with this number holds.
    pub fn job(self, slot: u8) -> Option<Job>
        ensures { result ≡ job_for slot self }
    {
        let (connection, purpose, asked, overhead, units) = match self {
            Slot::Free => return None,
            Slot::Making(connection, asked, overhead) => {
                (connection, Purpose::Make, asked, overhead, None)
            }
            Slot::Restoring(connection, flow, _) => (
                connection,
                Purpose::Restore,
                Some(flow.channel),
                flow.overhead,
                Some(flow.units),
            ),
            Slot::Established(connection, _) | Slot::Gone(connection) => {
                (connection, Purpose::Break, None, 0, None)
            }
        };
        Some(Job {
            slot,
            connection,
            purpose,
            asked,
            overhead,
            units,
        })
    }
}

/// The lowest free slot.
pub fn first_free(slots: &[Slot; 32]) -> Option<u8>
    ensures first { result ≡ find_to 32 (λ i. is_free (slice_index_or slots.now i Free)) }
    ensures within { IfSome result (λ i. i < 32) }
{
    for i in 0..32 {
        if slots[i as usize].is_free() {
            return Some(i);
        }
    }
    None
}

/// The lowest slot that is to be restored.
fn first_restoring(slots: &[Slot; 32]) -> Option<u8>
    ensures first { result ≡ find_to 32 (λ i. is_restoring (slice_index_or slots.now i Free)) }
    ensures within { IfSome result (λ i. i < 32) }
{
    for i in 0..32 {
        if slots[i as usize].is_restoring() {
            return Some(i);
        }
    }
    None
}

/// The lowest slot that is to be restored. If it is known that there is none, no slot is looked at; and if none is found,
/// that is known from then on.
pub fn to_restore(slots: &[Slot; 32], none: &mut bool) -> Option<u8>
    requires { NoneToRestore none.old slots.now }
    ensures first { result ≡ find_to 32 (λ i. is_restoring (slice_index_or slots.now i Free)) }
    ensures within { IfSome result (λ i. i < 32) }
    ensures none { NoneToRestore none.new slots.now }
{
    if *none {
        return None;
    }
    let lowest = first_restoring(slots);
    *none = lowest.is_none();
    lowest
}

/// Whether a slot is to be restored. If it is known that none is, no slot is looked at.
pub fn has_restoring(slots: &[Slot; 32], none: bool) -> bool
    requires { NoneToRestore none slots.now }
    ensures { result ≡ is_some (find_to 32 (λ i. is_restoring (slice_index_or slots.now i Free))) }
{
    !none && first_restoring(slots).is_some()
}

/// A bus reset.
pub fn reset(slots: &mut [Slot; 32])
    ensures { slots.new ≡ map slot_reset slots.old }
{
    for slot in slots.iter_mut() {
        slot.reset();
    }
}

/// The end of the reclaim second.
pub fn second_over(slots: &mut [Slot; 32])
    ensures { slots.new ≡ map slot_over slots.old }
{
    for slot in slots.iter_mut() {
        slot.second_over();
    }
}
