//! New connections and breaks, which wait as jobs.

ghost use Rattle.std.specs.Prelude.{◌≡◌, ◌<◌, Err, if◌then◌else◌};
ghost use Rattle.fw_cmp_jobs.specs.declared.directory.Directory.{Directory as BusDirectory};
ghost use Rattle.fw_cmp.specs.declared.outcome.StartFault.TheVariants.{NotOwnPlug};
ghost use Rattle.fw_cmp.specs.Controllers.{break_waits, slot_at};
ghost use Rattle.fw_cmp_jobs.specs.Fits.{PlugFits, AskedFits, SlotFits};
ghost use Rattle.fw_cmp.specs.Holdings.{CanGoOn};
ghost use Rattle.fw_cmp.specs.Losses.{ListeningFits, with_state};
ghost use Rattle.fw_cmp.specs.Starts.{OkWithin, start, start_own, started, start_break, break_started, break_fault};
ghost use Rattle.fw_cmp_jobs.specs.Slots.{IsMaking, connect_slot, broadcast_slot, listen_slot};

use super::Controller;
use crate::{Slot, StartFault};
use fw_terms::PlugAt;

impl Controller {
    /// Starts a point-to-point connection on this channel, or on the lowest free one, and answers its slot. A refused
    /// call changes nothing, here and below.
    pub fn start_connect(
        &mut self,
        out: PlugAt,
        into: PlugAt,
        channel: Option<u8>,
        overhead: u8,
    ) -> Result<u8, StartFault>
        requires out { PlugFits out }
        requires into { PlugFits into }
        requires channel { AskedFits channel }
        requires overhead { overhead < 16 }
        ensures answer { result ≡ start self.old.state }
        ensures state { self.new ≡ with_state self.old (started result (connect_slot out into channel overhead) self.old.state) }
        ensures fits { ListeningFits self.new }
        ensures goes_on { (d : BusDirectory) → CanGoOn d self.old.state → CanGoOn d self.new.state }
    {
        self.start(true, Slot::connect(out, into, channel, overhead))
    }

    /// Starts a broadcast-out connection of an output plug of the controller's own device, and answers its slot.
    pub fn start_broadcast(&mut self, own: u8, out: PlugAt, overhead: u8) -> Result<u8, StartFault>
        requires out { PlugFits out }
        requires overhead { overhead < 16 }
        ensures answer { result ≡ start_own own out self.old.state }
        ensures state { self.new ≡ with_state self.old (started result (broadcast_slot out overhead) self.old.state) }
        ensures fits { ListeningFits self.new }
        ensures goes_on { (d : BusDirectory) → CanGoOn d self.old.state → CanGoOn d self.new.state }
    {
        self.start(out.device == own, Slot::broadcast(out, overhead))
    }

    /// Starts a broadcast-in connection of an input plug of the controller's own device, and answers its slot.
    pub fn start_listen(&mut self, own: u8, into: PlugAt) -> Result<u8, StartFault>
        requires into { PlugFits into }
        ensures answer { result ≡ start_own own into self.old.state }
        ensures state { self.new ≡ with_state self.old (started result (listen_slot into) self.old.state) }
        ensures fits { ListeningFits self.new }
        ensures goes_on { (d : BusDirectory) → CanGoOn d self.old.state → CanGoOn d self.new.state }
    {
        self.start(into.device == own, Slot::listen(into))
    }

    /// A new connection takes the lowest free slot, and waits. A broadcast connection is one of the controller's own plug.
    fn start(&mut self, is_own: bool, held: Slot) -> Result<u8, StartFault>
        requires held { SlotFits held }
        requires making { IsMaking held }
        ensures answer { result ≡ (if is_own then start self.old.state else Err NotOwnPlug) }
        ensures state { self.new ≡ with_state self.old (started result held self.old.state) }
        ensures fits { ListeningFits self.new }
        ensures goes_on { (d : BusDirectory) → CanGoOn d self.old.state → CanGoOn d self.new.state }
    {
        let found = self.agenda.check_start();
        if !is_own {
            return Err(StartFault::NotOwnPlug);
        }
        let slot = found?;
        self.agenda.place(slot, held);
        Ok(slot)
    }

    /// A new connection takes this slot, which `check_start` found, and waits.
    pub fn place(&mut self, slot: u8, held: Slot)
        requires found { start self.old.state ≡ Ok slot }
        requires held { SlotFits held }
        requires making { IsMaking held }
        ensures state { self.new ≡ with_state self.old (started (Ok slot) held self.old.state) }
        ensures fits { ListeningFits self.new }
        ensures goes_on { (d : BusDirectory) → CanGoOn d self.old.state → CanGoOn d self.new.state }
    {
        self.agenda.place(slot, held);
    }

    /// The slot that a new connection would take, the lowest free one, or why it would be refused: `TableFull` before
    /// `Busy`. Whose plug it is of is not asked here.
    pub fn check_start(&self) -> Result<u8, StartFault>
        ensures answer { result ≡ start self.now.state }
        ensures within { OkWithin result }
    {
        self.agenda.check_start()
    }

    /// Starts a break of the connection in this slot.
    pub fn start_break(&mut self, slot: u8) -> Result<(), StartFault>
        ensures answer { result ≡ start_break self.old.state slot }
        ensures state { self.new ≡ with_state self.old (break_started self.old.state slot) }
        ensures fits { ListeningFits self.new }
        ensures goes_on { (d : BusDirectory) → CanGoOn d self.old.state → CanGoOn d self.new.state }
    {
        if let Some(fault) = self.agenda.check_break(slot) {
            return Err(fault);
        }
        self.agenda.place_break(slot);
        Ok(())
    }

    /// A break of the connection in this slot, in which `check_break` found no fault, waits.
    pub fn place_break(&mut self, slot: u8)
        requires { break_fault self.old.state slot ≡ None }
        ensures state { self.new ≡ with_state self.old (break_started self.old.state slot) }
        ensures fits { ListeningFits self.new }
        ensures goes_on { (d : BusDirectory) → CanGoOn d self.old.state → CanGoOn d self.new.state }
    {
        self.agenda.place_break(slot);
    }

    /// Why `start_break` would refuse a break of the connection in this slot. None if it would not.
    pub fn check_break(&self, slot: u8) -> Option<StartFault>
        ensures { result ≡ break_fault self.now.state slot }
    {
        self.agenda.check_break(slot)
    }

    /// What a slot holds; one beyond the 32 is free.
    pub fn slot(&self, slot: u8) -> Slot
        ensures { result ≡ slot_at self.now.state slot }
    {
        self.agenda.slot(slot)
    }

    /// A break of the connection in this slot waits.
    pub fn break_waits(&self, slot: u8) -> bool
        ensures { result ≡ break_waits self.now.state slot }
    {
        self.agenda.break_waits(slot)
    }
}
