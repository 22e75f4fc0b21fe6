//! One step from a place: a mover moves, if it may.

ghost use Rattle.std.specs.Prelude.{◌≡◌, ◌<◌, ◌≤◌, ◌-◌, ◌^◌, ◌∷◌, ◌++◌, [], ℕ, List, IfOk, IsFalse, IsTrue, length, slice_index};
ghost use Rattle.std.specs.List.{All};
ghost use Rattle.fw_script_command.specs.declared.command.Command.{Command as Line};
ghost use Rattle.fw_log_entry.specs.Log.{entries_bytes, TimedFits};
ghost use Rattle.fw_log_entry.specs.declared.version.Version.TheVariants.{Two};
ghost use Rattle.fw_log_entry.specs.declared.entry.Timed.{Timed};
ghost use Rattle.fw_kept_parts.specs.Words.{bytes_of};
ghost use Rattle.fw_model_run.specs.Desks.{IsFunction};
ghost use Rattle.fw_tape.specs.Desks.{AnyBlock, AnyVendorByte};
ghost use Rattle.fw_explore_movers.specs.declared.mover.MoverKind.TheVariants.{HalfSteps};
ghost use Rattle.fw_explore_told.specs.Histories.{History, told_entries};
ghost use Rattle.fw_explore_meaning.specs.Pasts.{LeadsAt};
ghost use Rattle.fw_explore_meaning.specs.Steps.{Had, Steps, IsExplored, IsPlaced, IsArrived, IsPlacedKey, IsWiderBy, half_after, half_in, marked, past_in};

use crate::keeper::Keeper;
use crate::kept_bus::KeptBus;
use crate::key::put_key_words;
use crate::there::is_there;
use fw_explore_movers::{Explored, MoverKind};
use fw_explore_told::Past;
use fw_kept_parts::{Full, Table, are_numbers, put_words};
use fw_log_names::Pairs;
use fw_outside::GrowSink;
use fw_tape::Desk;
use std::alloc::Global;

/// What goes from place to place.
#[derive(Drop)]
pub(crate) struct Walker<P: Keeper> {
    pub(crate) alloc: Global,
    pub(crate) kept: KeptBus<P>,
    pub(crate) sink: GrowSink,
    pub(crate) pasts: Table<Past>,
    /// The numbers of the place that it goes on from: of its past, its half steps, and those of its machine.
    pub(crate) here: Vec<u32>,
    pub(crate) key: Vec<u8>,
    /// The digits of bytes, made once for all endings.
    pub(crate) pairs: Pairs,
}

// The half steps with a move.
fn half_after(kind: MoverKind, half: u32) -> u32
    requires { kind ≡ HalfSteps → half < 2 ^ 32 - 1 }
    ensures { result ≡ half_after kind half }
{
    match kind {
        MoverKind::HalfSteps => half + 1,
        MoverKind::Once => half,
    }
}

impl<P: Keeper> Walker<P> {
    // The key of where a mover has led.
    fn arrive(&mut self, mover: usize, kind: MoverKind) -> Result<(), Full>
        requires mover { mover < 32 }
        requires here { IsPlaced (Had self.old.pasts) (P.Kept self.old.kept.places) self.old.here.items }
        requires fresh { IsFalse self.old.kept.bus.spent }
        requires room { kind ≡ HalfSteps → half_in self.old.here.items < 2 ^ 32 - 1 }
        ensures arrives { (epoch : ℕ) (out : List Timed) (past : History) → All TimedFits out → self.old.sink.held ≡ entries_bytes Two epoch out
            → Had self.old.pasts (past_in self.old.here.items) past
            → IfOk result (λ u. IsArrived (Had self.new.pasts) (P.Kept self.new.kept.places) self.old.kept.bus.machine past (half_in self.old.here.items) out mover kind self.new.key.items) }
        ensures placed { IfOk result (λ u. IsPlacedKey (Had self.new.pasts) (P.Kept self.new.kept.places) self.new.key.items) }
        ensures wider { IfOk result (λ u. IsWiderBy (Had self.old.pasts) (Had self.new.pasts) (P.Kept self.old.kept.places) (P.Kept self.new.kept.places)) }
        ensures here { self.new.here ≡ self.old.here }
    {
        let half = half_after(kind, self.here[1]);
        let number = self.past_after(mover, kind)?;
        self.kept.keep()?;
        self.put_key(number, half)?;
        Ok(())
    }

    // The key has these numbers, and those of the machine.
    pub(crate) fn put_key(&mut self, number: u32, half: u32) -> Result<(), Full>
        ensures key { IfOk result (λ u. self.new.key.items ≡ bytes_of (number ∷ half ∷ self.old.kept.at)) }
        ensures small { (k : ℕ) → slice_index (number ∷ half ∷ self.old.kept.at) k < 2 ^ 32 }
        ensures here { self.new.here ≡ self.old.here }
        ensures places { self.new.kept.places ≡ self.old.kept.places }
        ensures pasts { self.new.pasts ≡ self.old.pasts }
    {
        are_numbers(self.kept.at());
        self.key.clear();
        put_words(&mut self.key, &[number, half])?;
        put_key_words(&mut self.key, self.kept.at())?;
        Ok(())
    }

    /// Whether a mover moves from the place; if it does the key has where it leads.
    pub(crate) fn step_to<F: Fn(u16, u32, u16) -> [u8; 480], H: Fn(u32, u8) -> u8>(
        &mut self,
        explored: &Explored,
        mover: usize,
        desk: &Desk<F, H>,
    ) -> Result<bool, Full>
        requires blocks { AnyBlock (F.pre desk.now.blocks) }
        requires desk { AnyVendorByte (H.pre desk.now.vendor) }
        requires explored { IsExplored explored.now }
        requires mover { mover < length explored.now.movers.items }
        requires here { IsPlaced (Had self.old.pasts) (P.Kept self.old.kept.places) self.old.here.items }
        ensures steps { (script : List Line) (w : List ℕ) → IsFunction (record { blocks = F.post desk.now.blocks; vendor = H.post desk.now.vendor })
            → LeadsAt (record { blocks = F.post desk.now.blocks; vendor = H.post desk.now.vendor }) script explored.now (Had self.old.pasts) (P.Kept self.old.kept.places) w self.old.here.items
            → IfOk result (Steps (record { blocks = F.post desk.now.blocks; vendor = H.post desk.now.vendor }) script explored.now
            (Had self.new.pasts) (P.Kept self.new.kept.places) w mover self.new.key.items) }
        ensures placed { IfOk result (λ moved. IsTrue moved → IsPlacedKey (Had self.new.pasts) (P.Kept self.new.kept.places) self.new.key.items) }
        ensures still { IfOk result (λ moved. IsFalse moved → (self.new.pasts ≡ self.old.pasts) × (self.new.kept.places ≡ self.old.kept.places)) }
        ensures wider { IfOk result (λ moved. IsWiderBy (Had self.old.pasts) (Had self.new.pasts) (P.Kept self.old.kept.places) (P.Kept self.new.kept.places)) }
        ensures here { self.new.here ≡ self.old.here }
    {
        let this = &explored.movers[mover];
        if !is_there(explored, self.past().done(), mover) {
            return Ok(false);
        }
        let kind = this.kind;
        if self.is_full(explored, kind) {
            return Ok(false);
        }
        self.kept.give_back(&self.here[2..])?;
        if self
            .kept
            .carry(&mut self.sink, &this.command, desk)?
            .is_some()
        {
            return Ok(false);
        }
        if is_silent(kind, self.sink.as_slice()) {
            return Ok(false);
        }
        self.arrive(mover, kind)?;
        Ok(true)
    }

    // Whether a half step more would be one too many.
    fn is_full(&self, explored: &Explored, kind: MoverKind) -> bool
        requires { IsPlaced (Had self.now.pasts) (P.Kept self.now.kept.places) self.now.here.items }
        ensures full { IsTrue result → (kind ≡ HalfSteps) × (explored.now.most ≤ half_in self.now.here.items) }
        ensures room { IsFalse result → kind ≡ HalfSteps → half_in self.now.here.items < explored.now.most }
        ensures few { IsFalse result → kind ≡ HalfSteps → half_in self.now.here.items < 2 ^ 32 - 1 }
    {
        match kind {
            MoverKind::HalfSteps => self.here[1] >= explored.most,
            MoverKind::Once => false,
        }
    }
}

/// Whether a half step wrote nothing, so that it is no move.
pub(crate) fn is_silent(kind: MoverKind, written: &[u8]) -> bool
    ensures silent { IsTrue result → (kind ≡ HalfSteps) × (written.now ≡ []) }
    ensures wrote { IsFalse result → kind ≡ HalfSteps → written.now ≡ [] → ⊥ }
{
    match kind {
        MoverKind::HalfSteps => written.is_empty(),
        MoverKind::Once => false,
    }
}
