//! A bus that goes back to where it was kept.

ghost use Rattle.std.specs.Prelude.{◌≡◌, ℕ, [], List, OnOk, IsFalse};
ghost use Rattle.fw_bus_state.specs.declared.machine.Machine.{Machine};
ghost use Rattle.fw_model_run.specs.State.{State};
ghost use Rattle.fw_bus.specs.Buses.{StandsFor};

use crate::keeper::Keeper;
use crate::since::{Since, give_back_since, keep_since};
use fw_bus::Bus;
use fw_kept_parts::Full;
use std::alloc::Global;
use std::marker::Model;
use std::mem;

/// A bus, what keeps it, and the numbers under which it was kept last, or to which it was given back. Where nothing was carried out since,
/// only what differs from there is given back; if one half step was, only what that may have changed is looked at as it is kept.
#[derive(Drop)]
pub(crate) struct KeptBus<P: Keeper> {
    pub(crate) bus: Bus,
    places: P,
    // The numbers under which it was kept last, or to which it was given back.
    at: Vec<u32>,
    next: Vec<u32>,
    // What was carried out since.
    pub(crate) since: Since,
}

impl<P: Keeper> Model for KeptBus<P> {
    ghost use Rattle.fw_explore.specs.KeptBuses.{IsSince, Keeping};

    ghost Value = { Keeping P };

    ghost view = { λ k. record { bus = k.bus; places = k.places; at = k.at.items } };

    ghost invariant = { λ k. IsSince P.Kept k.places k.at.items k.since k.bus.machine };
}

impl<P: Keeper> KeptBus<P> {
    /// A bus that was not kept yet.
    pub(crate) fn new(alloc: Global, places: P, bus: Bus) -> KeptBus<P>
        ensures { result ≡ record { bus = bus; places = places; at = [] } }
    {
        KeptBus {
            bus,
            places,
            at: Vec::new(alloc),
            next: Vec::new(alloc),
            since: Since::Any,
        }
    }

    /// The numbers under which it was kept last, or to which it was given back.
    pub(crate) fn at(&self) -> &[u32]
        ensures { result.now ≡ self.now.at }
    {
        self.at.as_slice()
    }

    /// Keeps the bus.
    pub(crate) fn keep(&mut self) -> Result<(), Full>
        requires { IsFalse self.old.bus.spent }
        ensures place { OnOk result (P.Kept self.new.places self.new.at self.old.bus.machine) }
        ensures wider { OnOk result ((words : List ℕ) (m : Machine) → P.Kept self.old.places words m → P.Kept self.new.places words m) }
        ensures bus { self.new.bus ≡ self.old.bus }
    {
        let since = self.since;
        self.since = Since::Any;
        keep_since(
            &mut self.places,
            &self.bus,
            self.at.as_slice(),
            since,
            &mut self.next,
        )?;
        mem::swap(&mut self.at, &mut self.next);
        self.since = Since::Nothing;
        Ok(())
    }

    /// The bus comes back to what was kept under these numbers: it stands then for each state for which that one stood.
    pub(crate) fn give_back(&mut self, words: &[u32]) -> Result<(), Full>
        requires { (m : Machine) × P.Kept self.old.places words.now m }
        ensures stands { (m : Machine) (s : State) → P.Kept self.old.places words.now m → StandsFor m s → StandsFor self.new.bus.machine s }
        ensures fresh { IsFalse self.new.bus.spent }
        ensures places { self.new.places ≡ self.old.places }
    {
        let since = self.since;
        self.since = Since::Any;
        give_back_since(
            &self.places,
            self.at.as_slice(),
            since,
            words,
            &mut self.bus,
        );
        self.at.clear();
        self.at.extend_from_slice(words)?;
        self.since = Since::Nothing;
        Ok(())
    }
}
