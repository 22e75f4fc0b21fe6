//! What keeps buses so that they can be given back.

ghost use Rattle.std.specs.Prelude.{◌≡◌, ℕ, List, OnOk, IsFalse};
ghost use Rattle.fw_bus_state.specs.declared.machine.Machine.{Machine};
ghost use Rattle.fw_model_run.specs.State.{State};
ghost use Rattle.fw_bus.specs.Buses.{StandsFor};
ghost use Rattle.fw_bus.specs.Changes.{IsHalfFrom, counted_in};

use fw_bus::Bus;
use fw_kept_parts::Full;

/// Keeps buses: `Kept` says which machines are kept under some numbers. What was kept is kept for good.
pub trait Keeper: Drop {
    ghost Kept: { Self → List ℕ → Machine → Type 0 };

    /// Keeps what a bus has, under numbers that come in place of what `out` has. `near` are those of a bus that is mostly the same, or
    /// none.
    fn keep(&mut self, bus: &Bus, near: &[u32], out: &mut Vec<u32>) -> Result<(), Full>
        requires { IsFalse bus.now.spent }
        ensures place { OnOk result (Kept self.new out.new.items bus.now.machine) }
        ensures wider { OnOk result ((words : List ℕ) (m : Machine) → Kept self.old words m → Kept self.new words m) };

    /// Keeps, as `keep`, a bus that is one half step of a device's controller after one that was kept under `now`. If that controller asks,
    /// no request of it was outstanding before.
    fn keep_half(
        &mut self,
        bus: &Bus,
        now: &[u32],
        device: u8,
        asks: bool,
        out: &mut Vec<u32>,
    ) -> Result<(), Full>
        requires fresh { IsFalse bus.now.spent }
        requires now { (m : Machine) × Kept self.old now.now m × IsHalfFrom device asks m bus.now.machine }
        ensures place { OnOk result (Kept self.new out.new.items bus.now.machine) }
        ensures wider { OnOk result ((words : List ℕ) (m : Machine) → Kept self.old words m → Kept self.new words m) };

    /// A bus that a half step only counted on from where it was kept stands there again.
    fn take_back(&self, now: &[u32], bus: &mut Bus)
        requires { (m : Machine) × Kept self.now now.now m × (bus.old.machine ≡ counted_in m) }
        ensures { Kept self.now now.now bus.new.machine };

    /// A bus comes back to what was kept under these numbers: it stands then for each state for which that one stood.
    fn give_back(&self, words: &[u32], bus: &mut Bus)
        requires { (m : Machine) × Kept self.now words.now m }
        ensures stands { (m : Machine) (s : State) → Kept self.now words.now m → StandsFor m s → StandsFor bus.new.machine s }
        ensures place { Kept self.now words.now bus.new.machine }
        ensures fresh { IsFalse bus.new.spent };

    /// A bus that stands where it was kept comes back, as by `give_back`, to what was kept under other numbers.
    fn give_back_from(&self, now: &[u32], words: &[u32], bus: &mut Bus)
        requires now { Kept self.now now.now bus.old.machine }
        requires kept { (m : Machine) × Kept self.now words.now m }
        ensures stands { (m : Machine) (s : State) → Kept self.now words.now m → StandsFor m s → StandsFor bus.new.machine s }
        ensures place { Kept self.now words.now bus.new.machine }
        ensures fresh { IsFalse bus.new.spent };
}
