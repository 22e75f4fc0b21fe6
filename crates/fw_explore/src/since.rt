//! What was carried out on a bus since it was kept or given back.

ghost use Rattle.std.specs.Prelude.{◌≡◌, ℕ, List, [], OnOk, IsFalse, IsTrue};
ghost use Rattle.fw_bus_state.specs.declared.machine.Machine.{Machine};
ghost use Rattle.fw_model_run.specs.State.{State};
ghost use Rattle.fw_bus.specs.Buses.{StandsFor};
ghost use Rattle.fw_explore.specs.KeptBuses.{Follows, IsSince};
ghost use Rattle.fw_explore.specs.declared.since.Since.TheVariants.{Nothing};

use crate::keeper::Keeper;
use fw_bus::{Bus, Changed};
use fw_kept_parts::Full;

/// What was carried out on a bus since it stood where it was kept.
#[derive(Clone, Copy, PartialEq, Eq)]
pub(crate) enum Since {
    /// Nothing: it stands there.
    Nothing,
    /// A half step that wrote nothing, so that it was only counted.
    Counted,
    /// A half step of this device's controller, which asked, or did not.
    Half { device: u8, asks: bool },
    /// Anything, or it was not kept yet.
    Any,
}

impl Since {
    /// After a command, which wrote nothing, or something.
    #[inline(always)]
    pub(crate) fn after(self, changed: Changed, silent: bool) -> Since
        ensures { Follows self changed silent result }
    {
        match self {
            Since::Nothing => since_there(changed, silent),
            Since::Counted | Since::Half { .. } | Since::Any => Since::Any,
        }
    }
}

// After a command where the bus was kept.
#[inline(always)]
fn since_there(changed: Changed, silent: bool) -> Since
    ensures { Follows Nothing changed silent result }
{
    match changed {
        Changed::Any => Since::Any,
        Changed::Half { device, asks } => {
            if silent {
                Since::Counted
            } else {
                Since::Half { device, asks }
            }
        }
    }
}

/// Whether nothing was written.
#[inline(always)]
pub(crate) fn is_nothing(written: &[u8]) -> bool
    ensures { IsTrue result → written.now ≡ [] }
{
    written.is_empty()
}

/// Keeps a bus that stood where it was kept under `at`, before this was carried out.
#[inline(always)]
pub(crate) fn keep_since<P: Keeper>(
    places: &mut P,
    bus: &Bus,
    at: &[u32],
    since: Since,
    out: &mut Vec<u32>,
) -> Result<(), Full>
    requires fresh { IsFalse bus.now.spent }
    requires since { IsSince P.Kept places.old at.now since bus.now.machine }
    ensures place { OnOk result (P.Kept places.new out.new.items bus.now.machine) }
    ensures wider { OnOk result ((words : List ℕ) (m : Machine) → P.Kept places.old words m → P.Kept places.new words m) }
{
    match since {
        Since::Half { device, asks } => places.keep_half(bus, at, device, asks, out),
        Since::Nothing | Since::Counted | Since::Any => places.keep(bus, at, out),
    }
}

/// Such a bus comes back to what was kept under other numbers.
#[inline(always)]
pub(crate) fn give_back_since<P: Keeper>(
    places: &P,
    at: &[u32],
    since: Since,
    words: &[u32],
    bus: &mut Bus,
)
    requires since { IsSince P.Kept places.now at.now since bus.old.machine }
    requires kept { (m : Machine) × P.Kept places.now words.now m }
    ensures stands { (m : Machine) (s : State) → P.Kept places.now words.now m → StandsFor m s → StandsFor bus.new.machine s }
    ensures place { P.Kept places.now words.now bus.new.machine }
    ensures fresh { IsFalse bus.new.spent }
{
    match since {
        Since::Nothing => places.give_back_from(at, words, bus),
        Since::Counted => {
            places.take_back(at, bus);
            places.give_back_from(at, words, bus)
        }
        Since::Half { .. } | Since::Any => places.give_back(words, bus),
    }
}
