//! Rounds of half steps, in each of which each living controller takes one, and what is written after them.

ghost use Rattle.std.specs.Prelude.{◌≡◌, ◌≤◌, ◌<◌, ◌+◌, ◌*◌, ◌-◌, ℕ, IfOk, IsTrue, IsFalse, false, length, slice_index_or};
ghost use Rattle.fw_cmp.specs.Causes.{IsAtRest};
ghost use Rattle.fw_order.specs.declared.limits.TheConstants.{MOST_HALF_STEPS};
ghost use Rattle.fw_model_run.specs.Good.{IsGood};
ghost use Rattle.fw_model_run.specs.HalfSteps.{is_unsettled};
ghost use Rattle.fw_model_run.specs.State.{State};
ghost use Rattle.fw_model_run.specs.Carrying.{Carries};
ghost use Rattle.fw_order.specs.declared.order.Order.TheVariants.{Settle};
ghost use Rattle.fw_bus_engine.specs.Performing.{Performed, OneRound};
ghost use Rattle.fw_bus_state.specs.Giving.{sides_of};
ghost use Rattle.fw_bus_state.specs.Stands.{EndsAt, IsReady, StandsFor, is_living_in, living_in};
ghost use Rattle.fw_bus_state.specs.Tables.{states_of};

use crate::steps::{half_step, tell_unsettled};
use fw_bus_state::{Machine, WriteBuffers};
use fw_outside::{Failed, Sink};

/// Where the controllers end that may have something to do: of those from there on and before `end`, each that lives has
/// nothing to do. `living` marks those that live.
fn busy_end(machine: &Machine, living: &[bool; 63], end: u8) -> u8
    requires most { end ≤ 63 }
    requires marks { (d : ℕ) → d < end → slice_index_or living.now d false ≡ is_living_in machine.now d }
    ensures within { result ≤ end }
    ensures calm { (d : ℕ) → result ≤ d → d < end → IsTrue (is_living_in machine.now d) → IsAtRest (states_of machine.now.controllers d).state }
{
    for passed in 0..end {
        let last = end - 1 - passed;
        if !living[usize::from(last)] {
            continue;
        }
        if !machine.controllers.is_calm(last) {
            return last + 1;
        }
    }
    0
}

/// Where the controllers end that a round has to look at. Where one has lost a response it may force a bus reset on the way,
/// after which each may have something to do.
fn round_end(machine: &Machine, living: &[bool; 63], end: u8) -> u8
    requires most { end ≤ 63 }
    requires marks { (d : ℕ) → d < end → slice_index_or living.now d false ≡ is_living_in machine.now d }
    requires enough { end ≤ length machine.now.devices.names }
    requires rest { (d : ℕ) → end ≤ d → d < length machine.now.devices.names → IsTrue (is_living_in machine.now d) → IsAtRest (states_of machine.now.controllers d).state }
    ensures within { result ≤ length machine.now.devices.names }
    ensures ends { EndsAt machine.now result }
{
    if machine.controllers.has_deaf() {
        machine.devices.count()
    } else {
        busy_end(machine, living, end)
    }
}

/// One round: each living controller, in order of declaration, takes one half step. `living` marks those, and `each` is
/// how many they are. Those from `end` on have nothing to do, so that their half steps are only counted.
#[inline(always)]
fn round<K: Sink>(
    machine: &mut Machine,
    living: &[bool; 63],
    each: u32,
    end: u8,
    room: &mut WriteBuffers,
    sink: &mut K,
) -> Result<(), Failed>
    requires ready { IsReady machine.old }
    requires marks { (d : ℕ) → d < length machine.old.devices.names → slice_index_or living.now d false ≡ is_living_in machine.old d }
    requires each { each ≡ length (living_in machine.old) }
    requires most { end ≤ 63 }
    requires within { end ≤ length machine.old.devices.names }
    requires ends { EndsAt machine.old end }
    requires few { machine.old.half_steps + length (living_in machine.old) ≤ MOST_HALF_STEPS }
    ensures does { Performed OneRound machine.old machine.new (sides_of K.held K.faults sink.old sink.new) result }
    ensures living { (d : ℕ) → is_living_in machine.new d ≡ is_living_in machine.old d }
    ensures names { machine.new.devices.names ≡ machine.old.devices.names }
    ensures count { IfOk result (λ _. machine.new.half_steps ≡ machine.old.half_steps + length (living_in machine.old)) }
{
    let after = machine.half_steps + each;
    for device in 0..end {
        if !living[usize::from(device)] {
            continue;
        }
        half_step(machine, device, room, sink)?;
    }
    machine.half_steps = after;
    Ok(())
}

/// Rounds in which no controller has anything to do: they do nothing, and are counted. `each` is how many controllers live.
fn rest(machine: &mut Machine, rounds: u32, each: u32)
    requires ready { IsReady machine.old }
    requires each { each ≡ length (living_in machine.old) }
    requires calm { (s : State) → IsGood s → StandsFor machine.old s → IsFalse (is_unsettled s) }
    requires few { machine.old.half_steps + rounds * length (living_in machine.old) ≤ MOST_HALF_STEPS }
    ensures { machine.new ≡ record machine.old { half_steps = machine.old.half_steps + rounds * length (living_in machine.old) } }
{
    machine.half_steps += rounds * each;
}

/// Whether a controller has something to do, or waits for an answer. Mostly the last does that a round has to look at, and only if
/// it does not all are asked. If a round has to look at none, none does.
#[inline(always)]
fn is_unsettled(machine: &Machine, living: &[bool; 63], end: u8) -> bool
    requires ready { IsReady machine.now }
    requires marks { (d : ℕ) → d < length machine.now.devices.names → slice_index_or living.now d false ≡ is_living_in machine.now d }
    requires most { end ≤ 63 }
    requires within { end ≤ length machine.now.devices.names }
    requires ends { EndsAt machine.now end }
    ensures { (s : State) → IsGood s → StandsFor machine.now s → result ≡ is_unsettled s }
{
    if end == 0 {
        return false;
    }
    if living[usize::from(end - 1)] {
        let last = machine.controllers.get(end - 1);
        if last.busy(machine.cycle, &machine.directory) {
            return true;
        }
    }
    machine.is_unsettled()
}

/// Rounds, and then the event that a controller is not settled, if one is not. If no controller has anything to do, all further
/// rounds are taken at once, and none is asked again.
// Not inlined, while a round is: so its loop has the registers for itself, and no round costs a call.
#[inline(never)]
pub(crate) fn settle<K: Sink>(
    machine: &mut Machine,
    count: u32,
    room: &mut WriteBuffers,
    sink: &mut K,
) -> Result<(), Failed>
    requires ready { IsReady machine.old }
    requires few { machine.old.half_steps + count * length (living_in machine.old) ≤ MOST_HALF_STEPS }
    ensures does { Performed (λ s. Carries s (Settle count)) machine.old machine.new (sides_of K.held K.faults sink.old sink.new) result }
{
    let mut living = [false; 63];
    let each = machine.mark_living(&mut living);
    let mut end = machine.devices.count();
    for i in 0..count {
        end = round_end(machine, &living, end);
        if !is_unsettled(machine, &living, end) {
            rest(machine, count - i, each);
            return Ok(());
        }
        round(machine, &living, each, end, room, sink)?;
    }
    tell_unsettled(machine, room, sink)
}
