//! A machine that is kept after a half step: what a half step leaves is neither compared nor looked up.

ghost use Rattle.std.specs.Prelude.{◌≡◌, ◌<◌, ℕ, IfOk, IsTrue, OnOk, length, slice_index_or};
ghost use Rattle.fw_devices.specs.Frames.{AreWithin, nodes_at};
ghost use Rattle.fw_devices.specs.Network.{Network};
ghost use Rattle.fw_bus_state.specs.Copies.{controllers_at};
ghost use Rattle.fw_bus_state.specs.Halves.{IsHalfFrom};
ghost use Rattle.fw_bus_state.specs.Tables.{count_of, states_of};
ghost use Rattle.fw_bus_state.specs.declared.machine.Machine.{Machine as MachineRecord};
ghost use Rattle.fw_kept_parts.specs.Tables.{Keeps, KeepsAll};
ghost use Rattle.fw_bus_places.specs.Places.{IsPlace, IsRestOf, IsWider};
ghost use Rattle.fw_bus_places.specs.declared.rest.Rest.{Rest as RestRecord};

use crate::guesses::{Guesses, keep_guessed};
use crate::numbers::{number_at, told_apart};
use crate::places::Places;
use crate::rest::Rest;
use fw_bus_state::{Controllers, Machine};
use fw_cmp::Controller;
use fw_devices::Devices;
use fw_kept_parts::{Full, Table};
use fw_node::Node;

// The number of what only lines, bus resets and streams change: if streams are as they were it is the number from before.
fn keep_rest(rests: &mut Table<Rest>, now: u32, asks: bool, m: &Machine) -> Result<u32, Full>
    requires within { now < length rests.old }
    requires half { (n : MachineRecord) × (device : ℕ) × ((d : RestRecord) → IsRestOf (slice_index_or rests.old now d) n) × IsHalfFrom device asks n m.now }
    ensures { IfOk result (λ number. Keeps IsRestOf rests.old rests.new m.now number) }
{
    if asks || rests.as_slice()[now as usize].has_streams(&m.streams) {
        return Ok(now);
    }
    rests.keep(now, m)
}

// Appends the numbers of the nodes: if none was asked they are as before.
fn keep_nodes(
    nodes: &mut Table<Node>,
    now: &[u32],
    asks: bool,
    devices: &Devices,
    out: &mut Vec<u32>,
) -> Result<(), Full>
    requires within { AreWithin now.now (length nodes.old) }
    requires asked { IsTrue asks → devices.now.nodes ≡ nodes_at nodes.old now.now }
    ensures { OnOk result (KeepsAll (λ kept node. kept ≡ node) nodes.old nodes.new devices.now.nodes out.old.items out.new.items) }
{
    if asks {
        out.extend_from_slice(now)?;
        return Ok(());
    }
    nodes.keep_all(now, devices.nodes(), out)
}

// Appends the numbers of the controllers: all but that of a device are as before.
fn keep_controllers(
    kept: &mut Table<Controller>,
    turns: &mut Guesses,
    now: &[u32],
    device: u8,
    controllers: &Controllers,
    out: &mut Vec<u32>,
) -> Result<(), Full>
    requires within { AreWithin now.now (length kept.old) }
    requires size { length controllers.now.list ≡ length now.now }
    requires others { (d : ℕ) → (d ≡ device → ⊥) → states_of controllers.now d ≡ states_of (record controllers.now { list = controllers_at kept.old now.now }) d }
    ensures { OnOk result (KeepsAll (λ kept controller. kept ≡ controller) kept.old kept.new controllers.now.list out.old.items out.new.items) }
{
    let place = usize::from(device);
    if place >= now.len() {
        return kept.keep_all(now, controllers.list(), out);
    }
    let number = keep_guessed(kept, turns, now[place], &controllers.list()[place])?;
    let at = out.len() + place;
    out.extend_from_slice(now)?;
    out[at] = number;
    Ok(())
}

impl Places {
    /// Keeps the parts of a machine, as `keep`, that is one half step of a device's controller after one that was kept under `now`. If that
    /// controller `asks`, so that no request was carried out, the nodes are not looked at; of the controllers only that one is.
    pub fn keep_half(
        &mut self,
        m: &Machine,
        now: &[u32],
        device: u8,
        asks: bool,
        out: &mut Vec<u32>,
    ) -> Result<(), Full>
        requires now { (n : MachineRecord) × IsPlace self.old now.now n × IsHalfFrom device asks n m.now }
        ensures place { OnOk result (IsPlace self.new out.new.items m.now) }
        ensures wider { OnOk result (IsWider self.old self.new) }
    {
        let from = told_apart(now);
        let rest = keep_rest(&mut self.rests, from.rest, asks, m)?;
        let was = number_at(from.controllers, usize::from(device));
        let key = from.wire.wrapping_mul(0x1_0000).wrapping_add(was);
        let wire = keep_guessed(&mut self.letters, &mut self.requests, key, &m.wire)?;
        let count = u32::from(m.devices.count());
        out.clear();
        out.extend_from_slice(&[rest, from.reel, wire, from.bids, m.half_steps, count])?;
        keep_nodes(&mut self.nodes, from.nodes, asks, &m.devices, out)?;
        keep_controllers(
            &mut self.controllers,
            &mut self.turns,
            from.controllers,
            device,
            &m.controllers,
            out,
        )?;
        Ok(())
    }
}
