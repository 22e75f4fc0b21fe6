//! A command, and what it may have changed.

ghost use Rattle.std.specs.Prelude.{◌≡◌, ◌<◌, [], ◌∷◌, IfOk, IfSome, IsTrue};
ghost use Rattle.fw_order.specs.declared.limits.TheConstants.{MOST_HALF_STEPS};
ghost use Rattle.fw_model_run.specs.Actions.{HalfStep};
ghost use Rattle.fw_model_run.specs.Carrying.{Carries};
ghost use Rattle.fw_tape.specs.Desks.{AnyBlock, AnyVendorByte};
ghost use Rattle.fw_bus_state.specs.Giving.{sides_of};
ghost use Rattle.fw_bus_state.specs.Orders.{MayCarry};
ghost use Rattle.fw_bus_state.specs.Stands.{IsReady, is_living_in};
ghost use Rattle.fw_bus_engine.specs.Framing.{IsQuiet, PerformedWithDesk};
ghost use Rattle.fw_bus_engine.specs.Leaving.{WhereNothing};
ghost use Rattle.fw_bus_engine.specs.Performing.{Performs, Performed};
ghost use Rattle.fw_bus.specs.Changes.{IsChanged, WhereHalf, counted_in};

use crate::{Bus, BusFault};
use fw_bus_engine::{carry_out, half_step};
use fw_bus_rules::decide;
use fw_bus_state::{Machine, WriteBuffers};
use fw_order::Order;
use fw_outside::{Failed, Sink};
use fw_script_command::Command;
use fw_tape::Desk;

/// What a command may have changed of a bus.
#[derive(Clone, Copy, PartialEq, Eq)]
pub enum Changed {
    /// What a half step of this device's controller changes that begins no bus reset: of the controllers that one alone. If it `asks`,
    /// because no request of it was outstanding, devices and streams are as they were; and if it wrote nothing, it was only counted.
    Half { device: u8, asks: bool },
    /// Anything.
    Any,
}

// The device whose controller takes one half step, if an order is that.
#[inline(always)]
fn stepping(order: &Order) -> Option<u8>
    ensures { IfSome result (λ device. order.now ≡ Order.Step device 1) }
{
    match order {
        Order::Step(device, count) => { if *count == 1 { Some(*device) } else { None } }
        _ => None,
    }
}

// One half step of a device's controller, which lives.
#[inline(always)]
fn step_once<K: Sink>(
    machine: &mut Machine,
    device: u8,
    room: &mut WriteBuffers,
    sink: &mut K,
) -> Result<Changed, Failed>
    requires ready { IsReady machine.old }
    requires living { IsTrue (is_living_in machine.old device) }
    requires few { machine.old.half_steps < MOST_HALF_STEPS }
    ensures does { Performed (Performs (HalfStep device ∷ [])) machine.old machine.new (sides_of K.held K.faults sink.old sink.new) result }
    ensures changed { IfOk result (λ changed. IsChanged changed machine.old machine.new) }
    ensures silent { IfOk result (λ changed. WhereHalf changed (WhereNothing (K.held sink.old) (K.held sink.new) (machine.new ≡ counted_in machine.old))) }
{
    let asks = !machine.controllers.get(device).has_request();
    let epoch = machine.devices.epoch();
    half_step(machine, device, room, sink)?;
    if machine.devices.epoch() == epoch {
        Ok(Changed::Half { device, asks })
    } else {
        Ok(Changed::Any)
    }
}

// Carries an order out, and says what it may have changed.
#[inline(always)]
fn carry_out_told<K: Sink, F: Fn(u16, u32, u16) -> [u8; 480], H: Fn(u32, u8) -> u8>(
    machine: &mut Machine,
    order: &Order,
    desk: &Desk<F, H>,
    room: &mut WriteBuffers,
    sink: &mut K,
) -> Result<Changed, Failed>
    requires ready { IsReady machine.old }
    requires may { MayCarry machine.old order.now }
    requires quiet { IsQuiet machine.old.devices }
    requires blocks { AnyBlock (F.pre desk.now.blocks) }
    requires desk { AnyVendorByte (H.pre desk.now.vendor) }
    ensures does { PerformedWithDesk (record { blocks = F.post desk.now.blocks; vendor = H.post desk.now.vendor }) (λ s. Carries s order.now)
        machine.old machine.new (sides_of K.held K.faults sink.old sink.new) result }
    ensures changed { IfOk result (λ changed. IsChanged changed machine.old machine.new) }
    ensures silent { IfOk result (λ changed. WhereHalf changed (WhereNothing (K.held sink.old) (K.held sink.new) (machine.new ≡ counted_in machine.old))) }
{
    match stepping(order) {
        Some(device) => step_once(machine, device, room, sink),
        None => {
            carry_out(machine, order, desk, room, sink)?;
            Ok(Changed::Any)
        }
    }
}

impl Bus {
    ghost use Rattle.std.specs.Prelude.{◌≤◌, List, IfErr, OnOk, IsFalse};
    ghost use Rattle.fw_outside.specs.Outside.{Rose};
    ghost use Rattle.fw_log_entry.specs.declared.entry.Timed.{Timed as TimedEntry};
    ghost use Rattle.fw_script_command.specs.declared.command.Command.{Command as Line};
    ghost use Rattle.fw_model_run.specs.State.{State};
    ghost use Rattle.fw_model_run.specs.Actions.{Action};
    ghost use Rattle.fw_model_run.specs.Runs.{Run};
    ghost use Rattle.fw_bus_rules.specs.Decisions.{IsCommand};
    ghost use Rattle.fw_bus_state.specs.Stands.{StandsFor};
    ghost use Rattle.fw_bus.specs.Buses.{Applies, WhereRefused, WhereFailed};

    /// Carries out a command, as `apply`, and says what it may have changed.
    pub fn change<K: Sink, F: Fn(u16, u32, u16) -> [u8; 480], H: Fn(u32, u8) -> u8>(
        &mut self,
        c: &Command,
        sink: &mut K,
        desk: &Desk<F, H>,
    ) -> Result<Changed, BusFault>
        requires spent { IsFalse self.old.spent }
        requires command { IsCommand c.now }
        requires blocks { AnyBlock (F.pre desk.now.blocks) }
        requires desk { AnyVendorByte (H.pre desk.now.vendor) }
        ensures run { (commands : List Line) (actions : List Action) (log : List TimedEntry) (s : State) → Run commands actions log s → StandsFor self.old.machine s
            → Applies (record { blocks = F.post desk.now.blocks; vendor = H.post desk.now.vendor }) commands actions log s c.now self.new (K.held sink.old) (K.held sink.new) result }
        ensures refused { IfErr result (λ e. WhereRefused e ((self.new ≡ self.old) × (sink.new ≡ sink.old))) }
        ensures same { OnOk result (K.faults sink.new ≡ K.faults sink.old) }
        ensures fresh { OnOk result (IsFalse self.new.spent) }
        ensures failed { IfErr result (λ e. WhereFailed e (IsTrue self.new.spent × Rose (K.faults sink.old) (K.faults sink.new))) }
        ensures later { K.faults sink.old ≤ K.faults sink.new }
        ensures changed { IfOk result (λ changed. IsChanged changed self.old.machine self.new.machine) }
        ensures silent { IfOk result (λ changed. WhereHalf changed (WhereNothing (K.held sink.old) (K.held sink.new) (self.new.machine ≡ counted_in self.old.machine))) }
    {
        let order = match decide(&self.machine, c) {
            Ok(order) => order,
            Err(rule) => return Err(BusFault::Refused(rule)),
        };
        match carry_out_told(&mut self.machine, &order, desk, &mut *self.room, sink) {
            Ok(changed) => Ok(changed),
            Err(Failed) => {
                self.spent = true;
                Err(BusFault::WriteFault)
            }
        }
    }
}
