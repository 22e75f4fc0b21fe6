ghost use Rattle.std.specs.Prelude.{◌≡◌, ◌≤◌, List, IfOk, IfErr, OnOk, IsFalse, IsTrue};
ghost use Rattle.std.specs.Option.{option_map};
ghost use Rattle.fw_outside.specs.Outside.{Rose};

use crate::BusFault;
use fw_async::Wire;
use fw_bus_engine::carry_out;
use fw_bus_places::Places;
use fw_bus_rules::decide;
use fw_bus_state::{Candidates, Controllers, Machine, WriteBuffers};
use fw_devices::Devices;
use fw_dub::Reel;
use fw_node::Node;
use fw_order::{Order, RuleFault};
use fw_outside::{Failed, Sink};
use fw_script_command::Command;
use fw_tape::Desk;
use std::alloc::{AllocError, Global};
use std::marker::Model;

/// A simulated bus. There is always a run for whose state it stands, until a write fails.
#[derive(Drop)]
pub struct Bus {
    pub(crate) machine: Machine,
    pub(crate) spent: bool,
    /// Not within the bus itself: some 100 KB, which would be copied with it.
    pub(crate) room: Box<WriteBuffers>,
}

impl Model for Bus {
    ghost use Rattle.std.specs.Prelude.{IsFalse};
    ghost use Rattle.fw_bus.specs.Buses.{BusView, IsReached};

    ghost Value = { BusView };

    ghost view = { λ b. record { machine = b.machine; spent = b.spent } };

    ghost invariant = { λ b. IsFalse b.spent → IsReached b.machine };
}

impl Bus {
    ghost use Rattle.fw_log_entry.specs.declared.entry.Timed.{Timed as TimedEntry};
    ghost use Rattle.fw_script_command.specs.declared.command.Command.{Command as Line};
    ghost use Rattle.fw_model_run.specs.State.{State, first_state};
    ghost use Rattle.fw_model_run.specs.Actions.{Action};
    ghost use Rattle.fw_model_run.specs.Rules.{Decides};
    ghost use Rattle.fw_model_run.specs.Runs.{Run};
    ghost use Rattle.fw_tape.specs.Desks.{AnyBlock, AnyVendorByte};
    ghost use Rattle.fw_bus_rules.specs.Decisions.{IsCommand};
    ghost use Rattle.fw_bus_state.specs.Stands.{StandsFor};
    ghost use Rattle.fw_bus_state.specs.Wires.{HasWire};
    ghost use Rattle.fw_bus_state.specs.declared.machine.Machine.{Machine as MachineRecord};
    ghost use Rattle.fw_bus_places.specs.Places.{IsPlace};
    ghost use Rattle.fw_bus.specs.Buses.{Applies, IsReached, LendsNode, WhereRefused, WhereFailed};
    ghost use Rattle.fw_bus.specs.Changes.{counted_in};

    /// A bus without a device, at cycle 0. It takes all the memory that its calls need.
    pub fn new(alloc: Global) -> Result<Bus, AllocError>
        ensures stands { IfOk result (λ b. StandsFor b.machine first_state) }
        ensures spent { IfOk result (λ b. IsFalse b.spent) }
    {
        // What takes memory comes first: if there is none, little has to be given back.
        let devices = Devices::new(alloc)?;
        let controllers = Controllers::new(alloc)?;
        let candidates = Candidates::new(alloc)?;
        let reel = Reel::new(alloc)?;
        let room = Box::new(alloc, WriteBuffers::new(alloc)?)?;
        Ok(Bus {
            machine: Machine::new(devices, controllers, candidates, reel),
            spent: false,
            room,
        })
    }

    /// Whether a call was cut off by its sink.
    pub fn spent(&self) -> bool
        ensures { result ≡ self.now.spent }
    {
        self.spent
    }

    /// The node of a device, by number in order of declaration: None exactly if it is not on the bus. Its registers have the words of
    /// the run, and its output plugs talk, and its input plugs hear, exactly if those of the run do.
    pub fn node(&self, device: u8) -> Option<&Node>
        requires spent { IsFalse self.now.spent }
        ensures lent { (commands : List Line) (actions : List Action) (log : List TimedEntry) (s : State) → Run commands actions log s → StandsFor self.now.machine s
            → LendsNode s device (option_map (λ n. n.now) result) }
    {
        self.machine.devices.node(device)
    }

    /// What lies on the bus: for each node a pair with its number exactly if a request of its controller is outstanding, with the bytes of
    /// that request.
    pub fn wire(&self) -> &Wire
        requires spent { IsFalse self.now.spent }
        ensures lent { (commands : List Line) (actions : List Action) (log : List TimedEntry) (s : State) → Run commands actions log s → StandsFor self.now.machine s
            → HasWire result.now s }
    {
        &self.machine.wire
    }

    /// The reel of the bus: the blocks that the tied deck has recorded since it was tied.
    pub fn reel(&self) -> &Reel
        requires spent { IsFalse self.now.spent }
        ensures lent { (commands : List Line) (actions : List Action) (log : List TimedEntry) (s : State) → Run commands actions log s → StandsFor self.now.machine s
            → result.now ≡ s.dub.reel }
    {
        &self.machine.reel
    }

    /// What the bus keeps.
    pub fn machine(&self) -> &Machine
        ensures { result.now ≡ self.now.machine }
    {
        &self.machine
    }

    /// There is a run for whose state the bus stands: nothing is done.
    pub fn stands(&self)
        requires spent { IsFalse self.now.spent }
        ensures { IsReached self.now.machine }
    {
        let _ = &self.machine;
    }

    /// The bus comes back to where a machine was kept: it stands then for each state for which that one stood.
    pub fn give_back(&mut self, places: &Places, words: &[u32])
        requires { (n : MachineRecord) × IsPlace places.now words.now n × IsReached n }
        ensures stands { (n : MachineRecord) (s : State) → IsPlace places.now words.now n → StandsFor n s → StandsFor self.new.machine s }
        ensures place { IsPlace places.now words.now self.new.machine }
        ensures fresh { IsFalse self.new.spent }
    {
        places.give_back(words, &mut self.machine);
        self.spent = false;
    }

    /// The same of a bus whose machine is the one that was kept under `now`: only parts whose numbers differ are copied.
    pub fn give_back_from(&mut self, places: &Places, now: &[u32], words: &[u32])
        requires now { IsPlace places.now now.now self.old.machine }
        requires kept { (n : MachineRecord) × IsPlace places.now words.now n × IsReached n }
        ensures stands { (n : MachineRecord) (s : State) → IsPlace places.now words.now n → StandsFor n s → StandsFor self.new.machine s }
        ensures place { IsPlace places.now words.now self.new.machine }
        ensures fresh { IsFalse self.new.spent }
    {
        places.give_back_from(now, words, &mut self.machine);
        self.spent = false;
    }

    /// The bus goes back by one half step that was only counted.
    pub fn uncount(&mut self)
        requires { (n : MachineRecord) × IsReached n × (self.old.machine ≡ counted_in n) }
        ensures machine { (n : MachineRecord) → self.old.machine ≡ counted_in n → self.new.machine ≡ n }
        ensures spent { self.new.spent ≡ self.old.spent }
    {
        self.machine.half_steps -= 1;
    }

    /// What a command would order, or the first rule that it breaks. Nothing is changed.
    pub fn order_of<'a>(&self, c: &'a Command) -> Result<Order<'a>, RuleFault>
        requires spent { IsFalse self.now.spent }
        requires command { IsCommand c.now }
        ensures run { (commands : List Line) (actions : List Action) (log : List TimedEntry) (s : State) → Run commands actions log s → StandsFor self.now.machine s
            → Decides s c.now result }
    {
        decide(&self.machine, c)
    }

    /// Carries out a command, and writes what happens; the blocks of tapes, and what a vendor makes of a byte, come from the desk.
    /// `Refused` comes exactly if a rule holds of the command, with the first; then nothing is changed or written. If the sink fails, it
    /// holds the entries given so far and a prefix of the next, its count of faults rose, and the bus is spent.
    pub fn apply<K: Sink, F: Fn(u16, u32, u16) -> [u8; 480], H: Fn(u32, u8) -> u8>(
        &mut self,
        c: &Command,
        sink: &mut K,
        desk: &Desk<F, H>,
    ) -> Result<(), BusFault>
        requires spent { IsFalse self.old.spent }
        requires command { IsCommand c.now }
        requires blocks { AnyBlock (F.pre desk.now.blocks) }
        requires desk { AnyVendorByte (H.pre desk.now.vendor) }
        ensures run { (commands : List Line) (actions : List Action) (log : List TimedEntry) (s : State) → Run commands actions log s → StandsFor self.old.machine s
            → Applies (record { blocks = F.post desk.now.blocks; vendor = H.post desk.now.vendor }) commands actions log s c.now self.new (K.held sink.old) (K.held sink.new) result }
        ensures refused { IfErr result (λ e. WhereRefused e ((self.new ≡ self.old) × (sink.new ≡ sink.old))) }
        ensures same { OnOk result (K.faults sink.new ≡ K.faults sink.old) }
        ensures fresh { OnOk result (IsFalse self.new.spent) }
        ensures failed { IfErr result (λ e. WhereFailed e (IsTrue self.new.spent × Rose (K.faults sink.old) (K.faults sink.new))) }
        ensures later { K.faults sink.old ≤ K.faults sink.new }
    {
        let order = match decide(&self.machine, c) {
            Ok(order) => order,
            Err(rule) => return Err(BusFault::Refused(rule)),
        };
        match carry_out(&mut self.machine, &order, desk, &mut *self.room, sink) {
            Ok(()) => Ok(()),
            Err(Failed) => {
                self.spent = true;
                Err(BusFault::WriteFault)
            }
        }
    }
}
