ghost use Rattle.std.specs.Prelude.{◌≡◌, ◌<◌, ◌≤◌, ◌^◌, [], ℕ, IsTrue, Some, false, length, slice_index_or};
ghost use Rattle.fw_model_run.specs.State.{State, first_state, living};
ghost use Rattle.fw_model_run.specs.Good.{IsGood};
ghost use Rattle.fw_model_run.specs.HalfSteps.{is_busy_at, is_unsettled};
ghost use Rattle.fw_model_run.specs.Elections.{no_election};
ghost use Rattle.fw_cmp.specs.Losses.{first_listening};
ghost use Rattle.fw_devices.specs.Network.{is_node, no_devices, node_at};
ghost use Rattle.fw_bus_state.specs.Candidates.{HasElection};
ghost use Rattle.fw_bus_state.specs.Tables.{IsTable};
ghost use Rattle.fw_bus_state.specs.Stands.{StandsFor, IsReady, is_linked_in, is_living_in, living_in, read_in};

use crate::candidates::Candidates;
use crate::controllers::Controllers;
use crate::streams::Streams;
use fw_async::Wire;
use fw_cmp::Directory;
use fw_csr::{REGISTER_SPACE, Reply};
use fw_devices::Devices;
use fw_dub::Reel;

/// What a bus keeps: no account and no entries.
#[derive(Drop)]
pub struct Machine {
    pub devices: Devices,
    pub controllers: Controllers,
    /// The outstanding requests, by the number of the node that asks.
    pub wire: Wire,
    /// What controllers know of the bus since the latest bus reset.
    pub directory: Directory,
    /// The isochronous cycle, 125 microseconds each, from 0.
    pub cycle: u64,
    /// Whether the second after the latest bus reset runs, in which only flows that talked before it are allocated again.
    pub reclaiming: bool,
    /// How many bus resets commands began, and how many responses they lost; a bus reset that a controller forces was counted then.
    pub resets: u32,
    /// How many half steps were given.
    pub half_steps: u32,
    /// How many cycles were written.
    pub written: u32,
    /// What the output plugs have sent since they began to talk.
    pub streams: Streams,
    /// Who is a candidate for the bus manager.
    pub candidates: Candidates,
    /// The requests of candidates that are outstanding, by the number of the node that asks.
    pub bids: Wire,
    /// The deck whose recording goes onto the reel, if one is tied.
    pub tied: Option<u8>,
    pub reel: Reel,
}

impl Machine {
    /// A bus without a device, at cycle 0, of what takes memory, as it was made. That it cannot fail spares the stack two copies of the
    /// requests, 34 KB each.
    #[inline(always)]
    pub fn new(
        devices: Devices,
        controllers: Controllers,
        candidates: Candidates,
        reel: Reel,
    ) -> Machine
        requires devices { devices ≡ no_devices }
        requires controllers { IsTable controllers 0 (λ d. first_listening) (λ d. false) }
        requires candidates { HasElection candidates 0 no_election }
        requires reel { reel ≡ [] }
        ensures { StandsFor result first_state }
    {
        Machine {
            devices,
            controllers,
            wire: Wire::new(),
            directory: Directory {
                node: [None; 63],
                manager: None,
                over_at: 0,
            },
            cycle: 0,
            reclaiming: false,
            resets: 0,
            half_steps: 0,
            written: 0,
            streams: Streams::new(),
            candidates,
            bids: Wire::new(),
            tied: None,
            reel,
        }
    }

    /// Whether the device is on the bus.
    pub fn is_on(&self, device: u8) -> bool
        ensures { result ≡ is_node self.now.devices.nodes device }
    {
        self.devices.node(device).is_some()
    }

    /// Whether the device is on the bus and has a link: then its node answers.
    pub fn is_linked(&self, device: u8) -> bool
        ensures { result ≡ is_linked_in self.now.devices device }
    {
        self.is_on(device) && self.devices.kind(device).has_link()
    }

    /// Whether the device's controller lives.
    pub fn is_living(&self, device: u8) -> bool
        ensures { result ≡ is_living_in self.now device }
    {
        self.is_linked(device) && !self.controllers.is_dead(device)
    }

    /// How many controllers live.
    pub fn living(&self) -> u32
        ensures count { result ≡ length (living_in self.now) }
        ensures few { result ≤ 63 }
    {
        let mut count = 0;
        for device in 0..self.devices.count() {
            if self.is_living(device) {
                count += 1;
            }
        }
        count
    }

    /// The node number of a device on the bus.
    pub fn number(&self, device: u8) -> u8
        requires { IsTrue (is_node self.now.devices.nodes device) }
        ensures value { (node_at self.now.devices.nodes device).number ≡ Some result }
        ensures range { result ≤ 62 }
    {
        match self.devices.number(device) {
            Some(number) => number,
            None => unreachable!(),
        }
    }

    /// What a quadlet read of a register of a device would be answered.
    pub fn read(&self, device: u8, offset: u16) -> Reply
        requires linked { IsTrue (is_linked_in self.now.devices device) }
        requires offset { offset < 2 ^ 12 }
        ensures { result ≡ read_in self.now device offset }
    {
        self.devices
            .read(device, self.cycle, REGISTER_SPACE + u64::from(offset))
    }

    /// Whether the controller of a device, which lives, has something to do, or waits for an answer.
    fn is_busy(&self, device: u8) -> bool
        requires ready { IsReady self.now }
        requires living { IsTrue (is_living_in self.now device) }
        ensures { (s : State) → IsGood s → StandsFor self.now s → result ≡ is_busy_at s device }
    {
        self.controllers
            .get(device)
            .busy(self.cycle, &self.directory)
    }

    /// Whether a living controller has something to do, or waits for an answer.
    // Not inlined: it walks over all devices, and is rarely asked.
    #[inline(never)]
    pub fn is_unsettled(&self) -> bool
        requires ready { IsReady self.now }
        ensures { (s : State) → IsGood s → StandsFor self.now s → result ≡ is_unsettled s }
    {
        for device in 0..self.devices.count() {
            if self.controllers.is_calm(device) {
                continue;
            }
            if self.is_living(device) && self.is_busy(device) {
                return true;
            }
        }
        false
    }

    /// Marks which controllers live, in place of what was marked, and counts them.
    pub fn mark_living(&self, marks: &mut [bool; 63]) -> u32
        ensures marks { (d : ℕ) → d < length self.now.devices.names → slice_index_or marks.new d false ≡ is_living_in self.now d }
        ensures count { result ≡ length (living_in self.now) }
    {
        let mut count = 0;
        for device in 0..self.devices.count() {
            let lives = self.is_living(device);
            marks[usize::from(device)] = lives;
            if lives {
                count += 1;
            }
        }
        count
    }
}
