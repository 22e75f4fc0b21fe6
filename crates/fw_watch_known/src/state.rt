//! What is known of a bus.

ghost use Rattle.std.specs.Prelude.{◌≡◌, ◌≤◌, ◌<◌, [], IfOk, IfSome, length};
ghost use Rattle.std.specs.List.{position};
ghost use Rattle.fw_watch_known.specs.States.{no_state, known_of, with_known, with_known_plug, is_device, is_manager, is_absent, manager_node, manager_by, reset_state, manager_of, node_of_device, after_death};

use crate::channels::Channels;
use crate::counts::Counts;
use crate::plugs::Plugs;
use crate::second::Second;
use fw_log_entry::{NodeList, NodeRow, ResetEntry};
use fw_watch_remarks::{At, Known, Managed, WatchedRegister, counted};
use fw_watch_requests::{OutstandingRequests, node_id};
use std::alloc::{AllocError, Global};

/// Which node is the isochronous resource manager.
#[derive(Clone, Copy)]
pub enum Manager {
    /// No bus reset has said, and no node has answered as one.
    Unknown,
    /// There is none.
    Absent,
    /// This node.
    Node(u8),
}

/// What is known of a bus. All of it has a fixed size, so it does not grow with a log.
#[derive(Drop)]
pub struct State {
    /// How many nodes there are; 63 before the first bus reset.
    pub count: u8,
    /// The nodes of the latest bus reset.
    pub nodes: NodeList,
    /// The epoch of the latest bus reset.
    pub epoch: Option<u32>,
    /// The isochronous resource manager.
    pub manager: Manager,
    /// What is known of its registers.
    pub managed: Managed,
    /// What is known of plugs.
    pub plugs: Plugs,
    /// What is kept of channels.
    pub channels: Channels,
    /// The outstanding requests.
    pub standing: OutstandingRequests,
    /// The second after the latest bus reset.
    pub second: Second,
    /// What was counted.
    pub counts: Counts,
}

fn same_nodes(nodes: &[NodeRow]) -> NodeList
    requires { length nodes.now ≤ 63 }
    ensures { result ≡ nodes.now }
{
    let mut same = NodeList::new();
    for row in nodes {
        same.push(*row);
    }
    same
}

impl Manager {
    // The manager that a bus reset has found.
    fn of(manager: Option<u8>) -> Manager
        ensures { result ≡ manager_of manager }
    {
        match manager {
            Some(node) => Manager::Node(node),
            None => Manager::Absent,
        }
    }

    /// The manager, if this node has answered as one: if none is known, it is the node.
    pub fn by(self, node: u8) -> Manager
        ensures { result ≡ manager_by node self }
    {
        match self {
            Manager::Unknown => Manager::Node(node),
            manager => manager,
        }
    }

    /// It is this node.
    pub fn is(self, node: u8) -> bool
        ensures { result ≡ is_manager node self }
    {
        match self {
            Manager::Node(manager) => manager == node,
            Manager::Unknown | Manager::Absent => false,
        }
    }

    /// The bus has none.
    pub fn is_absent(self) -> bool
        ensures { result ≡ is_absent self }
    {
        match self {
            Manager::Absent => true,
            Manager::Unknown | Manager::Node(_) => false,
        }
    }

    /// Its number, if it is known.
    pub fn node(self) -> Option<u8>
        ensures { result ≡ manager_node self }
    {
        match self {
            Manager::Node(node) => Some(node),
            Manager::Unknown | Manager::Absent => None,
        }
    }
}

impl State {
    /// Nothing is known.
    pub fn new(alloc: Global) -> Result<State, AllocError>
        ensures { IfOk result (λ s. s ≡ no_state) }
    {
        Ok(State {
            count: 63,
            nodes: NodeList::new(),
            epoch: None,
            manager: Manager::Unknown,
            managed: Managed::nothing(),
            plugs: Plugs::new(alloc)?,
            channels: Channels::new(alloc)?,
            standing: OutstandingRequests::new(),
            second: Second::none(),
            counts: Counts::none(),
        })
    }

    /// What is known of a register.
    #[tactic(auto, unfolding(crate::specs::States::known_of))]
    pub fn known(&self, at: At) -> Known
        ensures { result ≡ known_of self.now at }
    {
        match at.register {
            WatchedRegister::Bandwidth => self.managed.bandwidth,
            WatchedRegister::ChannelsHigh => self.managed.high,
            WatchedRegister::ChannelsLow => self.managed.low,
            WatchedRegister::Output(_) | WatchedRegister::Input(_) => self.plugs.at(at),
        }
    }

    // What is known of a plug from now on: whose packets a channel carries is to be seen anew if the plug comes or goes.
    #[tactic(auto, unfolding(crate::specs::States::with_known_plug))]
    fn put_plug(&mut self, at: At, known: Known)
        ensures { self.new ≡ with_known_plug self.old at known }
    {
        let old = self.plugs.at(at);
        self.channels.move_plug(old.channel(), known.channel());
        self.plugs.set(at, known);
    }

    /// What is known of a register from now on.
    #[tactic(auto, unfolding(crate::specs::States::with_known))]
    pub fn put(&mut self, at: At, known: Known)
        ensures { self.new ≡ with_known self.old at known }
    {
        match at.register {
            WatchedRegister::Bandwidth => self.managed.bandwidth = known,
            WatchedRegister::ChannelsHigh => {
                self.channels.freshen(0, self.managed.high, known);
                self.managed.high = known;
            }
            WatchedRegister::ChannelsLow => {
                self.channels.freshen(32, self.managed.low, known);
                self.managed.low = known;
            }
            WatchedRegister::Output(_) | WatchedRegister::Input(_) => self.put_plug(at, known),
        }
    }

    /// A bus reset.
    #[tactic(auto, unfolding(crate::specs::States::reset_state))]
    pub fn reset(&mut self, cycle: u64, r: &ResetEntry)
        ensures { self.new ≡ reset_state cycle r.now self.old }
    {
        self.second.begin(cycle, self.epoch.is_none(), self.managed);
        self.count = r.nodes.as_slice().len() as u8;
        self.nodes = same_nodes(r.nodes.as_slice());
        self.epoch = Some(r.epoch);
        self.manager = Manager::of(r.manager);
        self.managed = Managed::of_reset();
        self.plugs.reset();
        self.channels.reset();
        self.standing.reset();
        self.counts.resets = counted(self.counts.resets);
    }

    /// The node that a device was at the latest bus reset, if it was there.
    pub fn node_of_device(&self, device: u8) -> Option<u8>
        ensures value { result ≡ node_of_device device self.now.nodes }
        ensures within { IfSome result (λ n. n < 63) }
    {
        place_of_device(self.nodes.as_slice(), device)
    }

    /// The controller of a device died: its requests are outstanding no longer.
    #[tactic(auto, unfolding(crate::specs::States::after_death))]
    pub fn bury(&mut self, device: u8)
        ensures { self.new ≡ after_death device self.old }
    {
        if let Some(node) = self.node_of_device(device) {
            self.standing.end_of(node_id(node));
        }
    }
}

// The place of a device among the nodes.
#[tactic(auto, unfolding(crate::specs::States::node_of_device))]
fn place_of_device(nodes: &[NodeRow], device: u8) -> Option<u8>
    requires { length nodes.now ≤ 63 }
    ensures value { result ≡ node_of_device device nodes.now }
    ensures within { IfSome result (λ n. n < 63) }
{
    match row_of_device(nodes, device) {
        Some(place) => Some(place as u8),
        None => None,
    }
}

fn row_of_device(nodes: &[NodeRow], device: u8) -> Option<usize>
    ensures value { result ≡ position (is_device device) nodes.now }
    ensures there { IfSome result (λ place. place < length nodes.now) }
{
    nodes.iter().position(|row| is_device(row, device))
}

// The row is of this device.
#[tactic(auto, unfolding(crate::specs::States::is_device))]
fn is_device(row: &NodeRow, device: u8) -> bool
    ensures { result ≡ is_device device row.now }
{
    row.device == device
}
