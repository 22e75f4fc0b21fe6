ghost use Rattle.std.specs.Prelude.{◌≡◌, ◌≤◌, ◌<◌, IfSome, is_some};
ghost use Rattle.std.specs.Option.{option_map};
ghost use Rattle.fw_terms.specs.Devices.{code_of, has_unit};
ghost use Rattle.fw_node.specs.Streams.{talking_on};
ghost use Rattle.fw_node.specs.State.{first_state, first_unit, after_reset, after_second};

use crate::waiting::Waiting;
use fw_avc::Unit;
use fw_csr::Manager;
use fw_plug::Plugs;
use fw_terms::DeviceKind;
use std::marker::Model;

/// A device as a node of the bus: the registers by which it answers request packets.
#[derive(Drop)]
pub struct Node {
    pub(crate) kind: DeviceKind,
    pub(crate) device: u8,
    /// Whether the bus withholds channel 31.
    pub(crate) withhold: bool,
    pub(crate) number: Option<u8>,
    pub(crate) plugs: Plugs,
    pub(crate) manager: Option<Manager>,
    pub(crate) unit: Option<Unit>,
    /// The response to the latest command frame, and the number of the node that it goes to.
    pub(crate) waiting: Waiting,
}

impl Model for Node {
    ghost use Rattle.std.specs.Prelude.{◌≡◌, ◌≤◌, is_some, length};
    ghost use Rattle.std.specs.Option.{ForSome};
    ghost use Rattle.fw_terms.specs.Devices.{has_unit, output_plugs_of, input_plugs_of};
    ghost use Rattle.fw_fcp.specs.Frames.{Fits};
    ghost use Rattle.fw_node.specs.State.{NodeState};

    ghost Value = { NodeState };

    ghost view = { λ n. record { kind = n.kind; device = n.device; withheld = n.withhold; number = n.number; plugs = n.plugs; manager = n.manager; unit = n.unit; waiting = n.waiting } };

    ghost invariant = { λ n. ForSome n.number (λ number. number ≤ 62) × (length n.plugs.outputs ≡ output_plugs_of n.kind) × (length n.plugs.inputs ≡ input_plugs_of n.kind) × (is_some n.unit ≡ has_unit n.kind) × ForSome n.waiting (λ told. Fits told.1) };
}

impl Node {
    /// Device `device`, 0 to 62 in order of declaration, of the kind with this code (`DeviceKind::code`), at data rate 0,
    /// 1 or 2 for 100, 200 or 400 Mbit/s, on a bus that withholds channel 31 if `withhold` is true. It is no node of a
    /// bus until a bus reset.
    pub fn new(kind: u8, device: u8, rate: u8, withhold: bool) -> Node
        requires kind { kind ≤ 3 }
        requires device { device ≤ 62 }
        requires rate { rate ≤ 2 }
        ensures kind { code_of result.kind ≡ kind }
        ensures state { result ≡ first_state result.kind device rate withhold }
    {
        Node::of_kind(DeviceKind::with_code(kind), device, rate, withhold)
    }

    /// What `new` makes, of a kind that is known.
    pub fn of_kind(kind: DeviceKind, device: u8, rate: u8, withhold: bool) -> Node
        requires device { device ≤ 62 }
        requires rate { rate ≤ 2 }
        ensures { result ≡ first_state kind device rate withhold }
    {
        Node {
            kind,
            device,
            withhold,
            number: None,
            plugs: Plugs::new(kind.output_plugs(), kind.input_plugs(), rate),
            manager: None,
            unit: unit_of(kind),
            waiting: Waiting::new(),
        }
    }

    /// A bus reset, at which the node gets its number, and if `manager` is true becomes the isochronous resource
    /// manager with registers at their initial values; channel 31 is not free then if the bus withholds it.
    pub fn reset(&mut self, number: u8, manager: bool)
        requires { number ≤ 62 }
        ensures { self.new ≡ after_reset number manager self.old }
    {
        self.number = Some(number);
        self.plugs.reset();
        if manager {
            self.manager = Some(Manager::new(self.withhold));
        } else if self.manager.is_some() {
            self.manager = None;
        }
        self.waiting.clear();
        if let Some(unit) = &mut self.unit {
            unit.reset();
        }
    }

    /// The second after a bus reset is over: no plug lingers. No register changes.
    pub fn second_over(&mut self)
        ensures { self.new ≡ after_second self.old }
    {
        self.plugs.second_over();
    }

    /// The device's kind.
    pub fn kind(&self) -> DeviceKind
        ensures { result ≡ self.now.kind }
    {
        self.kind
    }

    /// The node's number, 0 to 62, since the latest `reset`; None before the first.
    pub fn number(&self) -> Option<u8>
        ensures value { result ≡ self.now.number }
        ensures range { IfSome result (λ number. number ≤ 62) }
    {
        self.number
    }

    /// The plug registers that `answer` reads and swaps.
    pub fn plugs(&self) -> &Plugs
        ensures { result.now ≡ self.now.plugs }
    {
        &self.plugs
    }

    /// The channel on which the node's output plug talks: None exactly if it does not talk, or the node has none. A device has
    /// one output plug at most (own).
    pub fn talking_on(&self) -> Option<u8>
        ensures value { result ≡ talking_on self.now }
        ensures range { IfSome result (λ channel. channel < 64) }
    {
        if self.kind.output_plugs() == 0 || !self.plugs.talks(0) {
            return None;
        }
        Some(self.plugs.out_word(0).channel())
    }

    /// The manager's registers that `answer` reads and swaps. None exactly if the latest `reset` did not name this node
    /// the manager, or no `reset` came since `new`.
    pub fn manager(&self) -> Option<&Manager>
        ensures { option_map (λ m. m.now) result ≡ self.now.manager }
    {
        self.manager.as_ref()
    }
}

/// The unit of a device, if it has one.
fn unit_of(kind: DeviceKind) -> Option<Unit>
    ensures value { result ≡ first_unit kind }
    ensures variant { is_some result ≡ has_unit kind }
{
    if kind.has_unit() {
        Some(Unit::new(kind.output_plugs(), kind.input_plugs()))
    } else {
        None
    }
}
