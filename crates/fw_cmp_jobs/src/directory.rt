ghost use Rattle.std.specs.Prelude.{◌≡◌, ◌<◌};
ghost use Rattle.fw_cmp_jobs.specs.Fits.{ConnectionFits};
ghost use Rattle.fw_cmp_jobs.specs.Nodes.{node_of};
ghost use Rattle.fw_cmp_jobs.specs.Requests.{addressee_of};
ghost use Rattle.fw_cmp_jobs.specs.Jobs.{without_node, absent_of};
ghost use Rattle.fw_cmp_jobs.specs.Fits.{PlugFit, TargetFits};

use crate::{Connection, Target};
use fw_terms::PlugAt;

/// What a controller knows of the bus.
#[derive(Clone, Copy)]
pub struct Directory {
    /// The node number of each device that is on the bus with its link.
    pub node: [Option<u8>; 63],
    /// The node number of the isochronous resource manager.
    pub manager: Option<u8>,
    /// The cycle from which on the reclaim second is over.
    pub over_at: u64,
}

impl Directory {
    /// The node number of a device; None if it is not on the bus with its link.
    pub fn node_of(&self, device: u8) -> Option<u8>
        requires { device < 63 }
        ensures { result ≡ node_of self.now device }
    {
        self.node[device as usize]
    }

    /// The node that carries out a request at a register; None if the directory has none.
    pub fn addressee(&self, target: Target) -> Option<u8>
        requires { TargetFits target }
        ensures { result ≡ addressee_of self.now target }
    {
        match target {
            Target::OutputPlug(p) | Target::InputPlug(p) => self.node_of(p.device),
            Target::Channels(_) | Target::BandwidthAvailable => self.manager,
        }
    }

    /// The plug's device, if it is not on the bus.
    fn without_node(&self, plug: Option<PlugAt>) -> Option<u8>
        requires { PlugFit plug }
        ensures { result ≡ without_node self.now plug }
    {
        let device = plug?.device;
        match self.node_of(device) {
            None => Some(device),
            Some(_) => None,
        }
    }

    /// The first of the output plug's and the input plug's device that is not on the bus.
    pub fn absent_of(&self, connection: Connection) -> Option<u8>
        requires { ConnectionFits connection }
        ensures { result ≡ absent_of self.now connection }
    {
        match self.without_node(connection.output()) {
            Some(device) => Some(device),
            None => self.without_node(connection.input()),
        }
    }
}
