//! The connections that a controller is told to make.

ghost use Rattle.std.specs.Prelude.{◌<◌};
ghost use Rattle.fw_cmp_jobs.specs.Fits.{PlugFits};
ghost use Rattle.fw_cmp.specs.Holdings.{CanGoOn};

use fw_cmp::{Controller, Directory, StartFault};
use fw_terms::PlugAt;
use std::process::Abort;

/// The first plug of device 0, and of device 1.
pub const FIRST: PlugAt = PlugAt { device: 0, plug: 0 };

pub const SECOND: PlugAt = PlugAt { device: 1, plug: 0 };

/// A connection that a controller is to make.
#[derive(Clone, Copy)]
pub enum Order {
    /// Point-to-point, on the lowest free channel: the output, the input, and overhead_ID.
    Connect(PlugAt, PlugAt, u8),
    /// Broadcast-out at overhead_ID 0, by the controller of this device.
    Broadcast(u8, PlugAt),
    /// Broadcast-in, by the controller of this device.
    Listen(u8, PlugAt),
}

/// The plug, which is one.
fn plug(rt: &impl Abort, p: PlugAt) -> PlugAt
    ensures { PlugFits result }
{
    assert!(rt; p.device < 63 && p.plug < 31);
    p
}

/// Starts a point-to-point connection on the lowest free channel.
fn connects(
    c: &mut Controller,
    d: &Directory,
    out: PlugAt,
    into: PlugAt,
    overhead: u8,
) -> Result<u8, StartFault>
    requires out { PlugFits out }
    requires into { PlugFits into }
    requires overhead { overhead < 16 }
    requires reached { CanGoOn d.now c.old.state }
    ensures { CanGoOn d.now c.new.state }
{
    c.start_connect(out, into, None, overhead)
}

/// Starts a broadcast-out connection at overhead_ID 0.
fn broadcasts(c: &mut Controller, d: &Directory, own: u8, out: PlugAt) -> Result<u8, StartFault>
    requires out { PlugFits out }
    requires reached { CanGoOn d.now c.old.state }
    ensures { CanGoOn d.now c.new.state }
{
    c.start_broadcast(own, out, 0)
}

/// Starts a broadcast-in connection.
fn listens(c: &mut Controller, d: &Directory, own: u8, into: PlugAt) -> Result<u8, StartFault>
    requires into { PlugFits into }
    requires reached { CanGoOn d.now c.old.state }
    ensures { CanGoOn d.now c.new.state }
{
    c.start_listen(own, into)
}

/// Starts it, and answers the slot or the fault.
pub fn starts(
    rt: &impl Abort,
    c: &mut Controller,
    d: &Directory,
    order: Order,
) -> Result<u8, StartFault>
    requires { CanGoOn d.now c.old.state }
    ensures { CanGoOn d.now c.new.state }
{
    match order {
        Order::Connect(out, into, overhead) => {
            assert!(rt; overhead < 16);
            connects(c, d, plug(rt, out), plug(rt, into), overhead)
        }
        Order::Broadcast(own, out) => broadcasts(c, d, own, plug(rt, out)),
        Order::Listen(own, into) => listens(c, d, own, plug(rt, into)),
    }
}
