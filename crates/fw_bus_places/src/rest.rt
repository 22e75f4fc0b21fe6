//! What only lines and bus resets change of a machine, beside its nodes and controllers.

ghost use Rattle.std.specs.Prelude.{◌≡◌, ◌≤◌, IfOk, IsFalse, IsTrue, take};
ghost use Rattle.fw_bus_places.specs.Places.{IsRestOf, with_rest};

use fw_bus_state::{Candidates, Machine, Streams};
use fw_cmp::Directory;
use fw_devices::{Frame, MOST_DEVICES};
use fw_kept_parts::{Part, mixed};
use std::alloc::{AllocError, Global};

/// All of a machine but its nodes, controllers, requests that are outstanding, half steps and reel.
#[derive(Drop)]
pub struct Rest {
    // What is large lies apart, so that a table of these moves little.
    pub(crate) frame: Box<Frame>,
    pub(crate) directory: Directory,
    pub(crate) cycle: u64,
    pub(crate) reclaiming: bool,
    pub(crate) resets: u32,
    pub(crate) written: u32,
    pub(crate) dead: [bool; MOST_DEVICES],
    pub(crate) streams: Streams,
    pub(crate) candidates: Candidates,
    pub(crate) tied: Option<u8>,
}

// Whether there is a number of one of the two; if not, they are the same.
fn are_used(node: Option<u8>, other: Option<u8>) -> bool
    ensures { IsFalse result → node ≡ other }
{
    node.is_some() | other.is_some()
}

// Whether there is no number from a device on. All are looked at, many at a time, without a test of each.
#[inline(never)]
fn none_used(
    nodes: &[Option<u8>; MOST_DEVICES],
    others: &[Option<u8>; MOST_DEVICES],
    from: usize,
) -> bool
    ensures { IsTrue result → take from nodes.now ≡ take from others.now → nodes.now ≡ others.now }
{
    let mut used = false;
    for device in from..MOST_DEVICES {
        used |= are_used(nodes[device], others[device]);
    }
    !used
}

// Numbers that are found the same are the same.
fn same_first(
    nodes: &[Option<u8>; MOST_DEVICES],
    others: &[Option<u8>; MOST_DEVICES],
    count: usize,
) -> bool
    requires { count ≤ 63 }
    ensures { IsTrue result → take count nodes.now ≡ take count others.now }
{
    for device in 0..count {
        if nodes[device] != others[device] {
            return false;
        }
    }
    true
}

// The same of all, of which only the first are mostly there.
fn same_nodes(
    nodes: &[Option<u8>; MOST_DEVICES],
    others: &[Option<u8>; MOST_DEVICES],
    count: usize,
) -> bool
    requires { count ≤ 63 }
    ensures { IsTrue result → nodes.now ≡ others.now }
{
    if none_used(nodes, others, count) {
        same_first(nodes, others, count)
    } else {
        same_first(nodes, others, MOST_DEVICES)
    }
}

fn same_directory(directory: &Directory, other: &Directory, count: usize) -> bool
    requires { count ≤ 63 }
    ensures { IsTrue result → directory.now ≡ other.now }
{
    if directory.over_at != other.over_at || directory.manager != other.manager {
        return false;
    }
    same_nodes(&directory.node, &other.node, count)
}

// Whether the two differ.
fn flag_differs(flag: bool, other: bool) -> bool
    ensures { IsFalse result → flag ≡ other }
{
    flag != other
}

#[inline(never)]
fn same_flags(flags: &[bool; MOST_DEVICES], others: &[bool; MOST_DEVICES]) -> bool
    ensures { IsTrue result → flags.now ≡ others.now }
{
    let mut differ = false;
    for device in 0..MOST_DEVICES {
        differ |= flag_differs(flags[device], others[device]);
    }
    !differ
}

impl Rest {
    // Whether these are those of a machine.
    fn has_counts(&self, m: &Machine) -> bool
        ensures cycle { IsTrue result → m.now.cycle ≡ self.now.cycle }
        ensures reclaiming { IsTrue result → m.now.reclaiming ≡ self.now.reclaiming }
        ensures resets { IsTrue result → m.now.resets ≡ self.now.resets }
        ensures written { IsTrue result → m.now.written ≡ self.now.written }
        ensures tied { IsTrue result → m.now.tied ≡ self.now.tied }
    {
        if self.cycle != m.cycle || self.reclaiming != m.reclaiming {
            return false;
        }
        if self.resets != m.resets || self.written != m.written {
            return false;
        }
        self.tied == m.tied
    }

    /// Streams that are found to be its own are.
    pub(crate) fn has_streams(&self, streams: &Streams) -> bool
        ensures { IsTrue result → streams.now ≡ self.now.streams }
    {
        streams.is_same(&self.streams)
    }

    // Gives a machine what it has of it, but for devices and controllers.
    pub(crate) fn lend(&self, m: &mut Machine)
        ensures { m.new ≡ with_rest self.now m.old }
    {
        m.directory = self.directory;
        m.cycle = self.cycle;
        m.reclaiming = self.reclaiming;
        m.resets = self.resets;
        m.written = self.written;
        m.streams = self.streams;
        m.candidates.copy_from(&self.candidates);
        m.tied = self.tied;
    }
}

impl Part for Rest {
    type Whole = Machine;

    ghost IsOf = { IsRestOf };

    fn of(alloc: Global, m: &Machine) -> Result<Rest, AllocError> {
        let mut candidates = Candidates::new(alloc)?;
        candidates.copy_from(&m.candidates);
        Ok(Rest {
            frame: Box::new(alloc, m.devices.frame(alloc)?)?,
            directory: m.directory,
            cycle: m.cycle,
            reclaiming: m.reclaiming,
            resets: m.resets,
            written: m.written,
            dead: m.controllers.flags(),
            streams: m.streams,
            candidates,
            tied: m.tied,
        })
    }

    fn is_of(&self, m: &Machine) -> bool {
        if !self.has_counts(m) {
            return false;
        }
        let count = usize::from(m.devices.count());
        if !same_directory(&m.directory, &self.directory, count) {
            return false;
        }
        if !m.candidates.is_same(&self.candidates) {
            return false;
        }
        if !m.streams.is_same(&self.streams) {
            return false;
        }
        if !same_flags(&m.controllers.flags(), &self.dead) {
            return false;
        }
        m.devices.has_frame(&*self.frame)
    }

    fn mark(m: &Machine) -> u64 {
        mixed(m.cycle, m.resets)
    }
}
