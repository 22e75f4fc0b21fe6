//! What a controller is told and does, step by step.

ghost use Rattle.std.specs.Prelude.{◌<◌};
ghost use Rattle.fw_cmp.specs.Holdings.{CanGoOn};
ghost use Rattle.fw_cmp_jobs.specs.Nodes.{HasNodeNumbers};

use crate::controllers::orders::{Order, starts};
use fw_cmp::{Controller, Directory, Next, Outcome, StartFault};
use fw_csr::{REGISTER_SPACE, Reply};
use fw_words::Swap;
use std::process::Abort;

/// A request and the answer to it: the node, the offset in register space, and the word that the register shows; with a new
/// value the request is a swap of that word, which succeeds.
pub type Row = (u8, u16, u32, Option<u32>);

/// What comes to a controller, or what it does at cycle 8000.
#[derive(Clone, Copy)]
pub enum Step {
    /// It is told to make a connection, and answers this slot or fault.
    Starts(Order, Result<u8, StartFault>),
    /// It is told to break the connection in this slot, and answers so.
    Breaks(u8, Result<(), StartFault>),
    /// It sends each of these requests and hears the answer.
    Exchanges(&'static [Row]),
    /// It sends a read of this node at this offset of register space.
    Reads(u8, u16),
    /// It hears this response code and word.
    Hears(u8, u32),
    /// The response to its request is lost: until the second cycle it does nothing, from there on it forces a bus reset.
    Loses(u64),
    /// Its job of this slot ends so.
    Ends(u8, Outcome),
    /// It has nothing to do.
    Rests,
    /// It begins nothing before the second is over, at this cycle, at which it is busy.
    Waits(u64),
    /// A bus reset that begins epoch 3; its second is over at this cycle.
    Resets(u64),
    /// The second is over.
    SecondOver,
}

/// Devices 0 and 1 are nodes 0 and 1, and node 1 is the isochronous resource manager.
fn directory(over_at: u64) -> Directory
    ensures { HasNodeNumbers result }
{
    let mut node = [None; 63];
    node[0] = Some(0);
    node[1] = Some(1);
    Directory {
        node,
        manager: Some(1),
        over_at,
    }
}

fn breaks(c: &mut Controller, d: &Directory, slot: u8) -> Result<(), StartFault>
    requires { CanGoOn d.now c.old.state }
    ensures { CanGoOn d.now c.new.state }
{
    c.start_break(slot)
}

fn resets(c: &mut Controller, d: &Directory)
    ensures { CanGoOn d.now c.new.state }
{
    c.reset(3);
}

fn passes_second(c: &mut Controller, d: &Directory)
    requires { CanGoOn d.now c.old.state }
    ensures { CanGoOn d.now c.new.state }
{
    c.second_over();
}

/// What it does at cycle 8000, if no request of its own is outstanding.
fn does(rt: &impl Abort, c: &mut Controller, d: &Directory) -> Next
    requires nodes { HasNodeNumbers d.now }
    requires reached { CanGoOn d.now c.old.state }
    ensures { CanGoOn d.now c.new.state }
{
    assert!(rt; !c.has_request());
    c.next(8000, d)
}

/// It sends this: to a node, at an offset of register space, a swap or a read.
fn sends(
    rt: &impl Abort,
    c: &mut Controller,
    d: &Directory,
    to: u8,
    offset: u16,
    swap: Option<Swap>,
)
    requires nodes { HasNodeNumbers d.now }
    requires reached { CanGoOn d.now c.old.state }
    ensures { CanGoOn d.now c.new.state }
{
    match does(rt, c, d) {
        Next::Send { to: node, request } => {
            let sent = (node, request.parts());
            assert!(rt; sent == (to, (REGISTER_SPACE + u64::from(offset), swap)));
        }
        _ => panic!(rt; "no request at {offset:X}"),
    }
}

/// The answer to the outstanding request, if there is one.
fn hears_it(c: &mut Controller, d: &Directory, reply: &Reply)
    requires { CanGoOn d.now c.old.state }
    ensures { CanGoOn d.now c.new.state }
{
    if c.has_request() {
        c.hear(reply);
    }
}

fn hears(rt: &impl Abort, c: &mut Controller, d: &Directory, rcode: u8, value: u32)
    requires { CanGoOn d.now c.old.state }
    ensures { CanGoOn d.now c.new.state }
{
    assert!(rt; c.has_request());
    hears_it(c, d, &Reply { rcode, value });
}

/// The response to the outstanding request is lost, if there is one.
fn loses(c: &mut Controller, d: &Directory)
    requires { CanGoOn d.now c.old.state }
    ensures { CanGoOn d.now c.new.state }
{
    if c.has_request() {
        c.lose();
    }
}

/// What it does in a cycle, if no request of its own is outstanding.
fn turns(rt: &impl Abort, c: &mut Controller, d: &Directory, now: u64) -> Next
    requires nodes { HasNodeNumbers d.now }
    requires reached { CanGoOn d.now c.old.state }
    ensures { CanGoOn d.now c.new.state }
{
    assert!(rt; !c.has_request() && now < 1 << 52);
    c.next(now, d)
}

fn forces(rt: &impl Abort, c: &mut Controller, d: &Directory, from: u64)
    requires nodes { HasNodeNumbers d.now }
    requires reached { CanGoOn d.now c.old.state }
    ensures { CanGoOn d.now c.new.state }
{
    assert!(rt; c.has_request() && 0 < from);
    loses(c, d);
    assert!(rt; !c.has_request() && c.busy(8000, d));
    assert!(rt; matches!(turns(rt, c, d, from - 1), Next::Deaf { until } if until == from));
    assert!(rt; matches!(turns(rt, c, d, from), Next::Force));
}

fn exchanges(rt: &impl Abort, c: &mut Controller, d: &Directory, rows: &[Row])
    requires nodes { HasNodeNumbers d.now }
    requires reached { CanGoOn d.now c.old.state }
    ensures { CanGoOn d.now c.new.state }
{
    for &(to, offset, argument, new) in rows {
        let swap = new.map(|new| Swap { argument, new });
        sends(rt, c, d, to, offset, swap);
        hears(rt, c, d, 0, argument);
    }
}

fn ends(rt: &impl Abort, c: &mut Controller, d: &Directory, slot: u8, outcome: Outcome)
    requires nodes { HasNodeNumbers d.now }
    requires reached { CanGoOn d.now c.old.state }
    ensures { CanGoOn d.now c.new.state }
{
    match does(rt, c, d) {
        Next::End {
            slot: of,
            outcome: found,
        } => assert!(rt; (of, found) == (slot, outcome)),
        _ => panic!(rt; "the job of slot {slot} goes on"),
    }
}

fn waits(rt: &impl Abort, c: &mut Controller, d: &Directory, over_at: u64)
    requires nodes { HasNodeNumbers d.now }
    requires reached { CanGoOn d.now c.old.state }
    ensures { CanGoOn d.now c.new.state }
{
    assert!(rt; matches!(does(rt, c, d), Next::Waiting { until } if until == over_at));
    assert!(rt; !c.busy(8000, d) && c.busy(over_at, d));
}

/// The step is taken.
fn take(rt: &impl Abort, c: &mut Controller, d: &mut Directory, step: Step)
    requires nodes { HasNodeNumbers d.old }
    requires reached { CanGoOn d.old c.old.state }
    ensures nodes { HasNodeNumbers d.new }
    ensures reached { CanGoOn d.new c.new.state }
{
    match step {
        Step::Starts(order, answer) => assert!(rt; starts(rt, c, d, order) == answer),
        Step::Breaks(slot, answer) => assert!(rt; breaks(c, d, slot) == answer),
        Step::Exchanges(rows) => exchanges(rt, c, d, rows),
        Step::Reads(to, offset) => sends(rt, c, d, to, offset, None),
        Step::Hears(rcode, value) => hears(rt, c, d, rcode, value),
        Step::Loses(from) => forces(rt, c, d, from),
        Step::Ends(slot, outcome) => ends(rt, c, d, slot, outcome),
        Step::Rests => assert!(rt; matches!(does(rt, c, d), Next::Idle)),
        Step::Waits(over_at) => waits(rt, c, d, over_at),
        Step::Resets(over_at) => {
            *d = directory(over_at);
            resets(c, d);
        }
        Step::SecondOver => passes_second(c, d),
    }
}

/// A new controller takes these steps, on a bus whose second is over at cycle 8000.
pub fn takes(rt: &impl Abort, steps: &[Step]) {
    let mut d = directory(8000);
    let mut c = fresh(&d);
    for step in steps {
        take(rt, &mut c, &mut d, *step);
    }
}

/// A controller with free slots, which can go on at each bus.
fn fresh(d: &Directory) -> Controller
    ensures { CanGoOn d.now result.state }
{
    Controller::new()
}
