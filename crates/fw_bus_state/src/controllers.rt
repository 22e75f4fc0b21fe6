//! The controllers of the declared devices.

ghost use Rattle.std.specs.Prelude.{◌≡◌, ◌⊎◌, ◌<◌, ◌≤◌, ◌+◌, ◌^◌, IfNone, IfOk, IfSome, IsTrue, IsFalse, ℕ, None, true, false, replicate, slice_set};
ghost use Rattle.fw_terms.specs.Tables.{update};
ghost use Rattle.fw_cmp.specs.Causes.{IsAtRest};
ghost use Rattle.fw_cmp_jobs.specs.Fits.{SlotFits};
ghost use Rattle.fw_cmp.specs.Holdings.{CanGoOn};
ghost use Rattle.fw_cmp.specs.Losses.{ListeningFits, first_listening, Awaits, MayTurn, turn_of, after_turn, after_answer, after_loss, with_state};
ghost use Rattle.fw_cmp_jobs.specs.Nodes.{HasNodeNumbers};
ghost use Rattle.fw_cmp.specs.Starts.{break_fault, break_started, started};
ghost use Rattle.fw_cmp.specs.Turns.{addressee_in};
ghost use Rattle.fw_model_run.specs.Afterwards.{slot_of, start_of};
ghost use Rattle.fw_bus_state.specs.Tables.{IsTable, count_of, dead_of, states_of};

use fw_cmp::{Controller, Directory, Next, Slot, StartFault};
use fw_csr::{QuadletAccess, Reply};
use fw_devices::MOST_DEVICES;
use fw_order::Wanted;
use std::alloc::{AllocError, Global};
use std::marker::Model;

/// How many numbers a `u8` may be, so that a look at a place needs no test.
pub(crate) const PLACES: usize = 256;

/// The controller of each declared device, by number. Contracts see one for each other number too, which has just started.
#[derive(Drop)]
pub struct Controllers {
    pub(crate) list: Vec<Controller>,
    /// The controller died, and was not started again.
    pub(crate) dead: [bool; MOST_DEVICES],
    /// The controller has nothing to do: it was found to have nothing, or is new, and nothing has happened to it since.
    pub(crate) calm: [bool; PLACES],
    /// The controller is as a new one: nothing has happened to it at all, and nothing happens to it at a bus reset.
    pub(crate) fresh: [bool; PLACES],
    /// A response was lost since the latest bus reset: if none was, no controller is deaf.
    pub(crate) deaf: bool,
}

impl Model for Controllers {
    ghost use Rattle.std.specs.Prelude.{vec_capacity};
    ghost use Rattle.fw_bus_state.specs.Tables.{AreCalm, AreFresh, AreHearing, ControllerTable, IsRoomy};

    ghost Value = { ControllerTable };

    ghost view = { λ c. record { list = c.list.items; flags = c.dead } };

    ghost invariant = { λ c. IsRoomy (record { list = c.list.items; flags = c.dead }) (vec_capacity c.list) × AreCalm c.calm c.list.items × AreFresh c.fresh c.list.items × AreHearing c.deaf c.list.items };
}

impl Controllers {
    /// No controllers. The memory for 63 is taken here, and no later call takes any.
    pub fn new(alloc: Global) -> Result<Controllers, AllocError>
        ensures { IfOk result (λ c. IsTable c 0 (λ d. first_listening) (λ d. false)) }
    {
        Ok(Controllers {
            list: Vec::with_capacity(alloc, MOST_DEVICES)?,
            dead: [false; MOST_DEVICES],
            calm: all_marked(),
            fresh: all_marked(),
            deaf: false,
        })
    }

    /// One device more.
    pub fn add(&mut self)
        requires { count_of self.old < 63 }
        ensures { IsTable self.new (count_of self.old + 1) (states_of self.old) (dead_of self.old) }
    {
        self.list.push(Controller::new()).unwrap();
    }

    /// The controller of a device.
    pub fn get(&self, device: u8) -> &Controller
        requires { device < count_of self.now }
        ensures { result.now ≡ states_of self.now device }
    {
        &self.list[usize::from(device)]
    }

    /// Whether the controller of a device died, and was not started again.
    pub fn is_dead(&self, device: u8) -> bool
        ensures { result ≡ dead_of self.now device }
    {
        match self.dead.get(usize::from(device)) {
            Some(dead) => *dead,
            None => false,
        }
    }

    /// Whether the controller of a device is known to have nothing to do.
    pub fn is_calm(&self, device: u8) -> bool
        ensures { IsTrue result → IsAtRest (states_of self.now device).state }
    {
        match self.calm.get(usize::from(device)) {
            Some(calm) => *calm,
            None => false,
        }
    }

    /// Whether the controller of some device may have lost a response.
    pub fn has_deaf(&self) -> bool
        ensures { IsFalse result → (d : ℕ) → IsFalse (states_of self.now d).lost }
    {
        self.deaf
    }

    /// What the controller of a device does next (`Controller::next`).
    #[inline(always)]
    pub fn next(&mut self, device: u8, now: u64, directory: &Directory) -> Next
        requires device { device < count_of self.old }
        requires heard { MayTurn (states_of self.old device) }
        requires now { now ≤ 2 ^ 52 }
        requires nodes { HasNodeNumbers directory.now }
        requires reached { IsFalse (states_of self.old device).lost → CanGoOn directory.now (states_of self.old device).state }
        ensures answer { result ≡ turn_of now directory.now (states_of self.old device) }
        ensures state { IsTable self.new (count_of self.old) (update (states_of self.old) device (after_turn now directory.now (states_of self.old device))) (dead_of self.old) }
        ensures list { self.new ≡ record self.old { list = slice_set self.old.list device (after_turn now directory.now (states_of self.old device)) } }
        ensures addressee { IfSome (addressee_in result) (λ to. to < 63) }
    {
        let controller = &mut self.list[usize::from(device)];
        let next = controller.next(now, directory);
        self.calm[usize::from(device)] = is_at_rest(controller, &next, now, directory);
        self.fresh[usize::from(device)] = false;
        next
    }

    /// The request that the controller of a device makes next, and the number of the node that it goes to, if it is found at once
    /// (`Controller::ask`).
    #[inline(always)]
    pub fn ask(
        &mut self,
        device: u8,
        now: u64,
        directory: &Directory,
    ) -> Option<(u8, QuadletAccess)>
        requires device { device < count_of self.old }
        requires heard { MayTurn (states_of self.old device) }
        requires now { now ≤ 2 ^ 52 }
        requires nodes { HasNodeNumbers directory.now }
        requires reached { IsFalse (states_of self.old device).lost → CanGoOn directory.now (states_of self.old device).state }
        ensures sends { IfSome result (λ asked. turn_of now directory.now (states_of self.old device) ≡ Next.Send asked.0 asked.1) }
        ensures state { IfSome result (λ asked. IsTable self.new (count_of self.old) (update (states_of self.old) device (after_turn now directory.now (states_of self.old device))) (dead_of self.old)) }
        ensures list { IfSome result (λ asked. self.new ≡ record self.old { list = slice_set self.old.list device (after_turn now directory.now (states_of self.old device)) }) }
        ensures none { IfNone result (self.new ≡ self.old) }
        ensures addressee { IfSome result (λ asked. asked.0 < 63) }
    {
        self.list[usize::from(device)].ask(now, directory)
    }

    /// The controller of a device hears the reply to the outstanding request (`Controller::hear`).
    #[inline(always)]
    pub fn hear(&mut self, device: u8, reply: &Reply)
        requires device { device < count_of self.old }
        requires stands { Awaits (states_of self.old device) }
        ensures state { IsTable self.new (count_of self.old) (update (states_of self.old) device (after_answer (states_of self.old device) reply.now)) (dead_of self.old) }
        ensures list { self.new ≡ record self.old { list = slice_set self.old.list device (after_answer (states_of self.old device) reply.now) } }
    {
        self.list[usize::from(device)].hear(reply);
    }

    /// The response to the outstanding request is lost (`Controller::lose`).
    pub fn lose(&mut self, device: u8)
        requires device { device < count_of self.old }
        requires stands { Awaits (states_of self.old device) }
        ensures { IsTable self.new (count_of self.old) (update (states_of self.old) device (after_loss (states_of self.old device))) (dead_of self.old) }
    {
        self.list[usize::from(device)].lose();
        self.deaf = true;
        self.calm[usize::from(device)] = false;
        self.fresh[usize::from(device)] = false;
    }

    /// The slot that a connection of a device's controller would take, or why it would be refused.
    pub fn check(&self, device: u8, wanted: &Wanted) -> Result<u8, StartFault>
        requires { device < count_of self.now }
        ensures { result ≡ start_of device wanted.now (states_of self.now device).state }
    {
        let is_own = match wanted {
            Wanted::PlugToPlug(..) => true,
            Wanted::BroadcastOut(plug, _) | Wanted::BroadcastIn(plug) => plug.device == device,
        };
        if !is_own {
            return Err(StartFault::NotOwnPlug);
        }
        self.get(device).check_start()
    }

    /// A connection of a device's controller takes the slot that `check` found.
    pub fn connect(&mut self, device: u8, wanted: &Wanted, slot: u8)
        requires device { device < count_of self.old }
        requires held { SlotFits (slot_of wanted.now) }
        requires found { start_of device wanted.now (states_of self.old device).state ≡ Ok slot }
        ensures { IsTable self.new (count_of self.old) (update (states_of self.old) device (with_state (states_of self.old device) (started (Ok slot) (slot_of wanted.now) (states_of self.old device).state))) (dead_of self.old) }
    {
        self.list[usize::from(device)].place(slot, slot_of(wanted));
        self.calm[usize::from(device)] = false;
        self.fresh[usize::from(device)] = false;
    }

    /// The controller of a device is asked for a break that it does not refuse.
    pub fn break_connection(&mut self, device: u8, slot: u8)
        requires device { device < count_of self.old }
        requires accepted { break_fault (states_of self.old device).state slot ≡ None }
        ensures { IsTable self.new (count_of self.old) (update (states_of self.old) device (with_state (states_of self.old device) (break_started (states_of self.old device).state slot))) (dead_of self.old) }
    {
        self.list[usize::from(device)].place_break(slot);
        self.calm[usize::from(device)] = false;
        self.fresh[usize::from(device)] = false;
    }
}

/// What a slot holds for a connection that is asked for.
fn slot_of(wanted: &Wanted) -> Slot
    ensures { result ≡ slot_of wanted.now }
{
    match *wanted {
        Wanted::PlugToPlug(output, input, channel, overhead) => {
            Slot::connect(output, input, channel, overhead)
        }
        Wanted::BroadcastOut(output, overhead) => Slot::broadcast(output, overhead),
        Wanted::BroadcastIn(input) => Slot::listen(input),
    }
}

/// Each place is marked.
fn all_marked() -> [bool; PLACES]
    ensures { result ≡ replicate 256 true }
{
    [true; PLACES]
}

/// Whether the controller is known to have nothing to do after this turn: it had nothing to do, or its job ended and no other is
/// there. In a reclaim second that is not known of one whose job ended.
fn is_at_rest(controller: &Controller, next: &Next, now: u64, directory: &Directory) -> bool
    requires { ListeningFits controller.now }
    ensures { IsTrue result → (next.now ≡ Next.Idle) ⊎ IsAtRest controller.now.state }
{
    match next {
        Next::Idle => true,
        Next::End { .. } => now >= directory.over_at && !controller.busy(now, directory),
        Next::Send { .. } | Next::Waiting { .. } | Next::Deaf { .. } | Next::Force => false,
    }
}
