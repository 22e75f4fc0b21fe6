//! Parts of a machine as values: copies of them, and whether two are the same.

ghost use Rattle.std.specs.Prelude.{◌≡◌, ◌<◌, ◌≤◌, IsTrue, length, replicate, slice_set, vec_capacity, false};
ghost use Rattle.fw_devices.specs.Frames.{AreWithin};
ghost use Rattle.fw_bus_state.specs.Copies.{controllers_at};
ghost use Rattle.fw_bus_state.specs.Tables.{count_of};

use crate::candidates::Candidates;
use crate::controllers::{Controllers, PLACES};
use crate::streams::Streams;
use fw_cmp::Controller;
use fw_devices::MOST_DEVICES;
use fw_manager::Candidate;

// Two that are found the same are the same.
fn same_candidate(candidate: Option<Candidate>, other: Option<Candidate>) -> bool
    ensures { IsTrue result → candidate ≡ other }
{
    candidate == other
}

fn same_counts(counts: &[u8], others: &[u8]) -> bool
    ensures { IsTrue result → counts.now ≡ others.now }
{
    counts == others
}

impl Candidates {
    /// Become a copy of others.
    pub fn copy_from(&mut self, other: &Candidates)
        ensures { self.new ≡ other.now }
    {
        self.list.clear();
        for candidate in &other.list {
            self.list.push(*candidate).unwrap();
        }
        self.begun = other.begun;
    }

    /// Those that are found the same are the same.
    pub fn is_same(&self, other: &Candidates) -> bool
        ensures { IsTrue result → self.now ≡ other.now }
    {
        if self.begun != other.begun || self.list.len() != other.list.len() {
            return false;
        }
        for n in 0..self.list.len() {
            if !same_candidate(self.list[n], other.list[n]) {
                return false;
            }
        }
        true
    }
}

impl Streams {
    /// Those that are found the same are the same.
    pub fn is_same(&self, other: &Streams) -> bool
        ensures { IsTrue result → self.now ≡ other.now }
    {
        same_counts(&self.counts, &other.counts)
    }
}

// Becomes copies of the controllers that are kept under these numbers.
fn copy_controllers(list: &mut Vec<Controller>, kept: &[Controller], numbers: &[u32])
    requires room { 63 ≤ vec_capacity list.old }
    requires few { length numbers.now ≤ 63 }
    requires within { AreWithin numbers.now (length kept.now) }
    ensures controllers { list.new.items ≡ controllers_at kept.now numbers.now }
    ensures room { 63 ≤ vec_capacity list.new }
{
    list.clear();
    for number in numbers.iter() {
        let mut controller = Controller::new();
        controller.copy_from(&kept[*number as usize]);
        list.push(controller).unwrap();
    }
}

// No place is marked.
fn none_marked() -> [bool; PLACES]
    ensures { result ≡ replicate 256 false }
{
    [false; PLACES]
}

impl Controllers {
    /// The controller of each device, by number.
    pub fn list(&self) -> &[Controller]
        ensures list { result.now ≡ self.now.list }
        ensures few { length self.now.list ≤ 63 }
    {
        self.list.as_slice()
    }

    /// Which of them died, by number.
    pub fn flags(&self) -> [bool; MOST_DEVICES]
        ensures { result ≡ self.now.flags }
    {
        self.dead
    }

    /// These of them have died, by number, and no others.
    pub fn set_flags(&mut self, dead: [bool; MOST_DEVICES])
        ensures { self.new ≡ record self.old { flags = dead } }
    {
        self.dead = dead;
    }

    /// Become those that are kept under these numbers. What was marked to save work is forgotten.
    pub fn give_back(&mut self, kept: &[Controller], numbers: &[u32], dead: [bool; MOST_DEVICES])
        requires few { length numbers.now ≤ 63 }
        requires within { AreWithin numbers.now (length kept.now) }
        ensures { self.new ≡ record { list = controllers_at kept.now numbers.now; flags = dead } }
    {
        copy_controllers(&mut self.list, kept, numbers);
        self.dead = dead;
        let marks = none_marked();
        self.calm = marks;
        self.fresh = marks;
        self.deaf = true;
    }

    // The controller of a device becomes a copy of another. What was marked of it is forgotten.
    fn put(&mut self, device: usize, controller: &Controller)
        requires { device < count_of self.old }
        ensures { self.new ≡ record self.old { list = slice_set self.old.list device controller.now } }
    {
        self.list[device].copy_from(controller);
        self.calm[device] = false;
        self.fresh[device] = false;
        self.deaf = true;
    }

    /// They are those that are kept under `now`, and become those under `numbers`: if there are as many, only those whose numbers differ
    /// are copied. The same stay dead.
    pub fn change(&mut self, kept: &[Controller], now: &[u32], numbers: &[u32])
        requires now { self.old.list ≡ controllers_at kept.now now.now }
        requires few { length numbers.now ≤ 63 }
        requires within { AreWithin numbers.now (length kept.now) }
        ensures { self.new ≡ record self.old { list = controllers_at kept.now numbers.now } }
    {
        if now.len() != numbers.len() {
            self.give_back(kept, numbers, self.dead);
            return;
        }
        for n in 0..numbers.len() {
            if now[n] != numbers[n] {
                self.put(n, &kept[numbers[n] as usize]);
            }
        }
    }
}
