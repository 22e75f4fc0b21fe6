//! What a bus reset and the end of the reclaim second make of the controllers, and what a death and a start make of one.

ghost use Rattle.std.specs.Prelude.{◌≡◌, ◌<◌, ◌≤◌, true, false, length, map};
ghost use Rattle.fw_terms.specs.Tables.{update};
ghost use Rattle.fw_cmp.specs.Losses.{first_listening, after_bus_reset, after_end};
ghost use Rattle.fw_bus_state.specs.Tables.{AreFresh, IsTable, count_of, dead_of, states_of};

use crate::Controllers;
use crate::controllers::PLACES;
use fw_cmp::Controller;

impl Controllers {
    /// A bus reset that begins this epoch, for each controller.
    pub fn reset(&mut self, epoch: u32)
        ensures { IsTable self.new (count_of self.old) (λ d. after_bus_reset epoch (states_of self.old d)) (dead_of self.old) }
    {
        reset_each(&mut self.list, &self.fresh, epoch);
        self.deaf = false;
        self.calm = self.fresh;
    }

    /// The reclaim second is over, for each controller.
    pub fn second_over(&mut self)
        ensures { IsTable self.new (count_of self.old) (λ d. after_end (states_of self.old d)) (dead_of self.old) }
    {
        end_second(&mut self.list, &self.fresh);
        self.calm = self.fresh;
    }

    /// The controller of a device dies: it forgets its slots and jobs.
    pub fn die(&mut self, device: u8)
        requires { device < count_of self.old }
        ensures { IsTable self.new (count_of self.old) (update (states_of self.old) device first_listening) (update (dead_of self.old) device true) }
    {
        self.list[usize::from(device)] = Controller::new();
        self.dead[usize::from(device)] = true;
        self.calm[usize::from(device)] = false;
        self.fresh[usize::from(device)] = false;
    }

    /// The controller of a device starts.
    pub fn start(&mut self, device: u8)
        requires { device < count_of self.old }
        ensures { IsTable self.new (count_of self.old) (update (states_of self.old) device first_listening) (update (dead_of self.old) device false) }
    {
        self.list[usize::from(device)] = Controller::new();
        self.dead[usize::from(device)] = false;
        self.calm[usize::from(device)] = false;
        self.fresh[usize::from(device)] = false;
    }
}

/// A bus reset that begins this epoch, for each of the controllers: a new one stays as it is.
fn reset_each(list: &mut [Controller], fresh: &[bool; PLACES], epoch: u32)
    requires few { length list.old ≤ 63 }
    requires fresh { AreFresh fresh.now list.old }
    ensures { list.new ≡ map (after_bus_reset epoch) list.old }
{
    for (device, controller) in list.iter_mut().enumerate() {
        if !fresh[device] {
            controller.reset(epoch);
        }
    }
}

/// The reclaim second is over, for each of the controllers: a new one stays as it is.
fn end_second(list: &mut [Controller], fresh: &[bool; PLACES])
    requires few { length list.old ≤ 63 }
    requires fresh { AreFresh fresh.now list.old }
    ensures { list.new ≡ map after_end list.old }
{
    for (device, controller) in list.iter_mut().enumerate() {
        if !fresh[device] {
            controller.second_over();
        }
    }
}
