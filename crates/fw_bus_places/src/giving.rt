//! A machine becomes one that was kept.

ghost use Rattle.std.specs.Prelude.{◌≡◌, ◌<◌, ℕ, List, Option, length, slice_index_or};
ghost use Rattle.fw_async.specs.Letters.{HasLetters};
ghost use Rattle.fw_bus_state.specs.declared.machine.Machine.{Machine as MachineRecord};
ghost use Rattle.fw_bus_places.specs.Places.{IsPlace, IsAsGood};
ghost use Rattle.fw_bus_places.specs.declared.rest.Rest.{Rest as RestRecord};

use crate::numbers::told_apart;
use crate::places::Places;
use crate::rest::Rest;
use fw_async::Wire;
use fw_bus_state::Machine;
use fw_dub::Reel;

impl Places {
    // What is kept under a number of what only lines change.
    fn rest_at(&self, number: u32) -> &Rest
        requires { number < length self.now.rests }
        ensures { (d : RestRecord) → slice_index_or self.now.rests number d ≡ result.now }
    {
        &self.rests.as_slice()[number as usize]
    }

    // The blocks that are kept under a number are on a reel.
    fn wind(&self, number: u32, reel: &mut Reel)
        requires { number < length self.now.reels }
        ensures { (d : List (List ℕ)) → reel.new ≡ slice_index_or self.now.reels number d }
    {
        reel.copy_from(&self.reels.as_slice()[number as usize]);
    }

    // The requests that are kept under a number stand on a wire.
    fn lay(&self, number: u32, wire: &mut Wire)
        requires { number < length self.now.letters }
        ensures { (d : List (Option (List ℕ))) → HasLetters wire.new (slice_index_or self.now.letters number d) }
    {
        wire.set_letters(&self.letters.as_slice()[number as usize]);
    }

    // The blocks on a reel are those that are kept under a number, and become those under another.
    fn wind_from(&self, now: u32, number: u32, reel: &mut Reel)
        requires now { (d : List (List ℕ)) → reel.old ≡ slice_index_or self.now.reels now d }
        requires within { number < length self.now.reels }
        ensures { (d : List (List ℕ)) → reel.new ≡ slice_index_or self.now.reels number d }
    {
        if now != number {
            self.wind(number, reel);
        }
    }

    // The requests on a wire are those that are kept under a number, and become those under another.
    fn lay_from(&self, now: u32, number: u32, wire: &mut Wire)
        requires now { (d : List (Option (List ℕ))) → HasLetters wire.old (slice_index_or self.now.letters now d) }
        requires within { number < length self.now.letters }
        ensures { (d : List (Option (List ℕ))) → HasLetters wire.new (slice_index_or self.now.letters number d) }
    {
        if now != number {
            self.lay(number, wire);
        }
    }

    /// A machine becomes one that was kept under these numbers, but for the order of the outstanding requests: it stands for every state
    /// for which that one stood.
    pub fn give_back(&self, words: &[u32], m: &mut Machine)
        requires { (n : MachineRecord) × IsPlace self.now words.now n }
        ensures same { (n : MachineRecord) → IsPlace self.now words.now n → IsAsGood m.new n }
        ensures place { IsPlace self.now words.now m.new }
    {
        let numbers = told_apart(words);
        let rest = self.rest_at(numbers.rest);
        m.devices
            .give_back(&*rest.frame, self.nodes.as_slice(), numbers.nodes);
        m.controllers.give_back(self.controllers.as_slice(), numbers.controllers, rest.dead);
        rest.lend(m);
        self.wind(numbers.reel, &mut m.reel);
        self.lay(numbers.wire, &mut m.wire);
        self.lay(numbers.bids, &mut m.bids);
        m.half_steps = numbers.half_steps;
    }

    // The same as `give_back_from`, to where more than nodes and controllers differs: names and cables mostly do not.
    fn change_rest(&self, now: &[u32], words: &[u32], m: &mut Machine)
        requires stands { IsPlace self.now now.now m.old }
        requires kept { (n : MachineRecord) × IsPlace self.now words.now n }
        ensures same { (n : MachineRecord) → IsPlace self.now words.now n → IsAsGood m.new n }
        ensures place { IsPlace self.now words.now m.new }
    {
        let from = told_apart(now);
        let numbers = told_apart(words);
        let rest = self.rest_at(numbers.rest);
        m.devices.change_frame(
            &*rest.frame,
            self.nodes.as_slice(),
            from.nodes,
            numbers.nodes,
        );
        m.controllers.change(
            self.controllers.as_slice(),
            from.controllers,
            numbers.controllers,
        );
        m.controllers.set_flags(rest.dead);
        rest.lend(m);
        self.wind_from(from.reel, numbers.reel, &mut m.reel);
        self.lay_from(from.wire, numbers.wire, &mut m.wire);
        self.lay_from(from.bids, numbers.bids, &mut m.bids);
        m.half_steps = numbers.half_steps;
    }

    /// The same of a machine that is the one that was kept under `now`: only parts whose numbers differ are copied.
    pub fn give_back_from(&self, now: &[u32], words: &[u32], m: &mut Machine)
        requires stands { IsPlace self.now now.now m.old }
        requires kept { (n : MachineRecord) × IsPlace self.now words.now n }
        ensures same { (n : MachineRecord) → IsPlace self.now words.now n → IsAsGood m.new n }
        ensures place { IsPlace self.now words.now m.new }
    {
        let from = told_apart(now);
        let numbers = told_apart(words);
        if from.rest != numbers.rest {
            self.change_rest(now, words, m);
            return;
        }
        m.devices
            .change(self.nodes.as_slice(), from.nodes, numbers.nodes);
        m.controllers.change(
            self.controllers.as_slice(),
            from.controllers,
            numbers.controllers,
        );
        self.wind_from(from.reel, numbers.reel, &mut m.reel);
        self.lay_from(from.wire, numbers.wire, &mut m.wire);
        self.lay_from(from.bids, numbers.bids, &mut m.bids);
        m.half_steps = numbers.half_steps;
    }
}
