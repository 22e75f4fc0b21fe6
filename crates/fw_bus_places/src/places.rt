//! Machines by the numbers of their parts.

ghost use Rattle.std.specs.Prelude.{◌≡◌, [], IfOk, OnOk};
ghost use Rattle.fw_bus_places.specs.Places.{IsPlace, IsWider};

use crate::guesses::{FEW_GUESSES, Guesses, MANY_GUESSES, keep_all_guessed};
use crate::numbers::{PREFIX, number_at, numbers_from};
use crate::rest::Rest;
use fw_async::Letters;
use fw_bus_state::Machine;
use fw_cmp::Controller;
use fw_dub::Reel;
use fw_kept_parts::{Full, Table};
use fw_node::Node;
use std::alloc::{AllocError, Global};

/// The parts of machines, each once.
#[derive(Drop)]
pub struct Places {
    pub(crate) rests: Table<Rest>,
    pub(crate) reels: Table<Reel>,
    pub(crate) letters: Table<Letters>,
    pub(crate) nodes: Table<Node>,
    pub(crate) controllers: Table<Controller>,
    // What half steps led to last: which controllers, and which requests that are outstanding.
    pub(crate) turns: Guesses,
    pub(crate) requests: Guesses,
    // What all else led to last: which nodes and which controllers.
    pub(crate) next_nodes: Guesses,
    pub(crate) next_controllers: Guesses,
}

impl Places {
    /// No parts.
    pub fn new(alloc: Global) -> Result<Places, AllocError>
        ensures { IfOk result (λ p. p ≡ record { rests = []; reels = []; letters = []; nodes = []; controllers = []; turns = tt; requests = tt; next_nodes = tt; next_controllers = tt }) }
    {
        Ok(Places {
            rests: Table::new(alloc)?,
            reels: Table::new(alloc)?,
            letters: Table::new(alloc)?,
            nodes: Table::new(alloc)?,
            controllers: Table::new(alloc)?,
            turns: Guesses::new(alloc, FEW_GUESSES)?,
            requests: Guesses::new(alloc, MANY_GUESSES)?,
            next_nodes: Guesses::new(alloc, FEW_GUESSES)?,
            next_controllers: Guesses::new(alloc, FEW_GUESSES)?,
        })
    }

    /// Keeps the parts of a machine. Their numbers come in place of what `out` has: those of what only lines change, of the reel, of the
    /// requests that are outstanding and of those of candidates, then how many half steps were given, how many nodes there are, and the
    /// numbers of each node and of each controller. `near` are those of a machine that is mostly the same, or none.
    pub fn keep(&mut self, m: &Machine, near: &[u32], out: &mut Vec<u32>) -> Result<(), Full>
        ensures place { OnOk result (IsPlace self.new out.new.items m.now) }
        ensures wider { OnOk result (IsWider self.old self.new) }
    {
        let rest = self.rests.keep(number_at(near, 0), m)?;
        let reel = self.reels.keep(number_at(near, 1), &m.reel)?;
        // A bus reset leaves no request outstanding, and candidates mostly have none: then the two are kept under one number.
        let wire = self.letters.keep(number_at(near, 3), &m.wire)?;
        let bids = self.letters.keep(number_at(near, 3), &m.bids)?;
        let count = m.devices.count();
        out.clear();
        out.extend_from_slice(&[rest, reel, wire, bids, m.half_steps, u32::from(count)])?;
        let later = PREFIX + usize::from(count);
        keep_all_guessed(
            &mut self.nodes,
            &mut self.next_nodes,
            numbers_from(near, PREFIX),
            m.devices.nodes(),
            out,
        )?;
        keep_all_guessed(
            &mut self.controllers,
            &mut self.next_controllers,
            numbers_from(near, later),
            m.controllers.list(),
            out,
        )?;
        Ok(())
    }
}
