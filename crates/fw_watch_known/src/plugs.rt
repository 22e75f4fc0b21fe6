//! What is known of the plugs of all nodes.

ghost use Rattle.std.specs.Prelude.{◌≡◌, ◌<◌, ◌*◌, ◌+◌, IfOk, length, replicate, slice_set, slice_range};
ghost use Rattle.std.specs.List.{list_any};
ghost use Rattle.fw_watch_remarks.specs.Registers.{plug_index};
ghost use Rattle.fw_watch_remarks.specs.Knowing.{nothing_known, after_reset, is_on};
ghost use Rattle.fw_watch_known.specs.Channels.{plug_at, with_plug, is_used, has_output, node_bit, owners_to, others_on};

use crate::used::{none_used, one_fewer, one_more};
use fw_watch_remarks::{At, Known, WatchedRegister};
use std::alloc::{AllocError, Global};
use std::marker::Model;

/// How many plugs there may be: 62 at each of 63 nodes.
const PLUGS: usize = 3906;

/// What is known of the plugs of all nodes: of each node its 31 outputs and then its 31 inputs.
#[derive(Drop)]
pub struct Plugs {
    rows: Vec<Known>,
    // How many of them are known to be connected on each channel.
    used: [u16; 64],
    // Something was found of one since the latest bus reset, so they are not all as it left them.
    is_touched: bool,
}

impl Model for Plugs {
    ghost use Rattle.std.specs.Prelude.{List};
    ghost use Rattle.fw_watch_remarks.specs.declared.known.Known.{Known};

    ghost Value = { List Known };

    ghost use Rattle.fw_watch_known.specs.Used.{AreKeptPlugs};

    ghost view = { λ p. p.rows.items };

    ghost invariant = { λ p. AreKeptPlugs p.used p.is_touched p.rows.items };
}

// Where the plugs of all nodes have this one.
fn index(at: At) -> usize
    ensures { result ≡ plug_index at.node at.register }
{
    match at.register {
        WatchedRegister::Output(number) => usize::from(at.node) * 62 + usize::from(number),
        WatchedRegister::Input(number) => usize::from(at.node) * 62 + (31 + usize::from(number)),
        _ => 0,
    }
}

impl Plugs {
    /// Nothing is known of any.
    pub fn new(alloc: Global) -> Result<Plugs, AllocError>
        ensures { IfOk result (λ p. p ≡ replicate 3906 nothing_known) }
    {
        Ok(Plugs {
            rows: vec![in alloc; Known::nothing(); PLUGS]?,
            used: none_used(),
            is_touched: true,
        })
    }

    /// What is known of a plug.
    pub fn at(&self, at: At) -> Known
        ensures { result ≡ plug_at self.now at }
    {
        match self.rows.get(index(at)) {
            Some(known) => *known,
            None => Known::nothing(),
        }
    }

    /// What is known of a plug from now on.
    pub fn set(&mut self, at: At, known: Known)
        ensures { self.new ≡ with_plug self.old at known }
    {
        let place = index(at);
        if place < self.rows.len() {
            one_fewer(&mut self.used, self.rows[place].channel());
            one_more(&mut self.used, known.channel());
            self.rows[place] = known;
            self.is_touched = true;
        }
    }

    /// A bus reset: no plug has connections.
    pub fn reset(&mut self)
        ensures { self.new ≡ replicate (length self.old) after_reset }
    {
        if !self.is_touched {
            return;
        }
        for i in 0..self.rows.len() {
            self.rows[i] = Known::of_reset_plug();
        }
        self.used = none_used();
        self.is_touched = false;
    }

    /// A plug is known to be connected on this channel.
    pub fn is_used(&self, channel: u8) -> bool
        ensures { result ≡ is_used self.now channel }
    {
        if channel < 64 {
            self.used[usize::from(channel)] > 0
        } else {
            is_any_on(&self.rows, channel)
        }
    }

    // A node has an output plug that is known to be connected on this channel.
    #[tactic(auto, unfolding(crate::specs::Channels::has_output))]
    fn has_output(&self, channel: u8, node: u8) -> bool
        ensures { result ≡ has_output self.now channel node }
    {
        let first = usize::from(node) * 62;
        if first + 31 <= self.rows.len() {
            is_any_on(&self.rows[first..first + 31], channel)
        } else {
            false
        }
    }

    // The nodes that have such a plug, a bit each.
    fn owners(&self, channel: u8) -> u64
        ensures { result ≡ owners_to 63 self.now channel }
    {
        let mut owners = 0;
        for node in 0..63 {
            owners += node_bit(node, self.has_output(channel, node));
        }
        owners
    }

    /// The nodes that have such a plug, if there are any and this one is none of them.
    #[tactic(auto, unfolding(crate::specs::Channels::others_on))]
    pub fn others(&self, channel: u8, node: u8) -> u64
        ensures { result ≡ others_on self.now channel node }
    {
        if self.has_output(channel, node) {
            0
        } else {
            self.owners(channel)
        }
    }
}

// The bit of a node, if it has a plug.
fn node_bit(node: u8, has: bool) -> u64
    requires { node < 63 }
    ensures { result ≡ node_bit node has }
{
    if has { 1 << node } else { 0 }
}

// One of the plugs is known to be connected on this channel.
fn is_any_on(rows: &[Known], channel: u8) -> bool
    ensures { result ≡ list_any (is_on channel) rows.now }
{
    rows.iter().any(|known| known.is_on(channel))
}
