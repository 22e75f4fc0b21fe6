//! Isochronous packets: whose they are, and what they show.

ghost use Rattle.std.specs.Prelude.{◌≡◌, true};
ghost use Rattle.fw_watch_known.specs.Heard.{is_free, other_sender, is_sender, channel_after, owners_of, is_usual, heard, after_heard};

use crate::channel::{Channel, Noted};
use crate::state::State;
use fw_watch_remarks::counted;

/// What an isochronous packet shows of its channel.
#[derive(Clone, Copy)]
pub struct Heard {
    /// The channel's sender, if the packet is another's.
    pub first: Option<u8>,
    /// The channel is free.
    pub free: bool,
    /// The nodes of the output plugs on the channel, a bit each, if the sender is none of them.
    pub owners: u64,
}

/// An isochronous packet, and when it came.
#[derive(Clone, Copy)]
pub struct Packet {
    /// Its cycle.
    pub cycle: u64,
    /// Its channel.
    pub channel: u8,
    /// SID, the node that sent it.
    pub sid: u8,
}

impl Channel {
    // The sender of the channel, if a packet of this node is another's.
    fn other_sender(&self, sid: u8) -> Option<u8>
        ensures { result ≡ other_sender sid self.now.sender }
    {
        match self.sender {
            Some(sender) if sender != sid => Some(sender),
            _ => None,
        }
    }

    // It is known to carry packets of this node.
    fn is_of(&self, sid: u8) -> bool
        ensures { result ≡ is_sender sid self.now.sender }
    {
        match self.sender {
            Some(sender) => sender == sid,
            None => false,
        }
    }

    // What is kept of it after a packet that showed this.
    #[tactic(auto, unfolding(crate::specs::Heard::channel_after))]
    fn after_packet(self, sid: u8, heard: &Heard) -> Channel
        ensures { result ≡ channel_after sid heard.now self }
    {
        Channel {
            due: None,
            sender: Some(match self.sender {
                Some(sender) => sender,
                None => sid,
            }),
            noted: Noted {
                two: self.noted.two || heard.first.is_some(),
                free: self.noted.free || heard.free,
                plug: self.noted.plug || heard.owners != 0,
            },
        }
    }
}

impl State {
    // The channel is known to be free, and no second runs in which it may be taken anew.
    #[tactic(auto, unfolding(crate::specs::Heard::is_free))]
    fn is_free(&self, channel: u8) -> bool
        ensures { result ≡ is_free self.now channel }
    {
        if self.second.since.is_some() || self.manager.is_absent() {
            return false;
        }
        if channel < 32 {
            self.managed.high.is_set(channel)
        } else if channel < 64 {
            self.managed.low.is_set(channel - 32)
        } else {
            false
        }
    }

    // The nodes of the output plugs on the channel, unless they were told, or the packet's node is the known sender or one of them. Of
    // the known sender they were looked for when it became that, and no plug has come to the channel or left it since.
    #[tactic(auto, unfolding(crate::specs::Heard::owners_of))]
    fn owners(&self, row: &Channel, channel: u8, sid: u8) -> u64
        ensures { result ≡ owners_of self.now row.now channel sid }
    {
        if row.noted.plug || row.is_of(sid) {
            0
        } else {
            self.plugs.others(channel, sid)
        }
    }

    /// What a packet shows that was not told.
    #[tactic(auto, unfolding(crate::specs::Heard::heard))]
    pub fn heard(&self, p: &Packet) -> Heard
        ensures { result ≡ heard self.now p.now }
    {
        let row = self.channels.at(p.channel);
        Heard {
            first: if row.noted.two {
                None
            } else {
                row.other_sender(p.sid)
            },
            free: !row.noted.free && self.is_free(p.channel),
            owners: self.owners(&row, p.channel, p.sid),
        }
    }

    /// A packet is of the known sender of its channel, and shows nothing that was not told.
    #[inline(always)]
    #[tactic(auto, unfolding(crate::specs::Heard::is_usual))]
    pub fn is_usual(&self, p: &Packet) -> bool
        ensures { result ≡ is_usual self.now p.now }
    {
        let row = self.channels.at(p.channel);
        row.is_of(p.sid) && row.due.is_none() && (row.noted.free || !self.is_free(p.channel))
    }

    /// Takes such a packet.
    #[inline(always)]
    pub fn hear_usual(&mut self, p: &Packet)
        requires { is_usual self.old p.now ≡ true }
        ensures { self.new ≡ after_heard self.old p.now }
    {
        self.counts.packets = counted(self.counts.packets);
    }

    /// Takes an isochronous packet that showed this.
    #[tactic(auto, unfolding(crate::specs::Heard::after_heard))]
    pub fn hear(&mut self, p: &Packet)
        ensures { self.new ≡ after_heard self.old p.now }
    {
        let row = self.channels.at(p.channel);
        let heard = self.heard(p);
        self.channels
            .set(p.channel, row.after_packet(p.sid, &heard));
        self.counts.packets = counted(self.counts.packets);
    }
}
