ghost use Rattle.std.specs.Prelude.{◌≡◌, ◌∷◌, []};
ghost use Rattle.fw_csr.specs.Replies.{reply};
ghost use Rattle.fw_csr.specs.Requests.{offset_of};
ghost use Rattle.fw_csr.specs.Manager.{initial_words, register_at, words_after};

use crate::offset::{
    BANDWIDTH_AVAILABLE, BUS_MANAGER_ID, CHANNELS_AVAILABLE_HI, CHANNELS_AVAILABLE_LO,
};
use crate::{RegisterAccess, RegisterRequest, Reply, Word};
use std::marker::Model;

/// BUS_MANAGER_ID while there is no bus manager (IEEE 1394-1995, 8.3.2.3.6).
pub const NO_BUS_MANAGER: u32 = 0x3F;
/// The bandwidth allocation units that a bus reset makes available.
const ALL_UNITS: u32 = 4915;
/// Each bit is 1: each of 32 channels is free.
const ALL_CHANNELS: u32 = 0xFFFF_FFFF;
/// The bit of channel 31 is 0, and each other 1.
const ALL_BUT_CHANNEL_31: u32 = 0xFFFF_FFFE;

/// The registers of the isochronous resource manager (IEEE 1394-1995, 8.3.2.3). On a bus that withholds channel 31, which
/// IEEE 1394a keeps for broadcast by default, the channel is not free at any bus reset.
#[derive(Clone, Copy, PartialEq, Eq)]
pub struct Manager {
    bus_manager_id: Word,
    bandwidth_available: Word,
    channels_available_hi: Word,
    channels_available_lo: Word,
    /// Whether the bus withholds channel 31.
    withhold: bool,
}

impl Model for Manager {
    ghost use Rattle.fw_csr.specs.Manager.{ManagerWords};

    ghost Value = { ManagerWords };

    ghost view = { λ m. record {
      bus_manager_id = m.bus_manager_id;
      bandwidth_available = m.bandwidth_available;
      channels_available_hi = m.channels_available_hi;
      channels_available_lo = m.channels_available_lo;
      withheld = m.withhold;
    } };

    ghost inverse = { λ w. record {
      bus_manager_id = w.bus_manager_id;
      bandwidth_available = w.bandwidth_available;
      channels_available_hi = w.channels_available_hi;
      channels_available_lo = w.channels_available_lo;
      withhold = w.withheld;
    } };
}

impl Manager {
    /// The registers with their initial values, on a bus that withholds channel 31 if `withhold` is true.
    pub fn new(withhold: bool) -> Manager
        ensures { result ≡ initial_words withhold }
    {
        let high = if withhold {
            ALL_BUT_CHANNEL_31
        } else {
            ALL_CHANNELS
        };
        Manager {
            bus_manager_id: Word::new(NO_BUS_MANAGER),
            bandwidth_available: Word::new(ALL_UNITS),
            channels_available_hi: Word::new(high),
            channels_available_lo: Word::new(ALL_CHANNELS),
            withhold,
        }
    }

    /// A bus reset: each register takes its initial value, by whether the bus withholds channel 31.
    pub fn reset(&mut self)
        ensures { self.new ≡ initial_words self.old.withheld }
    {
        *self = Manager::new(self.withhold);
    }

    /// Carries a request out: address_error if it is at none of the four registers, type_error if it is no
    /// quadlet read and no quadlet compare_swap, else complete.
    pub fn answer<R: RegisterRequest>(&mut self, r: &R) -> Reply
        ensures reply { result ≡ reply (register_at self.old (offset_of (R.request r.now))) (R.request r.now) }
        ensures words { self.new ≡ words_after self.old (R.request r.now) }
    {
        match r.offset() {
            BUS_MANAGER_ID => self.bus_manager_id.answer(r),
            BANDWIDTH_AVAILABLE => self.bandwidth_available.answer(r),
            CHANNELS_AVAILABLE_HI => self.channels_available_hi.answer(r),
            CHANNELS_AVAILABLE_LO => self.channels_available_lo.answer(r),
            _ => Reply::address_error(),
        }
    }

    /// The register at an offset, if it is one of the four.
    pub fn register(&self, offset: u64) -> Option<RegisterAccess>
        ensures { result ≡ register_at self.now offset }
    {
        let word = match offset {
            BUS_MANAGER_ID => self.bus_manager_id,
            BANDWIDTH_AVAILABLE => self.bandwidth_available,
            CHANNELS_AVAILABLE_HI => self.channels_available_hi,
            CHANNELS_AVAILABLE_LO => self.channels_available_lo,
            _ => return None,
        };
        Some(RegisterAccess::ReadSwap(word.get()))
    }

    /// BUS_MANAGER_ID, BANDWIDTH_AVAILABLE, CHANNELS_AVAILABLE_HI and CHANNELS_AVAILABLE_LO.
    pub fn registers(&self) -> [u32; 4]
        ensures { result ≡ self.now.bus_manager_id ∷ self.now.bandwidth_available ∷ self.now.channels_available_hi ∷ self.now.channels_available_lo ∷ [] }
    {
        [
            self.bus_manager_id.get(),
            self.bandwidth_available.get(),
            self.channels_available_hi.get(),
            self.channels_available_lo.get(),
        ]
    }
}
