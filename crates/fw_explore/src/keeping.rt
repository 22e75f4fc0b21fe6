//! Buses kept by the numbers of the parts of their machines.

ghost use Rattle.fw_explore.specs.Keeping.{IsKeptIn};

use crate::keeper::Keeper;
use fw_bus::Bus;
use fw_bus_places::Places;
use fw_kept_parts::Full;

impl Keeper for Places {
    ghost Kept = { IsKeptIn };

    fn keep(&mut self, bus: &Bus, near: &[u32], out: &mut Vec<u32>) -> Result<(), Full> {
        bus.stands();
        Places::keep(self, bus.machine(), near, out)
    }

    fn keep_half(
        &mut self,
        bus: &Bus,
        now: &[u32],
        device: u8,
        asks: bool,
        out: &mut Vec<u32>,
    ) -> Result<(), Full> {
        bus.stands();
        Places::keep_half(self, bus.machine(), now, device, asks, out)
    }

    fn take_back(&self, _now: &[u32], bus: &mut Bus) {
        bus.uncount();
    }

    fn give_back(&self, words: &[u32], bus: &mut Bus) {
        bus.give_back(self, words);
        bus.stands();
    }

    fn give_back_from(&self, now: &[u32], words: &[u32], bus: &mut Bus) {
        bus.give_back_from(self, now, words);
        bus.stands();
    }
}
