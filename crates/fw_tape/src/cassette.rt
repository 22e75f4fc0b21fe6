ghost use Rattle.std.specs.Prelude.{◌≡◌, ◌≤◌, ◌<◌, ◌+◌, ◌^◌, Some};
ghost use Rattle.fw_tape.specs.Systems.{frames_per_day};
ghost use Rattle.fw_tape.specs.Blocks.{block_in, due_among};
ghost use Rattle.fw_tape.specs.Motion.{frame_of, entered, inserted, passed_on, MayPass, IsInRange};

use crate::transport::Direction;
use crate::{TapeSystem, Transport};

/// A tape that is in, and its motion: where it stood when the transport entered its state, and how many cycles it has
/// moved since then.
#[derive(Clone, Copy, PartialEq, Eq)]
pub struct Cassette {
    /// The tape's number.
    pub tape: u16,
    pub system: TapeSystem,
    pub transport: Transport,
    /// The frame at which the transport entered its state.
    pub start: u32,
    /// The cycles since then, if the tape moves; 0 if it does not.
    pub passed: u64,
}

/// Which block of a tape: the tape's number, the frame, and the block's number in the frame.
#[derive(Clone, Copy)]
pub struct BlockPlace {
    pub tape: u16,
    pub frame: u32,
    pub block: u16,
}

impl Cassette {
    /// A tape that was just inserted: stopped at frame 0.
    pub(crate) fn new(tape: u16, system: TapeSystem) -> Cassette
        ensures { result ≡ inserted tape system }
    {
        Cassette {
            tape,
            system,
            transport: Transport::Stop,
            start: 0,
            passed: 0,
        }
    }

    /// The frame at which the tape stands.
    pub fn frame(&self) -> u32
        requires { IsInRange self.now }
        ensures value { result ≡ frame_of self.now }
        ensures range { result < frames_per_day self.now.system }
    {
        let day = u64::from(self.system.frames_per_day());
        let start = u64::from(self.start);
        let moved = self.system.blocks_due(self.passed) / self.system.blocks_per_frame();
        let frame = match self.transport.direction() {
            Some(Direction::Forward) => (start + moved) % day,
            Some(Direction::Backward) => (start + day - moved % day) % day,
            None => start,
        };
        frame as u32
    }

    /// The transport enters a state, from which a motion begins anew. In that state already, nothing changes.
    pub(crate) fn enter(&mut self, transport: Transport)
        requires { IsInRange self.old }
        ensures value { self.new ≡ entered transport self.old }
        ensures range { IsInRange self.new }
    {
        if self.transport.codes() == transport.codes() {
            return;
        }
        self.start = match transport {
            Transport::Rewind => 0,
            Transport::FastForward => self.system.frames_per_day() - 1,
            _ => self.frame(),
        };
        self.passed = 0;
        self.transport = transport;
    }

    /// So many cycles pass.
    pub(crate) fn pass(&mut self, cycles: u64)
        requires { MayPass cycles (Some self.old) }
        ensures value { self.new ≡ passed_on cycles self.old }
        ensures range { IsInRange self.old → IsInRange self.new }
    {
        if self.transport.direction().is_some() {
            self.passed += cycles;
        }
    }

    /// The block that is due in the next cycle of forward play, if one is.
    pub(crate) fn next_block(&self) -> Option<BlockPlace>
        requires start { self.now.start < frames_per_day self.now.system }
        requires passed { self.now.passed + 1 ≤ 2 ^ 52 }
        ensures value { result ≡ block_in self.now (self.now.passed + 1) }
    {
        self.block_after(self.passed)
    }

    /// The block that was due in the cycle of forward play that passed last, if one was.
    pub(crate) fn block_now(&self) -> Option<BlockPlace>
        requires { IsInRange self.now }
        ensures value { result ≡ block_in self.now self.now.passed }
    {
        if self.passed == 0 {
            return None;
        }
        self.block_after(self.passed - 1)
    }

    /// The block that is due in the cycle of forward play after so many, if one is.
    fn block_after(&self, passed: u64) -> Option<BlockPlace>
        requires start { self.now.start < frames_per_day self.now.system }
        requires passed { passed + 1 ≤ 2 ^ 52 }
        ensures value { result ≡ block_in self.now (passed + 1) }
    {
        // Each system has an arm, so that its numbers are constants there.
        match self.system {
            TapeSystem::Lines525 => self.block_of(TapeSystem::Lines525, passed),
            TapeSystem::Lines625 => self.block_of(TapeSystem::Lines625, passed),
        }
    }

    /// The same of a tape of this system.
    #[inline(always)]
    fn block_of(&self, system: TapeSystem, passed: u64) -> Option<BlockPlace>
        requires system { system ≡ self.now.system }
        requires start { self.now.start < frames_per_day self.now.system }
        requires passed { passed + 1 ≤ 2 ^ 52 }
        ensures value { result ≡ block_in self.now (passed + 1) }
    {
        let before = system.blocks_due(passed);
        if system.blocks_due(passed + 1) == before {
            return None;
        }
        let per_frame = system.blocks_per_frame();
        let frame = u64::from(self.start) + before / per_frame;
        Some(BlockPlace {
            tape: self.tape,
            frame: (frame % u64::from(system.frames_per_day())) as u32,
            block: (before % per_frame) as u16,
        })
    }

    /// How many blocks are due in the next cycles of forward play.
    pub(crate) fn blocks_among(&self, cycles: u64) -> u64
        requires { self.now.passed + cycles ≤ 2 ^ 52 }
        ensures { result ≡ due_among self.now.system self.now.passed cycles }
    {
        self.system.blocks_due(self.passed + cycles) - self.system.blocks_due(self.passed)
    }
}
