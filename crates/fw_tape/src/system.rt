ghost use Rattle.std.specs.Prelude.{◌≡◌, ◌≤◌, ◌*◌, ◌/◌, ◌^◌};
ghost use Rattle.fw_tape.specs.Systems.{blocks_due, blocks_per_frame, frames_per_second, frames_per_day};

/// The television system of a tape (IEC 61883-2).
#[derive(Clone, Copy, PartialEq, Eq)]
pub enum TapeSystem {
    /// 525 lines, 30 frames a second.
    Lines525,
    /// 625 lines, 25 frames a second.
    Lines625,
}

impl TapeSystem {
    /// How many blocks are due in the first `cycles` cycles of a play: 1875 in 2002, or 15 in 16.
    pub fn blocks_due(self, cycles: u64) -> u64
        requires { cycles ≤ 2 ^ 52 }
        ensures { result ≡ blocks_due self cycles }
    {
        match self {
            TapeSystem::Lines525 => cycles * 1875 / 2002,
            TapeSystem::Lines625 => cycles * 15 / 16,
        }
    }

    /// The blocks of a frame.
    pub fn blocks_per_frame(self) -> u64
        ensures { result ≡ blocks_per_frame self }
    {
        match self {
            TapeSystem::Lines525 => 250,
            TapeSystem::Lines625 => 300,
        }
    }

    /// The frames of a second.
    pub fn frames_per_second(self) -> u32
        ensures { result ≡ frames_per_second self }
    {
        match self {
            TapeSystem::Lines525 => 30,
            TapeSystem::Lines625 => 25,
        }
    }

    /// The frames of a day, which is the length of a tape (own).
    pub fn frames_per_day(self) -> u32
        ensures { result ≡ frames_per_day self }
    {
        86_400 * self.frames_per_second()
    }
}
