ghost use Rattle.std.specs.Prelude.{◌≡◌};
ghost use Rattle.fw_tape.specs.Transports.{codes_of, direction_of};

/// What the transport of a tape subunit does: each state has the opcode and operand of the command that enters it.
#[derive(Clone, Copy, PartialEq, Eq)]
pub enum Transport {
    /// C4 60, with or without a tape.
    Stop,
    /// C4 65: at frame 0.
    Rewind,
    /// C4 75: at the last frame.
    FastForward,
    /// C3 75.
    Play,
    /// C3 7D.
    PlayPause,
    /// C3 65.
    Reverse,
    /// C3 6D.
    ReversePause,
    /// C2 75.
    Record,
    /// C2 7D.
    RecordPause,
}

/// Where a moving tape goes.
#[derive(Clone, Copy, PartialEq, Eq)]
pub enum Direction {
    Forward,
    Backward,
}

impl Transport {
    /// The opcode and operand of the state.
    pub fn codes(self) -> (u8, u8)
        ensures { result ≡ codes_of self }
    {
        match self {
            Transport::Stop => (0xC4, 0x60),
            Transport::Rewind => (0xC4, 0x65),
            Transport::FastForward => (0xC4, 0x75),
            Transport::Play => (0xC3, 0x75),
            Transport::PlayPause => (0xC3, 0x7D),
            Transport::Reverse => (0xC3, 0x65),
            Transport::ReversePause => (0xC3, 0x6D),
            Transport::Record => (0xC2, 0x75),
            Transport::RecordPause => (0xC2, 0x7D),
        }
    }

    /// If the tape moves, if it does: a pause, stop or winding holds it at a frame.
    pub(crate) fn direction(self) -> Option<Direction>
        ensures { result ≡ direction_of self }
    {
        match self {
            Transport::Play | Transport::Record => Some(Direction::Forward),
            Transport::Reverse => Some(Direction::Backward),
            _ => None,
        }
    }
}
