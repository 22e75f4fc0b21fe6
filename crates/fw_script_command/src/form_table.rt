//! The table of forms: the words of each command's line.

ghost use Rattle.std.specs.Prelude.{◌≡◌};
ghost use Rattle.fw_script_command.specs.Types.{types_of, word_of};

use crate::keyword::Keyword;
use crate::word_type::NumberType::{
    Count, Cycles, Overhead, Ports, Rounds, Slot, Tape, WrittenCycles,
};
use crate::word_type::WordType::{
    self, Channel, End, Frame, Kind, Late, Name, Number, Offset, Plug, Quadlet, Shown, Speed,
    System,
};

impl Keyword {
    /// What the words after the keyword are, in their order. Words are read as the keyword's command exactly if each is of its type, and none
    /// is missing but a last `late`.
    pub fn types(self) -> &'static [WordType]
        ensures { result.now ≡ types_of self }
    {
        match self {
            Keyword::Withhold | Keyword::End => &[],
            Keyword::Device => &[Name, Kind, Number(Ports), Speed],
            Keyword::Cable => &[End, End],
            Keyword::Reset
            | Keyword::Lose
            | Keyword::Candidate
            | Keyword::Start
            | Keyword::Eject
            | Keyword::Dub => &[Name],
            Keyword::Connect => &[Name, Plug, Plug, Channel, Number(Overhead)],
            Keyword::Broadcast => &[Name, Plug, Number(Overhead)],
            Keyword::Listen => &[Name, Plug],
            Keyword::Break => &[Name, Number(Slot)],
            Keyword::Step | Keyword::Contend => &[Name, Number(Count)],
            Keyword::Settle => &[Number(Rounds)],
            Keyword::Die => &[Name, Late],
            Keyword::Wait => &[Number(Cycles)],
            Keyword::Cycles => &[Number(WrittenCycles)],
            Keyword::Read => &[Name, Name, Offset],
            Keyword::Swap => &[Name, Name, Offset, Quadlet, Quadlet],
            Keyword::Show => &[Shown, Offset],
            Keyword::Command => &[Name, Name, Frame],
            Keyword::Insert => &[Name, Number(Tape), System],
        }
    }

    /// The keyword as a word of a line.
    pub fn word(self) -> &'static str
        ensures { result.now ≡ word_of self }
    {
        match self {
            Keyword::Device => "device",
            Keyword::Cable => "cable",
            Keyword::Reset => "reset",
            Keyword::Connect => "connect",
            Keyword::Broadcast => "broadcast",
            Keyword::Listen => "listen",
            Keyword::Break => "break",
            Keyword::Step => "step",
            Keyword::Settle => "settle",
            Keyword::Wait => "wait",
            Keyword::Cycles => "cycles",
            Keyword::Die => "die",
            Keyword::Lose => "lose",
            Keyword::Start => "start",
            Keyword::Command => "command",
            Keyword::Read => "read",
            Keyword::Swap => "swap",
            Keyword::Insert => "insert",
            Keyword::Eject => "eject",
            Keyword::Show => "show",
            Keyword::Withhold => "withhold",
            Keyword::Candidate => "candidate",
            Keyword::Contend => "contend",
            Keyword::Dub => "dub",
            Keyword::End => "end",
        }
    }
}
