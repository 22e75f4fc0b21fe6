ghost use Rattle.std.specs.Prelude.{◌≡◌, false};
ghost use Rattle.fw_fcp.specs.Frames.{Fits};
ghost use Rattle.fw_avc.specs.declared.notify.Watched.TheVariants.{Power};
ghost use Rattle.fw_avc.specs.Watched.{codes_of};
ghost use Rattle.fw_avc.specs.Notices.{changed_frame};

use fw_fcp::{CHANGED, Frame};
use fw_tape::Transport;

/// A state that a controller may ask to be told of, with its value.
#[derive(Clone, Copy, PartialEq, Eq)]
pub enum Watched {
    /// The unit's power, on if true.
    Power(bool),
    /// The state of the transport.
    Transport(Transport),
}

/// A NOTIFY request that the unit keeps until the state has changed.
#[derive(Clone, Copy, PartialEq, Eq)]
pub struct Kept {
    /// The number of the node that asked.
    pub node: u8,
    /// The value that the INTERIM response gave.
    pub value: Watched,
}

/// What fills the free places of a list; it has no meaning of its own.
impl Default for Kept {
    fn default() -> Self
        ensures { result ≡ record { node = 0; value = Power false } }
    {
        Kept {
            node: 0,
            value: Watched::Power(false),
        }
    }
}

impl Watched {
    /// The opcode and operand by which a response shows the value.
    pub fn codes(self) -> (u8, u8)
        ensures { result ≡ codes_of self }
    {
        match self {
            Watched::Power(true) => (0xB2, 0x70),
            Watched::Power(false) => (0xB2, 0x60),
            Watched::Transport(transport) => transport.codes(),
        }
    }

    /// Replaces `out` by the notice that the state has changed to this value, from the unit or from its tape subunit.
    pub fn put_notice(self, out: &mut Frame)
        ensures frame { out.new ≡ changed_frame self }
        ensures fits { Fits out.new }
    {
        let (kind, id) = match self {
            Watched::Power(_) => (31, 7),
            Watched::Transport(_) => (4, 0),
        };
        let (opcode, operand) = self.codes();
        out.code = CHANGED;
        out.kind = kind;
        out.id = id;
        out.opcode = opcode;
        out.operands.clear();
        out.operands.push(operand);
    }
}
