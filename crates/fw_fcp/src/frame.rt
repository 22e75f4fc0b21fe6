ghost use Rattle.std.specs.Prelude.{◌≡◌, ◌≤◌, ◌++◌, [], length, drop};

use fw_words::Bytes;

/// The operands of a frame: at most 509 bytes.
pub type Operands = Bytes<509>;

/// An AV/C frame, a command or a response (AV/C General 3.0, frames). Its command transaction set is 0.
#[derive(PartialEq, Eq, Drop)]
pub struct Frame {
    /// The command type or the response code, 4 bits.
    pub code: u8,
    /// subunit_type, 5 bits: 31 of the unit itself.
    pub kind: u8,
    /// subunit_ID, 3 bits: 7 of the unit itself.
    pub id: u8,
    /// The opcode, which names the command.
    pub opcode: u8,
    /// All bytes after the opcode.
    pub operands: Operands,
}

impl Frame {
    /// A frame without operands whose numbers are 0: room for a frame that is to be read, or for a response.
    pub fn new() -> Frame
        ensures { result ≡ record { code = 0; kind = 0; id = 0; opcode = 0; operands = [] } }
    {
        Frame {
            code: 0,
            kind: 0,
            id: 0,
            opcode: 0,
            operands: Bytes::new(),
        }
    }

    /// Becomes a copy of another.
    pub fn copy_from(&mut self, other: &Frame)
        ensures { self.new ≡ other.now }
    {
        self.show(other, other.code, other.opcode, &[]);
    }

    /// Becomes the response with this code that repeats the command.
    pub fn repeat(&mut self, command: &Frame, code: u8)
        ensures { self.new ≡ record command.now { code = code } }
    {
        self.show(command, code, command.opcode, &[]);
    }

    /// Becomes the response with this code and opcode that has `values` in the place of the command's first operands, and
    /// repeats the others.
    pub fn show(&mut self, command: &Frame, code: u8, opcode: u8, values: &[u8])
        requires { length values.now ≤ length command.now.operands }
        ensures { self.new ≡ record command.now { code = code; opcode = opcode; operands = values.now ++ drop (length values.now) command.now.operands } }
    {
        let others = &command.operands.as_slice()[values.len()..];
        self.code = code;
        self.kind = command.kind;
        self.id = command.id;
        self.opcode = opcode;
        self.operands.clear();
        self.operands.append(values);
        self.operands.append(others);
    }
}
