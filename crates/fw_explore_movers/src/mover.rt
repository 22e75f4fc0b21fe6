ghost use Rattle.std.specs.Prelude.{◌≡◌};
ghost use Rattle.std.specs.Str.{bytes_eq};

use fw_script_command::Command;

/// The most movers that words may name.
pub const MOST_MOVERS: usize = 32;

/// What a mover does.
#[derive(Clone, Copy, PartialEq, Eq)]
pub enum MoverKind {
    /// Half steps of a controller or a candidate, one at a time.
    HalfSteps,
    /// A line, carried out once.
    Once,
}

/// What moves: its line, the command that this is, and the number of its word.
#[derive(Drop)]
pub struct Mover {
    /// The line of one move, without a line feed.
    pub line: Vec<u8>,
    /// The command that the line is.
    pub command: Command,
    pub kind: MoverKind,
    /// The number of its word, from 1.
    pub word: usize,
}

/// A line that is carried out after each interleaving.
#[derive(Drop)]
pub struct Line {
    /// The line, without a line feed.
    pub text: Vec<u8>,
    /// The command that the line is.
    pub command: Command,
    /// The number of its word, from 1.
    pub word: usize,
}

/// What the words after `explore` name.
#[derive(Drop)]
pub struct Explored {
    /// The most half steps of an interleaving, of all movers together: 1 to 10,000.
    pub most: u32,
    /// The movers, 1 to 32, in the order of their words.
    pub movers: Vec<Mover>,
    /// The lines that are carried out after each interleaving, at most 64, in the order of their words.
    pub following: Vec<Line>,
}

impl Mover {
    /// Whether this is its line.
    pub fn has_line(&self, line: &[u8]) -> bool
        ensures { result ≡ bytes_eq self.now.line.items line.now }
    {
        self.line.as_slice() == line
    }
}
