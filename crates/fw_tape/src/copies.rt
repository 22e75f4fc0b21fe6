//! A tape as a value: a copy of it, and whether two are the same.

ghost use Rattle.std.specs.Prelude.{◌≡◌, IsTrue};

use crate::tape::Tape;

impl Tape {
    /// Becomes a copy of another.
    pub fn copy_from(&mut self, other: &Tape)
        ensures { self.new ≡ other.now }
    {
        self.cassette = other.cassette;
    }

    /// Two that are found the same are the same.
    pub fn is_same(&self, other: &Tape) -> bool
        ensures { IsTrue result → self.now ≡ other.now }
    {
        self.cassette == other.cassette
    }
}
