//! A unit as a value: a copy of it, and whether two are the same.

ghost use Rattle.std.specs.Prelude.{◌≡◌, IsTrue};

use crate::notify::Kept;
use crate::unit::Unit;

// Two that are found the same are the same.
fn same_kept(kept: &[Kept], other: &[Kept]) -> bool
    ensures { IsTrue result → kept.now ≡ other.now }
{
    kept == other
}

impl Unit {
    /// Becomes a copy of another.
    pub fn copy_from(&mut self, other: &Unit)
        ensures { self.new ≡ other.now }
    {
        self.outputs = other.outputs;
        self.inputs = other.inputs;
        self.power = other.power;
        self.kept.clear();
        let _ = self.kept.try_extend_from_slice(other.kept.as_slice());
        self.tape.copy_from(&other.tape);
    }

    /// Two that are found the same are the same.
    pub fn is_same(&self, other: &Unit) -> bool
        ensures { IsTrue result → self.now ≡ other.now }
    {
        if self.outputs != other.outputs || self.inputs != other.inputs {
            return false;
        }
        if self.power != other.power || !self.tape.is_same(&other.tape) {
            return false;
        }
        same_kept(self.kept.as_slice(), other.kept.as_slice())
    }
}
