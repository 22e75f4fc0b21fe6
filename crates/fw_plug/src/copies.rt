//! Plugs as a value: a copy of them, and whether two are the same.

ghost use Rattle.std.specs.Prelude.{◌≡◌, IsTrue};

use crate::plug::Plug;
use crate::plugs::Plugs;
use crate::row::Row;

// Two that are found the same are the same.
fn same_plugs(plugs: &[Plug], others: &[Plug]) -> bool
    ensures { IsTrue result → plugs.now ≡ others.now }
{
    plugs == others
}

impl Row {
    /// Becomes a copy of another.
    fn copy_from(&mut self, other: &Row)
        ensures { self.new ≡ other.now }
    {
        self.plugs.clear();
        let _ = self.plugs.try_extend_from_slice(other.plugs.as_slice());
        self.is_reset = other.is_reset;
    }

    /// Two rows that are found the same are the same.
    fn is_same(&self, other: &Row) -> bool
        ensures { IsTrue result → self.now ≡ other.now }
    {
        same_plugs(self.plugs.as_slice(), other.plugs.as_slice())
    }

    // A number by which most rows differ.
    fn mark(&self) -> u64 {
        let mut mark: u64 = 0;
        for plug in self.plugs.as_slice() {
            mark = mark
                .wrapping_mul(31)
                .wrapping_add(u64::from(plug.word.get()));
        }
        mark
    }
}

impl Plugs {
    /// Becomes a copy of others.
    pub fn copy_from(&mut self, other: &Plugs)
        ensures { self.new ≡ other.now }
    {
        self.rate = other.rate;
        self.outputs.copy_from(&other.outputs);
        self.inputs.copy_from(&other.inputs);
    }

    /// Plugs that are found the same are the same.
    pub fn is_same(&self, other: &Plugs) -> bool
        ensures { IsTrue result → self.now ≡ other.now }
    {
        if self.rate != other.rate || !self.outputs.is_same(&other.outputs) {
            return false;
        }
        self.inputs.is_same(&other.inputs)
    }

    /// A number by which most plugs differ.
    pub fn mark(&self) -> u64 {
        let outputs = self.outputs.mark();
        outputs.wrapping_mul(31).wrapping_add(self.inputs.mark())
    }
}
