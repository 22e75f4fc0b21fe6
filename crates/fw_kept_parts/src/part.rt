ghost use Rattle.std.specs.Prelude.{IfOk, IsTrue};

use std::alloc::{AllocError, Global};

/// What a table keeps of a whole.
pub trait Part: Drop {
    /// What it is a part of.
    type Whole;

    ghost IsOf: { Self → Self.Whole → Type 0 };

    /// The part of a whole.
    fn of(alloc: Global, whole: &Self::Whole) -> Result<Self, AllocError>
        ensures { IfOk result (λ p. IsOf p whole.now) };

    /// If it is found that the part is that of a whole, it is.
    fn is_of(&self, whole: &Self::Whole) -> bool
        ensures { IsTrue result → IsOf self.now whole.now };

    /// A number by which the parts of most wholes differ: those of equal ones do not.
    fn mark(whole: &Self::Whole) -> u64;
}

/// A mark with a word more: after other words, or with another, it is mostly another one.
pub fn mixed(mark: u64, word: u32) -> u64 {
    mark.wrapping_mul(31).wrapping_add(u64::from(word))
}
