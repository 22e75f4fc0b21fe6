ghost use Rattle.std.specs.Prelude.{◌≡◌, ◌<◌, ◌+◌, ◌^◌, [], ◌∷◌, ◌++◌, length, slice_index_or, IfOk, OnOk, OnErr};

use std::alloc::{AllocError, Global};
use std::marker::Model;

// A step: the number of the one before it, from 1, or 0 for none, and the move.
#[derive(Clone, Copy)]
pub(crate) struct PathStep {
    pub(crate) before: u32,
    pub(crate) mover: u8,
}

// The steps that led to places first, of all lengths: clauses see the path of each, by number, if number 0 is the empty path.
#[derive(Drop)]
pub(crate) struct Steps {
    list: Vec<PathStep>,
}

impl Model for Steps {
    ghost use Rattle.std.specs.Prelude.{ℕ, List};
    ghost use Rattle.fw_explore_levels.specs.Steps.{paths_of, AreSteps};

    ghost Value = { List (List ℕ) };

    ghost view = { λ s. paths_of s.list.items };

    ghost invariant = { λ s. AreSteps s.list.items };
}

impl Steps {
    pub(crate) fn new(alloc: Global) -> Steps
        ensures { result ≡ [] ∷ [] }
    {
        Steps {
            list: Vec::new(alloc),
        }
    }

    // How many paths there are.
    pub(crate) fn len(&self) -> usize
        ensures { result ≡ length self.now }
    {
        self.list.len() + 1
    }

    // One move more after the path of this number.
    pub(crate) fn add(&mut self, before: u32, mover: u8) -> Result<(), AllocError>
        requires { before < length self.old }
        ensures ok { OnOk result (self.new ≡ self.old ++ (slice_index_or self.old before [] ++ mover ∷ []) ∷ []) }
        ensures err { OnErr result (self.new ≡ self.old) }
    {
        self.list.push(PathStep { before, mover })?;
        Ok(())
    }

    // The path of this number.
    pub(crate) fn path(&self, alloc: Global, step: u32) -> Result<Vec<u8>, AllocError>
        requires { step < length self.now }
        ensures { IfOk result (λ v. v.items ≡ slice_index_or self.now step []) }
    {
        let mut moves = Vec::new(alloc);
        let mut at = step;
        while at != 0 {
            let last = self.list[at as usize - 1];
            moves.push(last.mover)?;
            at = last.before;
        }
        moves.reverse();
        Ok(moves)
    }
}
