//! What a sink was given, if only contracts read it. It takes no memory.
#![tactic(auto)]

ghost use Rattle.std.specs.Prelude.{◌≡◌, [], ◌++◌, List, ℕ};
ghost use Rattle.std.specs.Borrow.{ftrue};
ghost use Rattle.std.specs.Coded.{coded_list, coded_ℕ};

use std::marker::Model;

/// Bytes, one after another. Nothing holds them: they exist in contracts alone.
#[derive(Drop)]
pub struct History {
    pub ghost bytes: { List ℕ } by { coded_list coded_ℕ },
}

impl Model for History {
    ghost also_owns = { λ _. ftrue };
}

/// Bytes that are added to others.
#[derive(Clone, Copy, Drop)]
pub struct Piece<'a>(pub &'a [u8]);

impl History {
    /// None.
    pub fn new() -> History
        ensures { result.bytes ≡ [] }
    {
        Self {}
    }

    /// These bytes, and a piece more.
    #[inline(always)]
    pub fn and(&self, _piece: &Piece<'_>) -> History
        ensures { result.bytes ≡ self.now.bytes ++ _piece.now.0.now }
    {
        History {}
    }
}
