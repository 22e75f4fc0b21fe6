//! Which movers are there.

ghost use Rattle.std.specs.Prelude.{◌≡◌, ◌<◌, ◌≤◌, length};
ghost use Rattle.fw_explore_movers.specs.Explored.{IsMover};
ghost use Rattle.fw_explore_movers.specs.declared.mover.Mover.{Mover as AMover};
ghost use Rattle.fw_explore_meaning.specs.Steps.{IsNext, IsThere, is_waiting};

use fw_explore_movers::{Explored, MOST_MOVERS, Mover, MoverKind};

// Whether a mover is this line, and was not carried out.
fn is_waiting(mover: &Mover, done: bool, line: &[u8]) -> bool
    ensures { result ≡ is_waiting mover.now done line.now }
{
    match mover.kind {
        MoverKind::HalfSteps => false,
        MoverKind::Once => {
            if done {
                return false;
            }
            mover.has_line(line)
        }
    }
}

// Whether each mover before this one with the same line was carried out.
fn is_next(explored: &Explored, done: &[bool; MOST_MOVERS], mover: usize) -> bool
    requires mover { mover < length explored.now.movers.items }
    requires few { length explored.now.movers.items ≤ 32 }
    ensures { (m : AMover) → IsMover explored.now mover m → IsNext explored.now done.now mover m result }
{
    let this = &explored.movers[mover];
    let line = this.line.as_slice();
    for other in 0..mover {
        let earlier = &explored.movers[other];
        let was = done[other];
        if is_waiting(earlier, was, line) {
            return false;
        }
    }
    true
}

/// Whether a mover may move if these lines were carried out: a line once, and of those that are the same the first first.
pub(crate) fn is_there(explored: &Explored, done: &[bool; MOST_MOVERS], mover: usize) -> bool
    requires mover { mover < length explored.now.movers.items }
    requires few { length explored.now.movers.items ≤ 32 }
    ensures { (m : AMover) → IsMover explored.now mover m → IsThere explored.now done.now mover m result }
{
    let this = &explored.movers[mover];
    match this.kind {
        MoverKind::HalfSteps => true,
        MoverKind::Once => {
            let was = done[mover];
            if was {
                return false;
            }
            is_next(explored, done, mover)
        }
    }
}
