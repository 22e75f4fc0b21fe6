//! The past of the place, and what a move makes of it.

ghost use Rattle.std.specs.Prelude.{◌≡◌, ◌<◌, ◌++◌, [], ℕ, List, IfOk, IsTrue};
ghost use Rattle.std.specs.List.{All};
ghost use Rattle.fw_log_entry.specs.Log.{entries_bytes, TimedFits};
ghost use Rattle.fw_log_entry.specs.declared.version.Version.TheVariants.{Two};
ghost use Rattle.fw_log_entry.specs.declared.entry.Timed.{Timed};
ghost use Rattle.fw_explore_movers.specs.declared.mover.MoverKind.TheVariants.{HalfSteps};
ghost use Rattle.fw_explore_told.specs.Histories.{History, told_entries};
ghost use Rattle.fw_explore_meaning.specs.Steps.{Had, IsPlaced, marked, past_in};
ghost use Rattle.fw_explore.specs.Arriving.{IsPastAfter};

use crate::keeper::Keeper;
use crate::step::Walker;
use fw_explore_movers::MoverKind;
use fw_explore_told::{Past, tells};
use fw_kept_parts::Full;

// The line of a move is carried out, if it is one.
fn mark_line(past: &mut Past, mover: usize, kind: MoverKind)
    requires { mover < 32 }
    ensures { past.new ≡ marked kind mover past.old }
{
    match kind {
        MoverKind::HalfSteps => {}
        MoverKind::Once => past.mark(mover),
    }
}

// Whether a move leaves the past as it is: it is no line, and nothing is told of what it wrote.
fn leaves_past(kind: MoverKind, written: &[u8]) -> bool
    ensures kind { IsTrue result → kind ≡ HalfSteps }
    ensures none { (epoch : ℕ) (out : List Timed) → All TimedFits out → written.now ≡ entries_bytes Two epoch out → IsTrue result → told_entries out ≡ [] }
{
    match kind {
        MoverKind::HalfSteps => !tells(written),
        MoverKind::Once => false,
    }
}

impl<P: Keeper> Walker<P> {
    /// The past of the place.
    pub(crate) fn past(&self) -> &Past
        requires { IsPlaced (Had self.now.pasts) (P.Kept self.now.kept.places) self.now.here.items }
        ensures { (past : History) → Had self.now.pasts (past_in self.now.here.items) past → result.now ≡ past }
    {
        let number = self.here[0] as usize;
        &self.pasts.as_slice()[number]
    }

    // The past of the place, with what the sink has.
    fn past_here(&self) -> Result<Past, Full>
        requires { IsPlaced (Had self.now.pasts) (P.Kept self.now.kept.places) self.now.here.items }
        ensures { (epoch : ℕ) (out : List Timed) (past : History) → All TimedFits out → self.now.sink.held ≡ entries_bytes Two epoch out → Had self.now.pasts (past_in self.now.here.items) past
            → IfOk result (λ p. p ≡ record { done = past.done; said = past.said ++ told_entries out }) }
    {
        let mut past = self.past().copied(self.alloc)?;
        past.tell(self.sink.as_slice())?;
        Ok(past)
    }

    /// The number of the past with a move, which is kept if it is new. Most half steps tell of nothing: then it is that of the place.
    pub(crate) fn past_after(&mut self, mover: usize, kind: MoverKind) -> Result<u32, Full>
        requires mover { mover < 32 }
        requires here { IsPlaced (Had self.old.pasts) (P.Kept self.old.kept.places) self.old.here.items }
        ensures after { IfOk result (λ n. IsPastAfter self.old.pasts self.new.pasts (past_in self.old.here.items) self.old.sink.held kind mover n) }
        ensures kept { self.new.kept ≡ self.old.kept }
        ensures here { self.new.here ≡ self.old.here }
    {
        let number = self.here[0];
        if leaves_past(kind, self.sink.as_slice()) {
            return Ok(number);
        }
        let mut past = self.past_here()?;
        mark_line(&mut past, mover, kind);
        self.pasts.keep(number, &past)
    }
}
