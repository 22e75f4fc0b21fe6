//! Level by level through all schedules.

ghost use Rattle.std.specs.Prelude.{◌≡◌, ◌+◌, ◌<◌, ℕ, List, IfOk, IsFalse, if◌then◌else◌, length, slice_index_or, false, []};
ghost use Rattle.fw_script_command.specs.declared.command.Command.{Command as Line};
ghost use Rattle.fw_explore_levels.specs.Tables.{Entry};
ghost use Rattle.fw_kept_parts.specs.Words.{words_of};
ghost use Rattle.fw_model_run.specs.Desks.{IsFunction};
ghost use Rattle.fw_tape.specs.Desks.{AnyBlock, AnyVendorByte};
ghost use Rattle.fw_explore_meaning.specs.Steps.{Had, IsExplored, IsPlaced, IsWiderBy};
ghost use Rattle.fw_explore_meaning.specs.Walking.{ArePlaced, IsGoing, IsMoving, IsWholeSo};

use crate::keeper::Keeper;
use crate::key::read_key_words;
use crate::step::Walker;
use fw_explore_endings::{Row, Rows};
use fw_explore_levels::Levels;
use fw_explore_movers::Explored;
use fw_kept_parts::Full;
use fw_tape::Desk;

/// Goes through all schedules, level by level, and keeps how they end.
#[derive(Drop)]
pub(crate) struct Explorer<P: Keeper> {
    pub(crate) walker: Walker<P>,
    pub(crate) levels: Levels,
    pub(crate) rows: Rows,
}

// So many, if they are counted.
fn counted(are: bool, ways: u128) -> u128
    ensures { result ≡ (if are then ways else 0) }
{
    if are { ways } else { 0 }
}

impl<P: Keeper> Explorer<P> {
    // Takes all moves of a place, and answers whether there was one.
    fn move_all<F: Fn(u16, u32, u16) -> [u8; 480], H: Fn(u32, u8) -> u8>(
        &mut self,
        explored: &Explored,
        place: usize,
        desk: &Desk<F, H>,
    ) -> Result<bool, Full>
        requires blocks { AnyBlock (F.pre desk.now.blocks) }
        requires desk { AnyVendorByte (H.pre desk.now.vendor) }
        requires explored { IsExplored explored.now }
        requires place { place < length self.old.levels.level }
        requires here { (d : Entry) → words_of (slice_index_or self.old.levels.level place d).key ≡ self.old.walker.here.items }
        requires placed { IsPlaced (Had self.old.walker.pasts) (P.Kept self.old.walker.kept.places) self.old.walker.here.items }
        requires next { ArePlaced (Had self.old.walker.pasts) (P.Kept self.old.walker.kept.places) self.old.levels.next }
        ensures walks { (script : List Line) (n : ℕ) (d : Entry) → IsFunction (record { blocks = F.post desk.now.blocks; vendor = H.post desk.now.vendor })
            → IsGoing (record { blocks = F.post desk.now.blocks; vendor = H.post desk.now.vendor }) script explored.now self.old.walker.pasts (P.Kept self.old.walker.kept.places) n place self.old.levels self.old.rows
            → IfOk result (λ moved. IsMoving (record { blocks = F.post desk.now.blocks; vendor = H.post desk.now.vendor }) script explored.now self.old.walker.pasts self.new.walker.pasts (P.Kept self.old.walker.kept.places) (P.Kept self.new.walker.kept.places) n place
            (length explored.now.movers.items) (slice_index_or self.old.levels.level place d).key moved self.new.levels self.new.rows) }
        ensures still { IfOk result (λ moved. IsFalse moved → (self.new.walker.pasts ≡ self.old.walker.pasts) × (self.new.walker.kept.places ≡ self.old.walker.kept.places)) }
        ensures next { IfOk result (λ moved. ArePlaced (Had self.new.walker.pasts) (P.Kept self.new.walker.kept.places) self.new.levels.next) }
        ensures wider { IfOk result (λ moved. IsWiderBy (Had self.old.walker.pasts) (Had self.new.walker.pasts) (P.Kept self.old.walker.kept.places) (P.Kept self.new.walker.kept.places)) }
        ensures level { self.new.levels.level ≡ self.old.levels.level }
        ensures here { self.new.walker.here ≡ self.old.walker.here }
        ensures rows { self.new.rows ≡ self.old.rows }
    {
        let mut moved = false;
        for mover in 0..explored.movers.len() {
            if self.walker.step_to(explored, mover, desk)? {
                self.levels
                    .reach(place, mover as u8, self.walker.key.as_slice())?;
                moved = true;
            }
        }
        Ok(moved)
    }

    // The ending of a place without a move.
    fn end<F: Fn(u16, u32, u16) -> [u8; 480], H: Fn(u32, u8) -> u8>(
        &mut self,
        explored: &Explored,
        place: usize,
        desk: &Desk<F, H>,
    ) -> Result<(), Full>
        requires blocks { AnyBlock (F.pre desk.now.blocks) }
        requires desk { AnyVendorByte (H.pre desk.now.vendor) }
        requires explored { IsExplored explored.now }
        requires place { place < length self.old.levels.level }
        requires here { (d : Entry) → words_of (slice_index_or self.old.levels.level place d).key ≡ self.old.walker.here.items }
        requires placed { IsPlaced (Had self.old.walker.pasts) (P.Kept self.old.walker.kept.places) self.old.walker.here.items }
        ensures walks { (script : List Line) (n : ℕ) (d : Entry) → IsFunction (record { blocks = F.post desk.now.blocks; vendor = H.post desk.now.vendor })
            → IsMoving (record { blocks = F.post desk.now.blocks; vendor = H.post desk.now.vendor }) script explored.now self.old.walker.pasts self.old.walker.pasts (P.Kept self.old.walker.kept.places) (P.Kept self.old.walker.kept.places) n place
            (length explored.now.movers.items) (slice_index_or self.old.levels.level place d).key false self.old.levels self.old.rows
            → IfOk result (λ u. IsGoing (record { blocks = F.post desk.now.blocks; vendor = H.post desk.now.vendor }) script explored.now self.new.walker.pasts (P.Kept self.new.walker.kept.places) n (place + 1) self.new.levels self.new.rows) }
        ensures pasts { self.new.walker.pasts ≡ self.old.walker.pasts }
        ensures places { self.new.walker.kept.places ≡ self.old.walker.kept.places }
        ensures levels { self.new.levels ≡ self.old.levels }
        ensures longest { self.new.rows.longest ≡ self.old.rows.longest }
    {
        let cut = self.walker.is_cut(explored, desk)?;
        let finish = self.walker.finish(explored, desk)?;
        let ways = self.levels.ways(place);
        let first = self.levels.first(place)?;
        let row = Row {
            ending: finish.ending,
            ended: counted(!cut, ways),
            cut: counted(cut, ways),
            first,
            lines: finish.lines,
        };
        self.rows.reach(row)?;
        Ok(())
    }

    // Goes on from a place.
    fn go_on<F: Fn(u16, u32, u16) -> [u8; 480], H: Fn(u32, u8) -> u8>(
        &mut self,
        explored: &Explored,
        place: usize,
        desk: &Desk<F, H>,
    ) -> Result<(), Full>
        requires blocks { AnyBlock (F.pre desk.now.blocks) }
        requires desk { AnyVendorByte (H.pre desk.now.vendor) }
        requires explored { IsExplored explored.now }
        requires place { place < length self.old.levels.level }
        requires placed { ArePlaced (Had self.old.walker.pasts) (P.Kept self.old.walker.kept.places) self.old.levels.level }
        requires next { ArePlaced (Had self.old.walker.pasts) (P.Kept self.old.walker.kept.places) self.old.levels.next }
        ensures walks { (script : List Line) (n : ℕ) → IsFunction (record { blocks = F.post desk.now.blocks; vendor = H.post desk.now.vendor })
            → IsGoing (record { blocks = F.post desk.now.blocks; vendor = H.post desk.now.vendor }) script explored.now self.old.walker.pasts (P.Kept self.old.walker.kept.places) n place self.old.levels self.old.rows
            → IfOk result (λ u. IsGoing (record { blocks = F.post desk.now.blocks; vendor = H.post desk.now.vendor }) script explored.now self.new.walker.pasts (P.Kept self.new.walker.kept.places) n (place + 1) self.new.levels self.new.rows) }
        ensures placed { IfOk result (λ u. ArePlaced (Had self.new.walker.pasts) (P.Kept self.new.walker.kept.places) self.new.levels.level) }
        ensures next { IfOk result (λ u. ArePlaced (Had self.new.walker.pasts) (P.Kept self.new.walker.kept.places) self.new.levels.next) }
        ensures level { self.new.levels.level ≡ self.old.levels.level }
        ensures longest { self.new.rows.longest ≡ self.old.rows.longest }
    {
        read_key_words(&mut self.walker.here, self.levels.key(place))?;
        if self.move_all(explored, place, desk)? {
            return Ok(());
        }
        self.end(explored, place, desk)
    }

    // Goes on from all places of the level.
    fn go_through<F: Fn(u16, u32, u16) -> [u8; 480], H: Fn(u32, u8) -> u8>(
        &mut self,
        explored: &Explored,
        desk: &Desk<F, H>,
    ) -> Result<(), Full>
        requires blocks { AnyBlock (F.pre desk.now.blocks) }
        requires desk { AnyVendorByte (H.pre desk.now.vendor) }
        requires explored { IsExplored explored.now }
        requires placed { ArePlaced (Had self.old.walker.pasts) (P.Kept self.old.walker.kept.places) self.old.levels.level }
        requires next { self.old.levels.next ≡ [] }
        ensures walks { (script : List Line) (n : ℕ) → IsFunction (record { blocks = F.post desk.now.blocks; vendor = H.post desk.now.vendor })
            → IsGoing (record { blocks = F.post desk.now.blocks; vendor = H.post desk.now.vendor }) script explored.now self.old.walker.pasts (P.Kept self.old.walker.kept.places) n 0 self.old.levels self.old.rows
            → IfOk result (λ u. IsGoing (record { blocks = F.post desk.now.blocks; vendor = H.post desk.now.vendor }) script explored.now self.new.walker.pasts (P.Kept self.new.walker.kept.places) n (length self.new.levels.level) self.new.levels self.new.rows) }
        ensures next { IfOk result (λ u. ArePlaced (Had self.new.walker.pasts) (P.Kept self.new.walker.kept.places) self.new.levels.next) }
        ensures longest { self.new.rows.longest ≡ self.old.rows.longest }
    {
        for place in 0..self.levels.len() {
            self.go_on(explored, place, desk)?;
        }
        Ok(())
    }

    /// Goes through all interleavings. A schedule has at most `most` half steps and each line once, so the levels end by then.
    pub(crate) fn go<F: Fn(u16, u32, u16) -> [u8; 480], H: Fn(u32, u8) -> u8>(
        &mut self,
        explored: &Explored,
        desk: &Desk<F, H>,
    ) -> Result<(), Full>
        requires blocks { AnyBlock (F.pre desk.now.blocks) }
        requires desk { AnyVendorByte (H.pre desk.now.vendor) }
        requires explored { IsExplored explored.now }
        requires placed { ArePlaced (Had self.old.walker.pasts) (P.Kept self.old.walker.kept.places) self.old.levels.level }
        requires some { 0 < length self.old.levels.level }
        requires next { self.old.levels.next ≡ [] }
        ensures whole { (script : List Line) → IsFunction (record { blocks = F.post desk.now.blocks; vendor = H.post desk.now.vendor })
            → IsGoing (record { blocks = F.post desk.now.blocks; vendor = H.post desk.now.vendor }) script explored.now self.old.walker.pasts (P.Kept self.old.walker.kept.places) 0 0 self.old.levels self.old.rows
            → IfOk result (λ u. IsWholeSo (record { blocks = F.post desk.now.blocks; vendor = H.post desk.now.vendor }) script explored.now self.new.rows) }
    {
        for moves in 0..explored.most.saturating_add(33) {
            if self.levels.len() == 0 {
                return Ok(());
            }
            self.rows.longest = moves;
            self.go_through(explored, desk)?;
            self.levels.turn()?;
        }
        Err(Full::TooLarge)
    }
}
