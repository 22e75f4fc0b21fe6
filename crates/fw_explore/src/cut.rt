//! Whether an interleaving is cut off.

ghost use Rattle.std.specs.Prelude.{◌≡◌, ◌<◌, ℕ, List, IfOk, length};
ghost use Rattle.fw_script_command.specs.declared.command.Command.{Command as Line};
ghost use Rattle.fw_model_run.specs.Desks.{IsFunction};
ghost use Rattle.fw_tape.specs.Desks.{AnyBlock, AnyVendorByte};
ghost use Rattle.fw_explore_meaning.specs.Finishing.{IsCut, Writes};
ghost use Rattle.fw_explore_meaning.specs.Pasts.{LeadsAt};
ghost use Rattle.fw_explore_meaning.specs.Steps.{Had, IsExplored, IsPlaced};

use crate::keeper::Keeper;
use crate::step::{Walker, is_silent};
use fw_explore_movers::{Explored, MoverKind};
use fw_kept_parts::Full;
use fw_tape::Desk;

impl<P: Keeper> Walker<P> {
    // Whether a half step more of this mover would write an entry.
    fn would_write<F: Fn(u16, u32, u16) -> [u8; 480], H: Fn(u32, u8) -> u8>(
        &mut self,
        explored: &Explored,
        mover: usize,
        desk: &Desk<F, H>,
    ) -> Result<bool, Full>
        requires blocks { AnyBlock (F.pre desk.now.blocks) }
        requires desk { AnyVendorByte (H.pre desk.now.vendor) }
        requires explored { IsExplored explored.now }
        requires mover { mover < length explored.now.movers.items }
        requires here { IsPlaced (Had self.old.pasts) (P.Kept self.old.kept.places) self.old.here.items }
        ensures writes { (script : List Line) (w : List ℕ) → IsFunction (record { blocks = F.post desk.now.blocks; vendor = H.post desk.now.vendor })
            → LeadsAt (record { blocks = F.post desk.now.blocks; vendor = H.post desk.now.vendor }) script explored.now (Had self.old.pasts) (P.Kept self.old.kept.places) w self.old.here.items
            → IfOk result (Writes (record { blocks = F.post desk.now.blocks; vendor = H.post desk.now.vendor }) script explored.now w mover) }
        ensures pasts { self.new.pasts ≡ self.old.pasts }
        ensures places { self.new.kept.places ≡ self.old.kept.places }
        ensures here { self.new.here ≡ self.old.here }
    {
        let this = &explored.movers[mover];
        match this.kind {
            MoverKind::Once => return Ok(false),
            MoverKind::HalfSteps => {}
        }
        self.kept.give_back(&self.here[2..])?;
        if self
            .kept
            .carry(&mut self.sink, &this.command, desk)?
            .is_some()
        {
            return Ok(false);
        }
        Ok(!is_silent(this.kind, self.sink.as_slice()))
    }

    /// Whether an interleaving that ends here is cut off.
    pub(crate) fn is_cut<F: Fn(u16, u32, u16) -> [u8; 480], H: Fn(u32, u8) -> u8>(
        &mut self,
        explored: &Explored,
        desk: &Desk<F, H>,
    ) -> Result<bool, Full>
        requires blocks { AnyBlock (F.pre desk.now.blocks) }
        requires desk { AnyVendorByte (H.pre desk.now.vendor) }
        requires explored { IsExplored explored.now }
        requires here { IsPlaced (Had self.old.pasts) (P.Kept self.old.kept.places) self.old.here.items }
        ensures cut { (script : List Line) (w : List ℕ) → IsFunction (record { blocks = F.post desk.now.blocks; vendor = H.post desk.now.vendor })
            → LeadsAt (record { blocks = F.post desk.now.blocks; vendor = H.post desk.now.vendor }) script explored.now (Had self.old.pasts) (P.Kept self.old.kept.places) w self.old.here.items
            → IfOk result (IsCut (record { blocks = F.post desk.now.blocks; vendor = H.post desk.now.vendor }) script explored.now w) }
        ensures pasts { self.new.pasts ≡ self.old.pasts }
        ensures places { self.new.kept.places ≡ self.old.kept.places }
        ensures here { self.new.here ≡ self.old.here }
    {
        if self.here[1] != explored.most {
            return Ok(false);
        }
        for mover in 0..explored.movers.len() {
            if self.would_write(explored, mover, desk)? {
                return Ok(true);
            }
        }
        Ok(false)
    }
}
