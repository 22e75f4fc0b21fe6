//! After an interleaving: its lines, and its ending.

ghost use Rattle.std.specs.Prelude.{◌≡◌, ◌≤◌, ◌++◌, ◌∷◌, [], ℕ, List, IfOk, OnOk, IsFalse, length};
ghost use Rattle.std.specs.List.{All};
ghost use Rattle.fw_log_entry.specs.declared.entry.Timed.{Timed as TimedEntry};
ghost use Rattle.fw_script_command.specs.declared.command.Command.{Command as ACommand};
ghost use Rattle.fw_model_run.specs.State.{State};
ghost use Rattle.fw_bus.specs.Buses.{StandsFor, IsCommand};
ghost use Rattle.fw_tape.specs.Desks.{AnyBlock, AnyVendorByte};
ghost use Rattle.fw_explore_movers.specs.declared.mover.Line.{Line as ALine};
ghost use Rattle.fw_explore_told.specs.Sayings.{said_all, unmarked_from};
ghost use Rattle.fw_explore_meaning.specs.Endings.{refusal_of};
ghost use Rattle.fw_explore_meaning.specs.Finishing.{CarriedAfter, IsFinished};
ghost use Rattle.fw_explore_meaning.specs.Moves.{Subsequent};
ghost use Rattle.fw_explore_meaning.specs.Pasts.{LeadsAt};
ghost use Rattle.fw_explore_meaning.specs.Steps.{Had, IsExplored, IsPlaced};

use crate::keeper::Keeper;
use crate::names::rule_name;
use crate::step::Walker;
use fw_bus::RuleFault;
use fw_explore_movers::{Explored, Line};
use fw_explore_told::{Past, put_left, put_said};
use fw_kept_parts::Full;
use fw_tape::Desk;
use std::alloc::AllocError;

/// What is told of an interleaving, and the lines that were carried out after it.
#[derive(Drop)]
pub(crate) struct Finish {
    pub(crate) ending: Vec<u8>,
    pub(crate) lines: Vec<u8>,
}

// Appends a line that a rule refused.
fn put_refused(out: &mut Vec<u8>, rule: RuleFault, line: &Line) -> Result<(), AllocError>
    ensures { OnOk result (out.new.items ≡ out.old.items ++ refusal_of rule line.now) }
{
    out.extend_from_slice(b"# refused ")?;
    out.extend_from_slice(rule_name(rule))?;
    out.extend_from_slice(b": ")?;
    out.extend_from_slice(line.text.as_slice())?;
    out.extend_from_slice(b"\n")
}

// Appends a line as it stands in a script.
fn put_line(out: &mut Vec<u8>, line: &Line) -> Result<(), AllocError>
    ensures { OnOk result (out.new.items ≡ out.old.items ++ (line.now.text.items ++ 10 ∷ [])) }
{
    out.extend_from_slice(line.text.as_slice())?;
    out.extend_from_slice(b"\n")
}

impl<P: Keeper> Walker<P> {
    // Carries out the lines after an interleaving, where the bus is.
    fn carry_after<F: Fn(u16, u32, u16) -> [u8; 480], H: Fn(u32, u8) -> u8>(
        &mut self,
        following: &[Line],
        past: &mut Past,
        refused: &mut Vec<u8>,
        lines: &mut Vec<u8>,
        desk: &Desk<F, H>,
    ) -> Result<(), Full>
        requires blocks { AnyBlock (F.pre desk.now.blocks) }
        requires desk { AnyVendorByte (H.pre desk.now.vendor) }
        requires following { All (λ l. IsCommand l.command) following.now }
        requires fresh { IsFalse self.old.kept.bus.spent }
        ensures carried { (script commands : List ACommand) (out : List TimedEntry) (s : State)
            → Subsequent (record { blocks = F.post desk.now.blocks; vendor = H.post desk.now.vendor }) script commands out s → StandsFor self.old.kept.bus.machine s
            → IfOk result (λ u. CarriedAfter (record { blocks = F.post desk.now.blocks; vendor = H.post desk.now.vendor }) script commands following.now past.old past.new
            refused.old.items refused.new.items lines.old.items lines.new.items) }
        ensures pasts { self.new.pasts ≡ self.old.pasts }
        ensures places { self.new.kept.places ≡ self.old.kept.places }
        ensures here { self.new.here ≡ self.old.here }
    {
        for line in following {
            match self.kept.carry(&mut self.sink, &line.command, desk)? {
                None => {
                    past.tell(self.sink.as_slice())?;
                    put_line(lines, line)?;
                }
                Some(rule) => put_refused(refused, rule, line)?,
            }
        }
        Ok(())
    }

    /// The ending of an interleaving that ends here.
    pub(crate) fn finish<F: Fn(u16, u32, u16) -> [u8; 480], H: Fn(u32, u8) -> u8>(
        &mut self,
        explored: &Explored,
        desk: &Desk<F, H>,
    ) -> Result<Finish, Full>
        requires blocks { AnyBlock (F.pre desk.now.blocks) }
        requires desk { AnyVendorByte (H.pre desk.now.vendor) }
        requires explored { IsExplored explored.now }
        requires here { IsPlaced (Had self.old.pasts) (P.Kept self.old.kept.places) self.old.here.items }
        ensures finished { (script : List ACommand) (w : List ℕ)
            → LeadsAt (record { blocks = F.post desk.now.blocks; vendor = H.post desk.now.vendor }) script explored.now (Had self.old.pasts) (P.Kept self.old.kept.places) w self.old.here.items
            → IfOk result (λ f. IsFinished (record { blocks = F.post desk.now.blocks; vendor = H.post desk.now.vendor }) script explored.now w f.ending.items f.lines.items) }
        ensures pasts { self.new.pasts ≡ self.old.pasts }
        ensures places { self.new.kept.places ≡ self.old.kept.places }
        ensures here { self.new.here ≡ self.old.here }
    {
        let mut past = self.past().copied(self.alloc)?;
        self.kept.give_back(&self.here[2..])?;
        let mut refused = Vec::new(self.alloc);
        let mut lines = Vec::new(self.alloc);
        let following = explored.following.as_slice();
        self.carry_after(following, &mut past, &mut refused, &mut lines, desk)?;
        let ending = self.ending_of(explored, &past, refused.as_slice())?;
        Ok(Finish { ending, lines })
    }

    // The text of an ending.
    fn ending_of(
        &self,
        explored: &Explored,
        past: &Past,
        refused: &[u8],
    ) -> Result<Vec<u8>, AllocError>
        requires { length explored.now.movers.items ≤ 32 }
        ensures { IfOk result (λ t. t.items ≡ said_all past.now.said ++ unmarked_from past.now.done 0 explored.now.movers.items ++ refused.now) }
    {
        let mut ending = Vec::new(self.alloc);
        put_said(&mut ending, &self.pairs, past.said())?;
        put_left(&mut ending, explored.movers.as_slice(), past.done())?;
        ending.extend_from_slice(refused)?;
        Ok(ending)
    }
}
