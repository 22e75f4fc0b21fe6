//! The lines of a log, entry by entry.

ghost use Rattle.std.specs.Prelude.{◌≡◌, ◌++◌, ◌∷◌, [], List, false, IfOk, IsTrue, OnOk, OnErr, drop};
ghost use Rattle.fw_async.specs.Reader.{IsPacket, Spells};
ghost use Rattle.fw_async.specs.declared.packet.Packet.{Packet};
ghost use Rattle.fw_log_entry.specs.Log.{ResetFits, body};
ghost use Rattle.fw_log_entry.specs.declared.entry.Entry.TheVariants.{Async, Iso, Reset};
ghost use Rattle.fw_log_entry.specs.declared.entry.ResetEntry.{ResetEntry as AReset};
ghost use Rattle.fw_log_entry.specs.declared.entry.Timed.{Timed};
ghost use Rattle.fw_log_requests.specs.Requests.{standing, standing_after, standing_following};
ghost use Rattle.fw_log_explain.specs.Lines.{line};
ghost use Rattle.fw_log_explain.specs.Explained.{explained};

use crate::latest::LatestReset;
use crate::lines::Lines;
use crate::usual::put_usual;
use fw_async::whole_packet;
use fw_async_glance::glance_at;
use fw_cip::IsoPacket;
use fw_log_entry::{Entry, ResetEntry, Timed};
use fw_log_requests::Requests;
use std::alloc::{AllocError, Global};
use std::marker::Model;

/// The lines that were appended, and the outstanding requests after the entries that were taken. Its memory is made once and kept, so
/// that a line costs no memory of its own. Contracts see it as the bytes of its lines and the list of those requests.
#[derive(Drop)]
pub struct Explainer {
    lines: Lines,
    requests: Box<Requests>,
    latest: LatestReset,
}

impl Model for Explainer {
    ghost use Rattle.fw_log_explain.specs.Explained.{ExplainerState};

    ghost Value = { ExplainerState };

    ghost view = { λ e. record { text = e.lines; requests = e.requests.value } };
}

impl Explainer {
    /// Room for the lines of 4,096 bytes of a log; no request is outstanding. An error says that memory ran out.
    pub fn new(alloc: Global) -> Result<Explainer, AllocError>
        ensures { IfOk result (λ e. e ≡ record { text = []; requests = [] }) }
    {
        Ok(Explainer {
            lines: Lines::new(alloc)?,
            requests: Box::new(alloc, Requests::new())?,
            latest: LatestReset::new(alloc)?,
        })
    }

    /// All lines, each with its line feed.
    pub fn as_slice(&self) -> &[u8]
        ensures { result.now ≡ self.now.text }
    {
        self.lines.as_slice()
    }

    /// Drops all lines, and keeps the memory and the outstanding requests.
    pub fn clear(&mut self)
        ensures { self.new ≡ record self.old { text = [] } }
    {
        self.lines.clear();
    }

    /// Appends the line of the next entry of a log, with its line feed. After the entries that were taken before, the line is what
    /// the definition gives for them and the entry, and the outstanding requests are then those after the entry too. An error says that
    /// memory ran out, and comes for nothing else; there are no lines then, and the outstanding requests are those before.
    #[tactic(auto, using(fw_log_explain::proofs::StandingLaws::standing_more))]
    pub fn put(&mut self, t: &Timed) -> Result<(), AllocError>
        ensures line { OnOk result (self.new.text ≡ self.old.text ++ line self.old.requests t.now) }
        ensures requests { OnOk result (self.new.requests ≡ standing_after t.now.what self.old.requests) }
        ensures explained { (before : List Timed) → self.old.requests ≡ standing before → OnOk result (self.new.text ≡ self.old.text ++ explained before (t.now ∷ [])) }
        ensures following { (before : List Timed) → self.old.requests ≡ standing before → OnOk result (self.new.requests ≡ standing (before ++ t.now ∷ [])) }
        ensures emptied { OnErr result (self.new ≡ record self.old { text = [] }) }
    {
        match self.lines.put(&self.requests, t) {
            Ok(()) => {
                self.requests.take(&t.what);
                Ok(())
            }
            Err(error) => {
                self.lines.clear();
                Err(error)
            }
        }
    }

    // Appends the line of an asynchronous packet from its bytes, and takes it.
    #[inline(always)]
    fn put_bytes(&mut self, cycle: u64, bytes: &[u8]) -> Result<(), AllocError>
        requires { IsPacket bytes.now }
        ensures line { (p : Packet) → Spells p bytes.now → OnOk result (self.new.text ≡ self.old.text ++ line self.old.requests (record { cycle = cycle; what = Async p })) }
        ensures requests { (p : Packet) → Spells p bytes.now → OnOk result (self.new.requests ≡ standing_following p self.old.requests) }
        ensures kept { OnErr result (self.new.requests ≡ self.old.requests) }
    {
        let glance = glance_at(bytes);
        let is_put = put_usual(&mut self.lines, &mut self.requests, cycle, glance)?;
        if is_put {
            return Ok(());
        }
        self.put(&Timed {
            cycle,
            what: Entry::Async(whole_packet(bytes)),
        })
    }

    /// Appends the line of an asynchronous packet of this cycle, as `put` does, from the packet's bytes.
    pub fn put_packet_from(&mut self, cycle: u64, bytes: &[u8]) -> Result<(), AllocError>
        requires { IsPacket bytes.now }
        ensures line { (p : Packet) → Spells p bytes.now → OnOk result (self.new.text ≡ self.old.text ++ line self.old.requests (record { cycle = cycle; what = Async p })) }
        ensures requests { (p : Packet) → Spells p bytes.now → OnOk result (self.new.requests ≡ standing_following p self.old.requests) }
        ensures emptied { OnErr result (self.new ≡ record self.old { text = [] }) }
    {
        match self.put_bytes(cycle, bytes) {
            Ok(()) => Ok(()),
            Err(error) => {
                self.lines.clear();
                Err(error)
            }
        }
    }

    /// Appends the line of an isochronous packet of this cycle, as `put` does.
    #[inline(always)]
    #[tactic(auto, unfolding(fw_log_explain::specs::Lines::what_text))]
    pub fn put_iso_from(&mut self, cycle: u64, p: &IsoPacket) -> Result<(), AllocError>
        ensures line { OnOk result (self.new.text ≡ self.old.text ++ line self.old.requests (record { cycle = cycle; what = Iso p.now })) }
        ensures requests { OnOk result (self.new.requests ≡ self.old.requests) }
        ensures emptied { OnErr result (self.new ≡ record self.old { text = [] }) }
    {
        match self.lines.put_iso(cycle, p) {
            Ok(()) => Ok(()),
            Err(error) => {
                self.lines.clear();
                Err(error)
            }
        }
    }

    // Keeps a bus reset as the latest, and appends its line.
    fn put_kept(&mut self, cycle: u64, r: &ResetEntry, later: &[u8]) -> Result<(), AllocError>
        requires fits { ResetFits r.now }
        requires later { drop 4 (body (Reset r.now)) ≡ later.now }
        ensures line { OnOk result (self.new.text ≡ self.old.text ++ line self.old.requests (record { cycle = cycle; what = Reset r.now })) }
        ensures requests { self.new.requests ≡ self.old.requests }
    {
        self.latest.keep(r, later)?;
        self.lines.put_latest(cycle, r.epoch, &self.latest)
    }

    /// Appends the line of a bus reset of this cycle, as `put` does, and keeps what it tells; the bytes are those of its body after
    /// its epoch.
    pub fn put_reset_from(
        &mut self,
        cycle: u64,
        r: &ResetEntry,
        later: &[u8],
    ) -> Result<(), AllocError>
        requires fits { ResetFits r.now }
        requires later { drop 4 (body (Reset r.now)) ≡ later.now }
        ensures line { OnOk result (self.new.text ≡ self.old.text ++ line self.old.requests (record { cycle = cycle; what = Reset r.now })) }
        ensures requests { OnOk result (self.new.requests ≡ []) }
        ensures emptied { OnErr result (self.new ≡ record self.old { text = [] }) }
    {
        match self.put_kept(cycle, r, later) {
            Ok(()) => {
                self.requests.clear();
                Ok(())
            }
            Err(error) => {
                self.lines.clear();
                Err(error)
            }
        }
    }

    /// Appends the line of a bus reset of this cycle, as `put` does, if the bytes of its body after its epoch are those of the bus
    /// reset that `put_reset_from` told last, and answers whether it did. No request is outstanding then.
    pub fn put_reset_again(
        &mut self,
        cycle: u64,
        epoch: u32,
        later: &[u8],
    ) -> Result<bool, AllocError>
        ensures line { IfOk result (λ known. IsTrue known → (r : AReset) × ResetFits r × (drop 4 (body (Reset r)) ≡ later.now)
            × (self.new.text ≡ self.old.text ++ line self.old.requests (record { cycle = cycle; what = Reset (record r { epoch = epoch }) }))) }
        ensures requests { IfOk result (λ known. IsTrue known → self.new.requests ≡ []) }
        ensures other { IfOk result (λ known. known ≡ false → self.new ≡ self.old) }
        ensures emptied { OnErr result (self.new ≡ record self.old { text = [] }) }
    {
        if !self.latest.is(later) {
            return Ok(false);
        }
        match self.lines.put_latest(cycle, epoch, &self.latest) {
            Ok(()) => {
                self.requests.clear();
                Ok(true)
            }
            Err(error) => {
                self.lines.clear();
                Err(error)
            }
        }
    }
}
