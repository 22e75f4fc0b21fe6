//! The latest bus reset of a log: mostly the next one tells the same, but for its epoch, and then it need not be read again.
#![tactic(auto)]

mod bus;

ghost use Rattle.std.specs.Prelude.{◌≡◌, ◌≤◌, IsTrue, OnOk, drop, length};
ghost use Rattle.fw_log_entry.specs.Log.{ResetFits, body};
ghost use Rattle.fw_log_entry.specs.declared.entry.Entry.TheVariants.{Reset};
ghost use Rattle.fw_log_entry.specs.declared.entry.ResetEntry.{ResetEntry as AReset};
ghost use Rattle.fw_log_latest.specs.Latest.{IsBusOf, TellsBus};

pub use bus::read_bus;
use fw_log_entry::{NodeList, ResetEntry};
use fw_phy::SelfIds;
use fw_words::quadlet_at;
use std::alloc::{AllocError, Global};
use std::marker::Model;

/// How many bytes of a body the epoch takes, which comes first.
const EPOCH_SIZE: usize = 4;

/// The latest bus reset, if one was taken, but for its root and its self-ID packets, and the bytes of its body after its epoch. Contracts see
/// the bus reset.
#[derive(Drop)]
pub struct LatestReset {
    is_kept: bool,
    later: Vec<u8>,
    entry: Box<ResetEntry>,
}

impl Model for LatestReset {
    ghost use Rattle.std.specs.Prelude.{IsTrue};
    ghost use Rattle.fw_log_entry.specs.declared.entry.ResetEntry.{ResetEntry};
    ghost use Rattle.fw_log_latest.specs.Latest.{TellsBus};

    ghost Value = { ResetEntry };

    ghost view = { λ l. l.entry.value };

    ghost invariant = { λ l. IsTrue l.is_kept → TellsBus l.entry.value l.later.items };
}

// The bytes come after the epoch of a body.
fn ends_body(later: &[u8], body: &[u8]) -> bool
    requires { 4 ≤ length body.now }
    ensures { IsTrue result → later.now ≡ drop 4 body.now }
{
    later == &body[EPOCH_SIZE..]
}

impl LatestReset {
    /// None was taken. An error says that memory ran out, and comes for nothing else.
    pub fn new(alloc: Global) -> Result<LatestReset, AllocError> {
        let entry = ResetEntry {
            epoch: 0,
            root: 0,
            manager: None,
            initiator: 0,
            nodes: NodeList::new(),
            ids: SelfIds::new(),
        };
        Ok(LatestReset {
            is_kept: false,
            later: Vec::new(alloc),
            entry: Box::new(alloc, entry)?,
        })
    }

    // Takes the epoch alone of a bus reset, if these bytes of its body come after it in that of the latest, too.
    fn renew(&mut self, bytes: &[u8]) -> bool
        requires { (r : AReset) × ResetFits r × (body (Reset r) ≡ bytes.now) }
        ensures { IsTrue result → (r : AReset) → ResetFits r → body (Reset r) ≡ bytes.now → IsBusOf r self.new }
    {
        if !self.is_kept || !ends_body(self.later.as_slice(), bytes) {
            return false;
        }
        self.entry.epoch = quadlet_at(bytes, 0).0;
        true
    }

    // Takes a bus reset that has other nodes.
    fn read(&mut self, bytes: &[u8]) -> Result<(), AllocError>
        requires { (r : AReset) × ResetFits r × (body (Reset r) ≡ bytes.now) }
        ensures { (r : AReset) → ResetFits r → body (Reset r) ≡ bytes.now → OnOk result (IsBusOf r self.new) }
    {
        self.is_kept = false;
        self.later.clear();
        self.later.extend_from_slice(&bytes[EPOCH_SIZE..])?;
        read_bus(&mut self.entry, bytes);
        self.is_kept = true;
        Ok(())
    }

    /// Takes the bus reset whose body these bytes are, in place of the one before. No fault is looked for. An error says that memory ran
    /// out, and comes for nothing else.
    pub fn take(&mut self, bytes: &[u8]) -> Result<(), AllocError>
        requires { (r : AReset) × ResetFits r × (body (Reset r) ≡ bytes.now) }
        ensures { (r : AReset) → ResetFits r → body (Reset r) ≡ bytes.now → OnOk result (IsBusOf r self.new) }
    {
        if self.renew(bytes) {
            return Ok(());
        }
        self.read(bytes)
    }

    /// The bus reset that was taken last; its root and its self-ID packets are any.
    pub fn get(&self) -> &ResetEntry
        ensures { result.now ≡ self.now }
    {
        &self.entry
    }
}
