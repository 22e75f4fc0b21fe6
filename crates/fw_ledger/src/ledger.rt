ghost use Rattle.std.specs.Prelude.{◌≡◌, ◌↔◌, ◌+◌, ◌-◌, ◌*◌, ◌/◌, ◌%◌, ◌^◌, ◌<◌, ℕ, IfOk, IfErr, IfSome, IsOkAnd, Some, None, is_some, if◌then◌else◌, ⊤, IsTrue, IsFalse};
ghost use Rattle.std.specs.Option.{option_map};
ghost use Rattle.fw_log_entry.specs.Log.{Fits, ResetFits};
ghost use Rattle.fw_log_entry.specs.declared.entry.ResetEntry.{ResetEntry as AReset};
ghost use Rattle.fw_log_entry.specs.Network.{device_of_id};
ghost use Rattle.fw_model_account.specs.Account.{Account, Operation, is_open};
ghost use Rattle.fw_model_account.specs.Decode.{move_at};
ghost use Rattle.fw_model_account.specs.Events.{after_reset};
ghost use Rattle.fw_model_account.specs.Fold.{no_account, next_account};
ghost use Rattle.fw_model_account.specs.Network.{is_output, is_input};
ghost use Rattle.fw_model_account.specs.Packets.{asked_by, ended};
ghost use Rattle.fw_model_account.specs.Words.{BandwidthAvailable, ChannelsAvailable, OutputPlug, InputPlug, word_of, register_of, id_in};
ghost use Rattle.fw_model_audit.specs.Looked.{Asks, looked};
ghost use Rattle.fw_ledger.specs.Resets.{HasNoNewOutput};
ghost use Rattle.fw_account_tables.specs.Stands.{Stands, StandsFor, AskedFor, Follows};
ghost use Rattle.fw_account_tables.specs.Swaps.{IsThere, register_named, moved_by};
ghost use Rattle.fw_ledger.specs.Refused.{GoesOn, IsRefusedFor, ShowsAnswer, Takes};

use crate::answer::Answer;
use crate::entry::take_entry;
use crate::packet::take_request;
use crate::refused::Refused;
use crate::renew::id_of_device;
use crate::reset::take_bus;
use fw_account_tables::{Asked, Register, Tables};
use fw_log_entry::{Entry, NodeRow, Timed};
use fw_plug::{InWord, OutWord};
use fw_terms::PlugAt;
use fw_words::Swap;
use std::alloc::{AllocError, Global};
use std::marker::Model;

/// The account of the entries that were taken so far. It stands for one account at least at each moment, and what it
/// tells is what each of them says.
#[derive(Drop)]
pub struct Ledger {
    tables: Tables,
}

impl Model for Ledger {
    ghost use Rattle.fw_account_tables.specs.declared.tables.Tables.{Tables};
    ghost use Rattle.fw_account_tables.specs.Stands.{Stands};

    ghost Value = { Tables };

    ghost view = { λ s. s.tables };

    ghost invariant = { λ s. Stands s.tables };
}

impl Ledger {
    /// The ledger of no entries. All memory is taken here.
    pub fn new(alloc: Global) -> Result<Ledger, AllocError>
        ensures { IfOk result (λ l. StandsFor l no_account) }
    {
        Ok(Ledger {
            tables: Tables::new(alloc)?,
        })
    }

    /// Takes an entry, and answers with the response that it is, if it is one of a procedure. It is refused, and the ledger
    /// unchanged, exactly if the account has no next one, and for the reason that holds. No memory is taken.
    pub fn take_entry(&mut self, e: &Entry) -> Result<Option<Answer>, Refused>
        requires fits { Fits e.now }
        ensures taken { (l : Account) → StandsFor self.old l → IfOk result (λ a. GoesOn self.new (next_account l e.now) × ShowsAnswer l (looked e.now) a) }
        ensures refused { (l : Account) → StandsFor self.old l → IfErr result (λ f. (next_account l e.now ≡ None) × (self.new ≡ self.old) × IsRefusedFor l (looked e.now) f) }
    {
        take_entry(&mut self.tables, e)
    }

    /// Takes an entry, as `take_entry`, and answers whether it was taken. No memory is taken.
    pub fn take(&mut self, t: &Timed) -> Result<bool, AllocError>
        requires fits { Fits t.now.what }
        ensures taken { (l : Account) → StandsFor self.old l → IsOkAnd result (λ taken. Follows taken self.old self.new (next_account l t.now.what)) }
        ensures memory { IfErr result (λ e. self.new ≡ self.old) }
    {
        Ok(self.take_entry(&t.what).is_ok())
    }

    /// Takes a bus reset of which the nodes and the resource manager are known, and not the self-ID packets, as `take_entry` takes its
    /// entry. It is not taken, and nothing is changed, if a device has more output plugs than before it: a new plug begins with the
    /// speed of its device. No memory is taken.
    pub fn take_bus(&mut self, manager: Option<u8>, nodes: &[NodeRow]) -> bool
        requires fits { (r : AReset) × ResetFits r × (r.manager ≡ manager) × (r.nodes ≡ nodes.now) }
        ensures taken { IsTrue result → (l : Account) (r : AReset) → StandsFor self.old l → ResetFits r → r.manager ≡ manager → r.nodes ≡ nodes.now
            → StandsFor self.new (after_reset r l) }
        ensures exactly { (l : Account) → StandsFor self.old l → IsTrue result ↔ HasNoNewOutput l.latest nodes.now }
        ensures kept { IsFalse result → self.new ≡ self.old }
    {
        take_bus(&mut self.tables, manager, nodes)
    }

    /// A request of the node with the ID `source`, for what `asked` says at an address of another: as `take_entry` takes the packet that
    /// asks it, with the label of procedures. If it is refused the ledger is unchanged. No memory is taken.
    #[inline(always)]
    pub fn take_request(
        &mut self,
        source: u16,
        target: u16,
        address: u64,
        asked: Asked,
    ) -> Result<(), Refused>
        requires asked { (operation : Operation) × AskedFor asked (Some (record { target = target; address = address; operation = operation })) }
        ensures { (l : Account) (operation : Operation) → StandsFor self.old l → AskedFor asked (Some (record { target = target; address = address; operation = operation }))
            → Takes result (λ done. ⊤) self.old self.new (asked_by (device_of_id l.latest source) (record { target = target; address = address; operation = operation }) l) (IsRefusedFor l (Asks source)) }
    {
        take_request(&mut self.tables, source, target, address, asked)
    }

    /// The outstanding request of the controller of this device has ended, and changed no register.
    pub fn end(&mut self, device: u8)
        requires { device < 63 }
        ensures { (l : Account) → StandsFor self.old l → StandsFor self.new (ended device l) }
    {
        self.tables.end(device);
    }

    /// The controller of this device swaps a register of the account. It is refused, and the ledger unchanged, if that is no move.
    pub fn swap(&mut self, device: u8, register: Register, s: Swap) -> bool
        requires device { device < 63 }
        requires there { IsThere register self.old }
        ensures { (l : Account) → StandsFor self.old l → Follows result self.old self.new (moved_by device (move_at l device (register_named register) s.argument s.new) l) }
    {
        self.tables.swap(device, register, s)
    }

    /// The tables, to be looked at: what they have at a plug counts only if the latest reset entry has the plug, and what may be
    /// allocated again only while a reclaim second runs.
    pub fn tables(&self) -> &Tables
        ensures same { result.now ≡ self.now }
        ensures stands { Stands result.now }
    {
        &self.tables
    }

    /// The units that are left: BANDWIDTH_AVAILABLE.
    pub fn remainder(&self) -> u32
        ensures { (l : Account) → StandsFor self.now l → result ≡ word_of l BandwidthAvailable }
    {
        self.tables.left
    }

    /// The channels that are open: CHANNELS_AVAILABLE_HI in the upper 32 bits, LO in the lower. Bit 63 - c is 1 exactly if
    /// channel c is free and the bus does not withhold it.
    pub fn free_channels(&self) -> u64
        ensures words { (l : Account) → StandsFor self.now l → result ≡ word_of l (ChannelsAvailable 0) * 2 ^ 32 + word_of l (ChannelsAvailable 32) }
        ensures bits { (l : Account) (ch : ℕ) → StandsFor self.now l → ch < 64 → (result / 2 ^ (63 - ch)) % 2 ≡ (if is_open l.withheld l.allocations ch then 1 else 0) }
    {
        (u64::from(self.tables.high) << 32) + u64::from(self.tables.low)
    }

    /// The word of an output plug's register. None exactly if the latest reset entry has no such plug.
    pub fn out_word(&self, p: PlugAt) -> Option<OutWord>
        ensures { (l : Account) → StandsFor self.now l → result ≡ (if is_output l.latest p then Some (record { 0 = word_of l (OutputPlug p) }) else None) }
    {
        Some(OutWord(self.tables.out_word(p)?))
    }

    /// The word of an input plug's register. None exactly if the latest reset entry has no such plug.
    pub fn in_word(&self, p: PlugAt) -> Option<InWord>
        ensures { (l : Account) → StandsFor self.now l → result ≡ (if is_input l.latest p then Some (record { 0 = word_of l (InputPlug p) }) else None) }
    {
        Some(InWord(self.tables.in_word(p)?))
    }

    /// Whether a reset entry was taken.
    pub fn has_reset(&self) -> bool
        ensures { (l : Account) → StandsFor self.now l → result ≡ is_some l.latest }
    {
        self.tables.started
    }

    /// Whether a reclaim second runs.
    pub fn reclaims(&self) -> bool
        ensures { (l : Account) → StandsFor self.now l → result ≡ l.reclaiming }
    {
        self.tables.reclaiming
    }

    /// The device that has a node ID. None exactly if the latest reset entry has no such node.
    pub fn device(&self, id: u16) -> Option<u8>
        ensures device { (l : Account) → StandsFor self.now l → result ≡ device_of_id l.latest id }
        ensures within { IfSome result (λ d. d < 63) }
    {
        self.tables.device(id)
    }

    /// The node ID of a device. None exactly if it is no node of the latest reset entry.
    pub fn id(&self, device: u8) -> Option<u16>
        ensures { (l : Account) → StandsFor self.now l → result ≡ id_in l.latest device }
    {
        id_of_device(self.tables.nodes.as_slice(), device)
    }

    /// The request of the controller of this device that is outstanding.
    pub fn outstanding(&self, device: u8) -> Asked
        requires { device < 63 }
        ensures { (l : Account) → StandsFor self.now l → AskedFor result (l.outstanding device) }
    {
        self.tables.outstanding(device)
    }

    /// The word of the register of the account that stands at an address of a node. None exactly if none does.
    pub fn word(&self, id: u16, address: u64) -> Option<u32>
        ensures { (l : Account) → StandsFor self.now l → result ≡ option_map (word_of l) (register_of l.latest id address) }
    {
        let register = self.tables.register_at(id, address)?;
        Some(self.tables.word(register))
    }
}
