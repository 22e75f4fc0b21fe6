//! Requests of controllers: the register that one is at, the plug that it addresses, its end.

ghost use Rattle.std.specs.Prelude.{◌≡◌, ◌<◌, IfSome, Some};
ghost use Rattle.std.specs.Option.{option_map};
ghost use Rattle.fw_model_account.specs.Account.{Account, Request};
ghost use Rattle.fw_model_account.specs.Packets.{addressed_after, ended};
ghost use Rattle.fw_model_account.specs.Words.{output_of, output_addressed, register_of};
ghost use Rattle.fw_account_tables.specs.Stands.{Stands, StandsFor, AskedFor, plug_of};
ghost use Rattle.fw_account_tables.specs.Swaps.{IsThere, register_named};

use crate::output::is_plug;
use crate::place::{plug_number, row_at};
use crate::register::Register;
use crate::tables::{Addressed, Asked, Tables};
use fw_csr::REGISTER_SPACE;
use fw_csr::low_offset::OPCR;
use fw_log_entry::NodeRow;
use fw_terms::PlugAt;

// The output plug whose register stands at an address of this node, also if the node has no such plug.
fn output_of(row: Option<NodeRow>, offset: u64) -> Option<PlugAt>
    ensures { result ≡ output_of row offset }
{
    let row = row?;
    let plug = plug_number(OPCR, offset)?;
    Some(PlugAt {
        device: row.device,
        plug,
    })
}

impl Tables {
    /// The register of the account at which a request is.
    #[inline(always)]
    pub fn register_asked(&self, asked: Asked) -> Option<Register>
        requires stands { Stands self.now }
        ensures register { (l : Account) (q : Request) → StandsFor self.now l → AskedFor asked (Some q) → option_map register_named result ≡ register_of l.latest q.target q.address }
        ensures there { IfSome result (λ register. IsThere register self.now) }
    {
        match asked {
            Asked::Nothing => None,
            Asked::Read { target, address } => self.register_at(target, address),
            Asked::Swap {
                target,
                address,
                ..
            } => self.register_at(target, address),
            Asked::Lock {
                target,
                address,
                ..
            } => self.register_at(target, address),
        }
    }

    // The output plug that a request is at.
    #[inline(always)]
    fn output_addressed(&self, target: u16, address: u64) -> Option<PlugAt>
        ensures { (l : Account) → StandsFor self.now l → result ≡ output_addressed l.latest target address }
    {
        if address < REGISTER_SPACE {
            return None;
        }
        output_of(
            row_at(self.nodes.as_slice(), target),
            address - REGISTER_SPACE,
        )
    }

    /// The output plug that controller `c` last addressed, once it sends a request to this address of the node with the ID `target`: the
    /// plug whose register stands there, also if the node has no such plug, unless `c` has a Pending allocation.
    #[inline(always)]
    pub fn addressed_after(&self, c: u8, target: u16, address: u64) -> Addressed
        requires stands { Stands self.now }
        requires within { c < 63 }
        ensures { (l : Account) → StandsFor self.now l → plug_of result ≡ addressed_after c (output_addressed l.latest target address) l c }
    {
        let latest = self.latest_addressed(c);
        let plug = match self.output_addressed(target, address) {
            Some(plug) => plug,
            None => return latest,
        };
        // The same plug again, as mostly, needs no search of the channels.
        if is_plug(latest, plug) {
            return latest;
        }
        if self.holds(c) {
            return latest;
        }
        Addressed::Plug(plug)
    }

    /// The request of controller `c` has ended.
    pub fn end(&mut self, c: u8)
        requires stands { Stands self.old }
        requires controller { c < 63 }
        ensures { (l : Account) → StandsFor self.old l → StandsFor self.new (ended c l) }
    {
        self.asked[usize::from(c)] = Asked::Nothing;
    }
}
