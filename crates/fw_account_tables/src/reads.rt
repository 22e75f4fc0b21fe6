//! What the tables tell of controllers.

ghost use Rattle.std.specs.Prelude.{◌≡◌, ◌<◌, IfSome, Some, None, is_some, length, if◌then◌else◌};
ghost use Rattle.fw_log_entry.specs.Network.{device_of_id};
ghost use Rattle.fw_model_account.specs.Account.{Account, has_pending};
ghost use Rattle.fw_model_account.specs.Network.{is_output, is_input};
ghost use Rattle.fw_model_account.specs.Words.{OutputPlug, InputPlug, word_of};
ghost use Rattle.fw_account_tables.specs.Stands.{Stands, StandsFor, AskedFor, plug_of, is_asked, addressed_at, asked_at, device_at};

use crate::place::{has_plug, pending_channel, row_at, word_at};
use crate::tables::{Addressed, Asked, Tables};
use fw_log_entry::NodeRow;
use fw_terms::PlugAt;

// The device that has a node ID.
fn device_at(nodes: &[NodeRow], id: u16) -> Option<u8>
    ensures { result ≡ device_at nodes.now id }
{
    match row_at(nodes, id) {
        Some(row) => Some(row.device),
        None => None,
    }
}

// What controller `c` addressed.
fn addressed_at(plugs: &[Addressed], c: u8) -> Addressed
    requires { c < length plugs.now }
    ensures { result ≡ addressed_at plugs.now c }
{
    plugs[usize::from(c)]
}

// What controller `c` asked.
fn asked_at(requests: &[Asked], c: u8) -> Asked
    requires { c < length requests.now }
    ensures { result ≡ asked_at requests.now c }
{
    requests[usize::from(c)]
}

// Whether there is a request.
fn is_asked(asked: Asked) -> bool
    ensures { result ≡ is_asked asked }
{
    !matches!(asked, Asked::Nothing)
}

impl Tables {
    /// The device that has a node ID.
    pub fn device(&self, id: u16) -> Option<u8>
        requires stands { Stands self.now }
        ensures device { (l : Account) → StandsFor self.now l → result ≡ device_of_id l.latest id }
        ensures within { IfSome result (λ d. d < 63) }
    {
        device_at(self.nodes.as_slice(), id)
    }

    /// Whether controller `c` has a Pending allocation.
    pub fn holds(&self, c: u8) -> bool
        requires stands { Stands self.now }
        ensures { (l : Account) → StandsFor self.now l → result ≡ has_pending c l.allocations }
    {
        pending_channel(&self.charges, c, self.end_of_used()).is_some()
    }

    /// The output plug that controller `c` last addressed.
    pub fn latest_addressed(&self, c: u8) -> Addressed
        requires stands { Stands self.now }
        requires within { c < 63 }
        ensures { (l : Account) → StandsFor self.now l → plug_of result ≡ l.addressed c }
    {
        addressed_at(&self.addressed, c)
    }

    /// The request of controller `c` that is outstanding.
    pub fn outstanding(&self, c: u8) -> Asked
        requires stands { Stands self.now }
        requires within { c < 63 }
        ensures { (l : Account) → StandsFor self.now l → AskedFor result (l.outstanding c) }
    {
        asked_at(&self.asked, c)
    }

    /// Whether controller `c` has an outstanding request.
    pub fn is_busy(&self, c: u8) -> bool
        requires stands { Stands self.now }
        requires within { c < 63 }
        ensures { (l : Account) → StandsFor self.now l → result ≡ is_some (l.outstanding c) }
    {
        is_asked(self.outstanding(c))
    }

    /// The word of an output plug's register, if the latest reset entry has the plug.
    pub fn out_word(&self, p: PlugAt) -> Option<u32>
        requires stands { Stands self.now }
        ensures { (l : Account) → StandsFor self.now l → result ≡ (if is_output l.latest p then Some (word_of l (OutputPlug p)) else None) }
    {
        if !has_plug(&self.outs, p) {
            return None;
        }
        Some(word_at(&self.outputs, p))
    }

    /// The word of an input plug's register, if the latest reset entry has the plug.
    pub fn in_word(&self, p: PlugAt) -> Option<u32>
        requires stands { Stands self.now }
        ensures { (l : Account) → StandsFor self.now l → result ≡ (if is_input l.latest p then Some (word_of l (InputPlug p)) else None) }
    {
        if !has_plug(&self.ins, p) {
            return None;
        }
        Some(word_at(&self.inputs, p))
    }
}
