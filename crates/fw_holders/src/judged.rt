//! How much of a log was judged.

ghost use Rattle.std.specs.Prelude.{◌≡◌, ◌<◌, ◌+◌, ◌^◌, ℕ, Some, None, is_some, if◌then◌else◌};
ghost use Rattle.fw_model_account.specs.Account.{Account, Request};
ghost use Rattle.fw_model_audit.specs.Judged.{watched_offset};
ghost use Rattle.fw_model_audit.specs.Looked.{Response, looked};
ghost use Rattle.fw_account_tables.specs.Stands.{AskedFor};
ghost use Rattle.fw_ledger.specs.Refused.{ShowsAnswer};
ghost use Rattle.fw_holders.specs.Counts.{none_judged, swap_judged, operation_judged, answer_judged, entry_judged, IsWithin};
ghost use Rattle.fw_holders.specs.Table.{is_nothing};

use crate::moves::shows;
use fw_account_tables::Asked;
use fw_audit::{is_watched, watched_offset};
use fw_ledger::Answer;
use fw_log_entry::Entry;

/// How much of a log was judged.
#[derive(Clone, Copy)]
pub(crate) struct Judged {
    /// Complete responses to reads at watched registers.
    pub reads: u64,
    /// Complete responses to swaps of watched registers, which showed their argument.
    pub made: u64,
    /// Those that showed another word.
    pub unmade: u64,
    /// Shown words of watched registers.
    pub shown: u64,
    /// Bus resets.
    pub resets: u64,
}

impl Judged {
    /// Nothing.
    pub(crate) fn nothing() -> Judged
        ensures { result ≡ none_judged }
    {
        Judged {
            reads: 0,
            made: 0,
            unmade: 0,
            shown: 0,
            resets: 0,
        }
    }

    /// Whether neither an answer nor a shown word was judged: then a yes says nothing.
    pub(crate) fn is_nothing(&self) -> bool
        ensures { result ≡ is_nothing self.now }
    {
        self.reads == 0 && self.made == 0 && self.unmade == 0 && self.shown == 0
    }

    // A read more.
    fn take_read(&mut self)
        ensures { (n : ℕ) → n + 1 < 2 ^ 64 → IsWithin n self.old → self.new ≡ record self.old { reads = self.old.reads + 1 } }
    {
        self.reads = self.reads.saturating_add(1);
    }

    // A swap more, which was made or not.
    fn take_swap(&mut self, is_made: bool)
        ensures { (n : ℕ) → n + 1 < 2 ^ 64 → IsWithin n self.old → self.new ≡ swap_judged is_made self.old }
    {
        if is_made {
            self.made = self.made.saturating_add(1);
        } else {
            self.unmade = self.unmade.saturating_add(1);
        }
    }

    // A complete answer more at a watched register.
    fn take_complete(&mut self, asked: Asked, shown: Option<u32>)
        ensures { (q : Request) (n : ℕ) → AskedFor asked (Some q) → n + 1 < 2 ^ 64 → IsWithin n self.old
            → self.new ≡ (if is_some (watched_offset q.address) then operation_judged q.operation shown self.old else self.old) }
    {
        match asked {
            Asked::Read { address, .. } if watched_offset(address).is_some() => self.take_read(),
            Asked::Swap { address, swap, .. } if watched_offset(address).is_some() => {
                self.take_swap(shows(shown, swap.argument));
            },
            _ => {},
        }
    }

    /// An answer more.
    #[inline(always)]
    pub(crate) fn take_answer(&mut self, answer: &Answer)
        ensures { (q : Request) (r : Response) (n : ℕ) → AskedFor answer.now.asked (Some q) → answer.now.rcode ≡ r.rcode → answer.now.shown ≡ r.word
            → n + 1 < 2 ^ 64 → IsWithin n self.old → self.new ≡ answer_judged (Some q) r self.old }
    {
        if answer.rcode == 0 {
            self.take_complete(answer.asked, answer.shown);
        }
    }

    /// A bus reset more.
    pub(crate) fn take_reset(&mut self)
        ensures { (n : ℕ) → n + 1 < 2 ^ 64 → IsWithin n self.old → self.new ≡ record self.old { resets = self.old.resets + 1 } }
    {
        self.resets = self.resets.saturating_add(1);
    }

    // An entry more that is no answer.
    fn take_other(&mut self, entry: &Entry)
        ensures { (l : Account) (n : ℕ) → n + 1 < 2 ^ 64 → IsWithin n self.old → ShowsAnswer l (looked entry.now) None → self.new ≡ entry_judged l entry.now self.old }
    {
        match entry {
            Entry::Reset(_) => self.take_reset(),
            Entry::Shown(shown) if is_watched(u64::from(shown.offset)) => {
                self.shown = self.shown.saturating_add(1);
            },
            _ => {},
        }
    }

    /// An entry more, and the response that it is, if it is one of a procedure.
    pub(crate) fn take(&mut self, entry: &Entry, answer: Option<Answer>)
        ensures { (l : Account) (n : ℕ) → n + 1 < 2 ^ 64 → IsWithin n self.old → ShowsAnswer l (looked entry.now) answer → self.new ≡ entry_judged l entry.now self.old }
    {
        match answer {
            Some(answer) => self.take_answer(&answer),
            None => self.take_other(entry),
        }
    }
}
