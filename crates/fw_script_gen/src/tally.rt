//! What is counted of a log.

ghost use Rattle.std.specs.Prelude.{◌≡◌, ◌+◌, ◌^◌, ◌≤◌, ◌++◌, ◌∷◌, [], List, ℕ, length, IfOk, OnOk, MatchResult, string_bytes};
ghost use Rattle.std.specs.List.{All};
ghost use Rattle.fw_log_entry.specs.Log.{entry_bytes, entries_bytes, TimedFits};
ghost use Rattle.fw_log_entry.specs.declared.version.Version.TheVariants.{Two};
ghost use Rattle.fw_log_entry.specs.declared.entry.Timed.{Timed};
ghost use Rattle.fw_script_gen.specs.Summary.{number_line, summary_of, counted_outcome, counted_in, Counts};

use fw_log_entry::codes::{kind, outcome};
use fw_log_entry::entry_size;
use fw_words::quadlet_at;
use std::alloc::{AllocError, Global};

/// How many devices each script that a seed makes has.
const DEVICES: u64 = 60;

/// How many bytes of an entry of version 2 stand before its body.
const HEAD: usize = 16;

/// A count stands at 2^64 - 1, and one more is due.
#[derive(Clone, Copy)]
pub struct CountFull;

/// What an entry is to a tally.
#[derive(Clone, Copy)]
pub enum Counted {
    /// A bus reset.
    Reset,
    /// The outcome of a connection that was made.
    Connected,
    /// The outcome of a connection that was restored.
    Restored,
    /// Another outcome.
    Refused,
    /// A word that was shown.
    Shown(u32),
    /// None of these.
    Nothing,
}

// What is counted of an outcome, by its code.
fn counted_outcome(code: u8) -> Counted
    ensures { result ≡ counted_outcome code }
{
    match code {
        outcome::CONNECTED => Counted::Connected,
        outcome::RESTORED => Counted::Restored,
        _ => Counted::Refused,
    }
}

// What is counted of an entry.
fn counted_in(entry: &[u8]) -> Counted
    requires { 16 ≤ length entry.now }
    ensures { (epoch : ℕ) (t : Timed) → TimedFits t → entry.now ≡ entry_bytes Two epoch t → result ≡ counted_in t.what }
{
    match entry[0] {
        kind::RESET => Counted::Reset,
        kind::OUTCOME if entry.len() > HEAD => counted_outcome(entry[HEAD]),
        kind::SHOWN if entry.len() >= HEAD + 8 => Counted::Shown(quadlet_at(entry, HEAD + 4).0),
        _ => Counted::Nothing,
    }
}

fn one_more(count: u64) -> Result<u64, CountFull>
    ensures { MatchResult result (λ n. n ≡ count + 1) (λ e. count + 1 ≡ 2 ^ 64) }
{
    count.checked_add(1).ok_or(CountFull)
}

/// Counts the entries of a log.
#[derive(Clone, Copy)]
pub struct Tally {
    resets: u64,
    connected: u64,
    restored: u64,
    refused: u64,
    remainder: u32,
}

impl Tally {
    /// The counts of no entries.
    pub fn new() -> Tally
        ensures { Counts [] result }
    {
        Tally {
            resets: 0,
            connected: 0,
            restored: 0,
            refused: 0,
            remainder: 0,
        }
    }

    // The counts with one entry more.
    fn with(self, counted: Counted) -> Result<Tally, CountFull>
        ensures { (log : List Timed) (t : Timed) → counted ≡ counted_in t.what → Counts log self
            → MatchResult result (λ n. Counts (log ++ t ∷ []) n) (λ e. 2 ^ 64 ≤ length log + 1) }
    {
        let mut more = self;
        match counted {
            Counted::Reset => more.resets = one_more(self.resets)?,
            Counted::Connected => more.connected = one_more(self.connected)?,
            Counted::Restored => more.restored = one_more(self.restored)?,
            Counted::Refused => more.refused = one_more(self.refused)?,
            Counted::Shown(word) => more.remainder = word,
            Counted::Nothing => {}
        }
        Ok(more)
    }

    /// Counts the entries whose bytes these are, of version 2, whatever the epoch before them. An error comes only if a count passes 2^64 - 1.
    pub fn take(&mut self, bytes: &[u8]) -> Result<(), CountFull>
        ensures { (epoch : ℕ) (log more : List Timed) → All TimedFits more → bytes.now ≡ entries_bytes Two epoch more → Counts log self.old
            → MatchResult result (λ u. Counts (log ++ more) self.new) (λ e. 2 ^ 64 ≤ length (log ++ more)) }
    {
        let mut rest = bytes;
        while let Some(size) = entry_size(rest) {
            let (entry, following) = rest.split_at(size);
            *self = self.with(counted_in(entry))?;
            rest = following;
        }
        Ok(())
    }

    /// The summary of the entries that were counted. An error says that memory ran out, and comes for nothing else.
    pub fn summary(&self, alloc: Global) -> Result<String, AllocError>
        ensures { (log : List Timed) → Counts log self.now → IfOk result (λ s. string_bytes s ≡ summary_of log) }
    {
        let mut text = String::new(alloc);
        put_line(&mut text, "devices", DEVICES)?;
        put_line(&mut text, "resets", self.resets)?;
        put_line(&mut text, "connected", self.connected)?;
        put_line(&mut text, "restored", self.restored)?;
        put_line(&mut text, "refused", self.refused)?;
        put_line(&mut text, "remainder", u64::from(self.remainder))?;
        Ok(text)
    }
}

fn put_line(text: &mut String, name: &str, number: u64) -> Result<(), AllocError>
    ensures { OnOk result (string_bytes text.new ≡ string_bytes text.old ++ number_line name.now number) }
{
    write!(text, "{name} {number}\n")
}
