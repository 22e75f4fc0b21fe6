//! How many entries of a log were taken, and how many of them no audit judges.

ghost use Rattle.std.specs.Prelude.{◌≡◌, ◌+◌, ◌<◌, ◌^◌, ◌++◌, ◌∷◌, [], List, length};
ghost use Rattle.fw_log_entry.specs.declared.entry.Timed.{Timed};
ghost use Rattle.fw_audit.specs.Unjudged.{is_unjudged as is_such, Tallies};

/// How many entries were taken, and how many of them are locks that no audit judges.
#[derive(Clone, Copy)]
pub struct Tally {
    /// All entries.
    pub entries: u64,
    /// The lock requests among them at watched registers with another label than that of procedures.
    pub unjudged: u64,
}

impl Tally {
    /// Of no entries.
    pub fn nothing() -> Tally
        ensures { Tallies result [] }
    {
        Tally {
            entries: 0,
            unjudged: 0,
        }
    }

    /// Counts an entry more, which is a lock that no audit judges, or not.
    #[inline(always)]
    pub fn take(&mut self, is_unjudged: bool)
        ensures { (before : List Timed) (t : Timed) → length before + 1 < 2 ^ 64 → is_unjudged ≡ is_such t.what → Tallies self.old before → Tallies self.new (before ++ t ∷ []) }
    {
        self.entries = self.entries.saturating_add(1);
        self.unjudged = self.unjudged.saturating_add(u64::from(is_unjudged));
    }
}
