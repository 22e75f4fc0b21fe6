//! What follows for every log, each as the contract of a function that does nothing.

ghost use Rattle.std.specs.Prelude.{◌≡◌, ◌++◌, ℕ, List};
ghost use Rattle.fw_log_entry.specs.Log.{header_bytes, entries_bytes, LogOpens, LogSpells};
ghost use Rattle.fw_log_entry.specs.declared.entry.Timed.{Timed};
ghost use Rattle.fw_log_entry.specs.declared.version.Version.{Version};

/// Bytes are of one log, in one version. The entries of a log are one in the other version too, and a log that is written in the
/// other version and back again has its own bytes.
pub fn logs_have_both_versions()
    ensures one { (v w : Version) (entries others : List Timed) (bytes : List ℕ) → LogOpens entries v bytes → LogOpens others w bytes
        → (v ≡ w) × (entries ≡ others) }
    ensures opens { (v w : Version) (entries : List Timed) (bytes : List ℕ) → LogOpens entries w bytes → LogOpens entries v (header_bytes v ++ entries_bytes v 0 entries) }
    ensures both { (v w : Version) (entries : List Timed) (bytes : List ℕ) → LogSpells entries w bytes → LogSpells entries v (header_bytes v ++ entries_bytes v 0 entries) }
    ensures back { (v w : Version) (entries others : List Timed) (bytes out : List ℕ) → LogSpells entries w bytes
        → header_bytes v ++ entries_bytes v 0 entries ≡ out → LogSpells others v out → header_bytes w ++ entries_bytes w 0 others ≡ bytes }
{}
