//! How long an entry is, by its bytes.

ghost use Rattle.std.specs.Prelude.{ℕ, ◌≡◌, ◌≤◌, ◌++◌, [], List, length, IfSome, Some, None};
ghost use Rattle.fw_log_entry.specs.Log.{entry_bytes, TimedFits};
ghost use Rattle.fw_log_entry.specs.declared.entry.Timed.{Timed};
ghost use Rattle.fw_log_entry.specs.declared.version.Version.TheVariants.{Two};

use crate::write::HEAD;

/// How many bytes the first of entries of version 2 takes, and none if not all of them are there.
pub fn entry_size(log: &[u8]) -> Option<usize>
    ensures first { (epoch : ℕ) (t : Timed) (more : List ℕ) → TimedFits t → log.now ≡ entry_bytes Two epoch t ++ more → result ≡ Some (length (entry_bytes Two epoch t)) }
    ensures part { (epoch : ℕ) (t : Timed) (more : List ℕ) → TimedFits t → log.now ++ more ≡ entry_bytes Two epoch t → 1 ≤ length more → result ≡ None }
    ensures none { log.now ≡ [] → result ≡ None }
    ensures within { IfSome result (λ n. (16 ≤ n) × (n ≤ length log.now)) }
{
    if log.len() < HEAD {
        return None;
    }
    let quadlets = 256 * usize::from(log[2]) + usize::from(log[3]);
    let size = HEAD + 4 * quadlets;
    if log.len() < size { None } else { Some(size) }
}
